//! The decoder: from bytes to an instruction.
#![tactic(auto)]

mod addressing;
mod decoder;
mod fields;
mod forms;
mod index;
mod kinds;
mod leads;
mod maps;
mod meaning;
mod reading;
#[cfg(test)]
mod tests;

pub use decoder::{Decoded, decode, instruction_length};
