//! ELF files: the loader, with the rules by which it refuses a file, and the writer of a program's file.
#![tactic(auto)]

mod headers;
mod loads;
mod notes;
mod rules;
#[cfg(test)]
mod tests;
mod written;

pub use loads::{LoadFault, load};
pub use written::write;
