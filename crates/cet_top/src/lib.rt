//! What the program `cetvm` does, over a source of bytes and a sink of bytes.
#![tactic(auto)]

mod answers;
mod assembling;
mod commands;
mod laws;
mod listing;
#[cfg(test)]
mod program_tests;
mod programs;
mod runs;
mod serve;
mod status;
#[cfg(test)]
mod tests;
#[cfg(test)]
mod thread_tests;
mod threads;
mod transfers;

pub use laws::answers_are_one;
pub use programs::{plain, smp};
pub use status::Status;
