//! Moves, arithmetic, tests, shifts and locked operations.
//!
//! What an instruction does is written as a script of accesses (the `specs/` of cet_page). The
//! functions here run such a script over the answers that the thread has kept since its last record.
#![tactic(auto)]

mod locked;
mod moves;
mod operations;
mod rows;
#[cfg(test)]
mod tests;
mod values;

pub use rows::{follow, next};
