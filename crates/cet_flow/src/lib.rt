//! Calls, returns, pushes, pops and jumps.
//!
//! Each is a script of accesses in the `specs/` of cet_page. The functions here run such a script over
//! the answers that a thread has kept.
#![tactic(auto)]

mod calls;
mod jumps;
mod returns;
mod rows;
mod stacks;
#[cfg(test)]
mod tests;

pub use rows::{follow, next};
