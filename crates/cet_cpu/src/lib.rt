//! One thread of the machine, access by access.
//!
//! What a thread does is written as a script of accesses for each instruction, kernel call and
//! delivery (the `specs/` of cet_page). The functions here run such a script over the answers that the
//! thread has kept since its last record.
#![tactic(auto)]

mod fetches;
mod kernel;
mod openings;
mod rows;
mod signals;
mod threads;

pub use cet_isa::End;
pub use threads::{Cpu, Taken, first};

#[cfg(test)]
mod tests;
