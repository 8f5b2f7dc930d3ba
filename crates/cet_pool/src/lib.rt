//! Workers that drive guest threads to their ends on one table of words, and the outcome of such a run.
#![tactic(auto)]

mod drives;
mod finishes;
mod lives;
mod rounds;
mod workers;

pub use drives::{Gathered, Ssps, drive_rounds};
pub use finishes::{Ran, finish};

#[cfg(test)]
mod tests;
