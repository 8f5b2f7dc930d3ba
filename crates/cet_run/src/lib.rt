//! Runs of a job by a stated schedule, and what they come to.
#![tactic(auto)]

mod ends;
mod guests;
mod laws;
mod outcomes;
mod runs;
#[cfg(test)]
mod tests;
mod told_stacks;
mod traced_threads;
mod turns;

pub use laws::{schedules_are_complete, schedules_are_one};
pub use outcomes::{Outcome, ProcessEnd, Records, ThreadOut, ThreadOuts};
pub use runs::{mix, outcome_of, replay, robin};
