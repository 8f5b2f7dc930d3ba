//! What is written of a run that has ended: its report, and the line of `bench`.
#![tactic(auto)]

mod digits;
mod lines;
mod records;
mod reports;
mod summaries;
#[cfg(test)]
mod tests;

pub use cet_base::Style;
pub use reports::report;
pub use summaries::summary;
