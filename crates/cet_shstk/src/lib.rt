//! The user's instructions on shadow stacks: INCSSPQ, RDSSPQ, RSTORSSP, SAVEPREVSSP, WRSSQ and WRUSSQ.
//!
//! Each is a script of accesses in the `specs/` of cet_page. The functions here run such a script over
//! the answers that a thread has kept.
#![tactic(auto)]

mod increments;
mod restores;
mod rows;
mod saves;
#[cfg(test)]
mod tests;

pub use rows::{follow, next};
