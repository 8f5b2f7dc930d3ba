//! Guest threads on one table of words, which real threads step on side by side.
//!
//! A pass is a seat at the table with its guest thread. Each access of that thread is one atomic step, and
//! between any two steps some schedule of the machine explains all words and all threads (`specs/Rule.antt`).
#![tactic(auto)]

mod passes;
mod rules;
mod starts;
mod tables;
mod turnstiles;

pub use passes::Pass;
pub use tables::Shared;
pub use turnstiles::{Open, Turnstile};

#[cfg(test)]
mod tests;
