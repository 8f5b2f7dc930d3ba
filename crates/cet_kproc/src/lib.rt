//! Services of the kernel for processes and threads: write, sched_yield, clone, exit, arch_prctl, gettid and
//! exit_group.
//!
//! Each is a script of accesses in the `specs/` of cet_page, without the kernel's entry round it. The
//! functions here run such a script over the answers that a thread has kept.
#![tactic(auto)]

mod clones;
mod exits;
mod features;
mod services;
#[cfg(test)]
mod tests;
mod writes;

pub use services::{follow, next, serves};
