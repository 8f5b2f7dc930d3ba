//! Services of the kernel on memory: mmap, munmap and map_shadow_stack.
//!
//! Each is a script of accesses in the `specs/` of cet_page, without the kernel's entry round it. The
//! functions here run such a script over the answers that a thread has kept.
#![tactic(auto)]

mod mappings;
mod services;
mod shadow_stacks;
#[cfg(test)]
mod tests;

pub use services::{follow, next};
