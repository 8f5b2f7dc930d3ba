//! Supervisor shadow stacks: the kernel's entry by them, which is the gate, and the user's SETSSBSY and
//! CLRSSBSY.
//!
//! The gate's way in makes the token of the processor's supervisor stack busy, and its way out makes it
//! free again. Both are scripts of accesses in the `specs/` of cet_page.
#![tactic(auto)]

mod gates;
mod laws;
mod parts;
#[cfg(test)]
mod tests;

pub use gates::{busy_record, gate_in, gate_out, stack_of};
pub use laws::a_held_stack_is_told;
pub use parts::{Part, next};
