//! Services of the kernel on signals, and the delivery of a pending signal and of a due fault.
//!
//! Each is a script of accesses in the `specs/` of cet_page, without the kernel's entry round it. The
//! functions here run such a script over the answers that a thread has kept.
#![tactic(auto)]

mod actions;
mod deliveries;
mod frames;
mod kills;
mod masks;
mod posts;
mod returns;
mod services;
mod structures;
#[cfg(test)]
mod tests;

pub use deliveries::{fault_delivery, pending_delivery};
pub use posts::signal_bit;
pub use services::{Work, follow, next, serves};
