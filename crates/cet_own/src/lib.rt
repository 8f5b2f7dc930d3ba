//! Who owns which shadow stack, in every run of the machine.
#![tactic(auto)]

mod access_classes;
mod laws;
#[cfg(test)]
mod tests;

pub use access_classes::{Class, class_of};
pub use laws::{
    births_are_told, every_gate_is_exact, every_last_book_stands, every_restore_is_exact,
    every_run_counts_low, every_run_draws_numbers, every_run_ends_right, every_run_is_covered,
    every_run_is_legal, every_run_is_named, every_run_is_numbered, every_run_is_reached,
    every_run_is_safe, every_run_raises, every_run_stands, every_run_switches, every_turn_stands,
};
