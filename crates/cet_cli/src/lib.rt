//! The words of a command: which lists of words are one, what they mean, and the first faulty word of others.
#![tactic(auto)]

mod calls;
mod grammar;
mod help;
mod laws;
mod limits;
mod options;
mod parts;
mod reader;
mod signals;
#[cfg(test)]
mod tests;
mod turns;
mod values;
mod words;

pub use calls::{is_smp, read_plain, read_smp};
pub use help::help_text;
pub use laws::tables_are_read;
pub use options::{Plan, Settings};
pub use turns::Turns;
pub use words::{CliFault, Command, read_words};
