//! The book of shadow stacks: which thread has which stack, and what is on it, without any word of memory; and the report
//! of the stacks, which is read from words alone.
#![tactic(auto)]

mod books;
mod copies;
mod entries;
mod events;
mod gates;
mod marks;
mod pages;
mod regions;
mod reports;
mod stacks;
mod steps;
#[cfg(test)]
mod tests;

pub use books::Book;
pub use entries::{Entry, Holder};
pub use events::{BookFault, Event};
pub use regions::{Region, Shown, StackReport, StackReports};
pub use reports::report_of_words;
