//! How a shadow stack is reported.

use cet_words::{Items, Words};

/// The addresses of a shadow stack, from `start` up to `end`.
#[derive(Clone, Copy, Debug, PartialEq, Eq)]
pub struct Region {
    pub start: u64,
    pub end: u64,
}

/// The state in which a shadow stack is shown.
#[derive(Clone, Copy, Debug, PartialEq, Eq)]
pub enum Shown {
    /// The thread of this number is on it.
    Current(u8),
    /// It has a restore token.
    Parked,
    /// It was left for a stack that is shown with its entries.
    Left,
    /// Nothing shown leads to it: it has no entries here.
    Lost,
}

/// A shadow stack with the words of its entries, the newest first.
#[derive(Debug, Drop)]
pub struct StackReport {
    pub region: Region,
    pub shown: Shown,
    pub words: Words,
}

/// The shadow stacks of a report.
pub type StackReports = Items<StackReport>;
