//! How much of an outcome is reported.

/// How much of each thread is reported: all records, or the last one alone.
#[derive(Clone, Copy, Debug, PartialEq, Eq)]
pub enum Style {
    Full,
    Last,
}
