//! The outside: what bytes are read from and written to, in memory and over std's readers and writers.
#![tactic(auto)]

mod memory_streams;
mod std_streams;
mod streams;
#[cfg(test)]
mod tests;

pub use memory_streams::{MemSink, MemSource, SureSink, SureSource};
pub use std_streams::{StdSink, StdSource};
pub use streams::{Failed, Sink, Source};
