//! Assembler texts for guests: the runtime, and a program that makes work with it.
#![tactic(auto)]

mod bench;
mod runtime;
#[cfg(test)]
mod tests;

pub use bench::bench_text;
pub use runtime::runtime_text;
