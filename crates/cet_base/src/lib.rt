//! Numbers as text and as little-endian fields, and how much of a report is written.
#![tactic(auto)]

mod fields;
mod read;
mod styles;
#[cfg(test)]
mod tests;
mod write;

pub use fields::{get_u16, get_u32, get_u64};
pub use read::read_u64;
pub use styles::Style;
pub use write::{hex2, hex16, put_decimal, put_hex};
