//! Instructions as bytes and as text.
#![tactic(auto)]

mod bytes;
mod coding;
mod encoder;
mod operands;
mod spelling;
mod syntax;

pub use encoder::encode;
pub use syntax::text;
