//! Programs, and why a text has none.

ghost use Rattle.std.specs.Prelude.{◌≡◌};

use cet_words::{Bytes, NoMemory};

/// A program: the bytes of its text, which starts at `TEXT_START`, those of its data, the address at which it starts,
/// and its mark, of which bit 1 asks for shadow stacks and bit 0 for branch tracking.
#[derive(Debug, Drop)]
pub struct Program {
    pub text: Bytes,
    pub static_data: Bytes,
    pub entry: u64,
    pub mark: u8,
}

/// The first line that breaks a rule, counted from 1, and the first rule that it breaks, or no memory is left.
#[derive(Clone, Copy, Debug, PartialEq, Eq)]
pub enum AsmFault {
    At { line: u32, rule: u8 },
    NoMemory,
}
