//! The text of an instruction, as `text` of cet_encode writes it, is what the assembler reads back.
#![tactic(auto)]

mod laws;

pub use laws::text_is_read_back;
