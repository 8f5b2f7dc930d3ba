//! The syntax of the assembler: from a text to its lines, and from a line to its labels and what it states.
#![tactic(auto)]

mod addresses;
mod classes;
mod instructions;
mod lines;
mod lists;
mod mnemonics;
mod names;
mod operands;
mod places;
mod rules;
mod splitting;
mod statements;
mod tokens;

pub use classes::Class;
pub use instructions::Fixups;
pub use lines::{Line, next_label, read_line};
pub use lists::{next_byte, next_quad};
pub use mnemonics::Mnemonic;
pub use places::Item;
pub use rules::Rule;
pub use splitting::first_line;
pub use statements::Statement;
