//! The assembler: from a text to the bytes of a program.
#![tactic(auto)]

mod assembler;
mod checks;
mod emission;
mod filling;
mod first_pass;
mod labels;
mod layout;
mod program;
mod second_pass;
mod sections;
mod sizes;
#[cfg(test)]
mod tests;

pub use assembler::assemble;
pub use layout::TEXT_START;
pub use program::{AsmFault, Program};
pub use sections::Section;
