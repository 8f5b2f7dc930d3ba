//! Pages and their check, operands and status flags, the fetch, the values read in a row, and the parts that
//! rows are made of.
//!
//! What a thread does is written as a script of accesses for each instruction, kernel call and
//! delivery (`specs/`). The crates above run such a script over the answers that the thread has kept
//! since its last record.
#![tactic(auto)]

mod actions;
mod checks;
mod cursors;
mod draws;
mod families;
mod fetches;
mod finishes;
mod flags;
mod laws;
mod nexts;
mod operands;
mod services;
#[cfg(test)]
mod tests;
mod tokens;
mod vals;

pub use actions::{Action, FramePlaces};
pub use checks::{Kind, Who, check, index_of, page_fault};
pub use cursors::{Cursor, Mark, Suspended, general_protection, invalid_opcode, word_in};
pub use draws::can_draw;
pub use families::{Family, family_of};
pub use fetches::{fetch, missing, next_address};
pub use finishes::{Finish, Leaving, counted};
pub use flags::{Computed, StatusFlags};
pub use laws::{accesses_run_out, numbers_stay, parts_are_in_their_rows};
pub use nexts::Next;
pub use operands::{
    assign, compare, effective, register, register_of, set_register, settle, step, step_with,
    truncated,
};
pub use services::{Errno, SYSCALL_LENGTH, failed, serve, served, sys_record};
pub use tokens::{
    frame_ssp, frame_word, is_frame_word, is_previous_token, previous_ssp, previous_token,
    restore_token, restore_token_at, saved_at,
};
pub use vals::Vals;
