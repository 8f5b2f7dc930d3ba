//! The words of the machine: where they lie, what they hold at the start, and one access on them.
//!
//! A machine has 1,618,002 words of 64 bits: the words of 3,154 pages of 4,096 bytes, and after them
//! one page entry for each page. One event of the machine is one access to one word.
#![tactic(auto)]

mod accesses;
mod bytes;
mod entries;
mod held;
mod images;
mod lists;
mod memory;
mod places;
mod start;

pub use accesses::{Access, Perform};
pub use bytes::{code_byte, segment_byte};
pub use entries::{data_entry, present, segment_at, shadow_entry};
pub use images::{Image, Job, Segment, Segments, Signal, Signals};
pub use lists::{Bytes, Items, NoMemory, Words};
pub use memory::Plain;
pub use places::{
    AREA_PAGES, DRAW_MMAP_WORD, DRAW_SHADOW_WORD, EXIT_WORD, FIRST_ENTRY_WORD, FIRST_KERNEL_PAGE,
    FIRST_KERNEL_WORD, FIRST_MMAP_PAGE, FIRST_REGION_END, FIRST_REGION_START, FIRST_SHADOW_PAGE,
    FIRST_SHADOW_WORD, FIRST_STACK_PAGE, FIRST_STACK_WORD, IMAGE_END, IMAGE_START, KERNEL_END,
    KERNEL_RETURN, KERNEL_START, LAST_AREA_PAGE, LAST_REGION_END, MMAP_END, MMAP_START,
    MOST_STACK_PAGES, NEXT_THREAD_WORD, PAGE_COUNT, SHADOW_END, SHADOW_START, STACK_END,
    STACK_START, THREAD_LIMIT, THREAD_REGION_SIZE, WORD_COUNT, action_word, page_of, page_up,
    pages_of, pend_word, token, token_page, token_word, word_of,
};

#[cfg(test)]
mod tests;
