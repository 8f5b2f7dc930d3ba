//! The words at the start.

ghost use Rattle.std.specs.Prelude.{◌≡◌, ℕ, ◌+◌, ◌-◌, ◌*◌, ◌<◌, ◌≤◌, ◌^◌, find, slice_index, Some, []};
ghost use Rattle.std.specs.Vec.{vec_capacity};
ghost use Rattle.cet_words.specs.Layout.{image_start, first_stack_page, first_stack_word, first_kernel_word, first_entry_word, page_count, word_count};
ghost use Rattle.cet_words.specs.Job.{covers};
ghost use Rattle.cet_words.specs.Bytes.{segment_byte};
ghost use Rattle.cet_words.specs.Start.{covered_byte, word_of_bytes, image_word, kernel_word, start_entry, start_word};
ghost use Rattle.cet_words.specs.Fill.{FilledFrom};

use crate::bytes::segment_byte;
use crate::entries::{present, segment_at};
use crate::held::set_held;
use crate::images::{Image, Segment};
use crate::places::{
    FIRST_ENTRY_WORD, FIRST_KERNEL_PAGE, FIRST_KERNEL_WORD, FIRST_MMAP_PAGE, FIRST_SHADOW_PAGE,
    IMAGE_START, KERNEL_START, PAGE_COUNT, WORD_COUNT,
};

/// The first page of thread 0's shadow stack, and the one past its eight pages.
const FIRST_REGION_PAGE: u32 = FIRST_SHADOW_PAGE + 1;

const PAST_REGION_PAGE: u32 = FIRST_REGION_PAGE + 8;

/// The number of the kernel pages' words.
const KERNEL_WORDS: u32 = FIRST_ENTRY_WORD - FIRST_KERNEL_WORD;

/// The little-endian number of the eight bytes of a segment from an address on.
#[tactic(auto, unfolding(crate::specs::Start::word_of_bytes))]
fn segment_word(segment: &Segment, addr: u64) -> u64
    requires { addr < 2 ^ 32 }
    ensures { result ≡ word_of_bytes (covered_byte (Some segment.now)) addr }
{
    u64::from_le_bytes([
        segment_byte(segment, addr),
        segment_byte(segment, addr + 1),
        segment_byte(segment, addr + 2),
        segment_byte(segment, addr + 3),
        segment_byte(segment, addr + 4),
        segment_byte(segment, addr + 5),
        segment_byte(segment, addr + 6),
        segment_byte(segment, addr + 7),
    ])
}

/// Writes the words of an image page that a segment covers.
fn write_page(words: &mut Vec<u64>, segment: &Segment, page: usize)
    requires page { page < first_stack_page }
    requires room { first_stack_word ≤ vec_capacity words.old }
    ensures filled { FilledFrom (512 * page) (512 * page + 512) (λ w. word_of_bytes (covered_byte (Some segment.now)) (image_start + 8 * w)) words.old.items words.new.items }
    ensures room { vec_capacity words.old ≤ vec_capacity words.new }
{
    for word in 512 * page..512 * page + 512 {
        set_held(
            words,
            word,
            segment_word(segment, IMAGE_START + 8 * word as u64),
        );
    }
}

/// Writes the words of one image page, which are 0 before.
#[tactic(auto, unfolding(crate::specs::Start::image_word))]
fn load_page(words: &mut Vec<u64>, image: &Image, page: usize)
    requires page { page < first_stack_page }
    requires room { first_stack_word ≤ vec_capacity words.old }
    requires zero { (w : ℕ) → 512 * page ≤ w → slice_index words.old.items w ≡ 0 }
    ensures filled { FilledFrom (512 * page) (512 * page + 512) (image_word image.now.segments) words.old.items words.new.items }
    ensures room { vec_capacity words.old ≤ vec_capacity words.new }
{
    if let Some(segment) = segment_at(image, 1024 + page as u64) {
        write_page(words, segment, page);
    }
}

/// Writes the words of the image's pages, where none is held yet.
pub(crate) fn write_image(words: &mut Vec<u64>, image: &Image)
    requires none { words.old.items ≡ [] }
    requires room { first_stack_word ≤ vec_capacity words.old }
    ensures filled { FilledFrom 0 first_stack_word (image_word image.now.segments) [] words.new.items }
    ensures room { vec_capacity words.old ≤ vec_capacity words.new }
{
    for page in 0..1024 {
        load_page(words, image, page);
    }
}

/// A word of the kernel pages by its index.
#[tactic(auto, unfolding(crate::specs::Start::kernel_word))]
fn kernel_word(index: u32) -> u64
    requires { index < first_entry_word - first_kernel_word }
    ensures { result ≡ kernel_word index }
{
    match index {
        1 => 1,
        2 => 9,
        _ if index > 511 && index % 1024 == 511 => KERNEL_START + 8 * u64::from(index),
        _ => 0,
    }
}

fn write_kernel_pages(words: &mut Vec<u64>)
    requires none { words.old.items ≡ [] }
    requires room { word_count - first_kernel_word ≤ vec_capacity words.old }
    ensures filled { FilledFrom 0 (first_entry_word - first_kernel_word) kernel_word [] words.new.items }
    ensures room { vec_capacity words.old ≤ vec_capacity words.new }
{
    for index in 0..KERNEL_WORDS {
        set_held(words, index as usize, kernel_word(index));
    }
}

/// A page's entry at the start.
#[tactic(auto, unfolding(crate::specs::Start::start_entry))]
fn start_entry(image: &Image, page: u32) -> u64
    requires { page < page_count }
    ensures { result ≡ start_entry image.now page }
{
    match page {
        0..FIRST_MMAP_PAGE | FIRST_REGION_PAGE..PAST_REGION_PAGE | FIRST_KERNEL_PAGE.. => present(
            image, page,
        ),
        _ => 0,
    }
}

fn write_entries(words: &mut Vec<u64>, image: &Image)
    requires { word_count - first_kernel_word ≤ vec_capacity words.old }
    ensures filled { FilledFrom (first_entry_word - first_kernel_word) (word_count - first_kernel_word) (λ w. start_entry image.now (w - (first_entry_word - first_kernel_word))) words.old.items words.new.items }
    ensures room { vec_capacity words.old ≤ vec_capacity words.new }
{
    for page in 0..PAGE_COUNT {
        set_held(
            words,
            (KERNEL_WORDS + page) as usize,
            start_entry(image, page),
        );
    }
}

/// Writes the words of the kernel pages and the page entries, where none is held yet.
pub(crate) fn write_kernel(words: &mut Vec<u64>, image: &Image)
    requires none { words.old.items ≡ [] }
    requires room { word_count - first_kernel_word ≤ vec_capacity words.old }
    ensures filled { (w : ℕ) → w < word_count - first_kernel_word → slice_index words.new.items w ≡ start_word image.now (first_kernel_word + w) }
    ensures room { vec_capacity words.old ≤ vec_capacity words.new }
{
    write_kernel_pages(words);
    write_entries(words, image);
}
