//! The words of a machine in memory.

ghost use Rattle.std.specs.Prelude.{◌≡◌, ◌-◌, ◌<◌, ◌≤◌, ℕ, List, [], IfOk, length, slice_index, slice_set};
ghost use Rattle.std.specs.Vec.{vec_capacity};
ghost use Rattle.cet_words.specs.Layout.{first_stack_word, first_shadow_word, first_kernel_word, word_count};
ghost use Rattle.cet_words.specs.Fill.{FilledFrom};
ghost use Rattle.cet_words.specs.Held.{held_words};
ghost use Rattle.cet_words.specs.Start.{IsStart};

use crate::accesses::{Access, Perform};
use crate::held::{append_held, clear_held, held_word, set_held};
use crate::images::Image;
use crate::lists::NoMemory;
use crate::places::{
    FIRST_ENTRY_WORD, FIRST_KERNEL_WORD, FIRST_SHADOW_WORD, FIRST_STACK_WORD, WORD_COUNT,
};
use crate::start::{write_image, write_kernel};
use std::alloc::Global;
use std::marker::Model;

/// The words of a machine that one thread of the program works on. Each range of words is held up to
/// the last word that was stored, so pages that are never stored to cost nothing.
#[derive(Drop)]
pub struct Plain {
    image: Vec<u64>,
    /// The main stack and the mmap area.
    stack: Vec<u64>,
    shadow: Vec<u64>,
    /// The kernel pages and the page entries.
    kernel: Vec<u64>,
}

impl Model for Plain {
    ghost Value = { List ℕ };

    ghost view = { λ p. held_words p.image.items p.stack.items p.shadow.items p.kernel.items };

    ghost invariant = { λ p.
        (first_stack_word ≤ vec_capacity p.image)
        × (first_shadow_word - first_stack_word ≤ vec_capacity p.stack)
        × (first_kernel_word - first_shadow_word ≤ vec_capacity p.shadow)
        × (word_count - first_kernel_word ≤ vec_capacity p.kernel) };
}

/// Room for so many words.
fn room(alloc: Global, count: u32) -> Result<Vec<u64>, NoMemory>
    ensures none { IfOk result (λ words. words.items ≡ []) }
    ensures room { IfOk result (λ words. count ≤ vec_capacity words) }
{
    Ok(Vec::with_capacity(alloc, count as usize)?)
}

/// Has the words of a range, which begins at `first`, be 0 from the number `low` up to `high`.
fn clear_range(words: &mut Vec<u64>, first: u32, low: u32, high: u32)
    ensures clear { FilledFrom (low - first) (high - first) (λ w. 0) words.old.items words.new.items }
    ensures room { vec_capacity words.old ≤ vec_capacity words.new }
{
    let from = low.saturating_sub(first);
    let to = high.saturating_sub(first);
    clear_held(words, from as usize, to as usize);
}

impl Plain {
    /// The words at the start: the image's bytes, the kernel's words and the entries of the pages that
    /// are present. It takes room for all words, about 13 MB.
    pub fn new(alloc: Global, image: &Image) -> Result<Plain, NoMemory>
        ensures { IfOk result (IsStart image.now) }
    {
        let mut pages = room(alloc, FIRST_STACK_WORD)?;
        write_image(&mut pages, image);
        let mut kernel = room(alloc, WORD_COUNT - FIRST_KERNEL_WORD)?;
        write_kernel(&mut kernel, image);
        Ok(Plain {
            image: pages,
            stack: room(alloc, FIRST_SHADOW_WORD - FIRST_STACK_WORD)?,
            shadow: room(alloc, FIRST_KERNEL_WORD - FIRST_SHADOW_WORD)?,
            kernel,
        })
    }

    /// The number of its words, which is that of the machine's.
    #[tactic(auto, using(crate::proofs::HeldLaws::all_held))]
    pub fn count(&self) -> u32
        ensures all { result ≡ word_count }
        ensures here { length self.now ≡ word_count }
    {
        let _image = &self.image;
        WORD_COUNT
    }

    /// All words, in the order of their numbers.
    pub fn to_words(&self, alloc: Global) -> Result<Vec<u64>, NoMemory>
        ensures { IfOk result (λ words. words.items ≡ self.now) }
    {
        let mut words = room(alloc, WORD_COUNT)?;
        append_held(&mut words, &self.image, FIRST_STACK_WORD as usize)?;
        append_held(&mut words, &self.stack, FIRST_SHADOW_WORD as usize)?;
        append_held(&mut words, &self.shadow, FIRST_KERNEL_WORD as usize)?;
        append_held(&mut words, &self.kernel, WORD_COUNT as usize)?;
        Ok(words)
    }

    /// Has a word be this value. Where it is so already nothing is stored, so a word that is not held
    /// costs nothing at 0.
    pub fn put(&mut self, word: u32, value: u64)
        requires { word < word_count }
        ensures { self.new ≡ slice_set self.old word value }
    {
        if self.get(word) != value {
            self.set(word, value);
        }
    }

    /// Has the words from `low` up to `high` be 0. Those that are not held cost nothing.
    pub fn clear(&mut self, low: u32, high: u32)
        requires { high ≤ word_count }
        ensures words { FilledFrom low high (λ w. 0) self.old self.new }
        ensures count { length self.new ≡ word_count }
    {
        clear_range(&mut self.image, 0, low, high);
        clear_range(&mut self.stack, FIRST_STACK_WORD, low, high);
        clear_range(&mut self.shadow, FIRST_SHADOW_WORD, low, high);
        clear_range(&mut self.kernel, FIRST_KERNEL_WORD, low, high);
    }

    /// The word of a number. Most accesses load one of the kernel's words or an entry of a page.
    #[tactic(auto, using(crate::proofs::HeldLaws::held_at))]
    fn get(&self, word: u32) -> u64
        requires { word < word_count }
        ensures { result ≡ slice_index self.now word }
    {
        if word >= FIRST_KERNEL_WORD {
            held_word(&self.kernel, (word - FIRST_KERNEL_WORD) as usize)
        } else if word < FIRST_STACK_WORD {
            held_word(&self.image, word as usize)
        } else if word < FIRST_SHADOW_WORD {
            held_word(&self.stack, (word - FIRST_STACK_WORD) as usize)
        } else {
            held_word(&self.shadow, (word - FIRST_SHADOW_WORD) as usize)
        }
    }

    /// Stores a word by its number.
    fn set(&mut self, word: u32, value: u64)
        requires { word < word_count }
        ensures { self.new ≡ slice_set self.old word value }
    {
        if word < FIRST_STACK_WORD {
            set_held(&mut self.image, word as usize, value);
        } else if word < FIRST_SHADOW_WORD {
            set_held(&mut self.stack, (word - FIRST_STACK_WORD) as usize, value);
        } else if word < FIRST_KERNEL_WORD {
            set_held(&mut self.shadow, (word - FIRST_SHADOW_WORD) as usize, value);
        } else {
            set_held(&mut self.kernel, (word - FIRST_KERNEL_WORD) as usize, value);
        }
    }
}

impl Perform for Plain {
    ghost words = { λ p. p };

    #[inline(always)]
    fn perform(&mut self, access: Access) -> u64 {
        match access {
            Access::Look(page) => self.get(FIRST_ENTRY_WORD + page),
            Access::Load(word) => self.get(word),
            Access::Store(word, value) => {
                self.set(word, value);
                0
            }
            Access::Swap(word, value) => {
                let old = self.get(word);
                self.set(word, value);
                old
            }
            Access::FetchAdd(word, value) => {
                let old = self.get(word);
                self.set(word, old.wrapping_add(value));
                old
            }
            Access::FetchOr(word, value) => {
                let old = self.get(word);
                self.set(word, old | value);
                old
            }
            Access::FetchAnd(word, value) => {
                let old = self.get(word);
                self.set(word, old & value);
                old
            }
            Access::CompareExchange(word, expected, value) => {
                let old = self.get(word);
                if old == expected {
                    self.set(word, value);
                }
                old
            }
        }
    }
}
