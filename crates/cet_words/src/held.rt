//! The words of one range of addresses, held from its first word up to the last that was stored. Those behind are 0.

ghost use Rattle.std.specs.Prelude.{◌≡◌, ◌-◌, ◌<◌, ◌≤◌, OnOk, slice_index};
ghost use Rattle.std.specs.Vec.{vec_capacity, vec_len};
ghost use Rattle.cet_words.specs.Fill.{FilledFrom, SameWords, WordSet};

use crate::lists::NoMemory;

/// The word at a place of the range.
pub(crate) fn held_word(words: &[u64], at: usize) -> u64
    ensures { result ≡ slice_index words.now at }
{
    words.get(at).copied().unwrap_or(0)
}

/// Holds the words up to a place, within the room that was taken for the range.
pub(crate) fn hold(words: &mut Vec<u64>, count: usize)
    requires { count ≤ vec_capacity words.old }
    ensures same { SameWords words.old.items words.new.items }
    ensures held { count ≤ vec_len words.new }
    ensures least { vec_len words.old ≤ vec_len words.new }
    ensures room { vec_capacity words.old ≤ vec_capacity words.new }
{
    if words.len() < count {
        let grown = words.resize(count, 0);
        prove!(grown.is_ok());
    }
}

/// Stores a word at a place of the range, within the room that was taken for it.
pub(crate) fn set_held(words: &mut Vec<u64>, at: usize, value: u64)
    requires { at < vec_capacity words.old }
    ensures set { WordSet at value words.old.items words.new.items }
    ensures room { vec_capacity words.old ≤ vec_capacity words.new }
{
    hold(words, at + 1);
    words[at] = value;
}

/// Stores 0 from a place of the range up to another. The words that are not held are 0 as they are.
pub(crate) fn clear_held(words: &mut Vec<u64>, low: usize, high: usize)
    ensures clear { FilledFrom low high (λ w. 0) words.old.items words.new.items }
    ensures room { vec_capacity words.old ≤ vec_capacity words.new }
{
    let end = high.min(words.len());
    for at in low.min(end)..end {
        words[at] = 0;
    }
}

/// Appends all words of a range, so that there are `end` words: those that are held, and 0 for the others.
pub(crate) fn append_held(all: &mut Vec<u64>, words: &[u64], end: usize) -> Result<(), NoMemory>
    requires { vec_len all.old ≤ end }
    ensures count { OnOk result (vec_len all.new ≡ end) }
    ensures words { OnOk result (FilledFrom (vec_len all.old) end (λ w. slice_index words.now (w - vec_len all.old)) all.old.items all.new.items) }
{
    all.extend_from_slice(words)?;
    all.resize(end, 0)?;
    Ok(())
}
