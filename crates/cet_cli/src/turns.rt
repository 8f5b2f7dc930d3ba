//! Lists of turns: items `thread` or `thread*turns` with commas between them.

ghost use Rattle.std.specs.Prelude.{◌≡◌, ◌∷◌, [], true, is_some, IfOk, Some};
ghost use Rattle.cet_cli.specs.Values.{repeat_by, repeat_of, repeats_of, schedule_of};

use crate::limits::{LAST_THREAD, MOST_REPEATS, MOST_TURNS};
use crate::parts::parted;
use crate::values::number_within;
use cet_words::{Items, NoMemory};
use std::alloc::Global;

/// Turns, one after another, each by the number of its thread.
pub type Turns = Items<u32>;

/// Some turns of one thread, one after another.
#[derive(Clone, Copy)]
pub(crate) struct Repeat {
    /// The thread's number, 0 to 31.
    pub thread: u32,
    /// How many turns it has, 1 to 1,000,000.
    pub turns: u32,
}

/// One turn of a thread.
fn one_turn(thread: &str) -> Option<Repeat>
    ensures { result ≡ repeat_by (thread.now ∷ []) }
{
    let thread = number_within(thread, 0, LAST_THREAD)?;
    Some(Repeat {
        thread: thread as u32,
        turns: 1,
    })
}

/// So many turns of a thread.
fn turns_of_one(thread: &str, turns: &str) -> Option<Repeat>
    ensures { result ≡ repeat_by (thread.now ∷ turns.now ∷ []) }
{
    let thread = number_within(thread, 0, LAST_THREAD)?;
    let turns = number_within(turns, 1, MOST_TURNS.into())?;
    Some(Repeat {
        thread: thread as u32,
        turns: turns as u32,
    })
}

/// The turns that an item is.
fn repeat_of(item: &str) -> Option<Repeat>
    ensures { result ≡ repeat_of item.now }
{
    let (thread, rest) = parted(item, '*');
    let Some(turns) = rest else {
        return one_turn(thread);
    };
    if parted(turns, '*').1.is_some() {
        return None;
    }
    turns_of_one(thread, turns)
}

/// Whether a text is a list of turns. It takes no memory.
pub(crate) fn are_turns(text: &str) -> bool
    ensures { result ≡ is_some (repeats_of text.now) }
{
    if text.is_empty() {
        return true;
    }
    let mut room = MOST_REPEATS;
    let mut left = MOST_TURNS;
    for item in text.split(',') {
        let Some(repeat) = repeat_of(item) else {
            return false;
        };
        if room == 0 || left < repeat.turns {
            return false;
        }
        room -= 1;
        left -= repeat.turns;
    }
    true
}

/// The turns of a list.
fn list_turns(alloc: Global, text: &str) -> Result<Turns, NoMemory>
    requires { is_some (repeats_of text.now) ≡ true }
    ensures { IfOk result (λ turns. Some turns ≡ schedule_of text.now) }
{
    let mut turns = Turns::new(alloc);
    if text.is_empty() {
        return Ok(turns);
    }
    for item in text.split(',') {
        let Some(repeat) = repeat_of(item) else {
            // Each item is some turns.
            return Ok(turns);
        };
        turns.extend_with(alloc, repeat.thread, repeat.turns as usize)?;
    }
    Ok(turns)
}

/// The turns that a text is a list of.
pub(crate) fn turns_of(alloc: Global, text: &str) -> Result<Option<Turns>, NoMemory>
    ensures { IfOk result (λ turns. turns ≡ schedule_of text.now) }
{
    if !are_turns(text) {
        return Ok(None);
    }
    Ok(Some(list_turns(alloc, text)?))
}
