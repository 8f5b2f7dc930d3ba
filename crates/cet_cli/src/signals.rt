//! Lists of signals: items `thread:count:number` with commas between them.

ghost use Rattle.std.specs.Prelude.{◌≡◌, ◌∷◌, [], true, is_some, IfOk, MatchOption};
ghost use Rattle.cet_cli.specs.Values.{items, signal_by, signal_of, signals_of};

use crate::limits::{LAST_SIGNAL, LAST_THREAD, MOST_RECORDS, MOST_SIGNALS};
use crate::parts::parted;
use crate::values::number_within;
use cet_words::{NoMemory, Signal, Signals};
use std::alloc::Global;

/// The three parts of an item, with colons between them.
fn three_parts(item: &str) -> Option<(&str, &str, &str)>
    ensures { MatchOption result (signal_of item.now ≡ None)
        (λ parts. items 58 item.now ≡ parts.0.now ∷ parts.1.now ∷ parts.2.now ∷ []) }
{
    let (thread, rest) = parted(item, ':');
    let (count, rest) = parted(rest?, ':');
    let (number, rest) = parted(rest?, ':');
    if rest.is_some() {
        return None;
    }
    Some((thread, count, number))
}

/// The signal of these three parts.
fn signal_by(thread: &str, count: &str, number: &str) -> Option<Signal>
    ensures { result ≡ signal_by (thread.now ∷ count.now ∷ number.now ∷ []) }
{
    let thread = number_within(thread, 0, LAST_THREAD)?;
    let count = number_within(count, 0, MOST_RECORDS.into())?;
    let number = number_within(number, 1, LAST_SIGNAL)?;
    Some(Signal {
        thread: thread as u8,
        count: count as u32,
        number: number as u8,
    })
}

/// The signal that an item is.
fn signal_of(item: &str) -> Option<Signal>
    ensures { result ≡ signal_of item.now }
{
    let (thread, count, number) = three_parts(item)?;
    signal_by(thread, count, number)
}

/// Whether a text is a list of signals. It takes no memory.
pub(crate) fn are_signals(text: &str) -> bool
    ensures { result ≡ is_some (signals_of text.now) }
{
    if text.is_empty() {
        return true;
    }
    let mut room = MOST_SIGNALS;
    for item in text.split(',') {
        if room == 0 || signal_of(item).is_none() {
            return false;
        }
        room -= 1;
    }
    true
}

/// The signals of a list.
fn list_signals(alloc: Global, text: &str) -> Result<Signals, NoMemory>
    requires { is_some (signals_of text.now) ≡ true }
    ensures { IfOk result (λ signals. Some signals ≡ signals_of text.now) }
{
    let mut signals = Signals::new(alloc);
    if text.is_empty() {
        return Ok(signals);
    }
    for item in text.split(',') {
        let Some(signal) = signal_of(item) else {
            // Each item is one.
            return Ok(signals);
        };
        signals.push(alloc, signal)?;
    }
    Ok(signals)
}

/// The signals that a text is a list of.
pub(crate) fn signals_of(alloc: Global, text: &str) -> Result<Option<Signals>, NoMemory>
    ensures { IfOk result (λ signals. signals ≡ signals_of text.now) }
{
    if !are_signals(text) {
        return Ok(None);
    }
    Ok(Some(list_signals(alloc, text)?))
}
