//! The values of options, and of words without a name: which texts are one.

ghost use Rattle.std.specs.Prelude.{◌≡◌, map};
ghost use Rattle.cet_cli.specs.Table.{value_view};
ghost use Rattle.cet_cli.specs.Values.{fits, number_within, place_among};

use crate::signals::are_signals;
use crate::turns::are_turns;
use cet_base::read_u64;

/// Which texts are a value.
#[derive(Clone, Copy, Debug)]
pub(crate) enum Value {
    /// The numbers from `low` to `high`.
    Number {
        low: u64,
        high: u64,
    },
    /// One of some words.
    OneOf {
        first: &'static str,
        others: &'static [&'static str],
    },
    /// A list of signals.
    Signals,
    /// A list of turns.
    Turns,
}

/// The number that a text writes, where it is one from `low` to `high`.
pub(crate) fn number_within(text: &str, low: u64, high: u64) -> Option<u64>
    ensures { result ≡ number_within low high text.now }
{
    let number = read_u64(text.as_bytes())?;
    if low <= number && number <= high {
        Some(number)
    } else {
        None
    }
}

/// The place of a text among some words, counted from 0.
pub(crate) fn place_among(words: &[&str], text: &str) -> Option<usize>
    ensures { result ≡ place_among (map (λ w. w.now) words.now) text.now }
{
    for (place, word) in words.iter().enumerate() {
        if text == *word {
            return Some(place);
        }
    }
    None
}

impl Value {
    /// Whether a text is such a value. It takes no memory.
    pub(crate) fn fits(self, text: &str) -> bool
        ensures { result ≡ fits (value_view self) text.now }
    {
        match self {
            Value::Number { low, high } => number_within(text, low, high).is_some(),
            Value::OneOf { first, others } => text == first || place_among(others, text).is_some(),
            Value::Signals => are_signals(text),
            Value::Turns => are_turns(text),
        }
    }
}
