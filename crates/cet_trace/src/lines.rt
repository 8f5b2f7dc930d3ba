//! The lines of a report, word by word.

ghost use Rattle.std.specs.Prelude.{◌≡◌, ◌++◌, map, OnOk};
ghost use Rattle.std.specs.List.{flat_map};
ghost use Rattle.cet_trace.specs.Line.{word_text, spaced, line};

use crate::digits::write_hex;
use cet_base::put_decimal;
use cet_words::{Bytes, NoMemory};
use std::alloc::Global;

/// A word of a line.
#[derive(Clone, Copy, Debug, PartialEq, Eq)]
pub(crate) enum Word {
    Text(&'static str),
    /// Decimal digits.
    Decimal(u64),
    /// Sixteen hexadecimal digits.
    Hex(u64),
}

fn put_word(alloc: Global, out: &mut Bytes, word: Word) -> Result<(), NoMemory>
    ensures { OnOk result (out.new ≡ out.old ++ word_text word) }
{
    match word {
        Word::Text(text) => out.extend(alloc, text.as_bytes()),
        Word::Decimal(number) => put_decimal(alloc, out, number),
        Word::Hex(number) => {
            let mut digits = [0; 16];
            let at = write_hex(&mut digits, 16, number);
            out.extend(alloc, &digits[at..])
        }
    }
}

/// Appends each word after a space.
fn put_others(alloc: Global, out: &mut Bytes, words: &[Word]) -> Result<(), NoMemory>
    ensures { OnOk result (out.new ≡ out.old ++ flat_map spaced (map word_text words.now)) }
{
    for word in words {
        out.push(alloc, b' ')?;
        put_word(alloc, out, *word)?;
    }
    Ok(())
}

/// Appends a line of words.
#[tactic(auto, unfolding(crate::specs::Line::line))]
pub(crate) fn put_line(
    alloc: Global,
    out: &mut Bytes,
    first: Word,
    others: &[Word],
) -> Result<(), NoMemory>
    ensures { OnOk result (out.new ≡ out.old ++ line (word_text first) (map word_text others.now)) }
{
    put_word(alloc, out, first)?;
    put_others(alloc, out, others)?;
    out.push(alloc, b'\n')
}
