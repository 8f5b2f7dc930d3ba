//! The names of registers, and which words are labels.

ghost use Rattle.std.specs.Prelude.{◌≡◌};
ghost use Rattle.std.specs.List.{list_all};
ghost use Rattle.std.specs.Str.{bytes_eq};
ghost use Rattle.cet_syntax.specs.Tokens.{is_name_byte};
ghost use Rattle.cet_syntax.specs.Words.{
  register_of,
  is_counter,
  is_pointer,
  begins_decimal,
  is_reserved,
  is_word_of_name,
  is_label,
};

use crate::classes::{Class, in_class, is_decimal};
use cet_isa::{Reg, Size};

pub(crate) fn is_word(word: &[u8], name: &[u8]) -> bool
    ensures { result ≡ bytes_eq word.now name.now }
{
    word == name
}

/// The register with this name, and the size by which the name calls it.
#[tactic(auto, unfolding(crate::specs::Words::register_of))]
pub(crate) fn register_of(word: &[u8]) -> Option<(Size, Reg)>
    ensures { result ≡ register_of word.now }
{
    if let Some(reg) = Reg::named(Size::Qword, word) {
        return Some((Size::Qword, reg));
    }
    match Reg::named(Size::Dword, word) {
        Some(reg) => Some((Size::Dword, reg)),
        None => None,
    }
}

pub(crate) fn is_counter(word: &[u8]) -> bool
    ensures { result ≡ is_counter word.now }
{
    matches!(word, b"cl")
}

pub(crate) fn is_pointer(word: &[u8]) -> bool
    ensures { result ≡ is_pointer word.now }
{
    matches!(word, b"rip")
}

pub(crate) fn begins_decimal(word: &[u8]) -> bool
    ensures { result ≡ begins_decimal word.now }
{
    match word {
        [] => false,
        [byte, ..] => is_decimal(*byte),
    }
}

fn is_reserved(word: &[u8]) -> bool
    ensures { result ≡ is_reserved word.now }
{
    register_of(word).is_some() || is_counter(word) || is_pointer(word)
}

/// Letters, digits and `_`, with no digit first.
fn is_word_of_name(word: &[u8]) -> bool
    ensures { result ≡ is_word_of_name word.now }
{
    match word {
        [] => false,
        [byte, ..] => !is_decimal(*byte) && all_name_bytes(word),
    }
}

fn all_name_bytes(word: &[u8]) -> bool
    ensures { result ≡ list_all is_name_byte word.now }
{
    for byte in word {
        if !in_class(Class::NameByte, *byte) {
            return false;
        }
    }
    true
}

/// Whether a word may be a label: letters, digits and `_`, no digit first, no register and not `rip`.
#[tactic(auto, unfolding(crate::specs::Words::is_label))]
pub(crate) fn is_label(word: &[u8]) -> bool
    ensures { result ≡ is_label word.now }
{
    is_word_of_name(word) && !is_reserved(word)
}
