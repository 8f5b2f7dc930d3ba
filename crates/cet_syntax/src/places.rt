//! Numbers and labels, in operands and in lists.

ghost use Rattle.std.specs.Prelude.{◌≡◌, ◌*◌, ◌^◌, ◌+◌, ◌<◌, ◌≤◌};
ghost use Rattle.std.specs.List.{list_all};
ghost use Rattle.cet_syntax.specs.Words.{
  signed,
  is_plain,
  number_place,
  word_place,
  signed_dword,
  unsigned_dword,
  immediate_field,
  unsigned_field,
  byte_field,
  quad_field,
};
ghost use Rattle.cet_syntax.specs.Views.{disp_view};

use crate::names::{begins_decimal, is_label};
use cet_base::read_u64;
use cet_isa::Size;

/// A number, `None` where it is ill-formed, or a label.
#[derive(Clone, Copy)]
pub(crate) enum Place<'a> {
    Number(Option<i128>),
    Label(&'a [u8]),
}

/// A word of `.quad`: a number modulo 2^64, or the address of a label.
#[derive(Clone, Copy)]
pub enum Item<'a> {
    Known(u64),
    Named(&'a [u8]),
}

/// A number with or without `-` before it.
fn signed(minus: bool, number: Option<u64>) -> Option<i128>
    ensures { result ≡ signed minus number }
{
    match number {
        Some(value) if minus => Some(-i128::from(value)),
        Some(value) => Some(i128::from(value)),
        None => None,
    }
}

/// Whether all bytes are of ASCII, and none is NUL or a carriage return.
fn is_plain(word: &[u8]) -> bool
    ensures { result ≡ list_all is_plain word.now }
{
    word.iter()
        .all(|byte| *byte != 0 && *byte != b'\r' && *byte < 128)
}

/// A word that begins by a digit, as a number.
#[tactic(auto, unfolding(crate::specs::Words::number_place))]
pub(crate) fn number_place(minus: bool, word: &[u8]) -> Option<Place<'_>>
    ensures { disp_view result ≡ number_place minus word.now }
{
    if begins_decimal(word) && is_plain(word) {
        Some(Place::Number(signed(minus, read_u64(word))))
    } else {
        None
    }
}

/// A word as a number or label.
#[tactic(auto, unfolding(crate::specs::Words::word_place))]
pub(crate) fn word_place(word: &[u8]) -> Option<Place<'_>>
    ensures { disp_view result ≡ word_place word.now }
{
    if begins_decimal(word) {
        number_place(false, word)
    } else if is_label(word) {
        Some(Place::Label(word))
    } else {
        None
    }
}

/// The field of an immediate, as a signed number of 32 bits.
pub(crate) fn immediate_field(size: Size, value: i128) -> Option<i32>
    ensures { result ≡ immediate_field size value }
{
    if let Ok(field) = i32::try_from(value) {
        return Some(field);
    }
    match size {
        Size::Qword => None,
        Size::Dword => unsigned_dword(value),
    }
}

fn unsigned_dword(value: i128) -> Option<i32>
    ensures { result ≡ unsigned_dword value }
{
    match u32::try_from(value) {
        Ok(field) => Some(field.cast_signed()),
        Err(_) => None,
    }
}

pub(crate) fn byte_number(value: i128) -> Option<u8>
    ensures { result ≡ unsigned_field (2 ^ 8) value }
{
    u8::try_from(value).ok()
}

pub(crate) fn word_number(value: i128) -> Option<u16>
    ensures { result ≡ unsigned_field (2 ^ 16) value }
{
    u16::try_from(value).ok()
}

pub(crate) fn mark_number(value: i128) -> Option<u8>
    ensures { result ≡ unsigned_field 4 value }
{
    match u8::try_from(value) {
        Ok(mark) if mark < 4 => Some(mark),
        _ => None,
    }
}

pub(crate) fn unsigned_quad(value: i128) -> Option<u64>
    ensures { result ≡ unsigned_field (2 ^ 64) value }
{
    u64::try_from(value).ok()
}

/// -2^7 to 2^8 - 1, modulo 2^8.
pub(crate) fn byte_field(value: i128) -> Option<u8>
    ensures { result ≡ byte_field value }
{
    if value < 0 {
        match i8::try_from(value) {
            Ok(field) => Some(field.cast_unsigned()),
            Err(_) => None,
        }
    } else {
        u8::try_from(value).ok()
    }
}

/// -2^63 to 2^64 - 1, modulo 2^64.
pub(crate) fn quad_field(value: i128) -> Option<u64>
    ensures { result ≡ quad_field value }
{
    if value < 0 {
        match i64::try_from(value) {
            Ok(field) => Some(field.cast_unsigned()),
            Err(_) => None,
        }
    } else {
        u64::try_from(value).ok()
    }
}
