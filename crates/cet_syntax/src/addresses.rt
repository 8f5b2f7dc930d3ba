//! Memory operands.

ghost use Rattle.std.specs.Prelude.{◌≡◌, None};
ghost use Rattle.cet_syntax.specs.Operands.{
  empty_address,
  with_index,
  with_pointer,
  with_register,
  with_place,
  with_word,
  scale_of,
  with_scaled,
  starred,
  after,
  word_part,
  minus_part,
  part,
  taken_part,
  joined,
  more,
  memory,
};
ghost use Rattle.cet_syntax.specs.Tokens.{tokens, sign_first};
ghost use Rattle.cet_syntax.specs.Views.{address_view, disp_view, address_option_view, part_view, word_view};

use crate::names::{is_pointer, register_of};
use crate::places::{Place, number_place, word_place};
use crate::tokens::{Token, after_sign, first_word, next};
use cet_isa::{Base, Reg, Size};

/// A memory operand: base, index with its scale, and displacement.
#[derive(Clone, Copy)]
pub(crate) struct Address<'a> {
    pub base: Base,
    pub index: Option<Reg>,
    pub scale: u8,
    pub disp: Option<Place<'a>>,
}

fn empty_address() -> Address<'static>
    ensures { address_view result ≡ empty_address }
{
    Address {
        base: Base::None,
        index: None,
        scale: 1,
        disp: None,
    }
}

fn with_index(address: Address, index: Reg, scale: u8) -> Option<Address>
    ensures { address_option_view result ≡ with_index (address_view address.entry) index scale }
{
    match address.index {
        None => Some(Address {
            index: Some(index),
            scale,
            ..address
        }),
        Some(_) => None,
    }
}

fn with_pointer(address: Address) -> Option<Address>
    ensures { address_option_view result ≡ with_pointer (address_view address.entry) }
{
    match address.base {
        Base::None => Some(Address {
            base: Base::Rip,
            ..address
        }),
        _ => None,
    }
}

/// A register without a scale: the base, or the index where there is a base.
fn with_register(address: Address, reg: Reg) -> Option<Address>
    ensures { address_option_view result ≡ with_register (address_view address.entry) reg }
{
    match address.base {
        Base::None => Some(Address {
            base: Base::Reg(reg),
            ..address
        }),
        _ => with_index(address, reg, 1),
    }
}

fn with_place<'a>(address: Address<'a>, place: Option<Place<'a>>) -> Option<Address<'a>>
    ensures { address_option_view result ≡ with_place (address_view address.entry) (disp_view place.entry) }
{
    let place = place?;
    match address.disp {
        None => Some(Address {
            disp: Some(place),
            ..address
        }),
        Some(_) => None,
    }
}

/// A word by itself.
fn with_word<'a>(address: Address<'a>, word: &'a [u8]) -> Option<Address<'a>>
    ensures { address_option_view result ≡ with_word (address_view address.entry) word.now }
{
    if is_pointer(word) {
        return with_pointer(address);
    }
    match register_of(word) {
        Some((Size::Qword, reg)) => with_register(address, reg),
        Some((Size::Dword, _)) => None,
        None => with_place(address, word_place(word)),
    }
}

fn scale_of(word: &[u8]) -> Option<u8>
    ensures { result ≡ scale_of word.now }
{
    match word {
        b"1" => Some(1),
        b"2" => Some(2),
        b"4" => Some(4),
        b"8" => Some(8),
        _ => None,
    }
}

/// A register and its scale.
fn with_scaled<'a>(address: Address<'a>, word: &[u8], scale: &[u8]) -> Option<Address<'a>>
    ensures { address_option_view result ≡ with_scaled (address_view address.entry) word.now scale.now }
{
    match (register_of(word), scale_of(scale)) {
        (Some((Size::Qword, reg)), Some(scale)) => with_index(address, reg, scale),
        _ => None,
    }
}

/// `*` and a word, with the text after it.
fn starred(text: &[u8]) -> Option<(&[u8], &[u8])>
    ensures { word_view result ≡ starred (tokens text.now) }
{
    first_word(after_sign(b'*', text)?)
}

/// A part of the operand that begins by the word, with the text after it.
#[tactic(auto, unfolding(crate::specs::Operands::word_part))]
fn word_part<'a>(
    address: Address<'a>,
    word: &'a [u8],
    text: &'a [u8],
) -> Option<(Address<'a>, &'a [u8])>
    ensures { part_view result ≡ word_part (address_view address.entry) word.now (tokens text.now) }
{
    match starred(text) {
        None => Some((with_word(address, word)?, text)),
        Some((scale, rest)) => Some((with_scaled(address, word, scale)?, rest)),
    }
}

/// A number after `-`, with the text after it.
fn minus_part<'a>(
    address: Address<'a>,
    minus: bool,
    text: &'a [u8],
) -> Option<(Address<'a>, &'a [u8])>
    ensures { part_view result ≡ minus_part (address_view address.entry) minus (tokens text.now) }
{
    let (word, rest) = first_word(text)?;
    Some((with_place(address, number_place(minus, word))?, rest))
}

/// A part of the operand, with the text after it.
#[tactic(auto, unfolding(crate::specs::Operands::part))]
fn part<'a>(address: Address<'a>, text: &'a [u8]) -> Option<(Address<'a>, &'a [u8])>
    ensures { part_view result ≡ part (address_view address.entry) (tokens text.now) }
{
    match next(text)? {
        (Token::Word(word), rest) => word_part(address, word, rest),
        (Token::Minus, rest) => minus_part(address, true, rest),
        (Token::Sign(_), _) => None,
    }
}

/// A number that is taken away, with the text after it.
#[tactic(auto, unfolding(crate::specs::Operands::taken_part))]
fn taken_part<'a>(address: Address<'a>, text: &'a [u8]) -> Option<(Address<'a>, &'a [u8])>
    ensures { part_view result ≡ taken_part (address_view address.entry) (tokens text.now) }
{
    match next(text)? {
        (Token::Word(word), rest) => Some((with_place(address, number_place(true, word))?, rest)),
        (Token::Minus, rest) => minus_part(address, false, rest),
        (Token::Sign(_), _) => None,
    }
}

/// A part after `+`, or a number after `-`, with the text after it.
#[tactic(auto, unfolding(crate::specs::Operands::joined))]
fn joined<'a>(address: Address<'a>, text: &'a [u8]) -> Option<(Address<'a>, &'a [u8])>
    ensures { part_view result ≡ joined (address_view address.entry) (tokens text.now) }
{
    match next(text)? {
        (Token::Minus, rest) => taken_part(address, rest),
        (Token::Sign(b'+'), rest) => part(address, rest),
        (Token::Sign(b'-'), rest) => taken_part(address, rest),
        _ => None,
    }
}

/// The same, or nothing before `]`.
#[tactic(auto, unfolding(crate::specs::Operands::more))]
fn more<'a>(address: Address<'a>, text: &'a [u8]) -> Option<(Address<'a>, &'a [u8])>
    ensures { part_view result ≡ more (address_view address.entry) (tokens text.now) }
{
    match after_sign(b']', text) {
        None => joined(address, text),
        Some(_) => Some((address, text)),
    }
}

/// A memory operand after its `[`, with the text after its `]`.
#[tactic(auto, unfolding(crate::specs::Operands::memory))]
pub(crate) fn memory(text: &[u8]) -> Option<(Address<'_>, &[u8])>
    ensures { part_view result ≡ memory (tokens text.now) }
{
    let (address, rest) = part(empty_address(), text)?;
    let (address, rest) = more(address, rest)?;
    let (address, rest) = more(address, rest)?;
    let rest = after_sign(b']', rest)?;
    Some((address, rest))
}
