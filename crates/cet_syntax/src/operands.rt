//! The operands of a line.

ghost use Rattle.std.specs.Prelude.{◌≡◌};
ghost use Rattle.cet_syntax.specs.Operands.{
  value_parsed,
  word_parsed,
  sized_parsed,
  relative_parsed,
  second_parsed,
  minus_parsed,
  minus_worded,
  worded,
  negative_parsed,
  parsed,
  ended,
  second,
  after_first,
  operands,
};
ghost use Rattle.cet_syntax.specs.Tokens.{tokens};
ghost use Rattle.cet_syntax.specs.Views.{disp_view, parsed_view, parsed_option_view, operand_view, operands_option_view};

use crate::addresses::{Address, memory};
use crate::names::{is_counter, is_label, is_word, register_of};
use crate::places::{Place, number_place, word_place};
use crate::tokens::{Token, first_word, next};
use cet_isa::{Reg, Size};

/// An operand as it is written. `Dword` and `Byte` are memory after that word, `Relative` is a number after `rel`,
/// `Short` a label after `short`.
#[derive(Clone, Copy)]
pub(crate) enum ParsedOperand<'a> {
    Register(Size, Reg),
    Counter,
    Value(Place<'a>),
    Memory(Address<'a>),
    Dword(Address<'a>),
    Byte(Address<'a>),
    Relative(Option<i128>),
    Short(&'a [u8]),
}

/// The operands of an instruction.
#[derive(Clone, Copy)]
pub(crate) enum Operands<'a> {
    Absent,
    One(ParsedOperand<'a>),
    Two(ParsedOperand<'a>, ParsedOperand<'a>),
}

/// A word by itself.
#[tactic(auto, unfolding(crate::specs::Operands::word_parsed))]
fn word_parsed(word: &[u8]) -> Option<ParsedOperand<'_>>
    ensures { parsed_option_view result ≡ word_parsed word.now }
{
    if is_counter(word) {
        return Some(ParsedOperand::Counter);
    }
    match register_of(word) {
        Some((size, reg)) => Some(ParsedOperand::Register(size, reg)),
        None => Some(ParsedOperand::Value(word_place(word)?)),
    }
}

/// Memory after a word and `[`, with the text after it.
#[tactic(auto, unfolding(crate::specs::Operands::sized_parsed))]
fn sized_parsed<'a>(word: &[u8], text: &'a [u8]) -> Option<(ParsedOperand<'a>, &'a [u8])>
    ensures { operand_view result ≡ sized_parsed word.now (tokens text.now) }
{
    let (address, rest) = memory(text)?;
    if is_word(word, b"dword") {
        Some((ParsedOperand::Dword(address), rest))
    } else if is_word(word, b"byte") {
        Some((ParsedOperand::Byte(address), rest))
    } else {
        None
    }
}

fn relative_parsed(place: Option<Place>) -> Option<ParsedOperand>
    ensures { parsed_option_view result ≡ relative_parsed (disp_view place.entry) }
{
    match place {
        Some(Place::Number(value)) => Some(ParsedOperand::Relative(value)),
        _ => None,
    }
}

/// A word after another.
#[tactic(auto, unfolding(crate::specs::Operands::second_parsed))]
fn second_parsed<'a>(word: &[u8], after: &'a [u8]) -> Option<ParsedOperand<'a>>
    ensures { parsed_option_view result ≡ second_parsed word.now after.now }
{
    if is_word(word, b"rel") {
        relative_parsed(number_place(false, after))
    } else if is_word(word, b"short") && is_label(after) {
        Some(ParsedOperand::Short(after))
    } else {
        None
    }
}

/// `-` and a word after a word.
#[tactic(auto, unfolding(crate::specs::Operands::minus_parsed))]
fn minus_parsed<'a>(word: &[u8], after: &'a [u8]) -> Option<ParsedOperand<'a>>
    ensures { parsed_option_view result ≡ minus_parsed word.now after.now }
{
    if is_word(word, b"rel") {
        relative_parsed(number_place(true, after))
    } else {
        None
    }
}

/// An operand that begins by the word, with the text after it.
#[tactic(auto, unfolding(crate::specs::Operands::worded))]
fn worded<'a>(word: &'a [u8], text: &'a [u8]) -> Option<(ParsedOperand<'a>, &'a [u8])>
    ensures { operand_view result ≡ worded word.now (tokens text.now) }
{
    match next(text) {
        Some((Token::Sign(b'['), rest)) => sized_parsed(word, rest),
        Some((Token::Word(after), rest)) => Some((second_parsed(word, after)?, rest)),
        Some((Token::Minus, rest)) => {
            let (after, rest) = first_word(rest)?;
            Some((minus_parsed(word, after)?, rest))
        }
        _ => Some((word_parsed(word)?, text)),
    }
}

/// A number after its `-`, with the text after it.
fn negative_parsed(text: &[u8]) -> Option<(ParsedOperand<'_>, &[u8])>
    ensures { operand_view result ≡ negative_parsed (tokens text.now) }
{
    let (word, rest) = first_word(text)?;
    Some((ParsedOperand::Value(number_place(true, word)?), rest))
}

/// An operand, with the text after it.
#[tactic(auto, unfolding(crate::specs::Operands::parsed))]
fn read_parsed(text: &[u8]) -> Option<(ParsedOperand<'_>, &[u8])>
    ensures { operand_view result ≡ parsed (tokens text.now) }
{
    match next(text)? {
        (Token::Word(word), rest) => worded(word, rest),
        (Token::Minus, rest) => negative_parsed(rest),
        (Token::Sign(b'['), rest) => {
            let (address, rest) = memory(rest)?;
            Some((ParsedOperand::Memory(address), rest))
        }
        (Token::Sign(_), _) => None,
    }
}

/// The second operand, which ends the line.
#[tactic(auto, unfolding(crate::specs::Operands::second))]
fn second<'a>(first: ParsedOperand<'a>, text: &'a [u8]) -> Option<Operands<'a>>
    ensures { operands_option_view result ≡ second (parsed_view first.entry) (tokens text.now) }
{
    let (other, rest) = read_parsed(text)?;
    match next(rest) {
        None => Some(Operands::Two(first, other)),
        Some(_) => None,
    }
}

#[tactic(auto, unfolding(crate::specs::Operands::after_first))]
fn after_first<'a>(first: ParsedOperand<'a>, text: &'a [u8]) -> Option<Operands<'a>>
    ensures { operands_option_view result ≡ after_first (parsed_view first.entry) (tokens text.now) }
{
    match next(text) {
        None => Some(Operands::One(first)),
        Some((Token::Sign(b','), rest)) => second(first, rest),
        Some(_) => None,
    }
}

/// The operands of a line, at most two. `None` where one is bad.
#[tactic(auto, unfolding(crate::specs::Operands::operands))]
pub(crate) fn read_operands(text: &[u8]) -> Option<Operands<'_>>
    ensures { operands_option_view result ≡ operands (tokens text.now) }
{
    if next(text).is_none() {
        return Some(Operands::Absent);
    }
    let (first, rest) = read_parsed(text)?;
    after_first(first, rest)
}
