//! What a line states.

ghost use Rattle.std.specs.Prelude.{◌≡◌};
ghost use Rattle.cet_syntax.specs.Line.{
  judged,
  stated,
  instruction,
  section_stated,
  number_alone,
  mark_stated,
  zero_stated,
  bytes_stated,
  quads_stated,
  directive,
  prefixed,
  begun,
  statement_of,
};
ghost use Rattle.cet_syntax.specs.Operands.{operands};
ghost use Rattle.cet_syntax.specs.Tokens.{tokens};
ghost use Rattle.cet_syntax.specs.Views.{built_view, built_option_view, statement_view, IsSpelledStatement};

use crate::classes::{Class, skip_class, split_class};
use crate::instructions::{Built, Fixups, build};
use crate::lists::{ListKind, list_fits};
use crate::mnemonics::{Mnemonic, locked_mnemonic, mnemonic_of, untracked_mnemonic};
use crate::names::is_word;
use crate::operands::{Operands, ParsedOperand, read_operands};
use crate::places::{Place, mark_number, unsigned_quad};
use crate::rules::Rule;
use crate::tokens::next;
use cet_isa::{Instr, is_spelled};

/// What a line states. `Broken` is the first rule that it breaks by itself. `Zero` is a number of zero bytes.
/// `Values` and `Quads` are the texts of lists that are read again item by item. `Code` is an instruction with 0
/// where it uses labels.
#[derive(Clone, Copy)]
pub enum Statement<'a> {
    Nothing,
    Broken(Rule),
    TextSection,
    DataSection,
    Mark(u8),
    Zero(u64),
    Values(&'a [u8]),
    Quads(&'a [u8]),
    Code(Instr, Fixups<'a>),
}

/// Operands that the instruction doesn't have are tested before numbers that don't fit.
fn judged(built: Built) -> Statement
    ensures value { statement_view result ≡ judged (built_view built.entry) }
    ensures spelled { IsSpelledStatement result }
{
    if !is_spelled(&built.instr) {
        Statement::Broken(Rule::Operand)
    } else if built.fits {
        Statement::Code(built.instr, built.fixups)
    } else {
        Statement::Broken(Rule::Number)
    }
}

fn stated(built: Option<Built>) -> Statement
    ensures value { statement_view result ≡ stated (built_option_view built.entry) }
    ensures spelled { IsSpelledStatement result }
{
    match built {
        None => Statement::Broken(Rule::Operand),
        Some(built) => judged(built),
    }
}

/// An instruction, by its mnemonic and the text after it.
#[tactic(auto, unfolding(crate::specs::Line::instruction))]
fn instruction(mnemonic: Option<Mnemonic>, text: &[u8]) -> Statement<'_>
    ensures value { statement_view result ≡ instruction mnemonic text.now }
    ensures spelled { IsSpelledStatement result }
{
    let Some(mnemonic) = mnemonic else {
        return Statement::Broken(Rule::Mnemonic);
    };
    match read_operands(text) {
        None => Statement::Broken(Rule::Operand),
        Some(operands) => stated(build(mnemonic, operands)),
    }
}

fn section(is_text: bool, text: &[u8]) -> Statement<'static>
    ensures value { statement_view result ≡ section_stated is_text (tokens text.now) }
    ensures spelled { IsSpelledStatement result }
{
    if next(text).is_some() {
        Statement::Broken(Rule::Operand)
    } else if is_text {
        Statement::TextSection
    } else {
        Statement::DataSection
    }
}

/// The number that stands alone, `Some(None)` for a label or an ill-formed number.
fn number_alone(text: &[u8]) -> Option<Option<i128>>
    ensures { result ≡ number_alone (operands (tokens text.now)) }
{
    match read_operands(text) {
        Some(Operands::One(ParsedOperand::Value(Place::Number(value)))) => Some(value),
        Some(Operands::One(ParsedOperand::Value(Place::Label(_)))) => Some(None),
        _ => None,
    }
}

fn mark(value: Option<Option<i128>>) -> Statement<'static>
    ensures value { statement_view result ≡ mark_stated value }
    ensures spelled { IsSpelledStatement result }
{
    let Some(value) = value else {
        return Statement::Broken(Rule::Operand);
    };
    let Some(value) = value else {
        return Statement::Broken(Rule::Number);
    };
    match mark_number(value) {
        Some(mark) => Statement::Mark(mark),
        None => Statement::Broken(Rule::Number),
    }
}

fn zero(value: Option<Option<i128>>) -> Statement<'static>
    ensures value { statement_view result ≡ zero_stated value }
    ensures spelled { IsSpelledStatement result }
{
    let Some(value) = value else {
        return Statement::Broken(Rule::Operand);
    };
    let Some(value) = value else {
        return Statement::Broken(Rule::Number);
    };
    match unsigned_quad(value) {
        Some(count) => Statement::Zero(count),
        None => Statement::Broken(Rule::Number),
    }
}

fn bytes(text: &[u8]) -> Statement<'_>
    ensures value { statement_view result ≡ bytes_stated (tokens text.now) }
    ensures spelled { IsSpelledStatement result }
{
    match list_fits(ListKind::Bytes, text) {
        None => Statement::Broken(Rule::Operand),
        Some(true) => Statement::Values(text),
        Some(false) => Statement::Broken(Rule::Number),
    }
}

fn quads(text: &[u8]) -> Statement<'_>
    ensures value { statement_view result ≡ quads_stated (tokens text.now) }
    ensures spelled { IsSpelledStatement result }
{
    match list_fits(ListKind::Quads, text) {
        None => Statement::Broken(Rule::Operand),
        Some(true) => Statement::Quads(text),
        Some(false) => Statement::Broken(Rule::Number),
    }
}

/// A directive, by its word and the text after it.
#[tactic(auto, unfolding(crate::specs::Line::directive))]
fn directive<'a>(word: &[u8], text: &'a [u8]) -> Statement<'a>
    ensures value { statement_view result ≡ directive word.now text.now }
    ensures spelled { IsSpelledStatement result }
{
    if is_word(word, b".text") {
        section(true, text)
    } else if is_word(word, b".data") {
        section(false, text)
    } else if is_word(word, b".mark") {
        mark(number_alone(text))
    } else if is_word(word, b".zero") {
        zero(number_alone(text))
    } else if is_word(word, b".byte") {
        bytes(text)
    } else if is_word(word, b".quad") {
        quads(text)
    } else {
        Statement::Broken(Rule::Directive)
    }
}

/// An instruction that has a word before its mnemonic.
fn prefixed(lock: bool, text: &[u8]) -> Statement<'_>
    ensures value { statement_view result ≡ prefixed lock text.now }
    ensures spelled { IsSpelledStatement result }
{
    let (word, rest) = split_class(Class::Solid, skip_class(Class::Blank, text));
    if lock {
        instruction(locked_mnemonic(word), rest)
    } else {
        instruction(untracked_mnemonic(word), rest)
    }
}

/// What stands after labels, by its first word and the text after it.
#[tactic(auto, unfolding(crate::specs::Line::begun))]
fn begun<'a>(word: &[u8], text: &'a [u8]) -> Statement<'a>
    ensures value { statement_view result ≡ begun word.now text.now }
    ensures spelled { IsSpelledStatement result }
{
    match word {
        [] => Statement::Nothing,
        [b'.', ..] => directive(word, text),
        _ => {
            if is_word(word, b"lock") {
                prefixed(true, text)
            } else if is_word(word, b"notrack") {
                prefixed(false, text)
            } else {
                instruction(mnemonic_of(word), text)
            }
        }
    }
}

/// What a text without labels and comment states.
#[tactic(auto, unfolding(crate::specs::Line::statement_of))]
pub(crate) fn statement_of(text: &[u8]) -> Statement<'_>
    ensures value { statement_view result ≡ statement_of text.now }
    ensures spelled { IsSpelledStatement result }
{
    let (word, rest) = split_class(Class::Solid, skip_class(Class::Blank, text));
    begun(word, rest)
}
