//! The rules that a line breaks.

ghost use Rattle.std.specs.Prelude.{◌≡◌};
ghost use Rattle.cet_asm.specs.Layout.{size_of};
ghost use Rattle.cet_asm.specs.Program.{knows_all, short_distance, is_in_reach, own_fault, directive_fault, broken_at, rule_number};
ghost use Rattle.cet_syntax.specs.Views.{statement_view};
ghost use Rattle.cet_asm.specs.Passes.{IsWithin};
ghost use Rattle.cet_asm.specs.Places.{symbols_view, IsSmall};

use crate::filling::distance;
use crate::labels::{Labels, knows_fixups, knows_items, symbol_address};
use crate::layout::{address_of, is_too_long, symbol_of};
use crate::sections::LocationCounter;
use cet_isa::fits_byte;
use cet_syntax::{Rule, Statement};

#[tactic(auto, unfolding(crate::specs::Program::knows_all))]
fn knows_all<'a>(labels: &Labels<'a>, statement: Statement<'a>) -> bool
    requires { IsSmall (symbols_view labels.now) }
    ensures { result ≡ knows_all (symbols_view labels.now) (statement_view statement.entry) }
{
    match statement {
        Statement::Code(_, fixups) => knows_fixups(labels, fixups),
        Statement::Quads(text) => knows_items(labels, text),
        _ => true,
    }
}

/// From the byte after a short jump that stands here to its label.
pub(crate) fn short_distance<'a>(labels: &Labels<'a>, here: LocationCounter, name: &'a [u8]) -> i32
    requires small { IsSmall (symbols_view labels.now) }
    requires within { IsWithin here }
    ensures { result ≡ short_distance (symbols_view labels.now) here name.now }
{
    distance(
        address_of(labels.text_size, symbol_of(here)) + 2,
        symbol_address(labels, name),
    )
}

#[tactic(auto, unfolding(crate::specs::Program::is_in_reach))]
fn is_in_reach<'a>(labels: &Labels<'a>, here: LocationCounter, statement: Statement<'a>) -> bool
    requires small { IsSmall (symbols_view labels.now) }
    requires within { IsWithin here }
    ensures { result ≡ is_in_reach (symbols_view labels.now) here (statement_view statement.entry) }
{
    match statement {
        Statement::Code(_, fixups) => match fixups.short {
            Some(name) => fits_byte(short_distance(labels, here, name)),
            None => true,
        },
        _ => true,
    }
}

fn own_fault(statement: Statement) -> Option<Rule>
    ensures { result ≡ own_fault (statement_view statement.entry) }
{
    match statement {
        Statement::Broken(Rule::Directive) => None,
        Statement::Broken(rule) => Some(rule),
        _ => None,
    }
}

fn directive_fault(statement: Statement) -> Option<Rule>
    ensures { result ≡ directive_fault (statement_view statement.entry) }
{
    match statement {
        Statement::Broken(Rule::Directive) => Some(Rule::Directive),
        _ => None,
    }
}

/// The first rule that a line of so many bytes breaks which stands here, by whether one of its labels is defined before.
#[tactic(auto, unfolding(crate::specs::Program::broken_at, crate::specs::Layout::is_too_long))]
pub(crate) fn broken_at<'a>(
    labels: &Labels<'a>,
    twice: bool,
    here: LocationCounter,
    statement: Statement<'a>,
    size: u128,
) -> Option<Rule>
    requires small { IsSmall (symbols_view labels.now) }
    requires within { IsWithin here }
    requires size { size ≡ size_of (statement_view statement) }
    ensures { result ≡ broken_at (symbols_view labels.now) twice here (statement_view statement.entry) }
{
    if let Some(rule) = own_fault(statement) {
        return Some(rule);
    }
    if !knows_all(labels, statement) {
        return Some(Rule::UnknownLabel);
    }
    if twice {
        return Some(Rule::DefinedBefore);
    }
    if !is_in_reach(labels, here, statement) {
        return Some(Rule::OutOfReach);
    }
    if let Some(rule) = directive_fault(statement) {
        return Some(rule);
    }
    if is_too_long(here, size) {
        return Some(Rule::TooLong);
    }
    None
}

/// The number of a rule in an answer.
pub(crate) fn rule_number(rule: Rule) -> u8
    ensures { result ≡ rule_number rule }
{
    match rule {
        Rule::Mnemonic => 1,
        Rule::Operand => 2,
        Rule::Number => 3,
        Rule::UnknownLabel => 4,
        Rule::DefinedBefore => 5,
        Rule::OutOfReach => 6,
        Rule::Directive => 7,
        Rule::TooLong => 8,
        Rule::NotUtf8 => 9,
    }
}
