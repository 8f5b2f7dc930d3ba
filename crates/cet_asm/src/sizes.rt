//! How many bytes a line states.

ghost use Rattle.std.specs.Prelude.{◌≡◌, ◌≤◌, ◌++◌, true, length, IfOk, OnOk};
ghost use Rattle.cet_isa.specs.Canonical.{canonical_spelling};
ghost use Rattle.cet_isa.specs.Spelled.{has_spelling, InstrFits};
ghost use Rattle.cet_syntax.specs.Tokens.{tokens};
ghost use Rattle.cet_syntax.specs.Line.{bytes_in, quads_in};
ghost use Rattle.cet_asm.specs.Layout.{code_size, size_of, text_start};
ghost use Rattle.cet_syntax.specs.Views.{name_view, fixups_view, statement_view, IsSpelledStatement};
ghost use Rattle.cet_asm.specs.Filling.{address_for, resolved_in, AreSmall};

use crate::filling::{ResolvedFixups, filled};
use crate::layout::TEXT_START;
use cet_encode::encode;
use cet_isa::Instr;
use cet_syntax::{Fixups, Statement, next_byte, next_quad};
use cet_words::{Bytes, NoMemory};
use std::alloc::Global;

/// The numbers of an instruction are in the ranges of their types.
fn ranged(instr: Instr) -> Instr
    ensures fits { InstrFits result }
    ensures same { result ≡ instr }
{
    instr
}

/// Appends the bytes of an instruction.
pub(crate) fn spell(alloc: Global, out: &mut Bytes, instr: Instr) -> Result<(), NoMemory>
    requires { has_spelling instr ≡ true }
    ensures { OnOk result (out.new ≡ out.old ++ canonical_spelling instr) }
{
    encode(alloc, &ranged(instr), out)
}

fn spelled_size(alloc: Global, instr: Instr) -> Result<usize, NoMemory>
    requires { has_spelling instr ≡ true }
    ensures { IfOk result (λ n. n ≡ length (canonical_spelling instr)) }
{
    let mut bytes = Bytes::new(alloc);
    spell(alloc, &mut bytes, instr)?;
    Ok(bytes.len())
}

fn nominal(name: Option<&[u8]>) -> Option<u64>
    ensures { result ≡ address_for (λ name. text_start) (name_view name.entry) }
{
    match name {
        Some(_) => Some(TEXT_START),
        None => None,
    }
}

/// Addresses that have the sizes of all addresses of a program.
fn nominal_addresses(fixups: Fixups) -> ResolvedFixups
    ensures resolved { result ≡ resolved_in (λ name. text_start) (fixups_view fixups.entry) }
    ensures small { AreSmall result }
{
    ResolvedFixups {
        displacement: nominal(fixups.displacement),
        immediate: nominal(fixups.immediate),
        target: nominal(fixups.target),
    }
}

#[tactic(auto, using(crate::proofs::FillingLaws::filling_laws))]
fn code_size(alloc: Global, instr: Instr, fixups: Fixups) -> Result<usize, NoMemory>
    requires { has_spelling instr ≡ true }
    ensures { IfOk result (λ n. n ≡ code_size instr (fixups_view fixups.entry)) }
{
    match fixups.short {
        Some(_) => Ok(2),
        None => spelled_size(alloc, filled(0, nominal_addresses(fixups), instr)),
    }
}

#[tactic(auto, using(cet_syntax::proofs::SizeLaws::size_laws))]
fn count_values(text: &[u8]) -> usize
    ensures { result ≡ length (bytes_in (tokens text.now)) }
{
    let mut count = 0;
    let mut rest = text;
    while let Some((_value, after)) = next_byte(rest) {
        count += 1;
        rest = after;
    }
    count
}

#[tactic(auto, using(cet_syntax::proofs::SizeLaws::size_laws))]
fn count_quads(text: &[u8]) -> usize
    ensures { result ≡ length (quads_in (tokens text.now)) }
{
    let mut count = 0;
    let mut rest = text;
    while let Some((_item, after)) = next_quad(rest) {
        count += 1;
        rest = after;
    }
    count
}

/// How many bytes a line states.
#[tactic(auto, unfolding(crate::specs::Layout::size_of))]
pub(crate) fn size_of(alloc: Global, statement: Statement) -> Result<u128, NoMemory>
    requires { IsSpelledStatement statement }
    ensures { IfOk result (λ n. n ≡ size_of (statement_view statement.entry)) }
{
    match statement {
        Statement::Zero(count) => Ok(u128::from(count)),
        Statement::Values(text) => Ok(count_values(text) as u128),
        Statement::Quads(text) => Ok(8 * count_quads(text) as u128),
        Statement::Code(instr, fixups) => Ok(code_size(alloc, instr, fixups)? as u128),
        _ => Ok(0),
    }
}
