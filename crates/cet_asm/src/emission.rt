//! The bytes of a line.

ghost use Rattle.std.specs.Prelude.{◌≡◌, ◌++◌, ◌<◌, ◌≤◌, OnOk, [], ◌∷◌, true};
ghost use Rattle.std.specs.Int.{w64, to_le_bytes};
ghost use Rattle.std.specs.List.{flat_map};
ghost use Rattle.cet_isa.specs.Canonical.{fits_byte, one_byte};
ghost use Rattle.cet_isa.specs.Spelled.{has_spelling};
ghost use Rattle.cet_syntax.specs.Tokens.{tokens};
ghost use Rattle.cet_syntax.specs.Line.{Code, bytes_in, quads_in};
ghost use Rattle.cet_asm.specs.Layout.{size_of, program_limit};
ghost use Rattle.cet_asm.specs.Program.{item_bytes, short_opcode, short_distance, is_in_reach, code_bytes, bytes_of};
ghost use Rattle.cet_syntax.specs.Views.{fixups_view, statement_view, item_view, IsSpelledStatement};
ghost use Rattle.cet_asm.specs.Passes.{IsWithin};
ghost use Rattle.cet_asm.specs.Places.{symbols_view, IsSmall};

use crate::checks::short_distance;
use crate::filling::filled;
use crate::labels::{Labels, resolved_in, symbol_address};
use crate::layout::{address_of, symbol_of};
use crate::sections::LocationCounter;
use crate::sizes::spell;
use cet_isa::Instr;
use cet_syntax::{Fixups, Item, Statement, next_byte, next_quad};
use cet_words::{Bytes, NoMemory};
use std::alloc::Global;

fn put_values(alloc: Global, out: &mut Bytes, text: &[u8]) -> Result<(), NoMemory>
    ensures { OnOk result (out.new ≡ out.old ++ bytes_in (tokens text.now)) }
{
    let mut rest = text;
    while let Some((byte, after)) = next_byte(rest) {
        out.push(alloc, byte)?;
        rest = after;
    }
    Ok(())
}

fn item_word<'a>(labels: &Labels<'a>, item: Item<'a>) -> u64
    requires { IsSmall (symbols_view labels.now) }
    ensures { to_le_bytes w64 result ≡ item_bytes (symbols_view labels.now) (item_view item.entry) }
{
    match item {
        Item::Known(word) => word,
        Item::Named(name) => symbol_address(labels, name),
    }
}

fn put_quads<'a>(
    alloc: Global,
    out: &mut Bytes,
    labels: &Labels<'a>,
    text: &'a [u8],
) -> Result<(), NoMemory>
    requires { IsSmall (symbols_view labels.now) }
    ensures { OnOk result (out.new ≡ out.old ++ flat_map (item_bytes (symbols_view labels.now)) (quads_in (tokens text.now))) }
{
    let mut rest = text;
    while let Some((item, after)) = next_quad(rest) {
        out.extend(alloc, &item_word(labels, item).to_le_bytes())?;
        rest = after;
    }
    Ok(())
}

fn short_opcode(instr: Instr) -> u8
    ensures { result ≡ short_opcode instr }
{
    match instr {
        Instr::Jcc { cond, .. } => 0x70 + cond.number(),
        _ => 0xeb,
    }
}

/// A signed number of one byte.
fn one_byte(value: i32) -> u8
    requires { fits_byte value ≡ true }
    ensures { result ∷ [] ≡ one_byte value }
{
    (value as i8).cast_unsigned()
}

/// A jump with a target of one byte.
fn put_short<'a>(
    alloc: Global,
    out: &mut Bytes,
    labels: &Labels<'a>,
    here: LocationCounter,
    instr: Instr,
    name: &'a [u8],
) -> Result<(), NoMemory>
    requires small { IsSmall (symbols_view labels.now) }
    requires within { IsWithin here }
    requires reach { fits_byte (short_distance (symbols_view labels.now) here name.now) ≡ true }
    ensures { OnOk result (out.new ≡ out.old ++ short_opcode instr ∷ one_byte (short_distance (symbols_view labels.now) here name.now)) }
{
    let distance = short_distance(labels, here, name);
    out.push(alloc, short_opcode(instr))?;
    out.push(alloc, one_byte(distance))
}

/// An instruction of so many bytes.
#[tactic(auto, using(crate::proofs::FillingLaws::filling_laws), unfolding(crate::specs::Program::is_in_reach))]
fn put_code<'a>(
    alloc: Global,
    out: &mut Bytes,
    labels: &Labels<'a>,
    here: LocationCounter,
    instr: Instr,
    fixups: Fixups<'a>,
    size: u128,
) -> Result<(), NoMemory>
    requires small { IsSmall (symbols_view labels.now) }
    requires within { IsWithin here }
    requires spelled { has_spelling instr ≡ true }
    requires size { size ≡ size_of (Code instr (fixups_view fixups)) }
    requires short { size ≤ program_limit }
    requires reach { is_in_reach (symbols_view labels.now) here (Code instr (fixups_view fixups)) ≡ true }
    ensures { OnOk result (out.new ≡ out.old ++ code_bytes (symbols_view labels.now) here instr (fixups_view fixups.entry)) }
{
    match fixups.short {
        Some(name) => put_short(alloc, out, labels, here, instr, name),
        None => {
            let next = address_of(labels.text_size, symbol_of(here)) + size as u64;
            spell(alloc, out, filled(next, resolved_in(labels, fixups), instr))
        }
    }
}

/// Appends the bytes of a line that has so many and stands here.
#[tactic(auto, unfolding(crate::specs::Program::bytes_of))]
pub(crate) fn put_statement<'a>(
    alloc: Global,
    out: &mut Bytes,
    labels: &Labels<'a>,
    here: LocationCounter,
    statement: Statement<'a>,
    size: u128,
) -> Result<(), NoMemory>
    requires small { IsSmall (symbols_view labels.now) }
    requires within { IsWithin here }
    requires spelled { IsSpelledStatement statement }
    requires size { size ≡ size_of (statement_view statement) }
    requires short { size ≤ program_limit }
    requires reach { is_in_reach (symbols_view labels.now) here (statement_view statement) ≡ true }
    ensures { OnOk result (out.new ≡ out.old ++ bytes_of (symbols_view labels.now) here (statement_view statement.entry)) }
{
    match statement {
        Statement::Zero(count) => out.extend_with(alloc, 0, count as usize),
        Statement::Values(text) => put_values(alloc, out, text),
        Statement::Quads(text) => put_quads(alloc, out, labels, text),
        Statement::Code(instr, fixups) => put_code(alloc, out, labels, here, instr, fixups, size),
        _ => Ok(()),
    }
}
