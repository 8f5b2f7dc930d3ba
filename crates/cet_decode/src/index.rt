//! Reading by the maps of opcodes, so that only the rows that may begin so are tried.
//!
//! Rows and fields are handed on, and no instruction, which would be copied each time: that would cost more than the
//! decoding itself.

ghost use Rattle.std.specs.Prelude.{◌≡◌, Some, slice_get};
ghost use Rattle.std.specs.Option.{option_copied};
ghost use Rattle.cet_isa.specs.Forms.{forms};
ghost use Rattle.cet_isa.specs.Reading.{any_at};
ghost use Rattle.cet_decode.specs.Views.{found_view, Gives};
ghost use Rattle.cet_decode.specs.Index.{maybe_row_at, some_at, picks_by};
ghost use Rattle.cet_decode.specs.Lead.{taker, chosen, key_of, mapped, mapped_by, prefixed_by, numbers_by};

use crate::forms::{FORMS, Form};
use crate::leads::{Lead, has_long_prefix};
use crate::maps::{LONG_PREFIXED, ONE_BYTE, PICKS, PREFIXED, PREFIXED_TWO_BYTE, TWO_BYTE};
use crate::reading::{Found, Miss, read_listed, read_row, takes};

/// The row with this number, where it takes REX and the bytes behind the opcode.
#[inline(always)]
fn taker<'r>(rows: &'r [Form], number: u8, rex: u8, bytes: &[u8]) -> Option<&'r Form>
    ensures { option_copied result ≡ taker (slice_get rows.now number) rex bytes.now }
{
    match rows.get(usize::from(number)) {
        Some(form) => {
            if takes(form, rex, bytes) {
                Some(form)
            } else {
                None
            }
        }
        None => None,
    }
}

/// The first of the rows with these numbers that takes REX and the bytes behind the opcode.
#[inline(always)]
#[tactic(auto, unfolding(crate::specs::Lead::chosen))]
fn choose<'r>(rows: &'r [Form], numbers: &[u8], rex: u8, bytes: &[u8]) -> Option<&'r Form>
    ensures { option_copied result ≡ chosen rows.now numbers.now rex bytes.now }
{
    for number in numbers {
        match taker(rows, *number, rex, bytes) {
            Some(form) => return Some(form),
            None => {}
        }
    }
    None
}

/// The row by the list with this number.
#[inline(always)]
fn row_listed<'r>(
    rows: &'r [Form],
    picks: &[[u8; 5]],
    list: usize,
    lead: &Lead<'_>,
) -> Option<&'r Form>
    ensures { option_copied result ≡ chosen rows.now (picks_by (Some list) picks.now) lead.now.rex lead.now.rest.now }
{
    match picks.get(list) {
        Some(numbers) => choose(rows, numbers, lead.rex, lead.rest),
        None => choose(rows, &[], lead.rex, lead.rest),
    }
}

#[inline(always)]
fn row_mapped<'r>(
    rows: &'r [Form],
    map: &[u8],
    picks: &[[u8; 5]],
    lead: &Lead<'_>,
) -> Option<&'r Form>
    ensures { option_copied result ≡ chosen rows.now (mapped map.now picks.now lead.now.opcode) lead.now.rex lead.now.rest.now }
{
    match map.get(usize::from(lead.opcode)) {
        Some(list) => row_listed(rows, picks, usize::from(*list), lead),
        None => choose(rows, &[], lead.rex, lead.rest),
    }
}

/// The row that takes what stands behind REX and 0f, by the map of its opcode.
#[inline(always)]
fn row_plain<'r>(rows: &'r [Form], lead: &Lead<'_>) -> Option<&'r Form>
    ensures { option_copied result ≡ chosen rows.now (mapped_by lead.now.escaped ONE_BYTE TWO_BYTE PICKS lead.now.opcode) lead.now.rex lead.now.rest.now }
{
    if lead.escaped {
        row_mapped(rows, &TWO_BYTE, &PICKS, lead)
    } else {
        row_mapped(rows, &ONE_BYTE, &PICKS, lead)
    }
}

fn row_found<'r>(
    rows: &'r [Form],
    picks: &[[u8; 5]],
    list: Option<u16>,
    lead: &Lead<'_>,
) -> Option<&'r Form>
    ensures { option_copied result ≡ chosen rows.now (picks_by list picks.now) lead.now.rex lead.now.rest.now }
{
    match list {
        Some(list) => row_listed(rows, picks, usize::from(list), lead),
        None => choose(rows, &[], lead.rex, lead.rest),
    }
}

/// A prefix and the opcode behind it as one number, as the tables of opcodes behind prefixes have them.
fn key_of(prefix: u8, opcode: u8) -> u16
    ensures { result ≡ key_of prefix opcode }
{
    u16::from(prefix) * 0x100 + u16::from(opcode)
}

/// The row that takes what stands behind a prefix, REX and 0f, by the prefix and the opcode. It stands apart in the
/// program, since few instructions have a prefix, and takes the parts of a lead one by one, so that these stay in
/// registers.
#[inline(never)]
fn row_prefixed<'r>(
    rows: &'r [Form],
    prefix: u8,
    rex: u8,
    escaped: bool,
    opcode: u8,
    rest: &[u8],
) -> Option<&'r Form>
    ensures { option_copied result ≡ chosen rows.now (prefixed_by escaped PREFIXED.rows PREFIXED_TWO_BYTE.rows PICKS (key_of prefix opcode)) rex rest.now }
{
    let lead = Lead {
        prefix: Some(prefix),
        rex,
        escaped,
        opcode,
        rest,
    };
    let key = key_of(prefix, opcode);
    if escaped {
        row_found(rows, &PICKS, PREFIXED_TWO_BYTE.find(key), &lead)
    } else {
        row_found(rows, &PICKS, PREFIXED.find(key), &lead)
    }
}

/// The row that takes what stands there, by what stands before the opcode.
#[inline(always)]
pub fn row_of<'r>(rows: &'r [Form], lead: &Lead<'_>) -> Option<&'r Form>
    ensures { option_copied result ≡ chosen rows.now (numbers_by lead.now.prefix lead.now.escaped lead.now.opcode) lead.now.rex lead.now.rest.now }
{
    match lead.prefix {
        Some(prefix) => {
            row_prefixed(rows, prefix, lead.rex, lead.escaped, lead.opcode, lead.rest)
        }
        None => row_plain(rows, lead),
    }
}

fn read_numbered<'r, 'a>(
    rows: &'r [Form],
    number: u8,
    bytes: &'a [u8],
) -> Result<Found<'r, 'a>, Miss>
    ensures { Gives (λ x. found_view x.kind.now x.parts x.imm.now x.rest.now) result (maybe_row_at (slice_get rows.now number) bytes.now) }
{
    match rows.get(usize::from(number)) {
        Some(form) => read_row(form, bytes),
        None => Err(Miss::Differs),
    }
}

#[tactic(auto, unfolding(crate::specs::Index::some_at))]
fn read_some<'r, 'a>(
    rows: &'r [Form],
    numbers: &[u8],
    bytes: &'a [u8],
) -> Result<Found<'r, 'a>, Miss>
    ensures { Gives (λ x. found_view x.kind.now x.parts x.imm.now x.rest.now) result (some_at rows.now numbers.now bytes.now) }
{
    let mut miss = Miss::Differs;
    for number in numbers {
        match read_numbered(rows, *number, bytes) {
            Ok(x) => return Ok(x),
            Err(Miss::Ends) => miss = Miss::Ends,
            Err(Miss::Differs) => {}
        }
    }
    Err(miss)
}

/// An instruction by the table, where more than one prefix stands before the opcode, or the bytes end before it.
#[inline(never)]
pub fn read_apart(bytes: &[u8]) -> Result<Found<'static, '_>, Miss>
    ensures { Gives (λ x. found_view x.kind.now x.parts x.imm.now x.rest.now) result (any_at forms bytes.now) }
{
    if has_long_prefix(bytes) {
        read_some(&FORMS, &LONG_PREFIXED, bytes)
    } else {
        read_listed(bytes)
    }
}
