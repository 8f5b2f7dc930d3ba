//! Reading an instruction from the front of bytes, row by row of the table.

ghost use Rattle.std.specs.Prelude.{◌≡◌, map};
ghost use Rattle.cet_isa.specs.Forms.{forms};
ghost use Rattle.cet_isa.specs.Meaning.{operand_of};
ghost use Rattle.cet_isa.specs.Spells.{has, allows, rex_pattern, places, imm_len, rex_in, modrm_in};
ghost use Rattle.cet_isa.specs.Reading.{byte_at, cells_at, bytes_at, operand_at, read_at, form_at, row_at, any_at};
ghost use Rattle.cet_decode.specs.Views.{pattern_view, place_view, wide_view, rex_view, imm_view, form_view, found_view, Gives};
ghost use Rattle.cet_decode.specs.Lead.{rex_at, operand_behind, opcode_from, row_behind, next_of, takes_next, takes};

use crate::addressing::{disp_count, sib_count};
use crate::fields::{Parts, byte, signed};
use crate::forms::{FORMS, Form, Imm, Kind, Pattern, Rex, Wide};

/// Why nothing was read: the bytes end too early, or they differ from what was to be read.
#[derive(Clone, Copy, Drop)]
pub enum Miss {
    Ends,
    Differs,
}

/// What a row reads: the kind of its instruction, the fields, the immediate, and the bytes behind it.
#[derive(Clone, Copy)]
pub struct Found<'r, 'a> {
    pub kind: &'r Kind,
    pub parts: Parts,
    pub imm: &'a [u8],
    pub rest: &'a [u8],
}

fn is_in(pattern: &Pattern, byte: u8) -> bool
    ensures { result ≡ has (pattern_view pattern.now) byte }
{
    byte & pattern.mask == pattern.value && u16::from(byte) < pattern.below
}

#[tactic(auto, unfolding(cet_isa::specs::Reading::byte_at))]
fn byte_of(place: Option<Pattern>, bytes: &[u8]) -> Result<(u8, &[u8]), Miss>
    ensures { Gives (λ x. (x.0, x.1.now)) result (byte_at (place_view place) bytes.now) }
{
    let Some(pattern) = place else {
        return Ok((0, bytes));
    };
    match bytes {
        [] => Err(Miss::Ends),
        [byte, rest @ ..] => {
            if is_in(&pattern, *byte) {
                Ok((*byte, rest))
            } else {
                Err(Miss::Differs)
            }
        }
    }
}

fn pattern_of(rex: Rex) -> Option<Pattern>
    ensures { place_view result ≡ rex_pattern (rex_view rex) }
{
    match rex {
        Rex::Absent => None,
        Rex::Clear => Some(Pattern {
            mask: 0xf8,
            value: 0x40,
            below: 256,
        }),
        Rex::Set => Some(Pattern {
            mask: 0xf8,
            value: 0x48,
            below: 256,
        }),
    }
}

#[tactic(auto, unfolding(cet_isa::specs::Reading::cells_at))]
fn cells<'a>(form: &Form, rex: Rex, bytes: &'a [u8]) -> Result<([u8; 8], &'a [u8]), Miss>
    ensures { Gives (λ x. (x.0, x.1.now)) result (cells_at (places (form_view form.now) (rex_view rex)) bytes.now) }
{
    let (first, rest) = byte_of(form.first, bytes)?;
    let (second, rest) = byte_of(form.second, rest)?;
    let (third, rest) = byte_of(form.third, rest)?;
    let (prefix, rest) = byte_of(pattern_of(rex), rest)?;
    let (escape, rest) = byte_of(form.escape, rest)?;
    let (escape2, rest) = byte_of(form.escape2, rest)?;
    let (opcode, rest) = byte_of(Some(form.opcode), rest)?;
    let (modrm, rest) = byte_of(form.modrm, rest)?;
    Ok((
        [first, second, third, prefix, escape, escape2, opcode, modrm],
        rest,
    ))
}

#[tactic(auto, unfolding(cet_isa::specs::Reading::bytes_at))]
fn bytes_of(count: usize, bytes: &[u8]) -> Result<(&[u8], &[u8]), Miss>
    ensures { Gives (λ x. (x.0.now, x.1.now)) result (bytes_at count bytes.now) }
{
    if bytes.len() < count {
        return Err(Miss::Ends);
    }
    Ok(bytes.split_at(count))
}

/// The SIB and the displacement that follow, 0 where there is none: with REX and ModRM they say what the field rm names.
#[inline(always)]
#[tactic(auto, using(crate::proofs::LeadLaws::operand_at_zero))]
fn place_behind(rex: u8, modrm: u8, bytes: &[u8]) -> Result<(u8, i32, &[u8]), Miss>
    ensures { Gives (λ x. (operand_of rex modrm x.0 x.1, x.2.now)) result (operand_behind rex modrm bytes.now) }
{
    // Neither SIB nor displacement follows.
    if modrm == 0 {
        return Ok((0, 0, bytes));
    }
    let (sib, rest) = bytes_of(sib_count(modrm), bytes)?;
    let sib = byte(sib, 0);
    let (disp, rest) = bytes_of(disp_count(modrm, sib), rest)?;
    Ok((sib, signed(disp), rest))
}

#[tactic(auto, unfolding(cet_isa::specs::Reading::operand_at))]
fn place_of_cells(cells: [u8; 8], bytes: &[u8]) -> Result<(u8, i32, &[u8]), Miss>
    ensures { Gives (λ x. (operand_of (rex_in cells) (modrm_in cells) x.0 x.1, x.2.now)) result (operand_at cells bytes.now) }
{
    place_behind(cells[3], cells[7], bytes)
}

fn imm_count(imm: Imm) -> usize
    ensures { result ≡ imm_len (imm_view imm) }
{
    match imm {
        Imm::Absent => 0,
        Imm::Byte => 1,
        Imm::Word => 2,
        Imm::Dword => 4,
        Imm::Qword => 8,
    }
}

#[tactic(auto, unfolding(cet_isa::specs::Reading::read_at))]
fn read<'r, 'a>(form: &'r Form, rex: Rex, bytes: &'a [u8]) -> Result<Found<'r, 'a>, Miss>
    ensures { Gives (λ x. found_view x.kind.now x.parts x.imm.now x.rest.now) result (read_at (form_view form.now) (rex_view rex) bytes.now) }
{
    let (cells, rest) = cells(form, rex, bytes)?;
    let (sib, disp, rest) = place_of_cells(cells, rest)?;
    let (imm, rest) = bytes_of(imm_count(form.imm), rest)?;
    let parts = Parts {
        rex: cells[3],
        opcode: cells[6],
        modrm: cells[7],
        sib,
        disp,
    };
    Ok(Found {
        kind: &form.kind,
        parts,
        imm,
        rest,
    })
}

fn is_allowed(wide: Wide, rex: Rex) -> bool
    ensures { result ≡ allows (wide_view wide) (rex_view rex) }
{
    match (wide, rex) {
        (Wide::Sized, _) => true,
        (Wide::Ignored, _) => true,
        (Wide::Set, Rex::Set) => true,
        (Wide::Set, _) => false,
        (Wide::Clear, Rex::Set) => false,
        (Wide::Clear, _) => true,
        (Wide::Never, Rex::Absent) => true,
        (Wide::Never, _) => false,
    }
}

#[tactic(auto, unfolding(cet_isa::specs::Reading::form_at))]
fn read_allowed<'r, 'a>(form: &'r Form, rex: Rex, bytes: &'a [u8]) -> Result<Found<'r, 'a>, Miss>
    ensures { Gives (λ x. found_view x.kind.now x.parts x.imm.now x.rest.now) result (form_at (form_view form.now) (rex_view rex) bytes.now) }
{
    if is_allowed(form.wide, rex) {
        read(form, rex, bytes)
    } else {
        Err(Miss::Differs)
    }
}

/// The opcode: the byte by which the row was found, or the one behind it where that is the second before the opcode.
#[inline(always)]
fn opcode_of<'a>(form: &Form, found: u8, bytes: &'a [u8]) -> Result<(u8, &'a [u8]), Miss>
    ensures { Gives (λ x. (x.0, x.1.now)) result (opcode_from (place_view form.now.escape2) (pattern_view form.now.opcode) found bytes.now) }
{
    match form.escape2 {
        None => Ok((found, bytes)),
        Some(_) => byte_of(Some(form.opcode), bytes),
    }
}

/// What a row reads from behind the byte by which it was found; REX is 0 where there is none.
#[inline(always)]
#[tactic(auto, unfolding(crate::specs::Lead::row_behind))]
pub fn found_behind<'r, 'a>(
    form: &'r Form,
    rex: u8,
    found: u8,
    bytes: &'a [u8],
) -> Result<Found<'r, 'a>, Miss>
    ensures { Gives (λ x. found_view x.kind.now x.parts x.imm.now x.rest.now) result (row_behind (form_view form.now) rex found bytes.now) }
{
    let (opcode, rest) = opcode_of(form, found, bytes)?;
    let (modrm, rest) = byte_of(form.modrm, rest)?;
    let (sib, disp, rest) = place_behind(rex, modrm, rest)?;
    let (imm, rest) = bytes_of(imm_count(form.imm), rest)?;
    let parts = Parts {
        rex,
        opcode,
        modrm,
        sib,
        disp,
    };
    Ok(Found {
        kind: &form.kind,
        parts,
        imm,
        rest,
    })
}

fn rex_of(rex: u8) -> Rex
    ensures { rex_view result ≡ rex_at rex }
{
    if rex == 0 {
        Rex::Absent
    } else if rex / 8 % 2 == 1 {
        Rex::Set
    } else {
        Rex::Clear
    }
}

/// What the row has behind the byte by which it is found: ModRM, or its opcode.
#[inline(always)]
fn next_of(form: &Form) -> Option<Pattern>
    ensures { place_view result ≡ next_of (place_view form.now.escape2) (pattern_view form.now.opcode) (place_view form.now.modrm) }
{
    match form.escape2 {
        None => form.modrm,
        Some(_) => Some(form.opcode),
    }
}

fn takes_next(place: Option<Pattern>, bytes: &[u8]) -> bool
    ensures { result ≡ takes_next (place_view place) bytes.now }
{
    let Some(pattern) = place else {
        return true;
    };
    match bytes {
        [] => true,
        [byte, ..] => is_in(&pattern, *byte),
    }
}

/// Whether a row takes this REX (0 for none), and the first of the bytes behind that by which it was found.
pub fn takes(form: &Form, rex: u8, bytes: &[u8]) -> bool
    ensures { result ≡ takes (form_view form.now) rex bytes.now }
{
    is_allowed(form.wide, rex_of(rex)) && takes_next(next_of(form), bytes)
}

/// An instruction by this row, from its first byte on.
#[tactic(auto, unfolding(cet_isa::specs::Reading::row_at))]
pub fn read_row<'r, 'a>(form: &'r Form, bytes: &'a [u8]) -> Result<Found<'r, 'a>, Miss>
    ensures { Gives (λ x. found_view x.kind.now x.parts x.imm.now x.rest.now) result (row_at (form_view form.now) bytes.now) }
{
    let mut miss = Miss::Differs;
    match read_allowed(form, Rex::Absent, bytes) {
        Ok(x) => return Ok(x),
        Err(Miss::Ends) => miss = Miss::Ends,
        Err(Miss::Differs) => {}
    }
    match read_allowed(form, Rex::Clear, bytes) {
        Ok(x) => return Ok(x),
        Err(Miss::Ends) => miss = Miss::Ends,
        Err(Miss::Differs) => {}
    }
    match read_allowed(form, Rex::Set, bytes) {
        Ok(x) => return Ok(x),
        Err(Miss::Ends) => miss = Miss::Ends,
        Err(Miss::Differs) => {}
    }
    Err(miss)
}

#[tactic(auto, unfolding(cet_isa::specs::Reading::any_at))]
fn read_any<'r, 'a>(rows: &'r [Form], bytes: &'a [u8]) -> Result<Found<'r, 'a>, Miss>
    ensures { Gives (λ x. found_view x.kind.now x.parts x.imm.now x.rest.now) result (any_at (map form_view rows.now) bytes.now) }
{
    let mut miss = Miss::Differs;
    for form in rows {
        match read_row(form, bytes) {
            Ok(x) => return Ok(x),
            Err(Miss::Ends) => miss = Miss::Ends,
            Err(Miss::Differs) => {}
        }
    }
    Err(miss)
}

/// An instruction by the table.
pub fn read_listed(bytes: &[u8]) -> Result<Found<'static, '_>, Miss>
    ensures { Gives (λ x. found_view x.kind.now x.parts x.imm.now x.rest.now) result (any_at forms bytes.now) }
{
    read_any(&FORMS, bytes)
}
