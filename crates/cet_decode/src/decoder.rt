//! The decoder's answer.

ghost use Rattle.std.specs.Prelude.{◌≡◌, ℕ, ◌<◌, ◌≤◌, List, length, Err};
ghost use Rattle.cet_isa.specs.declared.instructions.Instr.{Instr};
ghost use Rattle.cet_isa.specs.Spells.{Spells};
ghost use Rattle.cet_isa.specs.Forms.{forms};
ghost use Rattle.cet_isa.specs.Reading.{any_at, decoding_of, decoded, read_length, IsAnswer};
ghost use Rattle.cet_decode.specs.Decoded.{decoding, LenAtMost};
ghost use Rattle.cet_decode.specs.Views.{miss_view, found_view, Gives};

use crate::forms::FORMS;
use crate::index::{read_apart, row_of};
use crate::leads::lead_of;
use crate::meaning::put_instr;
use crate::reading::{Found, Miss, found_behind};
use cet_isa::Instr;

/// What stands at the front of some bytes.
#[derive(Clone, Copy, Debug, PartialEq, Eq)]
pub enum Decoded {
    /// An instruction, spelled by the first `len` bytes.
    Ok { instr: Instr, len: u8 },
    /// A spelling that goes on after the last byte.
    Short,
    /// No spelling.
    Unknown,
}

fn missed(miss: Miss) -> Decoded
    ensures reads { decoding result ≡ decoding_of 0 (Err (miss_view miss)) }
    ensures len { LenAtMost 12 result }
{
    match miss {
        Miss::Ends => Decoded::Short,
        Miss::Differs => Decoded::Unknown,
    }
}

/// What stands at the front of the bytes, by the table.
#[inline(always)]
fn found_in(bytes: &[u8]) -> Result<Found<'static, '_>, Miss>
    ensures { Gives (λ x. found_view x.kind.now x.parts x.imm.now x.rest.now) result (any_at forms bytes.now) }
{
    let Some(lead) = lead_of(bytes) else {
        // It stands in a place of its own, so that what is found otherwise need not stand in memory.
        let apart = read_apart(bytes);
        return apart;
    };
    let Some(form) = row_of(&FORMS, &lead) else {
        return Err(Miss::Differs);
    };
    found_behind(form, lead.rex, lead.opcode, lead.rest)
}

// It writes its answer where the caller wants it, since an answer that is handed on is copied each time, and it stands
// apart in the program, so that each way through it writes there itself.
#[inline(never)]
#[tactic(auto, unfolding(cet_isa::specs::Reading::decoded))]
fn answer(bytes: &[u8], out: &mut Decoded)
    ensures reads { decoding out.new ≡ decoded bytes.now }
    ensures len { LenAtMost 12 out.new }
{
    match found_in(bytes) {
        Ok(found) => {
            let len = (bytes.len() - found.rest.len()) as u8;
            put_instr(found.kind, found.parts, found.imm, len, out);
        }
        Err(miss) => *out = missed(miss),
    }
}

/// The instruction at the front of the bytes, by the table of instructions (Intel SDM volume 2, in the
/// forms that the machine takes).
#[inline(always)]
pub fn decode(bytes: &[u8]) -> Decoded
    // Ok, Short and Unknown come exactly where the bytes begin by a spelling, are part of one, or neither.
    ensures exact { IsAnswer bytes.now (decoding result) }
    ensures reads { decoding result ≡ decoded bytes.now }

    ensures len { LenAtMost 12 result }
    ensures part { result ≡ Decoded.Short → length bytes.now < 12 }
    ensures longest { (spelling : List ℕ) (instr : Instr) → Spells spelling instr → length spelling ≤ 12 }
{
    let mut answered = Decoded::Unknown;
    answer(bytes, &mut answered);
    answered
}

/// The length of the instruction at the front of the bytes, 0 where there is none.
pub fn instruction_length(bytes: &[u8]) -> u8
    ensures { result ≡ read_length (decoded bytes.now) }
{
    match decode(bytes) {
        Decoded::Ok { len, .. } => len,
        Decoded::Short | Decoded::Unknown => 0,
    }
}
