//! The listing of an image's code.

ghost use Rattle.std.specs.Prelude.{◌≡◌, false, ◌+◌, ◌^◌, ◌<◌, ◌≤◌, ◌++◌, ◌∷◌, [], ℕ, List, All, length, drop, replicate, OnOk, IfOk};
ghost use Rattle.std.specs.List.{flat_map};
ghost use Rattle.cet_words.specs.Job.{IsSegment};
ghost use Rattle.cet_base.specs.Digits.{hex2, hex16};
ghost use Rattle.cet_trace.specs.Line.{line, spaced};
ghost use Rattle.cet_top.specs.Listing.{Instruction, IsFirst, IsListing, Lists, ListsIf, Lone, Piece, piece_bytes, piece_line, piece_text, segment_code};

use cet_base::{hex2, hex16};
use cet_decode::{Decoded, decode};
use cet_encode::text;
use cet_isa::Instr;
use cet_words::{Bytes, Image, NoMemory, Segment};
use std::alloc::Global;

/// Appends the two digits of each byte.
fn put_digits(alloc: Global, out: &mut Bytes, bytes: &[u8]) -> Result<(), NoMemory>
    ensures { OnOk result (out.new ≡ out.old ++ flat_map hex2 bytes.now) }
{
    for byte in bytes {
        out.extend(alloc, &hex2(*byte))?;
    }
    Ok(())
}

/// Appends an address, the digits of the bytes that stand there, and a space after each.
fn put_front(alloc: Global, out: &mut Bytes, addr: u64, bytes: &[u8]) -> Result<(), NoMemory>
    ensures { OnOk result (out.new ≡ out.old ++ hex16 addr ++ 32 ∷ flat_map hex2 bytes.now ++ 32 ∷ []) }
{
    out.extend(alloc, &hex16(addr))?;
    out.push(alloc, b' ')?;
    put_digits(alloc, out, bytes)?;
    out.push(alloc, b' ')
}

/// Appends the line of an instruction.
#[tactic(auto, unfolding(cet_trace::specs::Line::line))]
fn put_instruction(
    alloc: Global,
    out: &mut Bytes,
    addr: u64,
    spelling: &[u8],
    instr: &Instr,
) -> Result<(), NoMemory>
    ensures { OnOk result (out.new ≡ out.old ++ piece_line addr (Instruction instr.now spelling.now)) }
{
    put_front(alloc, out, addr, spelling)?;
    text(alloc, instr, out)?;
    out.push(alloc, b'\n')
}

/// Appends the text of a byte with which no instruction begins.
fn put_byte(alloc: Global, out: &mut Bytes, byte: u8) -> Result<(), NoMemory>
    ensures { OnOk result (out.new ≡ out.old ++ piece_text (Lone byte)) }
{
    out.extend(alloc, b".byte 0x")?;
    out.extend(alloc, &hex2(byte))
}

/// Appends the line of such a byte.
#[tactic(auto, unfolding(cet_trace::specs::Line::line))]
fn put_lone(alloc: Global, out: &mut Bytes, addr: u64, byte: u8) -> Result<(), NoMemory>
    ensures { OnOk result (out.new ≡ out.old ++ piece_line addr (Lone byte)) }
{
    put_front(alloc, out, addr, &[byte])?;
    put_byte(alloc, out, byte)?;
    out.push(alloc, b'\n')
}

/// Appends the line of what some code begins with, and answers how many bytes that has.
fn put_piece(alloc: Global, out: &mut Bytes, addr: u64, code: &[u8]) -> Result<usize, NoMemory>
    requires { 0 < length code.now }
    ensures some { IfOk result (λ count. 0 < count) }
    ensures piece { IfOk result (λ count. (p : Piece) × IsFirst p code.now × (count ≡ length (piece_bytes p))
        × (code.now ≡ piece_bytes p ++ drop count code.now) × (out.new ≡ out.old ++ piece_line addr p)) }
{
    match decode(code) {
        Decoded::Ok { instr, len } => {
            let (spelling, _rest) = code.split_at(len as usize);
            put_instruction(alloc, out, addr, spelling, &instr)?;
            Ok(len as usize)
        }
        Decoded::Short | Decoded::Unknown => {
            put_lone(alloc, out, addr, code[0])?;
            Ok(1)
        }
    }
}

/// Appends the lines of code that stands at an address.
fn put_code(alloc: Global, out: &mut Bytes, addr: u64, code: &[u8]) -> Result<(), NoMemory>
    requires { addr + length code.now < 2 ^ 64 }
    ensures { OnOk result ((text : List ℕ) × Lists addr code.now text × (out.new ≡ out.old ++ text)) }
{
    let mut at = 0;
    'pieces: while at < code.len() {
        at += put_piece(alloc, out, addr + at as u64, &code[at..])?;
    }
    Ok(())
}

/// All bytes of a segment, with the zeros that follow those of the file.
fn segment_code(alloc: Global, segment: &Segment) -> Result<Bytes, NoMemory>
    requires { IsSegment segment.now }
    ensures { IfOk result (λ code. code ≡ segment_code segment.now) }
{
    let mut code = Bytes::new(alloc);
    code.extend(alloc, segment.bytes.as_slice())?;
    let zeros = segment.size as usize - segment.bytes.len();
    code.extend_with(alloc, 0, zeros)?;
    Ok(code)
}

/// Appends the lines of a segment, where it is executable.
pub(crate) fn put_segment(alloc: Global, out: &mut Bytes, segment: &Segment) -> Result<(), NoMemory>
    requires { IsSegment segment.now }
    ensures { OnOk result ((text : List ℕ) × ListsIf segment.now.exec segment.now text × (out.new ≡ out.old ++ text)) }
{
    if !segment.exec {
        return Ok(());
    }
    let code = segment_code(alloc, segment)?;
    put_code(alloc, out, segment.start, code.as_slice())
}

/// The lines of the executable segments.
fn segments_listing(alloc: Global, segments: &[Segment]) -> Result<Bytes, NoMemory>
    requires { All IsSegment segments.now }
    ensures { IfOk result (λ text. IsListing segments.now text) }
{
    let mut out = Bytes::new(alloc);
    for segment in segments {
        put_segment(alloc, &mut out, segment)?;
    }
    Ok(out)
}

/// The listing of an image: a line for each instruction of its executable segments, in the order of its
/// program headers, and one for each byte with which no instruction begins.
pub(crate) fn listing(alloc: Global, image: &Image) -> Result<Bytes, NoMemory>
    ensures { IfOk result (λ text. IsListing image.now.segments text) }
{
    segments_listing(alloc, image.segments.as_slice())
}
