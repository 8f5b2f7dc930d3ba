//! The fields of a file, and its program headers.

ghost use Rattle.std.specs.Prelude.{◌≡◌, ◌≤◌, ◌+◌, ◌*◌, length, IfOk, slice_index};
ghost use Rattle.cet_elf.specs.Headers.{half, word, xword, header_at, headers_from, headers, is_load, is_writable, is_executable};

use cet_base::{get_u16, get_u32, get_u64};
use cet_words::NoMemory;
use std::alloc::Global;

/// PT_LOAD, the type of a segment that is loaded.
const LOAD: u32 = 1;

/// The size of a program header, in bytes.
const HEADER_SIZE: u64 = 56;

/// A program header (System V ABI, Elf64_Phdr), without its physical address and its alignment.
#[derive(Clone, Copy, Debug, PartialEq, Eq)]
pub(crate) struct ProgramHeader {
    /// Its place in the file.
    pub(crate) place: u64,
    pub(crate) kind: u32,
    pub(crate) flags: u32,
    pub(crate) offset: u64,
    pub(crate) address: u64,
    pub(crate) file_size: u64,
    pub(crate) memory_size: u64,
}

/// The byte at a place, or 0 where the file has none.
pub(crate) fn byte(bytes: &[u8], at: usize) -> u8
    ensures { result ≡ slice_index bytes.now at }
{
    bytes.get(at).copied().unwrap_or(0)
}

/// The field of 16 bits at a place, or 0 where it isn't wholly in the file.
#[tactic(auto, unfolding(crate::specs::Headers::half))]
pub(crate) fn half(bytes: &[u8], at: usize) -> u16
    ensures { result ≡ half bytes.now at }
{
    get_u16(bytes, at).unwrap_or(0)
}

/// The field of 32 bits at a place, or 0 where it isn't wholly in the file.
#[tactic(auto, unfolding(crate::specs::Headers::word))]
pub(crate) fn word(bytes: &[u8], at: usize) -> u32
    ensures { result ≡ word bytes.now at }
{
    get_u32(bytes, at).unwrap_or(0)
}

/// The field of 64 bits at a place, or 0 where it isn't wholly in the file.
#[tactic(auto, unfolding(crate::specs::Headers::xword))]
pub(crate) fn xword(bytes: &[u8], at: usize) -> u64
    ensures { result ≡ xword bytes.now at }
{
    get_u64(bytes, at).unwrap_or(0)
}

/// Whether the header is that of a segment to load.
pub(crate) fn is_load(header: &ProgramHeader) -> bool
    ensures { result ≡ is_load header.now }
{
    header.kind == LOAD
}

/// Whether the segment may be written (PF_W).
pub(crate) fn is_writable(header: &ProgramHeader) -> bool
    ensures { result ≡ is_writable header.now }
{
    header.flags & 2 == 2
}

/// Whether the segment may be executed (PF_X).
pub(crate) fn is_executable(header: &ProgramHeader) -> bool
    ensures { result ≡ is_executable header.now }
{
    header.flags & 1 == 1
}

/// The program header at a place.
#[tactic(auto, unfolding(crate::specs::Headers::header_at))]
fn header_at(bytes: &[u8], at: usize) -> ProgramHeader
    requires { at + 56 ≤ length bytes.now }
    ensures { result ≡ header_at bytes.now at }
{
    ProgramHeader {
        place: at as u64,
        kind: word(bytes, at),
        flags: word(bytes, at + 4),
        offset: xword(bytes, at + 8),
        address: xword(bytes, at + 16),
        file_size: xword(bytes, at + 32),
        memory_size: xword(bytes, at + 40),
    }
}

/// So many program headers from a place on.
#[tactic(auto, unfolding(crate::specs::Headers::headers_from))]
fn headers_from(
    alloc: Global,
    bytes: &[u8],
    table: u64,
    count: u16,
) -> Result<Vec<ProgramHeader>, NoMemory>
    requires { table + 56 * count ≤ length bytes.now }
    ensures { IfOk result (λ v. v.items ≡ headers_from bytes.now table count) }
{
    let mut headers = Vec::new(alloc);
    for index in 0..u64::from(count) {
        headers.push(header_at(bytes, (table + HEADER_SIZE * index) as usize))?;
    }
    Ok(headers)
}

/// The program headers of a file, in the order of its table.
#[tactic(auto, unfolding(crate::specs::Headers::headers))]
pub(crate) fn headers(alloc: Global, bytes: &[u8]) -> Result<Vec<ProgramHeader>, NoMemory>
    requires { xword bytes.now 32 + 56 * half bytes.now 56 ≤ length bytes.now }
    ensures { IfOk result (λ v. v.items ≡ headers bytes.now) }
{
    headers_from(alloc, bytes, xword(bytes, 32), half(bytes, 56))
}
