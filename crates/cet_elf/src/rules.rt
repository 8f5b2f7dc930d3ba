//! The rules of a file that is loaded, and where a file breaks each of them.

ghost use Rattle.std.specs.Prelude.{◌≡◌, ◌≤◌, ◌+◌, ◌*◌, Bool, not, nat_le};
ghost use Rattle.std.specs.List.{list_any};
ghost use Rattle.cet_elf.specs.Rules.{unless, wrong_byte, magic_breach, class_breach, table_breach, file_breaches, header_breach, is_interpreter, load_breach};
ghost use Rattle.cet_elf.specs.Rules.{is_filled, is_placed, is_aligned, is_guarded, ends_before, shares_page, precedes, is_apart, has_entry, header_breaches};

use crate::headers::{ProgramHeader, byte, half, is_executable, is_load, is_writable, word, xword};
use crate::notes::has_stacks;
use cet_words::{IMAGE_END, IMAGE_START};

/// PT_INTERP, the type of a program header.
const INTERPRETER: u32 = 3;

/// A breach at this place, where what should hold doesn't.
fn unless(holds: bool, at: u64) -> Option<u64>
    ensures { result ≡ unless holds at }
{
    if holds { None } else { Some(at) }
}

fn wrong_byte(bytes: &[u8], at: usize, wanted: u8) -> Option<u64>
    ensures { result ≡ wrong_byte bytes.now at wanted }
{
    unless(byte(bytes, at) == wanted, at as u64)
}

#[tactic(auto, unfolding(crate::specs::Rules::magic_breach))]
fn magic_breach(bytes: &[u8]) -> Option<u64>
    ensures { result ≡ magic_breach bytes.now }
{
    let short = unless(bytes.len() >= 64, bytes.len() as u64);
    let fourth = wrong_byte(bytes, 3, b'F').or(short);
    let third = wrong_byte(bytes, 2, b'L').or(fourth);
    let second = wrong_byte(bytes, 1, b'E').or(third);
    wrong_byte(bytes, 0, 0x7f).or(second)
}

#[tactic(auto, unfolding(crate::specs::Rules::class_breach))]
fn class_breach(bytes: &[u8]) -> Option<u64>
    ensures { result ≡ class_breach bytes.now }
{
    let version = wrong_byte(bytes, 6, 1);
    let order = wrong_byte(bytes, 5, 1).or(version);
    wrong_byte(bytes, 4, 2).or(order)
}

/// Whether so many program headers from a place on lie in a file of this size.
fn is_table_inside(size: u64, table: u64, count: u16) -> bool
    ensures { result ≡ nat_le (table + 56 * count) size }
{
    table <= size && 56 * u64::from(count) <= size - table
}

#[tactic(auto, unfolding(crate::specs::Rules::table_breach))]
fn table_breach(bytes: &[u8]) -> Option<u64>
    ensures { result ≡ table_breach bytes.now }
{
    let count = half(bytes, 56);
    let inside = is_table_inside(bytes.len() as u64, xword(bytes, 32), count);
    let outside = unless(inside, 32);
    let number = unless(1 <= count && count <= 64, 56).or(outside);
    unless(half(bytes, 54) == 56, 54).or(number)
}

/// Where the file header breaks each of the rules 1 to 6.
pub(crate) fn file_breaches(bytes: &[u8]) -> [Option<u64>; 6]
    ensures { result ≡ file_breaches bytes.now }
{
    [
        magic_breach(bytes),
        class_breach(bytes),
        unless(half(bytes, 16) == 2, 16),
        unless(half(bytes, 18) == 62, 18),
        unless(word(bytes, 20) == 1, 20),
        table_breach(bytes),
    ]
}

fn interpreter_breach(headers: &[ProgramHeader]) -> Option<u64>
    ensures { result ≡ header_breach (λ h. not (is_interpreter h)) headers.now }
{
    let broken = headers.iter().find(|header| header.kind == INTERPRETER);
    broken.map(|header| header.place)
}

/// The place of the first PT_LOAD header that fails a test.
fn load_breach<F: Fn(&ProgramHeader) -> bool>(headers: &[ProgramHeader], holds: F) -> Option<u64>
    requires { F.IsAlwaysCallable holds }
    ensures { (test : _ → Bool) → ((h : _) (r : _) → F.post holds h r → r ≡ test h.now) → result ≡ load_breach test headers.now }
{
    let broken = headers
        .iter()
        .find(|header| is_load(header) && !holds(header));
    broken.map(|header| header.place)
}

fn is_filled(size: u64, header: &ProgramHeader) -> bool
    ensures { result ≡ is_filled size header.now }
{
    header.offset <= size
        && header.file_size <= size - header.offset
        && header.file_size <= header.memory_size
}

fn is_placed(header: &ProgramHeader) -> bool
    ensures { result ≡ is_placed header.now }
{
    IMAGE_START <= header.address
        && header.address <= IMAGE_END
        && header.memory_size <= IMAGE_END - header.address
}

fn is_aligned(header: &ProgramHeader) -> bool
    ensures { result ≡ is_aligned header.now }
{
    header.offset % 4096 == header.address % 4096
}

fn is_guarded(header: &ProgramHeader) -> bool
    ensures { result ≡ is_guarded header.now }
{
    !(is_writable(header) && is_executable(header))
}

/// Whether a segment that has bytes ends before the page in which another begins.
fn ends_before(segment: &ProgramHeader, other: &ProgramHeader) -> bool
    requires { 1 ≤ segment.now.memory_size }
    ensures { result ≡ ends_before segment.now other.now }
{
    let page = other.address - other.address % 4096;
    segment.address <= page && segment.memory_size <= page - segment.address
}

/// Whether a page has bytes of both segments.
fn shares_page(one: &ProgramHeader, other: &ProgramHeader) -> bool
    ensures { result ≡ shares_page one.now other.now }
{
    one.memory_size > 0
        && other.memory_size > 0
        && !ends_before(one, other)
        && !ends_before(other, one)
}

/// Whether a header is that of an earlier segment that has a byte in the segment's pages.
fn precedes(other: &ProgramHeader, header: &ProgramHeader) -> bool
    ensures { result ≡ precedes header.now other.now }
{
    is_load(other) && other.place < header.place && shares_page(other, header)
}

/// Whether an earlier segment of the table has a byte in the segment's pages.
fn has_neighbour(headers: &[ProgramHeader], header: &ProgramHeader) -> bool
    ensures { result ≡ list_any (precedes header.now) headers.now }
{
    headers.iter().any(|other| precedes(other, header))
}

/// Whether no earlier segment of the table has a byte in the segment's pages.
fn is_apart(headers: &[ProgramHeader], header: &ProgramHeader) -> bool
    ensures { result ≡ is_apart headers.now header.now }
{
    !has_neighbour(headers, header)
}

/// Whether an address is in an executable segment.
fn has_entry(addr: u64, header: &ProgramHeader) -> bool
    ensures { result ≡ has_entry addr header.now }
{
    is_load(header)
        && is_executable(header)
        && header.address <= addr
        && addr - header.address < header.memory_size
}

fn is_entered(entry: u64, headers: &[ProgramHeader]) -> bool
    ensures { result ≡ list_any (has_entry entry) headers.now }
{
    headers.iter().any(|header| has_entry(entry, header))
}

fn entry_breach(entry: u64, headers: &[ProgramHeader]) -> Option<u64>
    ensures { result ≡ unless (list_any (has_entry entry) headers.now) 24 }
{
    unless(is_entered(entry, headers), 24)
}

/// Where the program headers of a file with these feature bits break each of the rules 7 to 14.
#[tactic(auto, unfolding(crate::specs::Rules::header_breaches))]
pub(crate) fn header_breaches(
    bytes: &[u8],
    features: u32,
    headers: &[ProgramHeader],
) -> [Option<u64>; 8]
    ensures { result ≡ header_breaches bytes.now features headers.now }
{
    [
        interpreter_breach(headers),
        load_breach(headers, |header| is_filled(bytes.len() as u64, header)),
        load_breach(headers, is_placed),
        load_breach(headers, is_aligned),
        load_breach(headers, is_guarded),
        load_breach(headers, |header| is_apart(headers, header)),
        entry_breach(xword(bytes, 24), headers),
        unless(has_stacks(features), 0),
    ]
}
