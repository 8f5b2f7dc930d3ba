//! write: at most eight bytes of the guest's memory, to standard output or standard error.

ghost use Rattle.std.specs.Prelude.{◌≡◌, ◌+◌, ◌-◌, ◌^◌, ◌<◌, ◌≤◌, IfSome};
ghost use Rattle.cet_words.specs.Layout.{page_count};
ghost use Rattle.cet_page.specs.Script.{play};
ghost use Rattle.cet_page.specs.Plays.{Refines};
ghost use Rattle.cet_page.specs.Processes.{bytes_of, in_one_word, load_last, taken_of, write, write_bytes, write_first, write_last, write_of, write_words, wrote};

use cet_isa::{Arch, RDI, RDX, RSI, Record, What};
use cet_page::{Cursor, Errno, Kind, Leaving, Suspended, Who, failed, serve, served, word_in};

/// The file of standard output.
const STANDARD_OUTPUT: u64 = 1;

/// The file of standard error.
const STANDARD_ERROR: u64 = 2;

/// A write takes so many bytes at most.
const MOST_BYTES: u64 = 8;

/// So many bytes of two words, of which the lower one comes first, from a byte of it on.
fn bytes_of(low: u64, high: u64, offset: u64, count: u64) -> u64
    requires offset { offset < 8 }
    requires count { count ≤ 8 }
    ensures { result ≡ bytes_of low high offset count }
{
    let both = (u128::from(high) << 64) + u128::from(low);
    ((both >> (8 * offset)) % (1 << (8 * count))) as u64
}

fn wrote(arch: &Arch, count: u64, bytes: u64) -> (Arch, Record, Leaving)
    requires { arch.now.count < 2 ^ 32 - 1 }
    ensures { result ≡ wrote arch.now count bytes }
{
    let noted = Record {
        rip: arch.rip,
        what: What::Wrote,
        code: 0,
        a: count,
        b: bytes,
    };
    (served(arch, count), noted, Leaving::Back)
}

/// The word of the last byte, where it isn't that of the first; else 0.
#[tactic(auto, unfolding(cet_page::specs::Processes::load_last))]
fn load_last(addr: u64, count: u64, last: u32, at: &mut Cursor) -> Result<u64, Suspended>
    requires some { 1 ≤ count }
    requires few { count ≤ 8 }
    requires fits { addr + count ≤ 2 ^ 64 }
    requires last { last < page_count }
    ensures { Refines (play (load_last addr count last) at.old.left at.old.rest.now) result at.new.left at.new.rest.now }
{
    if addr % 8 + count <= 8 {
        return Ok(0);
    }
    at.load(word_in(last, addr + (count - 1)))
}

/// The words of the bytes, that of the first byte first.
#[tactic(auto, using(cet_page::proofs::ScriptLaws::play_bind), unfolding(cet_page::specs::Processes::write_words))]
fn write_words(
    arch: &Arch,
    addr: u64,
    count: u64,
    first: u32,
    last: u32,
    at: &mut Cursor,
) -> Result<(Arch, Record, Leaving), Suspended>
    requires records { arch.now.count < 2 ^ 32 - 1 }
    requires some { 1 ≤ count }
    requires few { count ≤ 8 }
    requires fits { addr + count ≤ 2 ^ 64 }
    requires first { first < page_count }
    requires last { last < page_count }
    ensures { Refines (play (write_words arch.now addr count first last) at.old.left at.old.rest.now) result at.new.left at.new.rest.now }
{
    let low = at.load(word_in(first, addr))?;
    let high = load_last(addr, count, last, at)?;
    Ok(wrote(arch, count, bytes_of(low, high, addr % 8, count)))
}

fn write_last(
    arch: &Arch,
    addr: u64,
    count: u64,
    first: u32,
    last: Option<u32>,
    at: &mut Cursor,
) -> Result<(Arch, Record, Leaving), Suspended>
    requires records { arch.now.count < 2 ^ 32 - 1 }
    requires some { 1 ≤ count }
    requires few { count ≤ 8 }
    requires fits { addr + count ≤ 2 ^ 64 }
    requires first { first < page_count }
    requires last { IfSome last (λ p. p < page_count) }
    ensures { Refines (play (write_last arch.now addr count first last) at.old.left at.old.rest.now) result at.new.left at.new.rest.now }
{
    match last {
        None => Ok(failed(arch, Errno::Fault)),
        Some(last) => write_words(arch, addr, count, first, last, at),
    }
}

/// The look at the last byte, where the first one's page allows a load.
#[tactic(auto, using(cet_page::proofs::ScriptLaws::play_bind), unfolding(cet_page::specs::Processes::write_first))]
fn write_first(
    arch: &Arch,
    addr: u64,
    count: u64,
    first: Option<u32>,
    at: &mut Cursor,
) -> Result<(Arch, Record, Leaving), Suspended>
    requires records { arch.now.count < 2 ^ 32 - 1 }
    requires some { 1 ≤ count }
    requires few { count ≤ 8 }
    requires fits { addr + count ≤ 2 ^ 64 }
    requires first { IfSome first (λ p. p < page_count) }
    ensures { Refines (play (write_first arch.now addr count first) at.old.left at.old.rest.now) result at.new.left at.new.rest.now }
{
    let Some(first) = first else {
        return Ok(failed(arch, Errno::Fault));
    };
    let last = at.probe(Kind::Load, Who::User, addr + (count - 1))?;
    write_last(arch, addr, count, first, last, at)
}

#[tactic(auto, using(cet_page::proofs::ScriptLaws::play_bind), unfolding(cet_page::specs::Processes::write_bytes))]
fn write_bytes(
    arch: &Arch,
    addr: u64,
    count: u64,
    at: &mut Cursor,
) -> Result<(Arch, Record, Leaving), Suspended>
    requires records { arch.now.count < 2 ^ 32 - 1 }
    requires some { 1 ≤ count }
    requires few { count ≤ 8 }
    requires fits { addr + count ≤ 2 ^ 64 }
    ensures { Refines (play (write_bytes arch.now addr count) at.old.left at.old.rest.now) result at.new.left at.new.rest.now }
{
    let first = at.probe(Kind::Load, Who::User, addr)?;
    write_first(arch, addr, count, first, at)
}

fn write_of(
    arch: &Arch,
    file: u64,
    addr: u64,
    length: u64,
    at: &mut Cursor,
) -> Result<(Arch, Record, Leaving), Suspended>
    requires { arch.now.count < 2 ^ 32 - 1 }
    ensures { Refines (play (write_of arch.now file addr length) at.old.left at.old.rest.now) result at.new.left at.new.rest.now }
{
    if file != STANDARD_OUTPUT && file != STANDARD_ERROR {
        return Ok(failed(arch, Errno::BadF));
    }
    if length == 0 {
        return Ok(serve(arch, 0));
    }
    let count = length.min(MOST_BYTES);
    if addr > u64::MAX - (count - 1) {
        return Ok(failed(arch, Errno::Fault));
    }
    write_bytes(arch, addr, count, at)
}

/// write of a file, an address and a length in bytes.
pub fn write(arch: &Arch, at: &mut Cursor) -> Result<(Arch, Record, Leaving), Suspended>
    requires { arch.now.count < 2 ^ 32 - 1 }
    ensures { Refines (play (write arch.now) at.old.left at.old.rest.now) result at.new.left at.new.rest.now }
{
    let (file, addr, length) = (arch.regs[RDI], arch.regs[RSI], arch.regs[RDX]);
    write_of(arch, file, addr, length, at)
}
