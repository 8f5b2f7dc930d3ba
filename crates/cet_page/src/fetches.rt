//! The fetch of an instruction.

ghost use Rattle.std.specs.Prelude.{◌≡◌, ℕ, ◌+◌, ◌^◌, ◌<◌, ◌≤◌, List, take, length, Some, IfSome};
ghost use Rattle.cet_words.specs.Layout.{image_end};
ghost use Rattle.cet_words.specs.Bytes.{code_byte, segment_byte};
ghost use Rattle.cet_words.specs.declared.images.Segment.{Segment};
ghost use Rattle.std.specs.Fn.{FnOnceReturnsAt};
ghost use Rattle.cet_page.specs.Script.{play};
ghost use Rattle.cet_page.specs.Plays.{Suspends};
ghost use Rattle.cet_page.specs.declared.finishes.Finish.{Finish};
ghost use Rattle.cet_page.specs.Fetch.{HoldsCode, fetchable, missing};
ghost use Rattle.cet_page.specs.Row.{next_address};
ghost use Rattle.cet_isa.specs.Reading.{decoded, read_length};

use crate::checks::{Kind, Who, page_fault};
use crate::cursors::{Cursor, Suspended};
use cet_isa::Arch;
use cet_words::{Access, Image, Job, Segment, code_byte, page_of, segment_at, segment_byte};

/// The segment of so many bytes of code from an address on, where they lie in one page.
#[tactic(auto, using(crate::proofs::Runs::page_holds))]
fn code_page(image: &Image, addr: u64, count: usize) -> Option<&Segment>
    requires { count ≤ 15 }
    ensures holds { IfSome result (λ segment. HoldsCode image.now.segments segment.now addr count) }
    ensures range { IfSome result (λ segment. addr + count ≤ image_end) }
{
    let segment = segment_at(image, addr / 4096)?;
    if !segment.exec || addr % 4096 + count as u64 > 4096 {
        return None;
    }
    Some(segment)
}

/// So many bytes of a segment from an address on, where they are in its file.
#[tactic(auto, using(crate::proofs::Runs::run_is))]
fn file_run(segment: &Segment, addr: u64, count: usize) -> Option<&[u8]>
    requires { count ≤ 15 }
    ensures bytes { IfSome result (λ bytes. (segments : List Segment) → HoldsCode segments segment.now addr count → bytes.now ≡ fetchable segments addr count) }
    ensures length { IfSome result (λ bytes. length bytes.now ≡ count) }
{
    if addr < segment.start {
        return None;
    }
    let at = (addr - segment.start) as usize;
    let bytes = segment.bytes.as_slice();
    if at > bytes.len() || count > bytes.len() - at {
        return None;
    }
    Some(&bytes[at..at + count])
}

/// The byte of code at an address, by its segment where that is known.
fn byte_of(image: &Image, page: Option<&Segment>, addr: u64) -> Option<u8>
    requires { IfSome page (λ segment. (code_byte image.now.segments addr ≡ Some (segment_byte segment.now addr)) × (addr < image_end)) }
    ensures byte { result ≡ code_byte image.now.segments addr }
    ensures range { IfSome result (λ byte. addr < image_end) }
{
    match page {
        Some(segment) => Some(segment_byte(segment, addr)),
        None => code_byte(image, addr),
    }
}

fn fetch_each(image: &Image, page: Option<&Segment>, addr: u64, buffer: &mut [u8]) -> usize
    requires length { length buffer.old ≤ 15 }
    requires page { IfSome page (λ segment. HoldsCode image.now.segments segment.now addr (length buffer.old)) }
    ensures bytes { take result buffer.new ≡ fetchable image.now.segments addr (length buffer.old) }
    ensures within { result ≤ length buffer.old }
    ensures room { addr + result < 2 ^ 64 }
{
    for at in 0..buffer.len() {
        let Some(byte) = byte_of(image, page, addr + at as u64) else {
            return at;
        };
        buffer[at] = byte;
    }
    buffer.len()
}

/// Puts the bytes that can be fetched at an address into the buffer, as many as it has room for; the
/// answer is their number.
pub fn fetch(image: &Image, addr: u64, buffer: &mut [u8]) -> usize
    requires { length buffer.old ≤ 15 }
    ensures bytes { take result buffer.new ≡ fetchable image.now.segments addr (length buffer.old) }
    ensures within { result ≤ length buffer.old }
    ensures room { addr + result < 2 ^ 64 }
{
    let Some(segment) = code_page(image, addr, buffer.len()) else {
        return fetch_each(image, None, addr, buffer);
    };
    let Some(bytes) = file_run(segment, addr, buffer.len()) else {
        return fetch_each(image, Some(segment), addr, buffer);
    };
    buffer.copy_from_slice(bytes);
    buffer.len()
}

/// The page fault of a fetch at an address whose byte can't be fetched, after a look at its page.
#[tactic(auto, using(crate::proofs::ScriptLaws::play_bind), unfolding(crate::specs::Fetch::missing))]
pub fn missing(addr: u64, at: &mut Cursor) -> Suspended
    ensures { Suspends (play (missing {A = Finish} addr) at.old.left at.old.rest.now) result }
{
    let Some(page) = page_of(addr) else {
        return Suspended::Fault(page_fault(0, Kind::Fetch, Who::User, addr));
    };
    match at.ask(Access::Look(page)) {
        Ok(entry) => Suspended::Fault(page_fault(entry, Kind::Fetch, Who::User, addr)),
        Err(stop) => stop,
    }
}

/// The address after the instruction at RIP; RIP itself where no instruction is there. The decoder stands
/// beside this crate: `length` tells how many of the bytes at RIP are the instruction, 0 for none.
pub fn next_address<F: FnOnce(&[u8]) -> u8>(job: &Job, arch: &Arch, length: F) -> u64
    requires callable { (bytes : _) → F.pre length bytes }
    requires tells { (bytes : List ℕ) (count : ℕ) → FnOnceReturnsAt F.FnOnce length bytes count → count ≡ read_length (decoded bytes) }
    ensures { result ≡ next_address job.now arch.now }
{
    let mut buffer = [0u8; 15];
    let fetched = fetch(job.image, arch.rip, &mut buffer);
    arch.rip.wrapping_add(u64::from(length(&buffer[..fetched])))
}
