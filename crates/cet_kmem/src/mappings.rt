//! mmap and munmap: pages of the mmap area that become present, and pages of it or of the shadow area that
//! become absent (Linux, mmap(2)).

ghost use Rattle.std.specs.Prelude.{◌≡◌, ◌+◌, ◌-◌, ◌^◌, ◌<◌, ◌≤◌, IfSome};
ghost use Rattle.cet_words.specs.Layout.{area_pages, draw_mmap_word, page_count, pages_of};
ghost use Rattle.cet_page.specs.Script.{play};
ghost use Rattle.cet_page.specs.Plays.{Refines};
ghost use Rattle.cet_page.specs.Parts.{clears, fetch_add};
ghost use Rattle.cet_page.specs.Mmap.{area_page, can_map, draw_pages, is_anonymous, map_drawn, map_pages, map_refused, mmap, munmap, unmap_pages, unmapped_page};

use cet_isa::{Arch, R10, RDI, RDX, RSI, Record};
use cet_page::{Cursor, Errno, Leaving, Suspended, failed, serve};
use cet_words::{
    AREA_PAGES, DRAW_MMAP_WORD, FIRST_ENTRY_WORD, FIRST_MMAP_PAGE, FIRST_SHADOW_PAGE, MMAP_END,
    MMAP_START, SHADOW_END, SHADOW_START, data_entry, pages_of,
};

/// PROT_READ and PROT_WRITE.
const READ_WRITE: u64 = 3;

/// MAP_PRIVATE and MAP_ANONYMOUS.
const PRIVATE_ANONYMOUS: u64 = 0x22;

/// MAP_PRIVATE, MAP_ANONYMOUS and MAP_STACK.
const PRIVATE_ANONYMOUS_STACK: u64 = 0x2_0022;

/// Whether some bytes are asked for that may be read and written, at no place that is named.
fn is_anonymous(address: u64, length: u64, rights: u64, flags: u64) -> bool
    ensures { result ≡ is_anonymous address length rights flags }
{
    address == 0
        && length > 0
        && rights == READ_WRITE
        && (flags == PRIVATE_ANONYMOUS || flags == PRIVATE_ANONYMOUS_STACK)
}

/// The error of the arguments of mmap, by the first test that fails.
fn map_refused(address: u64, length: u64, rights: u64, flags: u64) -> Option<Errno>
    ensures { result ≡ map_refused address length rights flags }
{
    if !is_anonymous(address, length, rights, flags) {
        return Some(Errno::Inval);
    }
    if pages_of(length) > u64::from(AREA_PAGES) {
        return Some(Errno::NoMem);
    }
    None
}

/// Whether so many pages fit above those that were drawn before.
fn can_map(pages: u64, drawn: u64) -> bool
    requires { pages ≤ area_pages }
    ensures { result ≡ can_map pages drawn }
{
    let all = u64::from(AREA_PAGES);
    drawn <= all && drawn + pages <= all
}

/// The entries of pages of the mmap area whose place was drawn.
#[tactic(auto, using(cet_page::proofs::ScriptLaws::play_bind), unfolding(cet_page::specs::Mmap::map_pages))]
fn map_pages(
    arch: &Arch,
    pages: u64,
    drawn: u64,
    at: &mut Cursor,
) -> Result<(Arch, Record, Leaving), Suspended>
    requires count { arch.now.count < 2 ^ 32 - 1 }
    requires some { 0 < pages }
    requires place { drawn + pages ≤ area_pages }
    ensures { Refines (play (map_pages arch.now pages drawn) at.old.left at.old.rest.now) result at.new.left at.new.rest.now }
{
    let page = FIRST_MMAP_PAGE + drawn as u32;
    at.stores(
        pages as u32,
        FIRST_ENTRY_WORD + page,
        data_entry(page),
        4096,
    )?;
    Ok(serve(arch, MMAP_START + 4096 * drawn))
}

fn map_drawn(
    arch: &Arch,
    pages: u64,
    drawn: u64,
    at: &mut Cursor,
) -> Result<(Arch, Record, Leaving), Suspended>
    requires count { arch.now.count < 2 ^ 32 - 1 }
    requires some { 0 < pages }
    requires pages { pages ≤ area_pages }
    ensures { Refines (play (map_drawn arch.now pages drawn) at.old.left at.old.rest.now) result at.new.left at.new.rest.now }
{
    if !can_map(pages, drawn) {
        return Ok(failed(arch, Errno::NoMem));
    }
    map_pages(arch, pages, drawn, at)
}

/// The draw of so many pages of the mmap area.
fn draw(pages: u64, at: &mut Cursor) -> Result<u64, Suspended>
    ensures { Refines (play (fetch_add draw_mmap_word pages) at.old.left at.old.rest.now) result at.new.left at.new.rest.now }
{
    at.fetch_add(DRAW_MMAP_WORD, pages)
}

/// So many pages of the mmap area: their place is drawn by one fetch-and-add.
#[tactic(auto, using(cet_page::proofs::ScriptLaws::play_bind), unfolding(cet_page::specs::Mmap::draw_pages))]
fn draw_pages(
    arch: &Arch,
    pages: u64,
    at: &mut Cursor,
) -> Result<(Arch, Record, Leaving), Suspended>
    requires count { arch.now.count < 2 ^ 32 - 1 }
    requires some { 0 < pages }
    requires pages { pages ≤ area_pages }
    ensures { Refines (play (draw_pages arch.now pages) at.old.left at.old.rest.now) result at.new.left at.new.rest.now }
{
    let drawn = draw(pages, at)?;
    map_drawn(arch, pages, drawn, at)
}

/// mmap of an address, a length in bytes, rights and flags.
pub fn mmap(arch: &Arch, at: &mut Cursor) -> Result<(Arch, Record, Leaving), Suspended>
    requires { arch.now.count < 2 ^ 32 - 1 }
    ensures { Refines (play (mmap arch.now) at.old.left at.old.rest.now) result at.new.left at.new.rest.now }
{
    let (address, length) = (arch.regs[RDI], arch.regs[RSI]);
    if let Some(error) = map_refused(address, length, arch.regs[RDX], arch.regs[R10]) {
        return Ok(failed(arch, error));
    }
    draw_pages(arch, pages_of(length), at)
}

/// The first page of so many bytes from an address on, where they lie wholly in the mmap area or wholly in
/// the shadow area.
fn area_page(address: u64, bytes: u64) -> Option<u32>
    requires { address + bytes < 2 ^ 64 }
    ensures { result ≡ area_page address bytes }
{
    let end = address + bytes;
    if MMAP_START <= address && end <= MMAP_END {
        return Some(FIRST_MMAP_PAGE + ((address - MMAP_START) / 4096) as u32);
    }
    if SHADOW_START <= address && end <= SHADOW_END {
        return Some(FIRST_SHADOW_PAGE + ((address - SHADOW_START) / 4096) as u32);
    }
    None
}

/// The first page of a range that is unmapped, of an address and a length in bytes. None where it is
/// refused: the address or the length is wrong, the range rounded up to pages reaches 2^64, or it isn't
/// wholly in one of the two areas.
fn unmapped_page(address: u64, length: u64) -> Option<u32>
    ensures page { result ≡ unmapped_page address length }
    ensures range { IfSome result (λ page. page + pages_of length ≤ page_count) }
{
    if address % 4096 != 0 || length == 0 {
        return None;
    }
    let bytes = pages_of(length).checked_mul(4096)?;
    address.checked_add(bytes)?;
    area_page(address, bytes)
}

#[tactic(auto, using(cet_page::proofs::ScriptLaws::play_bind), unfolding(cet_page::specs::Mmap::unmap_pages))]
fn unmap_pages(
    arch: &Arch,
    pages: u64,
    page: u32,
    at: &mut Cursor,
) -> Result<(Arch, Record, Leaving), Suspended>
    requires count { arch.now.count < 2 ^ 32 - 1 }
    requires pages { page + pages ≤ page_count }
    ensures { Refines (play (unmap_pages arch.now pages page) at.old.left at.old.rest.now) result at.new.left at.new.rest.now }
{
    at.stores(pages as u32, FIRST_ENTRY_WORD + page, 0, 0)?;
    Ok(serve(arch, 0))
}

/// munmap of an address and a length in bytes.
pub fn munmap(arch: &Arch, at: &mut Cursor) -> Result<(Arch, Record, Leaving), Suspended>
    requires { arch.now.count < 2 ^ 32 - 1 }
    ensures { Refines (play (munmap arch.now) at.old.left at.old.rest.now) result at.new.left at.new.rest.now }
{
    let (address, length) = (arch.regs[RDI], arch.regs[RSI]);
    let Some(page) = unmapped_page(address, length) else {
        return Ok(failed(arch, Errno::Inval));
    };
    unmap_pages(arch, pages_of(length), page, at)
}
