//! Which region the pages of the shadow area are of, so that an address leads to its region at once.

ghost use Rattle.std.specs.Prelude.{◌≡◌, ℕ, ◌-◌, ◌/◌, ◌<◌, ◌≤◌, ◌⊎◌, ◌&&◌, nat_lt, IfOk, All, length, slice_index_or};
ghost use Rattle.cet_words.specs.Layout.{area_pages, shadow_start};
ghost use Rattle.cet_book.specs.Marks.{has, place};
ghost use Rattle.cet_book.specs.Pages.{IsTable, listed};
ghost use Rattle.cet_book.specs.View.{Has, IsSpan, no_span};

use crate::regions::Region;
use cet_words::{AREA_PAGES, NoMemory, SHADOW_START};
use std::alloc::Global;

/// What a table tells of the page of an address, or `none` for one outside the shadow area.
fn listed(table: &[usize], addr: u64, none: usize) -> usize
    ensures { result ≡ listed table.now addr none }
{
    if addr < SHADOW_START {
        return none;
    }
    let page = (addr - SHADOW_START) / 4096;
    if page >= table.len() as u64 {
        return none;
    }
    table[page as usize]
}

/// The region `at` has the address, or ends there.
fn has(regions: &[Region], at: usize, addr: u64) -> bool
    ensures { result ≡ (nat_lt at (length regions.now) && has addr (slice_index_or regions.now at no_span)) }
{
    at < regions.len() && regions[at].start <= addr && addr <= regions[at].end
}

/// The number of the region that has an address, its end included, or that of all regions.
pub(crate) fn place_of(regions: &[Region], table: &[usize], addr: u64) -> usize
    requires { IsTable regions.now table.now (length regions.now) }
    ensures place { result ≡ place addr regions.now }
    ensures there { result < length regions.now → Has addr (slice_index_or regions.now result no_span) }
{
    let at = listed(table, addr, regions.len());
    if has(regions, at, addr) {
        at
    } else {
        regions.len()
    }
}

/// The first and the last page of a region, the page of its end among them.
fn pages_of(regions: &[Region], at: usize) -> (usize, usize)
    requires at { at < length regions.now }
    requires each { All IsSpan regions.now }
    ensures first { result.0 ≡ ((slice_index_or regions.now at no_span).start - shadow_start) / 4096 }
    ensures last { result.1 ≡ ((slice_index_or regions.now at no_span).end - shadow_start) / 4096 }
    ensures order { result.0 ≤ result.1 }
    ensures high { result.1 < area_pages }
{
    let first = (regions[at].start - SHADOW_START) / 4096;
    let last = (regions[at].end - SHADOW_START) / 4096;
    (first as usize, last as usize)
}

/// Pages from `first` to `last` are of the region `at`.
fn put_pages(table: &mut [usize], first: usize, last: usize, at: usize)
    requires order { first ≤ last }
    requires inside { last < length table.old }
    ensures here { (page none : ℕ) → first ≤ page → page ≤ last → slice_index_or table.new page none ≡ at }
    ensures others { (page none : ℕ) → (page < first) ⊎ (last < page) → slice_index_or table.new page none ≡ slice_index_or table.old page none }
{
    for page in first..last + 1 {
        table[page] = at;
    }
}

/// Puts the pages of each region, that of its end among them, into a table.
fn fill_table(table: &mut [usize], regions: &[Region])
    requires size { length table.old ≡ area_pages }
    requires each { All IsSpan regions.now }
    requires apart { (i j a : ℕ) → i < length regions.now → j < length regions.now → Has a (slice_index_or regions.now i no_span) → Has a (slice_index_or regions.now j no_span) → i ≡ j }
    ensures { IsTable regions.now table.new (length regions.now) }
{
    for at in 0..regions.len() {
        let (first, last) = pages_of(regions, at);
        put_pages(table, first, last, at);
    }
}

/// The table of these regions.
pub(crate) fn table_of(alloc: Global, regions: &[Region]) -> Result<Vec<usize>, NoMemory>
    requires each { All IsSpan regions.now }
    requires apart { (i j a : ℕ) → i < length regions.now → j < length regions.now → Has a (slice_index_or regions.now i no_span) → Has a (slice_index_or regions.now j no_span) → i ≡ j }
    ensures { IfOk result (λ table. IsTable regions.now table.items (length regions.now)) }
{
    let mut table = vec![in alloc; regions.len(); AREA_PAGES as usize]?;
    fill_table(&mut table, regions);
    Ok(table)
}
