//! Which shadow stacks are in view, by their words, and where the entries of each begin.

ghost use Rattle.std.specs.Prelude.{◌≡◌, ℕ, ◌+◌, ◌*◌, ◌<◌, ◌^◌, [], length, slice_index_or, drop, IfOk, OnOk};
ghost use Rattle.cet_book.specs.Marks.{marked, top_marked, followed, currents, token_from, parks, words_by, follow, found_all, found_of};
ghost use Rattle.cet_book.specs.Pages.{IsTable};
ghost use Rattle.cet_book.specs.View.{IsReadable, no_span};

use crate::pages::{place_of, table_of};
use crate::regions::{Region, Shown};
use cet_words::{NoMemory, Words};
use std::alloc::Global;
use std::marker::Model;

/// What is known of a shadow stack so far.
#[derive(Clone, Copy)]
pub(crate) enum Mark {
    /// Nothing leads to it as yet.
    Unseen,
    /// How it is shown, and how many of its words come before its newest entry.
    InView(Shown, usize),
}

/// A mark for each shadow stack, and the numbers of those in view in the order in which they were found.
#[derive(Drop)]
pub(crate) struct Found {
    pub(crate) marks: Vec<Mark>,
    order: Vec<usize>,
}

impl Model for Found {
    ghost use Rattle.std.specs.Prelude.{ℕ, ◌<◌, length, slice_index_or};
    ghost use Rattle.cet_book.specs.Marks.{Found as FoundData};

    ghost Value = { FoundData };

    ghost view = { λ f. record { marks = f.marks.items; order = f.order.items } };

    ghost invariant = { λ f. (k : ℕ) → k < length f.order.items → slice_index_or f.order.items k 0 < length f.marks.items };
}

/// Marks a stack that has no mark.
fn put_mark(found: &mut Found, at: usize, shown: Shown, from: usize) -> Result<(), NoMemory>
    ensures { OnOk result (found.new ≡ marked at shown from found.old) }
{
    if at >= found.marks.len() {
        return Ok(());
    }
    if let Mark::Unseen = found.marks[at] {
        found.order.push(at)?;
        found.marks[at] = Mark::InView(shown, from);
    }
    Ok(())
}

/// Marks the stack that has an address, where its newest entry stands.
fn mark_top(
    regions: &[Region],
    table: &[usize],
    addr: u64,
    shown: Shown,
    found: &mut Found,
) -> Result<(), NoMemory>
    requires table { IsTable regions.now table.now (length regions.now) }
    requires size { length found.old.marks ≡ length regions.now }
    ensures { OnOk result (found.new ≡ top_marked regions.now addr shown found.old) }
{
    let at = place_of(regions, table, addr);
    if at >= regions.len() {
        return Ok(());
    }
    let from = ((addr - regions[at].start) / 8 + 1) as usize;
    put_mark(found, at, shown, from)
}

/// Marks the stacks to which words lead: a previous-SSP token is the top of the stack that was left, and 3.
fn follow_words(
    regions: &[Region],
    table: &[usize],
    words: &[u64],
    found: &mut Found,
) -> Result<(), NoMemory>
    requires table { IsTable regions.now table.now (length regions.now) }
    requires size { length found.old.marks ≡ length regions.now }
    ensures { OnOk result (found.new ≡ followed regions.now words.now found.old) }
{
    for word in words {
        mark_top(regions, table, word.saturating_sub(3), Shown::Left, found)?;
    }
    Ok(())
}

/// Marks the stacks that threads are on, by their pointers.
fn mark_current(
    regions: &[Region],
    table: &[usize],
    ssps: &[(u8, u64)],
    found: &mut Found,
) -> Result<(), NoMemory>
    requires table { IsTable regions.now table.now (length regions.now) }
    requires size { length found.old.marks ≡ length regions.now }
    ensures { OnOk result (found.new ≡ currents regions.now ssps.now (length ssps.now) found.old) }
{
    for at in 0..ssps.len() {
        let (thread, ssp) = ssps[at];
        mark_top(regions, table, ssp, Shown::Current(thread), found)?;
    }
    Ok(())
}

/// The place of the first restore token among words that begin at `start - 8`, or their number.
fn token_place(start: u64, words: &[u64]) -> usize
    requires { start + 8 * length words.now < 2 ^ 63 }
    ensures { result ≡ token_from start words.now }
{
    for (at, word) in words.iter().enumerate() {
        if *word == start + 8 * at as u64 + 1 {
            return at;
        }
    }
    words.len()
}

/// Marks the stacks that have a restore token.
fn mark_parked(regions: &[Region], copies: &[Words], found: &mut Found) -> Result<(), NoMemory>
    requires copies { length copies.now ≡ length regions.now }
    requires fit { (k : ℕ) → k < length regions.now → (slice_index_or regions.now k no_span).start + 8 * length (slice_index_or copies.now k []) < 2 ^ 63 }
    ensures { OnOk result (found.new ≡ parks regions.now copies.now (length regions.now) found.old) }
{
    for at in 0..regions.len() {
        let words = copies[at].as_slice();
        let token = token_place(regions[at].start, words);
        if token < words.len() {
            put_mark(found, at, Shown::Parked, token + 1)?;
        }
    }
    Ok(())
}

/// The words from a place on.
pub(crate) fn list_of(words: &Words, from: usize) -> &[u64]
    ensures { result.now ≡ drop from words.now }
{
    let words = words.as_slice();
    if from < words.len() {
        &words[from..]
    } else {
        &[]
    }
}

/// The words of a stack's entries, by its mark.
fn entries_of(copies: &[Words], at: usize, mark: Mark) -> &[u64]
    requires { at < length copies.now }
    ensures { result.now ≡ words_by mark (slice_index_or copies.now at []) }
{
    match mark {
        Mark::Unseen => &[],
        Mark::InView(_, from) => list_of(&copies[at], from),
    }
}

/// Follows the words of the stack that was found as number `turn`, if there are so many.
fn follow(
    regions: &[Region],
    table: &[usize],
    copies: &[Words],
    turn: usize,
    found: &mut Found,
) -> Result<(), NoMemory>
    requires table { IsTable regions.now table.now (length regions.now) }
    requires copies { length copies.now ≡ length regions.now }
    requires size { length found.old.marks ≡ length regions.now }
    ensures { OnOk result (found.new ≡ follow regions.now copies.now turn found.old) }
{
    if turn >= found.order.len() {
        return Ok(());
    }
    let at = found.order[turn];
    let words = entries_of(copies, at, found.marks[at]);
    follow_words(regions, table, words, found)
}

/// Finds all stacks in view. Each is found once at most, and followed once.
fn find_all(
    regions: &[Region],
    table: &[usize],
    copies: &[Words],
    ssps: &[(u8, u64)],
    found: &mut Found,
) -> Result<(), NoMemory>
    requires table { IsTable regions.now table.now (length regions.now) }
    requires copies { length copies.now ≡ length regions.now }
    requires fit { (k : ℕ) → k < length regions.now → (slice_index_or regions.now k no_span).start + 8 * length (slice_index_or copies.now k []) < 2 ^ 63 }
    requires size { length found.old.marks ≡ length regions.now }
    ensures { OnOk result (found.new ≡ found_all regions.now copies.now ssps.now found.old) }
{
    mark_current(regions, table, ssps, found)?;
    mark_parked(regions, copies, found)?;
    for turn in 0..regions.len() {
        follow(regions, table, copies, turn, found)?;
    }
    Ok(())
}

/// The stacks in view, of those with these regions, words and pointers.
pub(crate) fn found_of(
    alloc: Global,
    regions: &[Region],
    copies: &[Words],
    ssps: &[(u8, u64)],
) -> Result<Found, NoMemory>
    requires readable { IsReadable regions.now ssps.now }
    requires copies { length copies.now ≡ length regions.now }
    requires fit { (k : ℕ) → k < length regions.now → (slice_index_or regions.now k no_span).start + 8 * length (slice_index_or copies.now k []) < 2 ^ 63 }
    ensures found { IfOk result (λ found. found ≡ found_of regions.now copies.now ssps.now) }
    ensures size { IfOk result (λ found. length found.marks ≡ length regions.now) }
{
    let table = table_of(alloc, regions)?;
    let mut found = Found {
        marks: vec![in alloc; Mark::Unseen; regions.len()]?,
        order: Vec::new(alloc),
    };
    find_all(regions, &table, copies, ssps, &mut found)?;
    Ok(found)
}
