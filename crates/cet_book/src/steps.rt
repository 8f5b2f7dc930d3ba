//! What each event makes of the shadow stacks. The test comes first, memory second, the change last, so a refusal changes
//! nothing.

ghost use Rattle.std.specs.Prelude.{◌≡◌, ◌≢◌, ℕ, Option, ◌+◌, ◌*◌, ◌^◌, ◌≤◌, ◌<◌, nat_le, ◌∷◌, length, OnOk, OnErr, true, if◌then◌else◌, List, slice_set, slice_index_or};
ghost use Rattle.cet_book.specs.Book.{capacity, nowhere, with_current, called, ended, returned, popped, raised, pushed, released, born, seeded, can_claim, claimed, acquired};
ghost use Rattle.cet_book.specs.Events.{AppliedTo, book_of};
ghost use Rattle.cet_book.specs.Latest.{Latest, IsListed};
ghost use Rattle.cet_book.specs.Newest.{can_return, is_frame, leads_to};
ghost use Rattle.cet_book.specs.declared.entries.Entry.TheVariants.{Previous};
ghost use Rattle.cet_book.specs.declared.entries.Holder.TheVariants.{Maker, Current, Left, Lost};
ghost use Rattle.cet_words.specs.Layout.{last_region_end};

use crate::entries::{Entry, Holder};
use crate::events::BookFault;
use crate::stacks::{
    Stack, add_stack, count_of, current_of, hand_over, has_more_than, has_room, is_maker, last_end,
    newest, parked_at, put_entry, put_two, remove, seed,
};
use cet_words::{LAST_REGION_END, MOST_STACK_PAGES, NoMemory};
use std::alloc::Global;

/// A call puts the address that it is to return to on the stack of its thread.
pub(crate) fn called(
    stacks: &mut [Stack],
    latest: &[u32; 256],
    thread: u8,
    back: u64,
) -> Result<(), BookFault>
    requires { (g : List (Option ℕ)) × IsListed stacks.old g latest.now }
    ensures { AppliedTo result stacks.old stacks.new (λ b. with_current thread b (λ m r. called back m r b)) }
{
    let at = current_of(stacks, latest, thread);
    if at >= stacks.len() {
        return Err(BookFault::NotLegal);
    }
    if !has_room(stacks, at, 1) {
        return Err(BookFault::NotLegal);
    }
    put_entry(stacks, at, Entry::Call(back))?;
    Ok(())
}

/// A return may take this newest entry off.
fn can_return(entry: Option<Entry>) -> bool
    ensures { result ≡ can_return entry }
{
    !matches!(entry, None | Some(Entry::Frame))
}

/// A return takes the newest entry off.
pub(crate) fn returned(
    stacks: &mut [Stack],
    latest: &[u32; 256],
    thread: u8,
) -> Result<(), BookFault>
    requires { (g : List (Option ℕ)) × IsListed stacks.old g latest.now }
    ensures { AppliedTo result stacks.old stacks.new (λ b. with_current thread b (λ m r. returned m r.entries b)) }
{
    let at = current_of(stacks, latest, thread);
    if at >= stacks.len() {
        return Err(BookFault::NotLegal);
    }
    if !can_return(newest(stacks, at)) {
        return Err(BookFault::NotLegal);
    }
    remove(stacks, at, Holder::Lost);
    Ok(())
}

/// So many of the newest entries are taken off.
pub(crate) fn raised(
    stacks: &mut [Stack],
    latest: &[u32; 256],
    thread: u8,
    count: u8,
) -> Result<(), BookFault>
    requires { (g : List (Option ℕ)) × IsListed stacks.old g latest.now }
    ensures { AppliedTo result stacks.old stacks.new (λ b. with_current thread b (λ m r. raised m count b)) }
{
    let at = current_of(stacks, latest, thread);
    if at >= stacks.len() {
        return Err(BookFault::NotLegal);
    }
    if count_of(stacks, at) < count as usize {
        return Err(BookFault::NotLegal);
    }
    for _entry in 0..count {
        remove(stacks, at, Holder::Lost);
    }
    Ok(())
}

/// The stack `taken` becomes that of the thread, and the one at `at` is left for it.
fn take(stacks: &mut [Stack], thread: u8, at: usize, taken: usize) -> Result<(), NoMemory>
    requires at { at < length stacks.old }
    requires taken { taken < length stacks.old }
    requires few { length stacks.old < 2 ^ 32 }
    requires apart { at ≢ taken }
    requires room { nat_le (length (slice_index_or stacks.old taken nowhere).entries + 1) (capacity (slice_index_or stacks.old taken nowhere)) ≡ true }
    ensures ok { let left = record (slice_index_or stacks.old at nowhere) { holder = Left taken } in
        let found = slice_index_or stacks.old taken nowhere in
        OnOk result (stacks.new ≡ slice_set (slice_set stacks.old at left) taken (record found { entries = Previous at ∷ found.entries; holder = Current thread })) }
    ensures err { OnErr result (stacks.new ≡ stacks.old) }
{
    put_entry(stacks, taken, Entry::Previous(at as u32))?;
    hand_over(stacks, at, Holder::Left(taken as u32));
    hand_over(stacks, taken, Holder::Current(thread));
    Ok(())
}

/// The thread goes over to the stack whose restore token stands at an address.
pub(crate) fn acquired(
    stacks: &mut [Stack],
    latest: &mut [u32; 256],
    thread: u8,
    addr: u64,
) -> Result<(), BookFault>
    requires { (g : List (Option ℕ)) × IsListed stacks.old g latest.old }
    ensures applied { AppliedTo result stacks.old stacks.new (λ b. with_current thread b (λ m r. acquired thread addr m b)) }
    ensures latest { Latest stacks.new latest.new }
{
    let at = current_of(stacks, latest, thread);
    if at >= stacks.len() {
        return Err(BookFault::NotLegal);
    }
    let taken = parked_at(stacks, addr);
    if taken >= stacks.len() {
        return Err(BookFault::NotLegal);
    }
    take(stacks, thread, at, taken)?;
    latest[thread as usize] = taken as u32;
    Ok(())
}

/// The stack that was left for the one with this newest entry, or `none`.
fn leads_to(entry: Option<Entry>, none: usize) -> usize
    ensures { result ≡ leads_to entry none }
{
    match entry {
        Some(Entry::Previous(region)) => region as usize,
        _ => none,
    }
}

/// The stack that a thread left for its present one is parked.
pub(crate) fn released(
    stacks: &mut [Stack],
    latest: &[u32; 256],
    thread: u8,
) -> Result<(), BookFault>
    requires { (g : List (Option ℕ)) × IsListed stacks.old g latest.now }
    ensures { AppliedTo result stacks.old stacks.new (λ b. with_current thread b (λ m r. released m r.entries b)) }
{
    let at = current_of(stacks, latest, thread);
    if at >= stacks.len() {
        return Err(BookFault::NotLegal);
    }
    let left = leads_to(newest(stacks, at), stacks.len());
    if left >= stacks.len() {
        return Err(BookFault::NotLegal);
    }
    if !has_room(stacks, left, 1) {
        return Err(BookFault::NotLegal);
    }
    remove(stacks, at, Holder::Parked);
    Ok(())
}

/// The first holder of a stack whose pages a thread draws.
fn holder_of(thread: u8, maker: bool) -> Holder
    ensures { result ≡ (if maker then Maker thread else Lost) }
{
    if maker {
        Holder::Maker(thread)
    } else {
        Holder::Lost
    }
}

/// So many pages from an address on may be a new stack.
fn can_claim(stacks: &[Stack], start: u64, pages: u32) -> bool
    ensures test { (g : List (Option ℕ)) → result ≡ can_claim start pages (book_of stacks.now g) }
    ensures bound { result ≡ true → start + 4096 * pages ≤ last_region_end }
{
    if pages < 1 || pages > MOST_STACK_PAGES || start % 4096 != 0 {
        return false;
    }
    if start < last_end(stacks) + 4096 || start > LAST_REGION_END {
        return false;
    }
    start + 4096 * pages as u64 <= LAST_REGION_END
}

/// Pages are drawn: a stack that the thread goes on to make, or a lost one.
pub(crate) fn claimed(
    alloc: Global,
    stacks: &mut Vec<Stack>,
    thread: u8,
    start: u64,
    pages: u32,
    maker: bool,
) -> Result<(), BookFault>
    ensures { AppliedTo result stacks.old.items stacks.new.items (λ b. claimed thread start pages maker b) }
{
    if !can_claim(stacks, start, pages) {
        return Err(BookFault::NotLegal);
    }
    let holder = holder_of(thread, maker);
    let stack = Stack::new(alloc, start, start + 4096 * pages as u64, holder);
    add_stack(stacks, stack)?;
    Ok(())
}

/// A stack that the thread was making is parked, with so many blanks on it.
pub(crate) fn seeded(
    alloc: Global,
    stacks: &mut [Stack],
    thread: u8,
    region: u32,
    blanks: u32,
) -> Result<(), BookFault>
    ensures { AppliedTo result stacks.old stacks.new (λ b. seeded thread region blanks b) }
{
    let at = region as usize;
    if at >= stacks.len() {
        return Err(BookFault::NotLegal);
    }
    if !is_maker(stacks, at, thread) {
        return Err(BookFault::NotLegal);
    }
    if !has_more_than(stacks, at, blanks as u64) {
        return Err(BookFault::NotLegal);
    }
    seed(alloc, stacks, at, blanks)?;
    Ok(())
}

/// A child is born onto a stack that its parent was making.
pub(crate) fn born(
    stacks: &mut [Stack],
    latest: &mut [u32; 256],
    parent: u8,
    child: u8,
    region: u32,
) -> Result<(), BookFault>
    requires { (g : List (Option ℕ)) × IsListed stacks.old g latest.old }
    ensures applied { AppliedTo result stacks.old stacks.new (λ b. born parent child region b) }
    ensures latest { Latest stacks.new latest.new }
{
    let at = region as usize;
    if !is_maker(stacks, at, parent) {
        return Err(BookFault::NotLegal);
    }
    if current_of(stacks, latest, child) < stacks.len() {
        return Err(BookFault::NotLegal);
    }
    hand_over(stacks, at, Holder::Current(child));
    latest[child as usize] = region;
    Ok(())
}

/// A signal puts its frame and the address of its restorer on the stack of its thread.
pub(crate) fn pushed(
    stacks: &mut [Stack],
    latest: &[u32; 256],
    thread: u8,
    restorer: u64,
) -> Result<(), BookFault>
    requires { (g : List (Option ℕ)) × IsListed stacks.old g latest.now }
    ensures { AppliedTo result stacks.old stacks.new (λ b. with_current thread b (λ m r. pushed restorer m r b)) }
{
    let at = current_of(stacks, latest, thread);
    if at >= stacks.len() {
        return Err(BookFault::NotLegal);
    }
    if !has_room(stacks, at, 2) {
        return Err(BookFault::NotLegal);
    }
    put_two(stacks, at, Entry::Frame, Entry::Restorer(restorer))?;
    Ok(())
}

/// The newest entry is a signal's frame.
fn is_frame(entry: Option<Entry>) -> bool
    ensures { result ≡ is_frame entry }
{
    matches!(entry, Some(Entry::Frame))
}

/// A signal's frame is taken off.
pub(crate) fn popped(stacks: &mut [Stack], latest: &[u32; 256], thread: u8) -> Result<(), BookFault>
    requires { (g : List (Option ℕ)) × IsListed stacks.old g latest.now }
    ensures { AppliedTo result stacks.old stacks.new (λ b. with_current thread b (λ m r. popped m r.entries b)) }
{
    let at = current_of(stacks, latest, thread);
    if at >= stacks.len() {
        return Err(BookFault::NotLegal);
    }
    if !is_frame(newest(stacks, at)) {
        return Err(BookFault::NotLegal);
    }
    remove(stacks, at, Holder::Lost);
    Ok(())
}

/// A thread that ends gives its stack up.
pub(crate) fn ended(stacks: &mut [Stack], latest: &[u32; 256], thread: u8) -> Result<(), BookFault>
    requires { (g : List (Option ℕ)) × IsListed stacks.old g latest.now }
    ensures { AppliedTo result stacks.old stacks.new (λ b. with_current thread b (λ m r. ended m r b)) }
{
    let at = current_of(stacks, latest, thread);
    if at >= stacks.len() {
        return Err(BookFault::NotLegal);
    }
    hand_over(stacks, at, Holder::Lost);
    Ok(())
}
