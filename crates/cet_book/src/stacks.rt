//! A shadow stack of the book, and what is asked of one among several and done to it.

ghost use Rattle.std.specs.List.{position_or_len};
ghost use Rattle.std.specs.Prelude.{◌≡◌, ◌≢◌, ℕ, Option, ◌+◌, ◌*◌, ◌^◌, ◌≤◌, ◌<◌, ◌-◌, nat_le, nat_lt, reverse};
ghost use Rattle.std.specs.Prelude.{replicate, [], ◌∷◌, ◌++◌, length, OnOk, OnErr, true, List, slice_get, slice_set, slice_index_or, drop};
ghost use Rattle.cet_book.specs.Book.{top, capacity, with_entry, nowhere, is_current, is_maker, has_token, last_end};
ghost use Rattle.cet_book.specs.Events.{book_of};
ghost use Rattle.cet_book.specs.Latest.{IsListed};
ghost use Rattle.cet_book.specs.Newest.{removed};
ghost use Rattle.cet_book.specs.Shape.{IsBook};
ghost use Rattle.cet_book.specs.declared.entries.Entry.TheVariants.{Blank};
ghost use Rattle.cet_book.specs.declared.entries.Holder.TheVariants.{Parked};
ghost use Rattle.cet_words.specs.Layout.{last_region_end};

use crate::entries::{Entry, Holder};
use cet_words::{NoMemory, SHADOW_START};
use std::alloc::Global;
use std::marker::Model;

/// A shadow stack: the addresses from `start` up to `end`, the oldest entry first, and its one holder.
#[derive(Drop)]
pub(crate) struct Stack {
    start: u64,
    end: u64,
    pub(crate) entries: Vec<Entry>,
    pub(crate) holder: Holder,
}

impl Model for Stack {
    ghost use Rattle.std.specs.Prelude.{◌+◌, ◌*◌, ◌≤◌, length, reverse};
    ghost use Rattle.cet_book.specs.Book.{Region};
    ghost use Rattle.cet_words.specs.Layout.{last_region_end};

    ghost Value = { Region };

    ghost view = { λ s. record { start = s.start; end = s.end; entries = reverse s.entries.items; holder = s.holder } };

    ghost invariant = { λ s. (s.start + 8 * length s.entries.items ≤ s.end) × (s.end ≤ last_region_end) };
}

impl Stack {
    pub(crate) fn new(alloc: Global, start: u64, end: u64, holder: Holder) -> Stack
        requires order { start ≤ end }
        requires bound { end ≤ last_region_end }
        ensures { result ≡ record { start = start; end = end; entries = []; holder = holder } }
    {
        Stack {
            start,
            end,
            entries: Vec::new(alloc),
            holder,
        }
    }

    fn start(&self) -> u64
        ensures { result ≡ self.now.start }
    {
        self.start
    }

    fn len(&self) -> usize
        ensures { result ≡ length self.now.entries }
    {
        self.entries.len()
    }

    fn is_current(&self, thread: u8) -> bool
        ensures { result ≡ is_current thread self.now.holder }
    {
        match self.holder {
            Holder::Current(owner) => owner == thread,
            _ => false,
        }
    }

    fn top(&self) -> u64
        ensures { result ≡ top self.now }
    {
        self.end - 8 * self.entries.len() as u64
    }

    /// It has room for so many more entries.
    fn has_room(&self, more: u64) -> bool
        requires { more < 2 ^ 63 }
        ensures { result ≡ nat_le (length self.now.entries + more) (capacity self.now) }
    {
        self.entries.len() as u64 + more <= (self.end - self.start) / 8
    }

    fn newest(&self) -> Option<Entry>
        ensures { result ≡ slice_get self.now.entries 0 }
    {
        self.entries.last().copied()
    }

    fn push(&mut self, entry: Entry) -> Result<(), NoMemory>
        requires { self.old.start + 8 * length self.old.entries + 8 ≤ self.old.end }
        ensures ok { OnOk result (self.new ≡ with_entry entry self.old) }
        ensures err { OnErr result (self.new ≡ self.old) }
    {
        self.entries.push(entry)?;
        Ok(())
    }

    fn push_two(&mut self, first: Entry, second: Entry) -> Result<(), NoMemory>
        requires { self.old.start + 8 * length self.old.entries + 16 ≤ self.old.end }
        ensures ok { OnOk result (self.new ≡ with_entry second (with_entry first self.old)) }
        ensures err { OnErr result (self.new ≡ self.old) }
    {
        self.entries.extend_from_slice(&[first, second])?;
        Ok(())
    }

    fn end(&self) -> u64
        ensures end { result ≡ self.now.end }
        ensures bound { result ≤ last_region_end }
    {
        self.end
    }

    fn has_token(&self, addr: u64) -> bool
        ensures { result ≡ has_token addr self.now }
    {
        if !matches!(self.holder, Holder::Parked) {
            return false;
        }
        let top = self.top();
        top >= 8 && top - 8 == addr
    }

    /// It has more room than for so many entries.
    fn has_more_than(&self, count: u64) -> bool
        ensures { result ≡ nat_lt count (capacity self.now) }
    {
        count < (self.end - self.start) / 8
    }

    /// It gets these entries and a token.
    fn seed(&mut self, entries: Vec<Entry>)
        requires { self.old.start + 8 * length entries.items ≤ self.old.end }
        ensures { self.new ≡ record self.old { entries = reverse entries.items; holder = Parked } }
    {
        self.entries = entries;
        self.holder = Holder::Parked;
    }

    fn is_maker(&self, thread: u8) -> bool
        ensures { result ≡ is_maker thread self.now.holder }
    {
        match self.holder {
            Holder::Maker(owner) => owner == thread,
            _ => false,
        }
    }

    fn pop(&mut self) -> Option<Entry>
        ensures entry { result ≡ slice_get self.old.entries 0 }
        ensures rest { self.new ≡ record self.old { entries = drop 1 self.old.entries } }
    {
        self.entries.pop()
    }

    fn set_holder(&mut self, holder: Holder)
        ensures { self.new ≡ record self.old { holder = holder } }
    {
        self.holder = holder;
    }
}

/// The thread is on the stack.
fn is_current(stacks: &[Stack], at: usize, thread: u8) -> bool
    ensures { result ≡ is_current thread (slice_index_or stacks.now at nowhere).holder }
{
    if at >= stacks.len() {
        return false;
    }
    stacks[at].is_current(thread)
}

/// The number of the stack on which a thread is, or that of all stacks.
pub(crate) fn current_of(stacks: &[Stack], latest: &[u32; 256], thread: u8) -> usize
    requires { (g : List (Option ℕ)) × IsListed stacks.now g latest.now }
    ensures { result ≡ position_or_len (λ r. is_current thread r.holder) stacks.now }
{
    let at = latest[thread as usize] as usize;
    if !is_current(stacks, at, thread) {
        return stacks.len();
    }
    at
}

/// The stack's restore token stands at an address.
fn has_token(stacks: &[Stack], at: usize, addr: u64) -> bool
    ensures { result ≡ has_token addr (slice_index_or stacks.now at nowhere) }
{
    if at >= stacks.len() {
        return false;
    }
    stacks[at].has_token(addr)
}

/// How many stacks start at or below an address. Stacks come in order of their starts.
fn count_to(stacks: &[Stack], addr: u64) -> usize
    requires { (g : List (Option ℕ)) × IsBook (book_of stacks.now g) }
    ensures few { result ≤ length stacks.now }
    ensures below { (k : ℕ) → k < result → (slice_index_or stacks.now k nowhere).start ≤ addr }
    ensures above { (k : ℕ) → result ≤ k → k < length stacks.now → addr < (slice_index_or stacks.now k nowhere).start }
{
    stacks.partition_point(|stack| stack.start() <= addr)
}

/// The number of the stack whose restore token stands at an address, or that of all stacks.
pub(crate) fn parked_at(stacks: &[Stack], addr: u64) -> usize
    requires { (g : List (Option ℕ)) × IsBook (book_of stacks.now g) }
    ensures { result ≡ position_or_len (has_token addr) stacks.now }
{
    let count = count_to(stacks, addr);
    if count == 0 {
        return stacks.len();
    }
    if !has_token(stacks, count - 1, addr) {
        return stacks.len();
    }
    count - 1
}

/// The thread is making the stack.
pub(crate) fn is_maker(stacks: &[Stack], at: usize, thread: u8) -> bool
    ensures { result ≡ is_maker thread (slice_index_or stacks.now at nowhere).holder }
{
    if at >= stacks.len() {
        return false;
    }
    stacks[at].is_maker(thread)
}

/// A stack has room for so many more entries.
pub(crate) fn has_room(stacks: &[Stack], at: usize, more: u64) -> bool
    requires at { at < length stacks.now }
    requires few { more < 2 ^ 63 }
    ensures { result ≡ nat_le (length (slice_index_or stacks.now at nowhere).entries + more) (capacity (slice_index_or stacks.now at nowhere)) }
{
    stacks[at].has_room(more)
}

/// A stack has room for more than so many entries in all.
pub(crate) fn has_more_than(stacks: &[Stack], at: usize, count: u64) -> bool
    requires { at < length stacks.now }
    ensures { result ≡ nat_lt count (capacity (slice_index_or stacks.now at nowhere)) }
{
    stacks[at].has_more_than(count)
}

/// A stack's newest entry.
pub(crate) fn newest(stacks: &[Stack], at: usize) -> Option<Entry>
    requires { at < length stacks.now }
    ensures { result ≡ slice_get (slice_index_or stacks.now at nowhere).entries 0 }
{
    stacks[at].newest()
}

/// The number of a stack's entries.
pub(crate) fn count_of(stacks: &[Stack], at: usize) -> usize
    requires { at < length stacks.now }
    ensures { result ≡ length (slice_index_or stacks.now at nowhere).entries }
{
    stacks[at].len()
}

/// The end of the last stack, or the start of the shadow area where there is none.
pub(crate) fn last_end(stacks: &[Stack]) -> u64
    ensures end { result ≡ last_end (book_of stacks.now []) }
    ensures bound { result ≤ last_region_end }
{
    if stacks.is_empty() {
        return SHADOW_START;
    }
    stacks[stacks.len() - 1].end()
}

/// Puts an entry on a stack. Where memory is short the stacks are as they were.
pub(crate) fn put_entry(stacks: &mut [Stack], at: usize, entry: Entry) -> Result<(), NoMemory>
    requires at { at < length stacks.old }
    requires room { nat_le (length (slice_index_or stacks.old at nowhere).entries + 1) (capacity (slice_index_or stacks.old at nowhere)) ≡ true }
    ensures ok { OnOk result (stacks.new ≡ slice_set stacks.old at (with_entry entry (slice_index_or stacks.old at nowhere))) }
    ensures err { OnErr result (stacks.new ≡ stacks.old) }
{
    stacks[at].push(entry)?;
    Ok(())
}

/// Puts two entries on a stack, or none where memory is short.
pub(crate) fn put_two(
    stacks: &mut [Stack],
    at: usize,
    first: Entry,
    second: Entry,
) -> Result<(), NoMemory>
    requires at { at < length stacks.old }
    requires room { nat_le (length (slice_index_or stacks.old at nowhere).entries + 2) (capacity (slice_index_or stacks.old at nowhere)) ≡ true }
    ensures ok { OnOk result (stacks.new ≡ slice_set stacks.old at (with_entry second (with_entry first (slice_index_or stacks.old at nowhere)))) }
    ensures err { OnErr result (stacks.new ≡ stacks.old) }
{
    stacks[at].push_two(first, second)?;
    Ok(())
}

/// Gives a stack another holder, where there is such a stack.
pub(crate) fn hand_over(stacks: &mut [Stack], at: usize, holder: Holder)
    ensures { stacks.new ≡ slice_set stacks.old at (record (slice_index_or stacks.old at nowhere) { holder = holder }) }
{
    if at < stacks.len() {
        stacks[at].set_holder(holder);
    }
}

/// Takes the newest entry off a stack. Where it leads to a stack that was left, that one gets the holder.
pub(crate) fn remove(stacks: &mut [Stack], at: usize, holder: Holder)
    requires { at < length stacks.old }
    ensures { removed at holder stacks.old ≡ stacks.new }
{
    if let Some(Entry::Previous(region)) = stacks[at].pop() {
        hand_over(stacks, region as usize, holder);
    }
}

/// Gives a stack so many blanks and a token. Where memory is short the stacks are as they were.
#[tactic(auto, using(crate::proofs::Blanks::reverse_blanks))]
pub(crate) fn seed(
    alloc: Global,
    stacks: &mut [Stack],
    at: usize,
    count: u32,
) -> Result<(), NoMemory>
    requires at { at < length stacks.old }
    requires room { nat_lt count (capacity (slice_index_or stacks.old at nowhere)) ≡ true }
    ensures ok { OnOk result (stacks.new ≡ slice_set stacks.old at (record (slice_index_or stacks.old at nowhere) { entries = replicate count Blank; holder = Parked })) }
    ensures err { OnErr result (stacks.new ≡ stacks.old) }
{
    let blanks = vec![in alloc; Entry::Blank; count as usize]?;
    stacks[at].seed(blanks);
    Ok(())
}

/// Adds a stack after all others. Where memory is short the stacks are as they were.
pub(crate) fn add_stack(stacks: &mut Vec<Stack>, stack: Stack) -> Result<(), NoMemory>
    ensures ok { OnOk result (stacks.new.items ≡ stacks.old.items ++ stack ∷ []) }
    ensures err { OnErr result (stacks.new.items ≡ stacks.old.items) }
{
    stacks.push(stack)?;
    Ok(())
}
