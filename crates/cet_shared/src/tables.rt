//! The table of words that guest threads share.

ghost use Rattle.std.specs.Prelude.{◌≡◌, ℕ, ◌+◌, ◌<◌, ◌≤◌, [], ◌∷◌, None, Some, IfOk, IfSome, IsTrue, length, option_map, slice_index};
ghost use Rattle.std.specs.Mem.Slots.{slots_items, slots_len, IsFull};
ghost use Rattle.cet_words.specs.Access.{InRange};
ghost use Rattle.cet_words.specs.Fill.{FilledFrom};
ghost use Rattle.cet_words.specs.Layout.{word_count};
ghost use Rattle.cet_cpu.specs.Cpu.{CpuData, IsCpu};
ghost use Rattle.cet_page.specs.Core.{next_access, taken};
ghost use Rattle.cet_page.specs.Machine.{Thread};
ghost use Rattle.cet_shared.specs.Held.{IsOf, OwnIs, alone, brought, first_view, new_thread, own, parts_of, picked, together, whole, without_child};
ghost use Rattle.cet_shared.specs.Rule.{Among};
ghost use Rattle.cet_shared.specs.Keys.{job_of};
ghost use Rattle.cet_shared.specs.Performed.{Moves, Performs, told};
ghost use Rattle.cet_shared.specs.Closing.{AreAll, HoldsAll, IsRun};

use crate::passes::Pass;
use crate::rules::{Audit, Bring, Child, Ended, Explains, Key, OneAccess, View};
use crate::starts::{key_of, start_words};
use atomic_table::{Closed, Seat, Table};
use cet_cpu::{Cpu, Taken, first};
use cet_isa::Record;
use cet_words::{Access, FIRST_ENTRY_WORD, Job, NoMemory, Plain};
use std::alloc::Global;
use std::marker::Model;

type Words = atomic_table::Shared<(), View, Key, Explains>;

/// So many words are copied out at once, as many as a page has.
const PART: u32 = 512;

/// The words of guest memory in one atomic table. Contracts see which table it is, and its job.
#[derive(Drop)]
pub struct Shared {
    table: Table<(), View, Key, Explains, Global>,
}

impl Model for Shared {
    ghost use Rattle.std.specs.Prelude.{◌≡◌};
    ghost use Rattle.cet_words.specs.Layout.{word_count};
    ghost use Rattle.cet_shared.specs.Held.{Place};
    ghost use Rattle.cet_shared.specs.Keys.{job_of};

    ghost Value = { Place };

    ghost view = { λ s. record { table_id = s.table.shared.table_id; job = job_of s.table.shared.key } };

    ghost invariant = { λ s. (s.table.shared.table_id.words ≡ word_count) × (s.table.shared.table_id.slots ≡ 0) };
}

impl Shared {
    /// Puts the start words of a job in a table, and makes the pass of thread 0.
    pub fn new(alloc: Global, job: &Job) -> Result<(Shared, Pass), NoMemory>
        ensures job { IfOk result (λ made. made.0.job ≡ job.now) }
        ensures pass { IfOk result (λ made. IsOf made.0 made.1) }
        ensures first { IfOk result (λ made. made.1.view ≡ first_view job.now) }
    {
        let words = start_words(alloc, job.image)?;
        let key = key_of(alloc, job)?;
        let (table, seat) = Table::of_words(alloc, &words, &key)?;
        let pass = Pass {
            seat,
            cpu: first(job),
        };
        Ok((Shared { table }, pass))
    }

    /// Does the next access of the pass's thread, as one atomic step. It waits for nobody.
    pub fn perform(&self, job: &Job, pass: &mut Pass) -> Taken
        requires job { self.now.job ≡ job.now }
        requires pass { IsOf self.now pass.old }
        requires goes { (own pass.old.view).core.over ≡ None }
        ensures step { Performs pass.old.view pass.new.view result }
        ensures pass { IsOf self.now pass.new }
        ensures born { IfSome result.child (IsCpu job.now) }
    {
        let mut child = None;
        let noted = self.advance(job, pass, &mut child);
        Taken {
            noted,
            child,
            end: pass.cpu.end(),
        }
    }

    /// Does the next access as `perform` does, and answers the record alone. The thread that is born, if any,
    /// is put into `child`, so that no access which bears none hands a thread on.
    pub fn advance(&self, job: &Job, pass: &mut Pass, child: &mut Option<Cpu>) -> Option<Record>
        requires job { self.now.job ≡ job.now }
        requires pass { IsOf self.now pass.old }
        requires goes { (own pass.old.view).core.over ≡ None }
        requires none { child.old ≡ None }
        ensures step { Performs pass.old.view pass.new.view (record { noted = result; child = child.new; end = (own pass.new.view).core.over }) }
        ensures pass { IsOf self.now pass.new }
        ensures born { IfSome child.new (IsCpu job.now) }
    {
        let Some(access) = pass.cpu.next(job) else {
            unreachable!()
        };
        let value = act(&self.table.shared, &mut pass.seat, access);
        if pass.cpu.bears(job, value) {
            bear(job, &pass.cpu, value, child);
        }
        pass.cpu.accept(job, value)
    }

    /// Gives a child, which an access of this pass bore, a pass of its own.
    pub fn split_child(&self, pass: &mut Pass, child: Cpu) -> Pass
        requires pass { IsOf self.now pass.old }
        requires child { Among (new_thread child.core) pass.old.view.born }
        requires state { IsCpu self.now.job child }
        ensures parent { pass.new.view ≡ without_child child.core.arch.number pass.old.view }
        ensures child { result.view ≡ alone self.now.job (new_thread child.core) }
        ensures parts { pass.new.view.parts + result.view.parts ≡ pass.old.view.parts }
        ensures passes { IsOf self.now pass.new × IsOf self.now result }
    {
        let seat = part(&self.table.shared, &mut pass.seat, &child);
        Pass { seat, cpu: child }
    }

    /// Joins a pass to another: all its threads stay, with their records and ends, and make no step any more.
    pub fn gather(&self, into: &mut Pass, done: Pass)
        requires into { IsOf self.now into.old }
        requires done { IsOf self.now done }
        ensures view { into.new.view ≡ together into.old.view done.view }
        ensures pass { IsOf self.now into.new }
    {
        let Pass { seat, cpu: _ } = done;
        self.table.shared.join_seat::<Ended>(&mut into.seat, seat);
    }

    /// A pass that has all parts holds all threads.
    pub fn audit(&self, pass: &mut Pass)
        requires { IsOf self.now pass.old }
        ensures same { pass.new ≡ pass.old }
        ensures all { pass.old.view.parts ≡ whole → HoldsAll pass.old.view }
    {
        self.table.shared.load::<Audit>(&mut pass.seat, 0);
    }

    /// Copies the words out, once a pass has gathered all threads.
    pub fn close(self, last: Pass, into: &mut Plain)
        requires pass { IsOf self last }
        requires all { AreAll last.view.threads }
        ensures { IsRun self.job into.new last.view }
    {
        let Shared { table } = self;
        let Pass { seat, cpu: _ } = last;
        let closed = table.close_with(seat);
        copy_words(&closed, into);
        closed.free();
    }
}

/// Puts the thread that is born where the next access has this answer into `child`, if any.
fn bear(job: &Job, parent: &Cpu, answer: u64, child: &mut Option<Cpu>)
    requires state { IsCpu job.now parent.now }
    requires goes { parent.now.core.over ≡ None }
    ensures child { option_map (λ (cpu : CpuData). cpu.core) child.new ≡ (taken job.now parent.now.core answer).child }
    ensures born { IfSome child.new (IsCpu job.now) }
{
    *child = parent.child(job, answer);
}

/// One access of the pass's own thread, as one step of the table.
fn act(shared: &Words, seat: &mut Seat<(), View>, access: Access) -> u64
    requires table { (seat.old.table_id ≡ shared.now.table_id) × (shared.now.table_id.words ≡ word_count) }
    requires job { seat.old.me.0.job ≡ job_of shared.now.key }
    requires own { OwnIs (own seat.old.me.0).core seat.old.me.0.threads }
    requires next { next_access (job_of shared.now.key) (own seat.old.me.0).core ≡ Some access }
    requires range { InRange access }
    ensures table { (seat.new.table_id ≡ seat.old.table_id) × (seat.new.me.1 ≡ seat.old.me.1) }
    ensures step { (found : ℕ) × Moves seat.old.me.0 found seat.new.me.0 × (result ≡ told access found) }
{
    match access {
        Access::Look(page) => shared.load::<OneAccess>(seat, (FIRST_ENTRY_WORD + page) as usize),
        Access::Load(word) => shared.load::<OneAccess>(seat, word as usize),
        Access::Store(word, value) => {
            shared.store::<OneAccess>(seat, word as usize, value);
            0
        }
        Access::Swap(word, value) => shared.swap::<OneAccess>(seat, word as usize, value),
        Access::FetchAdd(word, value) => shared.fetch_add::<OneAccess>(seat, word as usize, value),
        Access::FetchOr(word, value) => shared.fetch_or::<OneAccess>(seat, word as usize, value),
        Access::FetchAnd(word, value) => shared.fetch_and::<OneAccess>(seat, word as usize, value),
        Access::CompareExchange(word, expected, new) => {
            shared.compare_exchange::<OneAccess>(seat, word as usize, expected, new)
        }
    }
}

/// Brings the child of this number before the others.
fn bring(shared: &Words, seat: &mut Seat<(), View>, number: u8)
    requires { (seat.old.table_id ≡ shared.now.table_id) × (shared.now.table_id.words ≡ word_count) }
    ensures table { (seat.new.table_id ≡ seat.old.table_id) × (seat.new.me.1 ≡ seat.old.me.1) }
    ensures view { seat.new.me.0 ≡ brought number seat.old.me.0 }
    ensures picked { (y : Thread) → Among y seat.old.me.0.born → y.core.arch.number ≡ number → (picked number seat.old.me.0.born ≡ y ∷ []) × (parts_of number ≤ seat.old.me.0.parts) }
{
    shared.load::<Bring>(seat, number as usize);
}

/// A seat for a child.
fn part(shared: &Words, seat: &mut Seat<(), View>, child: &Cpu) -> Seat<(), View>
    requires table { (seat.old.table_id ≡ shared.now.table_id) × (shared.now.table_id.words ≡ word_count) }
    requires child { Among (new_thread child.now.core) seat.old.me.0.born }
    ensures table { (seat.new.table_id ≡ seat.old.table_id) × (seat.new.me.1 ≡ seat.old.me.1) }
    ensures view { seat.new.me.0 ≡ without_child child.now.core.arch.number seat.old.me.0 }
    ensures seat { (result.table_id ≡ seat.old.table_id) × (result.me ≡ (alone seat.old.me.0.job (new_thread child.now.core), [])) }
    ensures parts { parts_of child.now.core.arch.number ≤ seat.old.me.0.parts }
{
    bring(shared, seat, child.arch().number);
    shared.split_seat::<Child>(seat)
}

/// Whether the words of a closed table from one up to another are all 0.
fn is_zero(closed: &Closed<(), Global>, low: u32, high: u32) -> bool
    requires range { high ≤ slots_len closed.now.words }
    requires full { IsFull closed.now.words }
    ensures { IsTrue result → (w : ℕ) → low ≤ w → w < high → slice_index (slots_items closed.now.words) w ≡ 0 }
{
    let mut bits = 0;
    for word in low..high {
        bits |= closed.word(word as usize);
    }
    bits == 0
}

/// Has the words of `into` from one up to another be those of a closed table.
fn copy_part(closed: &Closed<(), Global>, into: &mut Plain, low: u32, high: u32)
    requires count { slots_len closed.now.words ≡ word_count }
    requires full { IsFull closed.now.words }
    requires range { (low ≤ high) × (high ≤ word_count) }
    requires all { length into.old ≡ word_count }
    ensures words { FilledFrom low high (slice_index (slots_items closed.now.words)) into.old into.new }
    ensures count { length into.new ≡ word_count }
{
    if is_zero(closed, low, high) {
        into.clear(low, high);
        return;
    }
    for word in low..high {
        into.put(word, closed.word(word as usize));
    }
}

/// Has `into` have the words of a closed table. In a part that is 0 there only what is held is stored to, so
/// pages that nobody has stored to still cost nothing.
fn copy_words(closed: &Closed<(), Global>, into: &mut Plain)
    requires count { slots_len closed.now.words ≡ word_count }
    requires full { IsFull closed.now.words }
    ensures { into.new ≡ slots_items closed.now.words }
{
    let count = into.count();
    for part in 0..count.div_ceil(PART) {
        let low = PART * part;
        copy_part(closed, into, low, (low + PART).min(count));
    }
}
