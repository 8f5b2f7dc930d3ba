//! All threads of a job, to their ends.

ghost use Rattle.std.specs.Prelude.{◌≡◌, ◌<◌, ◌≤◌, [], ◌∷◌, ◌++◌, All, OnOk, IfOk, length, map};
ghost use Rattle.cet_own.specs.Told.{kept_pointers};
ghost use Rattle.cet_run.specs.Outcome.{thread_out};
ghost use Rattle.cet_shared.specs.Held.{IsOf, first_view};
ghost use Rattle.cet_shared.specs.Closing.{AreAll};
ghost use Rattle.cet_pool.specs.Going.{IsLive, IsOver, IsReady, own};
ghost use Rattle.cet_pool.specs.Rounds.{Settled};
ghost use Rattle.cet_pool.specs.Gathering.{IsGathered, IsGathering};

use crate::lives::Live;
use crate::rounds::{part, round};
use cet_isa::End;
use cet_run::{Records, ThreadOut, ThreadOuts};
use cet_shared::{Pass, Shared, Turnstile};
use cet_words::{Items, Job, NoMemory};
use std::alloc::Global;
use std::thread::Threads;

/// Thread numbers with their shadow-stack pointers.
pub type Ssps = Items<(u8, u64)>;

/// A pass that has gathered all threads, with their records and ends by number, and the shadow-stack
/// pointers of those that keep their stacks.
#[derive(Drop)]
pub struct Gathered {
    pub last: Pass,
    pub threads: ThreadOuts,
    pub ssps: Ssps,
}

/// The first pass, which goes on or is laid aside.
fn start(
    alloc: Global,
    job: &Job,
    shared: &Shared,
    first: Pass,
    ended: &mut Vec<Live>,
) -> Result<Vec<Live>, NoMemory>
    requires first { IsOf shared.now first × (first.view ≡ first_view job.now) }
    requires none { ended.old.items ≡ [] }
    ensures { IfOk result (λ lives. Settled shared.now 0 (record { pass = first; records = [] } ∷ []) lives.items ended.new.items) }
{
    let mut waiting = Vec::new(alloc);
    waiting.push(Live {
        pass: first,
        records: Records::new(alloc),
    })?;
    let mut lives = Vec::new(alloc);
    part(waiting, &mut lives, ended)?;
    Ok(lives)
}

/// The records and the end of a pass's thread come behind those of the others, and so does its pointer
/// where it keeps its stack.
fn put_out(
    alloc: Global,
    threads: &mut ThreadOuts,
    ssps: &mut Ssps,
    live: Live,
) -> Result<Pass, NoMemory>
    requires { live.records ≡ (own live).trace }
    ensures pass { IfOk result (λ pass. pass ≡ live.pass) }
    ensures threads { OnOk result (threads.new ≡ threads.old ++ thread_out (own live) ∷ []) }
    ensures ssps { OnOk result (ssps.new ≡ ssps.old ++ kept_pointers (own live ∷ [])) }
{
    let end = live.end().unwrap_or(End::Group);
    match end {
        End::Exit(_) => {}
        End::Group | End::Limit => ssps.push(alloc, (live.number(), live.ssp()))?,
    }
    let Live { pass, records } = live;
    threads.push(alloc, ThreadOut { records, end })?;
    Ok(pass)
}

/// A pass alone.
fn alone(alloc: Global, live: Live) -> Result<Gathered, NoMemory>
    requires { live.records ≡ (own live).trace }
    ensures last { IfOk result (λ done. done.last ≡ live.pass) }
    ensures threads { IfOk result (λ done. done.threads ≡ thread_out (own live) ∷ []) }
    ensures ssps { IfOk result (λ done. done.ssps ≡ kept_pointers (own live ∷ [])) }
{
    let mut threads = ThreadOuts::new(alloc);
    let mut ssps = Ssps::new(alloc);
    let last = put_out(alloc, &mut threads, &mut ssps, live)?;
    Ok(Gathered {
        last,
        threads,
        ssps,
    })
}

/// The threads of all passes, gathered in their order.
fn gather(alloc: Global, shared: &Shared, mut waiting: Vec<Live>) -> Result<Gathered, NoMemory>
    requires lives { All (IsLive shared.now) waiting.items }
    requires some { 0 < length waiting.items }
    ensures { IfOk result (IsGathering shared.now waiting.items []) }
{
    let mut done = alone(alloc, waiting.remove(0))?;
    'waiting: while !waiting.is_empty() {
        let pass = put_out(alloc, &mut done.threads, &mut done.ssps, waiting.remove(0))?;
        shared.gather(&mut done.last, pass);
    }
    Ok(done)
}

/// The threads of all passes, gathered by number.
fn gather_by_number(
    alloc: Global,
    shared: &Shared,
    mut ended: Vec<Live>,
) -> Result<Gathered, NoMemory>
    requires over { All (IsOver shared.now) ended.items }
    requires all { AreAll (map own ended.items) }
    ensures { IfOk result (IsGathered shared.now) }
{
    ended.sort_by_key(|live| live.number())?;
    let done = gather(alloc, shared, ended)?;
    Ok(done)
}

/// The joins of a run up to which each is behind a round.
const FINE_JOINS: u32 = 128;

/// The rounds of a worker between two later joins, at most.
const ROUNDS: u32 = 64;

/// The rounds of a worker before it is joined, at most, where workers were joined so often before.
fn most_rounds(joins: u32) -> u32 {
    if joins < FINE_JOINS { 1 } else { ROUNDS }
}

/// Brings every thread to its end on the words of `shared`. In a round worker w gives each live thread t
/// with t mod workers = w up to 64 accesses, and the workers are joined. From the 129th join on a worker
/// goes on with its next round, where none of its threads was born or has ended, for 64 rounds at most.
/// `first` is the pass that `Shared::new` gave. Where memory is short the passes are dropped.
pub fn drive_rounds<R: Threads + Sync, G: Turnstile + Sync>(
    rt: &R,
    alloc: Global,
    job: &Job,
    workers: u32,
    gate: &G,
    shared: &Shared,
    first: Pass,
) -> Result<Gathered, NoMemory>
    requires workers { (1 ≤ workers) × (workers ≤ 16) }
    requires job { shared.now.job ≡ job.now }
    requires first { IsOf shared.now first × (first.view ≡ first_view job.now) }
    ensures { IfOk result (IsGathered shared.now) }
{
    let mut ended = Vec::new(alloc);
    let mut lives = start(alloc, job, shared, first, &mut ended)?;
    let mut joins = 0_u32;
    'rounds: while !lives.is_empty() {
        let most = most_rounds(joins);
        lives = round(
            rt, alloc, job, workers, gate, shared, most, lives, &mut ended,
        )?;
        joins = joins.saturating_add(1);
    }
    let done = gather_by_number(alloc, shared, ended)?;
    Ok(done)
}
