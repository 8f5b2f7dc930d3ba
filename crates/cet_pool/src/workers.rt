//! The turns of workers, each in a thread of its own.

ghost use Rattle.std.specs.Prelude.{◌≡◌, ℕ, ◌<◌, true, All, IfOk, vec_len, slice_index_or};
ghost use Rattle.cet_pool.specs.Going.{IsReady};
ghost use Rattle.cet_pool.specs.Rounds.{IsGoing, IsReadyBin, Turned};

use crate::lives::{Live, turn};
use cet_shared::{Shared, Turnstile};
use cet_words::{Job, NoMemory};
use std::alloc::Global;
use std::thread;
use std::thread::Threads;

/// The passes that a worker has in a round.
#[derive(Drop)]
pub struct Bin {
    pub worker: u32,
    pub lives: Vec<Live>,
}

/// Each pass of a worker has its turn.
fn turns<G: Turnstile>(
    alloc: Global,
    job: &Job,
    gate: &G,
    shared: &Shared,
    worker: u32,
    lives: Vec<Live>,
) -> Result<Vec<Live>, NoMemory>
    requires job { shared.now.job ≡ job.now }
    requires ready { All (IsReady shared.now) lives.items }
    ensures { IfOk result (λ out. Turned shared.now lives.items out.items) }
{
    let mut waiting = lives;
    let mut had = Vec::new(alloc);
    while let Some(mut live) = waiting.pop() {
        gate.pass(worker, live.number());
        turn(alloc, job, shared, &mut live, &mut had)?;
        had.push(live)?;
    }
    Ok(had)
}

/// Whether the thread of no pass has ended.
fn all_go(lives: &[Live]) -> bool
    ensures { result ≡ true → All IsGoing lives.now }
{
    for live in lives {
        if live.end().is_some() {
            return false;
        }
    }
    true
}

/// Each pass of a worker has its turn, and again, so often at most. A thread that was born or has ended ends this, so that the
/// passes are dealt anew.
fn rounds<G: Turnstile>(
    alloc: Global,
    job: &Job,
    gate: &G,
    shared: &Shared,
    most: u32,
    bin: Bin,
) -> Result<Vec<Live>, NoMemory>
    requires job { shared.now.job ≡ job.now }
    requires ready { IsReadyBin shared.now bin }
    ensures { IfOk result (λ out. Turned shared.now bin.lives.items out.items) }
{
    let Bin { worker, lives } = bin;
    let count = lives.len();
    let mut had = turns(alloc, job, gate, shared, worker, lives)?;
    for _ in 1..most {
        if had.len() != count || !all_go(&had) {
            break;
        }
        had = turns(alloc, job, gate, shared, worker, had)?;
    }
    Ok(had)
}

/// The rounds of all workers, which are joined.
pub fn all_turns<R: Threads + Sync, G: Turnstile + Sync>(
    rt: &R,
    alloc: Global,
    job: &Job,
    gate: &G,
    shared: &Shared,
    most: u32,
    bins: Vec<Bin>,
) -> Result<Vec<Result<Vec<Live>, NoMemory>>, NoMemory>
    requires job { shared.now.job ≡ job.now }
    requires ready { All (IsReadyBin shared.now) bins.items }
    ensures len { IfOk result (λ v. vec_len v ≡ vec_len bins) }
    ensures each { IfOk result (λ v. (i : ℕ) (b : _) (r : _) → i < vec_len bins →
        IfOk (slice_index_or v.items i r) (λ out. Turned shared.now (slice_index_or bins.items i b).lives.items out.items)) }
{
    let answers = thread::map_vec(
        rt,
        bins,
        &|bin: Bin| -> Result<Vec<Live>, NoMemory>
            requires { All (IsReady shared.now) bin.lives.items × (shared.now.job ≡ job.now) }
            ensures { IfOk result (λ out. Turned shared.entry.now bin.lives.items out.items) }
        { rounds(alloc, job, gate, shared, most, bin) },
    )?;
    Ok(answers)
}
