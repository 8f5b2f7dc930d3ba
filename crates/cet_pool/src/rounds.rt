//! The passes are dealt to the workers, which are joined after some rounds.

ghost use Rattle.std.specs.Prelude.{◌≡◌, ◌<◌, ◌++◌, [], All, OnOk, IfOk, vec_len};
ghost use Rattle.std.specs.List.Sorted.{IsPermutation};
ghost use Rattle.cet_pool.specs.Going.{IsOver, IsReady};
ghost use Rattle.cet_pool.specs.Rounds.{Collected, Parted, Settled, spread};

use crate::lives::Live;
use crate::workers::{Bin, all_turns};
use cet_shared::{Shared, Turnstile};
use cet_words::{Job, NoMemory};
use std::alloc::Global;
use std::thread::Threads;

/// A bin for each worker.
fn empty_bins(alloc: Global, workers: u32) -> Result<Vec<Bin>, NoMemory>
    ensures count { IfOk result (λ bins. vec_len bins ≡ workers) }
    ensures none { IfOk result (λ bins. spread bins.items ≡ []) }
{
    let mut bins = Vec::new(alloc);
    for worker in 0..workers {
        bins.push(Bin {
            worker,
            lives: Vec::new(alloc),
        })?;
    }
    Ok(bins)
}

/// Thread t goes to worker t mod workers.
fn deal(alloc: Global, workers: u32, lives: Vec<Live>) -> Result<Vec<Bin>, NoMemory>
    requires { 0 < workers }
    ensures { IfOk result (λ bins. IsPermutation lives.items (spread bins.items)) }
{
    let mut bins = empty_bins(alloc, workers)?;
    let mut waiting = lives;
    while let Some(live) = waiting.pop() {
        let at = (u32::from(live.number()) % workers) as usize;
        bins[at].lives.push(live)?;
    }
    Ok(bins)
}

/// A worker with no pass starts no thread.
fn drop_empty(bins: &mut Vec<Bin>)
    ensures { spread bins.new.items ≡ spread bins.old.items }
{
    bins.retain(|bin| !bin.lives.is_empty());
}

/// Passes whose threads have ended are laid aside, and the others go on.
pub fn part(
    mut waiting: Vec<Live>,
    lives: &mut Vec<Live>,
    ended: &mut Vec<Live>,
) -> Result<(), NoMemory>
    ensures { OnOk result (Parted waiting.items lives.old.items ended.old.items [] lives.new.items ended.new.items) }
{
    while let Some(live) = waiting.pop() {
        if live.end().is_some() {
            ended.push(live)?;
        } else {
            lives.push(live)?;
        }
    }
    Ok(())
}

/// The passes of the workers' answers, of which some go on.
fn collect(
    alloc: Global,
    mut answers: Vec<Result<Vec<Live>, NoMemory>>,
    ended: &mut Vec<Live>,
) -> Result<Vec<Live>, NoMemory>
    ensures { IfOk result (λ lives. Collected answers.items ended.old.items [] lives.items ended.new.items) }
{
    let mut lives = Vec::new(alloc);
    while let Some(answer) = answers.pop() {
        let out = answer?;
        part(out, &mut lives, ended)?;
    }
    Ok(lives)
}

/// Each live thread has at least one turn, and its worker so many rounds at most.
pub fn round<R: Threads + Sync, G: Turnstile + Sync>(
    rt: &R,
    alloc: Global,
    job: &Job,
    workers: u32,
    gate: &G,
    shared: &Shared,
    most: u32,
    lives: Vec<Live>,
    ended: &mut Vec<Live>,
) -> Result<Vec<Live>, NoMemory>
    requires workers { 0 < workers }
    requires job { shared.now.job ≡ job.now }
    requires ready { All (IsReady shared.now) lives.items }
    requires over { All (IsOver shared.now) ended.old.items }
    ensures { IfOk result (λ left. Settled shared.now (vec_len lives) (lives.items ++ ended.old.items) left.items ended.new.items) }
{
    let mut bins = deal(alloc, workers, lives)?;
    drop_empty(&mut bins);
    let answers = all_turns(rt, alloc, job, gate, shared, most, bins)?;
    let left = collect(alloc, answers, ended)?;
    Ok(left)
}
