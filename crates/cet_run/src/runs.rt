//! Runs of a job by a stated schedule, from its start until every thread has ended.

ghost use Rattle.std.specs.Prelude.{◌≡◌, ℕ, List, IfOk};
ghost use Rattle.cet_words.specs.Job.{IsJob};
ghost use Rattle.cet_page.specs.Machine.{Machine, Starts, machine};
ghost use Rattle.cet_run.specs.SafeRun.{IsLeft, IsThis, SafeRun};
ghost use Rattle.cet_run.specs.Schedule.{ByRobin, IsFull, IsMix};
ghost use Rattle.cet_run.specs.TracedThreads.{AreGuests, threads_of};
ghost use Rattle.cet_run.specs.Turns.{Finishes};

use crate::ends::{process_end, thread_outs};
use crate::guests::Guests;
use crate::outcomes::{Outcome, ThreadOuts};
use crate::told_stacks::{kept_pointers, told_spans};
use crate::turns::{give_mix, give_robin, give_turns};
use cet_book::report_of_words;
use cet_cpu::first;
use cet_words::{Access, EXIT_WORD, Job, NoMemory, Perform, Plain};
use std::alloc::Global;

/// The outcome of a finished run, from its words, its threads by number, and the shadow-stack pointers
/// of those that keep their stacks, with their numbers. Where memory is short the threads are dropped.
pub fn outcome_of<P: Perform>(
    alloc: Global,
    job: &Job,
    words: &mut P,
    threads: ThreadOuts,
    ssps: &[(u8, u64)],
) -> Result<Outcome, NoMemory>
    requires { (start : Machine) × (turns : List ℕ) × IsLeft job.now start turns (P.words words.old) threads ssps.now }
    ensures outcome { (start : Machine) (turns : List ℕ) → IsLeft job.now start turns (P.words words.old) threads ssps.now → IfOk result (SafeRun job.now (IsThis start turns)) }
    ensures words { P.words words.new ≡ P.words words.old }
{
    // The job's invariant holds of it from here on.
    let _limit = job.limit;
    let exit = words.perform(Access::Load(EXIT_WORD));
    let spans = told_spans(alloc, threads.as_slice())?;
    let stacks = report_of_words(alloc, words, &spans, ssps)?;
    let process = process_end(exit, threads.as_slice());
    Ok(Outcome {
        threads,
        stacks,
        process,
    })
}

/// The start of a job: the start words, and thread 0.
pub(crate) fn start(alloc: Global, job: &Job) -> Result<(Plain, Guests), NoMemory>
    ensures is_job { IsJob job.now }
    ensures starts { IfOk result (λ at. Starts job.now (machine at.0 (threads_of at.1.all.items))) }
    ensures guests { IfOk result (λ at. AreGuests job.now at.1.all.items at.1.live.items) }
{
    let words = Plain::new(alloc, job.image)?;
    let guests = Guests::new(alloc, job, first(job))?;
    Ok((words, guests))
}

/// The outcome of a run in which every thread has ended.
fn finish(alloc: Global, job: &Job, mut words: Plain, guests: Guests) -> Result<Outcome, NoMemory>
    requires { (start : Machine) × (turns : List ℕ) × Finishes job.now start turns (machine words (threads_of guests.all.items)) }
    ensures { (start : Machine) (turns : List ℕ) → Finishes job.now start turns (machine words (threads_of guests.all.items)) → IfOk result (SafeRun job.now (IsThis start turns)) }
{
    let ssps = kept_pointers(alloc, &guests.all)?;
    let outs = thread_outs(alloc, guests.all)?;
    outcome_of(alloc, job, &mut words, outs, &ssps)
}

/// Runs a job by the turns of a list of thread numbers, and then by Robin until every thread has ended.
pub fn replay(alloc: Global, job: &Job, schedule: &[u32]) -> Result<Outcome, NoMemory>
    ensures { IfOk result (SafeRun job.now (λ start turns. IsFull job.now start schedule.now turns)) }
{
    let (mut words, mut guests) = start(alloc, job)?;
    give_turns(alloc, job, &mut words, &mut guests, schedule)?;
    give_robin(alloc, job, &mut words, &mut guests)?;
    finish(alloc, job, words, guests)
}

/// Runs a job by Robin until every thread has ended.
pub fn robin(alloc: Global, job: &Job) -> Result<Outcome, NoMemory>
    ensures { IfOk result (SafeRun job.now (ByRobin job.now)) }
{
    let (mut words, mut guests) = start(alloc, job)?;
    give_robin(alloc, job, &mut words, &mut guests)?;
    finish(alloc, job, words, guests)
}

/// Runs a job by the numbers of Mix from a seed on, until every thread has ended.
pub fn mix(alloc: Global, job: &Job, seed: u64) -> Result<Outcome, NoMemory>
    ensures { IfOk result (SafeRun job.now (λ start turns. IsMix job.now start seed turns)) }
{
    let (mut words, mut guests) = start(alloc, job)?;
    give_mix(alloc, job, &mut words, &mut guests, seed)?;
    finish(alloc, job, words, guests)
}
