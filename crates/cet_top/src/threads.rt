//! Images whose threads run on workers, beside each other.

ghost use Rattle.std.specs.Prelude.{◌≡◌, ◌≤◌, Some, IfOk};
ghost use Rattle.cet_cli.specs.Words.{most_workers};
ghost use Rattle.cet_run.specs.SafeRun.{SafeRun};
ghost use Rattle.cet_run.specs.declared.outcomes.Outcome.{Outcome};
ghost use Rattle.cet_top.specs.Answer.{AnswersThreaded, ReportsOf, by_any, job_with};

use crate::answers::{Answer, refused};
use crate::runs::{job_with, status_of};
use cet_cli::Settings;
use cet_elf::{LoadFault, load};
use cet_pool::{Ran, drive_rounds, finish};
use cet_shared::{Shared, Turnstile};
use cet_trace::report;
use cet_words::{Image, Job, NoMemory, Plain};
use std::alloc::Global;
use std::thread::Threads;

/// The answer to a threaded run, and the run that it tells of, where there was one.
#[derive(Drop)]
pub(crate) struct Threaded {
    pub answer: Answer,
    pub ran: Option<Ran>,
}

/// A run of a job on so many workers.
fn run_job<R: Threads + Sync, G: Turnstile + Sync>(
    rt: &R,
    alloc: Global,
    job: &Job,
    workers: u32,
    gate: &G,
) -> Result<Ran, NoMemory>
    requires { (1 ≤ workers) × (workers ≤ most_workers) }
    ensures { IfOk result (SafeRun job.now (by_any job.now)) }
{
    let (shared, first) = Shared::new(alloc, job)?;
    let into = Plain::new(alloc, job.image)?;
    let done = drive_rounds(rt, alloc, job, workers, gate, &shared, first)?;
    let ran = finish(alloc, job, shared, done, into)?;
    Ok(ran)
}

/// Runs an image on workers by the settings, and reports in their style.
fn report_threads<R: Threads + Sync, G: Turnstile + Sync>(
    rt: &R,
    alloc: Global,
    settings: &Settings,
    workers: u32,
    gate: &G,
    image: &Image,
) -> Result<Threaded, NoMemory>
    requires { (1 ≤ workers) × (workers ≤ most_workers) }
    ensures { let job = job_with settings.now image.now in IfOk result (λ made.
        (outcome : Outcome) × (made.ran ≡ Some outcome) × SafeRun job (by_any job) outcome
        × ReportsOf outcome settings.now.style made.answer.status made.answer.output) }
{
    let job = job_with(settings, image);
    let ran = run_job(rt, alloc, &job, workers, gate)?;
    let output = report(alloc, ran.outcome(), settings.style)?;
    let status = status_of(ran.outcome().process);
    Ok(Threaded {
        answer: Answer { status, output },
        ran: Some(ran),
    })
}

/// Runs the image that the bytes are on workers, by the settings.
pub(crate) fn run_threads<R: Threads + Sync, G: Turnstile + Sync>(
    rt: &R,
    alloc: Global,
    settings: &Settings,
    workers: u32,
    gate: &G,
    bytes: &[u8],
) -> Result<Threaded, NoMemory>
    requires { (1 ≤ workers) × (workers ≤ most_workers) }
    ensures { IfOk result (λ made. AnswersThreaded settings.now made.ran bytes.now made.answer.status made.answer.output) }
{
    match load(alloc, bytes) {
        Ok(image) => report_threads(rt, alloc, settings, workers, gate, &image),
        Err(LoadFault::Refused { rule, offset }) => Ok(Threaded {
            answer: refused(alloc, rule, offset),
            ran: None,
        }),
        Err(LoadFault::NoMemory) => Err(NoMemory),
    }
}
