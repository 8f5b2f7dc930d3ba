//! Images that are run.

ghost use Rattle.std.specs.Prelude.{◌≡◌, ◌⊎◌, IfOk};
ghost use Rattle.cet_cli.specs.Words.{default_settings};
ghost use Rattle.cet_run.specs.SafeRun.{SafeRun};
ghost use Rattle.cet_top.specs.Answer.{Measured, Measures, Refuses, Reports, Runs, by_course, by_plan, job_with, status_of};

use crate::answers::{Answer, refused};
use crate::status::Status;
use cet_cli::{Plan, Settings};
use cet_elf::{LoadFault, load};
use cet_run::{Outcome, ProcessEnd, mix, replay, robin};
use cet_trace::{report, summary};
use cet_words::{Image, Job, NoMemory};
use std::alloc::Global;

/// Which turns the threads of a run have.
#[derive(Clone, Copy, Debug)]
pub(crate) enum Course<'a> {
    /// The live ones in the order of their numbers.
    Robin,
    /// Those of a plan.
    Planned(&'a Plan),
}

/// The status of a run whose process ended so.
pub(crate) fn status_of(end: ProcessEnd) -> Status
    ensures { result ≡ status_of end }
{
    match end {
        ProcessEnd::Exit(_) => Status::Done,
        ProcessEnd::Killed(signal) => Status::Killed(signal),
        ProcessEnd::Limit(thread) => Status::Limit(thread),
    }
}

/// The outcome of a run by a plan.
fn run_planned(alloc: Global, job: &Job, plan: &Plan) -> Result<Outcome, NoMemory>
    ensures { IfOk result (SafeRun job.now (by_plan plan.now job.now)) }
{
    match plan {
        Plan::Schedule(turns) => replay(alloc, job, turns.as_slice()),
        Plan::Mix(number) => mix(alloc, job, *number),
    }
}

/// The outcome of a run with these turns.
fn run_course(alloc: Global, job: &Job, course: Course) -> Result<Outcome, NoMemory>
    ensures { IfOk result (SafeRun job.now (by_course course.entry job.now)) }
{
    match course {
        Course::Robin => robin(alloc, job),
        Course::Planned(plan) => run_planned(alloc, job, plan),
    }
}

/// The job of an image by these settings.
pub(crate) fn job_with<'a>(settings: &'a Settings, image: &'a Image) -> Job<'a>
    ensures { result ≡ job_with settings.now image.now }
{
    // The image's invariant holds of it from here on.
    let _entry = image.entry;
    Job {
        image,
        procs: settings.procs,
        limit: settings.limit,
        signals: settings.signals.as_slice(),
    }
}

/// The outcome of a run of an image by the settings.
fn run_image(
    alloc: Global,
    settings: &Settings,
    course: Course,
    image: &Image,
) -> Result<Outcome, NoMemory>
    ensures { let job = job_with settings.now image.now in IfOk result (SafeRun job (by_course course.entry job)) }
{
    let job = job_with(settings, image);
    run_course(alloc, &job, course)
}

/// Runs an image by the settings, and reports in their style.
fn report_image(
    alloc: Global,
    settings: &Settings,
    course: Course,
    image: &Image,
) -> Result<Answer, NoMemory>
    ensures { let job = job_with settings.now image.now in
        IfOk result (λ answer. Reports job (by_course course.entry job) settings.now.style answer.status answer.output) }
{
    let outcome = run_image(alloc, settings, course, image)?;
    let output = report(alloc, &outcome, settings.style)?;
    Ok(Answer {
        status: status_of(outcome.process),
        output,
    })
}

/// Runs the image that the bytes are, by the settings.
pub(crate) fn run_bytes(
    alloc: Global,
    settings: &Settings,
    course: Course,
    bytes: &[u8],
) -> Result<Answer, NoMemory>
    ensures { IfOk result (λ answer. Refuses bytes.now answer.status answer.output
        ⊎ Runs (by_course course.entry) settings.now bytes.now answer.status answer.output) }
{
    match load(alloc, bytes) {
        Ok(image) => report_image(alloc, settings, course, &image),
        Err(LoadFault::Refused { rule, offset }) => Ok(refused(alloc, rule, offset)),
        Err(LoadFault::NoMemory) => Err(NoMemory),
    }
}

/// Runs an image by the default settings, and tells its run in a line.
fn measure_image(alloc: Global, n: u32, image: &Image) -> Result<Answer, NoMemory>
    ensures { IfOk result (λ answer. Measured n (job_with default_settings image.now) answer.status answer.output) }
{
    let settings = Settings::defaults(alloc);
    let outcome = run_image(alloc, &settings, Course::Robin, image)?;
    let output = summary(alloc, n, &outcome)?;
    Ok(Answer {
        status: status_of(outcome.process),
        output,
    })
}

/// Runs the image that the bytes are, by the default settings, and tells its run in a line.
pub(crate) fn measure_bytes(alloc: Global, n: u32, bytes: &[u8]) -> Result<Answer, NoMemory>
    ensures { IfOk result (λ answer. Refuses bytes.now answer.status answer.output
        ⊎ Measures n bytes.now answer.status answer.output) }
{
    match load(alloc, bytes) {
        Ok(image) => measure_image(alloc, n, &image),
        Err(LoadFault::Refused { rule, offset }) => Ok(refused(alloc, rule, offset)),
        Err(LoadFault::NoMemory) => Err(NoMemory),
    }
}
