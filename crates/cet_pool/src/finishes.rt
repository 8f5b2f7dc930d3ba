//! The outcome of a run on a table of words.

ghost use Rattle.std.specs.Prelude.{◌≡◌, IfOk};
ghost use Rattle.cet_run.specs.SafeRun.{SafeRun};
ghost use Rattle.cet_pool.specs.Gathering.{IsGathered, LeadsTo};

use crate::drives::Gathered;
use cet_run::{Outcome, outcome_of};
use cet_shared::Shared;
use cet_words::{Job, NoMemory, Plain};
use std::alloc::Global;
use std::marker::Model;

/// A run on a table of words: only `finish` makes one. Contracts see its outcome.
#[derive(Drop)]
pub struct Ran {
    outcome: Outcome,
}

impl Model for Ran {
    ghost use Rattle.cet_run.specs.declared.outcomes.Outcome.{Outcome};

    ghost Value = { Outcome };

    ghost view = { λ r. r.outcome };
}

impl Ran {
    /// What the run came to.
    pub fn outcome(&self) -> &Outcome
        ensures { result.now ≡ self.now }
    {
        &self.outcome
    }
}

/// Closes a table into `into`, and makes the outcome from its words and from what was gathered of its
/// passes. Where memory is short all three are dropped.
pub fn finish(
    alloc: Global,
    job: &Job,
    shared: Shared,
    done: Gathered,
    mut into: Plain,
) -> Result<Ran, NoMemory>
    requires job { shared.job ≡ job.now }
    requires done { IsGathered shared done }
    // One schedule leads to exactly the threads that were gathered, and the outcome is that of its run.
    ensures run { IfOk result (SafeRun job.now (LeadsTo job.now done.last.view)) }
    ensures threads { IfOk result (λ ran. ran.threads ≡ done.threads) }
{
    let Gathered {
        last,
        threads,
        ssps,
    } = done;
    shared.close(last, &mut into);
    let outcome = outcome_of(alloc, job, &mut into, threads, ssps.as_slice())?;
    Ok(Ran { outcome })
}
