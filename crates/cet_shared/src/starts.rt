//! The words that a table is made with.

ghost use Rattle.std.specs.Prelude.{◌≡◌, IfOk};
ghost use Rattle.cet_words.specs.Start.{IsStart};
ghost use Rattle.cet_shared.specs.Keys.{job_of};

use crate::rules::Key;
use cet_words::{Image, Job, NoMemory, Plain};
use std::alloc::Global;
use std::snapshot::Snapshot;

/// The words at the start, in order.
pub(crate) fn start_words(alloc: Global, image: &Image) -> Result<Vec<u64>, NoMemory>
    ensures { IfOk result (λ words. IsStart image.now words.items) }
{
    let plain = Plain::new(alloc, image)?;
    plain.to_words(alloc)
}

/// The key of a table for this job.
pub(crate) fn key_of(alloc: Global, job: &Job) -> Result<Key, NoMemory>
    ensures { IfOk result (λ key. job_of key ≡ job.now) }
{
    Ok(Key {
        image: Snapshot::of(job.image),
        procs: job.procs,
        limit: job.limit,
        signals: Vec::from_slice(alloc, job.signals)?,
    })
}
