//! A run in a line.

ghost use Rattle.std.specs.Prelude.{◌≡◌, [], ◌∷◌, IfOk};
ghost use Rattle.std.specs.Fmt.{decimal};
ghost use Rattle.cet_trace.specs.Report.{process_words};
ghost use Rattle.cet_trace.specs.Summary.{records_of, summary_of};

use crate::lines::{Word, put_line};
use crate::reports::process_words;
use cet_run::{Outcome, ThreadOut};
use cet_words::{Bytes, NoMemory};
use std::alloc::Global;

/// The records of all threads. Those of 2^64 or more don't fit in any memory.
fn record_count(threads: &[ThreadOut]) -> Result<u64, NoMemory>
    ensures { IfOk result (λ count. count ≡ records_of threads.now) }
{
    let mut count: u64 = 0;
    for thread in threads {
        count = count
            .checked_add(thread.records.len() as u64)
            .ok_or(NoMemory)?;
    }
    Ok(count)
}

/// The line that `bench` writes of a run of its text for `n` swaps: the records of all threads, and the process's end.
#[tactic(auto, unfolding(crate::specs::Summary::summary_of))]
pub fn summary(alloc: Global, n: u32, outcome: &Outcome) -> Result<Bytes, NoMemory>
    ensures { IfOk result (λ bytes. bytes ≡ summary_of n outcome.now) }
{
    let count = record_count(outcome.threads.as_slice())?;
    let mut out = Bytes::new(alloc);
    let [name, number] = process_words(outcome.process);
    let words = [
        Word::Decimal(u64::from(n)),
        Word::Text("records"),
        Word::Decimal(count),
        Word::Text("process"),
        name,
        number,
    ];
    put_line(alloc, &mut out, Word::Text("bench"), &words)?;
    Ok(out)
}
