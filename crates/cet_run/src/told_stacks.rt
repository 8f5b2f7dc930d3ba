//! The shadow stacks that records tell of, and the pointers of the threads that keep theirs.

ghost use Rattle.std.specs.Prelude.{◌≡◌, ◌++◌, All, OnOk, IfOk};
ghost use Rattle.cet_book.specs.View.{IsSpan};
ghost use Rattle.cet_own.specs.Told.{in_order, told, told_in, kept_pointers};
ghost use Rattle.cet_run.specs.Shown.{told_by};
ghost use Rattle.cet_run.specs.TracedThreads.{threads_of};

use crate::outcomes::ThreadOut;
use crate::traced_threads::TracedThread;
use cet_book::Region;
use cet_isa::{End, Record, What};
use cet_words::{FIRST_REGION_END, FIRST_REGION_START, NoMemory, THREAD_REGION_SIZE, page_up};
use std::alloc::Global;

/// The place of thread 0's first shadow stack.
pub(crate) const FIRST_STACK: Region = Region {
    start: FIRST_REGION_START,
    end: FIRST_REGION_END,
};

/// Appends the shadow stack that a record tells of, if any.
fn push_told(spans: &mut Vec<Region>, noted: Record) -> Result<(), NoMemory>
    requires { All IsSpan (told noted noted.what) }
    ensures { OnOk result (spans.new.items ≡ spans.old.items ++ told noted noted.what) }
{
    match noted.what {
        What::Claim => spans.push(Region {
            start: noted.a,
            end: noted.a + page_up(noted.b),
        })?,
        What::Born => spans.push(Region {
            start: noted.b.saturating_sub(THREAD_REGION_SIZE),
            end: noted.b,
        })?,
        What::Step
        | What::Call
        | What::Ret
        | What::Raise
        | What::Take
        | What::Save
        | What::Busy
        | What::Sys
        | What::Wrote
        | What::Signal
        | What::Ignore
        | What::SigReturn
        | What::Fault(_)
        | What::Kill => {}
    }
    Ok(())
}

/// Appends the shadow stacks that records tell of.
pub(crate) fn push_all_told(spans: &mut Vec<Region>, records: &[Record]) -> Result<(), NoMemory>
    requires { All IsSpan (told_in records.now) }
    ensures { OnOk result (spans.new.items ≡ spans.old.items ++ told_in records.now) }
{
    for noted in records {
        push_told(spans, *noted)?;
    }
    Ok(())
}

/// Sorts shadow stacks by their starts.
pub(crate) fn put_in_order(spans: &mut Vec<Region>) -> Result<(), NoMemory>
    ensures { OnOk result (spans.new.items ≡ in_order spans.old.items) }
{
    spans.sort_by_key(|span| span.start)?;
    Ok(())
}

/// Thread 0's first shadow stack and those that the threads' records tell of, by their starts.
pub(crate) fn told_spans(alloc: Global, outs: &[ThreadOut]) -> Result<Vec<Region>, NoMemory>
    requires { All IsSpan (told_by outs.now) }
    ensures { IfOk result (λ spans. spans.items ≡ told_by outs.now) }
{
    let mut spans = Vec::new(alloc);
    spans.push(FIRST_STACK)?;
    for out in outs {
        push_all_told(&mut spans, out.records.as_slice())?;
    }
    put_in_order(&mut spans)?;
    Ok(spans)
}

/// The threads that haven't ended by exit, by number, with their shadow-stack pointers.
pub(crate) fn kept_pointers(
    alloc: Global,
    all_traced: &[TracedThread],
) -> Result<Vec<(u8, u64)>, NoMemory>
    ensures { IfOk result (λ pointers. pointers.items ≡ kept_pointers (threads_of all_traced.now)) }
{
    let mut pointers = Vec::new(alloc);
    for traced in all_traced {
        match traced.end() {
            Some(End::Exit(_)) => {}
            None | Some(End::Group | End::Limit) => {
                pointers.push((traced.number(), traced.ssp()))?
            }
        }
    }
    Ok(pointers)
}
