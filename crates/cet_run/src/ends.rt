//! How a process ended.

ghost use Rattle.std.specs.Prelude.{◌≡◌, ◌<◌, ◌≤◌, length, map, IfOk, IfSome};
ghost use Rattle.cet_own.specs.ExitWord.{IsExitWord};
ghost use Rattle.cet_run.specs.TracedThreads.{threads_of};
ghost use Rattle.cet_run.specs.Outcome.{first_limit, first_status, process_end, thread_out, status_in, ended_by};
ghost use Rattle.cet_words.specs.Layout.{thread_limit};

use crate::outcomes::{ProcessEnd, ThreadOut, ThreadOuts};
use crate::traced_threads::TracedThread;
use cet_isa::End;
use cet_words::NoMemory;
use std::alloc::Global;

/// The lowest thread that stopped at the limit.
fn first_limit(outs: &[ThreadOut]) -> Option<usize>
    ensures first { result ≡ first_limit outs.now 0 }
    ensures range { IfSome result (λ t. t < length outs.now) }
{
    for (number, out) in outs.iter().enumerate() {
        if out.end == End::Limit {
            return Some(number);
        }
    }
    None
}

/// The exit status of thread 0.
fn first_status(outs: &[ThreadOut]) -> u8
    ensures { result ≡ first_status outs.now }
{
    let [first, ..] = outs else {
        return 0;
    };
    match first.end {
        End::Exit(status) => status,
        End::Group => 0,
        End::Limit => 0,
    }
}

/// The process's end, by the word EXIT and the ends of its threads.
#[tactic(auto, unfolding(crate::specs::Outcome::process_end))]
pub(crate) fn process_end(exit: u64, outs: &[ThreadOut]) -> ProcessEnd
    requires word { IsExitWord exit }
    requires few { length outs.now ≤ thread_limit }
    ensures { result ≡ process_end exit outs.now }
{
    if exit == 0 {
        return match first_limit(outs) {
            Some(number) => ProcessEnd::Limit(number as u8),
            None => ProcessEnd::Exit(first_status(outs)),
        };
    }
    if exit < 0x200 {
        ProcessEnd::Exit((exit - 0x100) as u8)
    } else {
        ProcessEnd::Killed((exit - 0x200) as u8)
    }
}

/// The threads of a finished run, by number.
pub(crate) fn thread_outs(
    alloc: Global,
    mut all_traced: Vec<TracedThread>,
) -> Result<ThreadOuts, NoMemory>
    ensures { IfOk result (λ outs. outs ≡ map thread_out (threads_of all_traced.items)) }
{
    let mut outs = ThreadOuts::new(alloc);
    'threads: while !all_traced.is_empty() {
        outs.push(alloc, all_traced.remove(0).out())?;
    }
    Ok(outs)
}
