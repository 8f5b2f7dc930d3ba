//! Which listed signal a thread posts to itself, and which pending one is delivered to it.

ghost use Rattle.std.specs.Prelude.{◌≡◌, ℕ, ◌-◌, ◌^◌, ◌<◌, ◌≤◌, IfSome, option_copied, slice_get};
ghost use Rattle.cet_cpu.specs.Due.{IsDue};
ghost use Rattle.cet_page.specs.Posting.{due_by, due_signal, listed, lowest, pending_signal};

use cet_isa::Arch;
use cet_words::{Job, Signal};

/// The first signals are those of a mask's lowest bits, up to this one.
const LAST_SIGNAL: u8 = 31;

/// The signal of a list that is for a thread, behind so many others of its own.
fn nth_listed(signals: &[Signal], thread: u8, posted: u32) -> Option<&Signal>
    ensures { option_copied result ≡ slice_get (listed signals.now thread) posted }
{
    let [signal, rest @ ..] = signals else {
        return None;
    };
    if signal.thread != thread {
        return nth_listed(rest, thread, posted);
    }
    if posted == 0 {
        return Some(signal);
    }
    nth_listed(rest, thread, posted - 1)
}

/// The listed signal that a thread posts next, where its count isn't above the thread's.
#[tactic(auto, using(crate::proofs::SignalLaws::none_listed), unfolding(cet_page::specs::Posting::due_signal))]
pub fn due_signal(job: &Job, arch: &Arch) -> Option<u8>
    ensures signal { result ≡ due_signal job.now arch.now }
    ensures due { IfSome result (IsDue arch.now) }
{
    if job.signals.is_empty() {
        return None;
    }
    let signal = nth_listed(job.signals, arch.number, arch.posted)?;
    if signal.count <= arch.count {
        Some(signal.number)
    } else {
        None
    }
}

/// The lowest signal of a set, of which bit s - 1 is signal s.
fn lowest(set: u64) -> Option<u8>
    ensures signal { result ≡ lowest set 1 31 }
    ensures range { IfSome result (λ signal. (1 ≤ signal) × (signal ≤ 31)) }
{
    for signal in 1..=LAST_SIGNAL {
        if set >> (signal - 1) & 1 == 1 {
            return Some(signal);
        }
    }
    None
}

/// The lowest signal that is pending and not masked.
#[tactic(auto, using(crate::proofs::SignalLaws::lowest_none))]
pub fn pending_signal(pending: u64, mask: u64) -> Option<u8>
    ensures signal { result ≡ pending_signal pending mask }
    ensures range { IfSome result (λ signal. (1 ≤ signal) × (signal ≤ 31)) }
{
    let set = pending & !mask;
    if set == 0 {
        return None;
    }
    lowest(set)
}
