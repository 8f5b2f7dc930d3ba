//! What a row opens with between two instructions: the loads of EXIT and of PEND.

ghost use Rattle.std.specs.Prelude.{◌≡◌, ◌<◌, true, false, None, IfSome};
ghost use Rattle.cet_words.specs.Layout.{thread_limit};
ghost use Rattle.cet_page.specs.Core.{row_played};
ghost use Rattle.cet_page.specs.Plays.{Wanted};
ghost use Rattle.cet_page.specs.Posting.{due_signal};
ghost use Rattle.cet_page.specs.declared.cursors.Mark.{Mark};
ghost use Rattle.cet_cpu.specs.Carried.{IsOpened};

use crate::signals::due_signal;
use cet_isa::Arch;
use cet_page::Vals;
use cet_words::{Access, EXIT_WORD, Job, pend_word};

/// Whether a fault or a listed signal is due.
#[inline(always)]
fn is_due(job: &Job, arch: &Arch) -> bool
    ensures { result ≡ false → (arch.now.due ≡ None) × (due_signal job.now arch.now ≡ None) }
{
    arch.due.is_some() || due_signal(job, arch).is_some()
}

/// The access that a row wants, where it is one of the two that it opens with: no fault and no listed signal
/// is due, and EXIT, once loaded, was 0. It is known without a play of the row.
#[inline(always)]
#[tactic(auto, using(crate::proofs::OpeningLaws::wants_exit, crate::proofs::OpeningLaws::wants_pend))]
pub fn opening(job: &Job, arch: &Arch, vals: &Vals) -> Option<Access>
    requires number { arch.now.number < thread_limit }
    ensures { IfSome result (λ access. Wanted (row_played job.now arch.now vals.now) access Mark.Plain) }
{
    if vals.done() > 1 || is_due(job, arch) {
        return None;
    }
    if vals.done() == 0 {
        return Some(Access::Load(EXIT_WORD));
    }
    if vals.count() == 1 && vals.value(0) == 0 {
        return Some(Access::Load(pend_word(arch.number)));
    }
    None
}

/// Whether the row has come to the instruction at RIP, behind the two accesses that it opens with: nothing is
/// due, EXIT was 0, and no signal is pending that isn't masked.
#[inline(always)]
#[tactic(auto, using(crate::proofs::SignalLaws::lowest_none))]
pub fn is_opened(job: &Job, arch: &Arch, vals: &Vals) -> bool
    ensures { result ≡ true → IsOpened job.now arch.now vals.now }
{
    vals.done() >= 2
        && vals.count() >= 2
        && vals.value(0) == 0
        && vals.value(1) & !arch.mask == 0
        && !is_due(job, arch)
}
