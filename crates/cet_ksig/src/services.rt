//! The services by their numbers, and the deliveries.

ghost use Rattle.std.specs.Prelude.{◌≡◌, ℕ, ◌-◌, ◌^◌, ◌<◌, ◌≤◌, Some, IsSome};
ghost use Rattle.cet_isa.specs.declared.threads.Fault.{Fault};
ghost use Rattle.cet_page.specs.Script.{play};
ghost use Rattle.cet_page.specs.Plays.{Refines, NextInRange, next_by, with_leaving};
ghost use Rattle.cet_page.specs.SigReturn.{is_signal_service, signal_service};
ghost use Rattle.cet_page.specs.Delivery.{fault_delivery, pending_delivery};

use crate::actions::rt_sigaction;
use crate::deliveries::{fault_delivery, pending_delivery};
use crate::masks::rt_sigprocmask;
use crate::posts::tgkill;
use crate::returns::rt_sigreturn;
use cet_isa::{Arch, Fault, RAX, Record};
use cet_page::{Cursor, Errno, Leaving, Next, Suspended, Vals, failed};
use cet_words::Job;

/// The number of rt_sigaction.
const RT_SIGACTION: u64 = 13;

/// The number of rt_sigprocmask.
const RT_SIGPROCMASK: u64 = 14;

/// The number of rt_sigreturn.
const RT_SIGRETURN: u64 = 15;

/// The number of tgkill.
const TGKILL: u64 = 234;

/// Whether a number is one of these services.
pub fn serves(number: u64) -> bool
    ensures { result ≡ is_signal_service number }
{
    matches!(
        number,
        RT_SIGACTION | RT_SIGPROCMASK | RT_SIGRETURN | TGKILL
    )
}

/// What the kernel was entered for.
#[derive(Clone, Copy, Debug, PartialEq, Eq)]
pub enum Work {
    /// The service whose number is in RAX.
    Service,
    /// The delivery of the due fault.
    Fault,
    /// The delivery of a pending signal, 1 to 31.
    Pending(u8),
}

/// The service whose number is in RAX, as far as the cursor's accesses lead. Every number of another crate
/// is no call.
pub fn follow(job: &Job, arch: &Arch, at: &mut Cursor) -> Result<(Arch, Record, Leaving), Suspended>
    requires { arch.now.count < 2 ^ 32 - 1 }
    ensures { Refines (play (signal_service job.now arch.now) at.old.left at.old.rest.now) result at.new.left at.new.rest.now }
{
    match arch.regs[RAX] {
        RT_SIGACTION => rt_sigaction(job, arch, at),
        RT_SIGPROCMASK => rt_sigprocmask(arch, at),
        RT_SIGRETURN => rt_sigreturn(arch, at),
        TGKILL => tgkill(arch, at),
        _ => Ok(failed(arch, Errno::NoSys)),
    }
}

/// What the service does next.
#[tactic(auto, using(cet_page::proofs::PlayLaws::next_by_is, cet_page::proofs::PlayLaws::next_by_ranges))]
fn next_of_service(job: &Job, arch: &Arch, vals: &Vals) -> Next
    requires { arch.now.count < 2 ^ 32 - 1 }
    ensures next { result ≡ next_by with_leaving (play (signal_service job.now arch.now) vals.now.accesses vals.now.values) }
    ensures range { NextInRange result }
{
    Next::leaving(follow(job, arch, &mut vals.start()))
}

/// What the delivery of a due fault does next.
#[tactic(auto, using(cet_page::proofs::PlayLaws::next_by_is, cet_page::proofs::PlayLaws::next_by_ranges))]
fn next_of_fault(arch: &Arch, vals: &Vals, fault: &Fault) -> Next
    requires { arch.now.count < 2 ^ 32 - 1 }
    ensures next { result ≡ next_by with_leaving (play (fault_delivery arch.now fault.now) vals.now.accesses vals.now.values) }
    ensures range { NextInRange result }
{
    Next::leaving(fault_delivery(arch, fault, &mut vals.start()))
}

/// What the delivery of a pending signal does next.
#[tactic(auto, using(cet_page::proofs::PlayLaws::next_by_is, cet_page::proofs::PlayLaws::next_by_ranges))]
fn next_of_pending(arch: &Arch, vals: &Vals, signal: u8) -> Next
    requires count { arch.now.count < 2 ^ 32 - 1 }
    requires low { 1 ≤ signal }
    requires high { signal ≤ 31 }
    ensures next { result ≡ next_by with_leaving (play (pending_delivery arch.now signal) vals.now.accesses vals.now.values) }
    ensures range { NextInRange result }
{
    Next::leaving(pending_delivery(arch, signal, &mut vals.start()))
}

/// What the service whose number is in RAX, or a delivery, does next, after the accesses that were made since
/// the kernel's way in and the values kept of them: its next access, or the state and record with which the
/// way out follows.
pub fn next(job: &Job, arch: &Arch, vals: &Vals, work: &Work) -> Next
    requires count { arch.now.count < 2 ^ 32 - 1 }
    requires fault { work.now ≡ Work.Fault → IsSome arch.now.due }
    requires low { (signal : ℕ) → work.now ≡ Work.Pending signal → 1 ≤ signal }
    requires high { (signal : ℕ) → work.now ≡ Work.Pending signal → signal ≤ 31 }
    ensures service { work.now ≡ Work.Service → result ≡ next_by with_leaving (play (signal_service job.now arch.now) vals.now.accesses vals.now.values) }
    ensures fault { (fault : Fault) → work.now ≡ Work.Fault → arch.now.due ≡ Some fault → result ≡ next_by with_leaving (play (fault_delivery arch.now fault) vals.now.accesses vals.now.values) }
    ensures pending { (signal : ℕ) → work.now ≡ Work.Pending signal → result ≡ next_by with_leaving (play (pending_delivery arch.now signal) vals.now.accesses vals.now.values) }
    ensures range { NextInRange result }
{
    match (work, &arch.due) {
        (Work::Service, _) => next_of_service(job, arch, vals),
        (Work::Fault, Some(fault)) => next_of_fault(arch, vals, fault),
        (Work::Fault, None) => unreachable!(),
        (Work::Pending(signal), _) => next_of_pending(arch, vals, *signal),
    }
}
