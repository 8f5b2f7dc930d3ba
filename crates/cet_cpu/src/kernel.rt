//! The kernel: its services by their numbers, and its entry, which is the gate round each service and delivery.

ghost use Rattle.std.specs.Prelude.{◌≡◌, ◌+◌, ◌-◌, ◌*◌, ◌%◌, ◌^◌, ◌<◌, ◌≤◌, Ok};
ghost use Rattle.cet_page.specs.Script.{play};
ghost use Rattle.cet_page.specs.Plays.{Refines, RefinesBy};
ghost use Rattle.cet_page.specs.Finish.{IsMade};
ghost use Rattle.cet_page.specs.Services.{service, syscall};
ghost use Rattle.cet_page.specs.Gate.{finish_of, found_busy, entered};
ghost use Rattle.cet_cpu.specs.Changes.{finish_with, Stays};
ghost use Rattle.cet_page.specs.Delivery.{fault_delivery, pending_delivery};
ghost use Rattle.cet_cpu.specs.Entry.{IsEntry, work_of};

use cet_busy::{busy_record, gate_in, gate_out, stack_of};
use cet_isa::{Arch, Fault, RAX, Record};
use cet_page::{Cursor, Leaving, Suspended};
use cet_words::Job;

/// What a row comes to beside the state after it, which is changed in its place.
#[derive(Clone, Copy)]
pub enum RowEnd {
    /// A record.
    Noted(Record),
    /// The posting of a listed signal, which gives no record.
    Posted,
    /// The record and the status of the service exit.
    Exited(Record, u8),
    /// The process has ended, and nothing has changed.
    Stopped,
}

fn found_busy(arch: &mut Arch, k: u8, found: u64) -> RowEnd
    requires stack { k < 8 }
    requires count { arch.old.count < 2 ^ 32 - 1 }
    ensures comes { finish_with arch.new result ≡ found_busy arch.old k found }
    ensures stays { Stays arch.old arch.new (Ok result) }
{
    let noted = busy_record(arch, k, found);
    arch.count += 1;
    RowEnd::Noted(noted)
}

fn service(job: &Job, arch: &Arch, at: &mut Cursor) -> Result<(Arch, Record, Leaving), Suspended>
    requires count { arch.now.count < 2 ^ 32 - 1 }
    requires made { IsMade arch.now.made }
    ensures { Refines (play (service job.now arch.now) at.old.left at.old.rest.now) result at.new.left at.new.rest.now }
{
    let number = arch.regs[RAX];
    if cet_kproc::serves(number) {
        return cet_kproc::follow(arch, at);
    }
    if cet_ksig::serves(number) {
        return cet_ksig::follow(job, arch, at);
    }
    cet_kmem::follow(arch, at)
}

/// What the kernel is entered for.
#[derive(Clone, Copy)]
pub enum Entry {
    /// The service that a SYSCALL asks for.
    Service,
    /// The delivery of a due fault.
    Fault(Fault),
    /// The delivery of a pending signal, 1 to 31.
    Pending(u8),
}

fn work(
    job: &Job,
    arch: &Arch,
    entry: &Entry,
    at: &mut Cursor,
) -> Result<(Arch, Record, Leaving), Suspended>
    requires count { arch.now.count < 2 ^ 32 - 1 }
    requires made { IsMade arch.now.made }
    requires entry { IsEntry entry.now }
    ensures { Refines (play (work_of job.now arch.now entry.now) at.old.left at.old.rest.now) result at.new.left at.new.rest.now }
{
    match entry {
        Entry::Service => service(job, arch, at),
        Entry::Fault(fault) => cet_ksig::fault_delivery(arch, fault, at),
        Entry::Pending(signal) => cet_ksig::pending_delivery(arch, *signal, at),
    }
}

/// What the row comes to after the way out: the state is changed.
fn finish_of(arch: &mut Arch, next: Arch, noted: Record, ends: Leaving) -> RowEnd
    ensures comes { finish_with arch.new result ≡ finish_of next noted ends }
    ensures stays { Stays arch.old arch.new (Ok result) }
{
    *arch = next;
    match ends {
        Leaving::Back | Leaving::Popped => RowEnd::Noted(noted),
        Leaving::Ended(status) => RowEnd::Exited(noted, status),
    }
}

/// The kernel's entry: the way in, the work, and the way out.
#[tactic(auto, using(cet_page::proofs::ScriptLaws::play_bind), unfolding(cet_page::specs::Gate::entered))]
fn entered(job: &Job, arch: &mut Arch, entry: &Entry, at: &mut Cursor) -> Result<RowEnd, Suspended>
    requires count { arch.old.count < 2 ^ 32 - 1 }
    requires made { IsMade arch.old.made }
    requires entry { IsEntry entry.now }
    ensures comes { RefinesBy (finish_with arch.new) (play (entered job.now arch.old (work_of job.now arch.old entry.now)) at.old.left at.old.rest.now) result at.new.left at.new.rest.now }
    ensures stays { Stays arch.old arch.new result }
{
    let k = stack_of(job, arch);
    if let Some(found) = gate_in(k, at)? {
        return Ok(found_busy(arch, k, found));
    }
    let (next, noted, ends) = work(job, arch, entry, at)?;
    gate_out(k, ends, at)?;
    Ok(finish_of(arch, next, noted, ends))
}

/// SYSCALL.
pub fn syscall(job: &Job, arch: &mut Arch, at: &mut Cursor) -> Result<RowEnd, Suspended>
    requires count { arch.old.count < 2 ^ 32 - 1 }
    requires made { IsMade arch.old.made }
    ensures comes { RefinesBy (finish_with arch.new) (play (syscall job.now arch.old) at.old.left at.old.rest.now) result at.new.left at.new.rest.now }
    ensures stays { Stays arch.old arch.new result }
{
    entered(job, arch, &Entry::Service, at)
}

/// The delivery of a due fault.
pub fn deliver_fault(
    job: &Job,
    arch: &mut Arch,
    fault: &Fault,
    at: &mut Cursor,
) -> Result<RowEnd, Suspended>
    requires count { arch.old.count < 2 ^ 32 - 1 }
    requires made { IsMade arch.old.made }
    ensures comes { RefinesBy (finish_with arch.new) (play (entered job.now arch.old (fault_delivery arch.old fault.now)) at.old.left at.old.rest.now) result at.new.left at.new.rest.now }
    ensures stays { Stays arch.old arch.new result }
{
    entered(job, arch, &Entry::Fault(*fault), at)
}

/// The delivery of a pending signal, 1 to 31.
pub fn deliver_pending(
    job: &Job,
    arch: &mut Arch,
    signal: u8,
    at: &mut Cursor,
) -> Result<RowEnd, Suspended>
    requires count { arch.old.count < 2 ^ 32 - 1 }
    requires made { IsMade arch.old.made }
    requires signal { (1 ≤ signal) × (signal ≤ 31) }
    ensures comes { RefinesBy (finish_with arch.new) (play (entered job.now arch.old (pending_delivery arch.old signal)) at.old.left at.old.rest.now) result at.new.left at.new.rest.now }
    ensures stays { Stays arch.old arch.new result }
{
    entered(job, arch, &Entry::Pending(signal), at)
}
