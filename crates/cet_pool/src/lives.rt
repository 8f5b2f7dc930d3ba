//! A pass with the records of its thread, and the accesses that it makes.

ghost use Rattle.std.specs.Prelude.{◌≡◌, None, OnOk, IfSome};
ghost use Rattle.cet_cpu.specs.Cpu.{IsCpu};
ghost use Rattle.cet_page.specs.Machine.{traced};
ghost use Rattle.cet_page.specs.Within.{IsCore};
ghost use Rattle.cet_shared.specs.Held.{IsOf, new_thread};
ghost use Rattle.cet_shared.specs.Rule.{Among};
ghost use Rattle.cet_pool.specs.Going.{Accessed, IsReady, Went, own};

use cet_cpu::Cpu;
use cet_isa::{End, Record};
use cet_run::Records;
use cet_shared::{Pass, Shared};
use cet_words::{Job, NoMemory};
use std::alloc::Global;

/// A pass, and the records of its own thread.
#[derive(Drop)]
pub struct Live {
    pub pass: Pass,
    pub records: Records,
}

impl Live {
    /// The number of its thread.
    pub fn number(&self) -> u8
        ensures { result ≡ (own self.now).core.arch.number }
    {
        self.pass.cpu().arch().number
    }

    /// The shadow-stack pointer of its thread.
    pub fn ssp(&self) -> u64
        ensures { result ≡ (own self.now).core.arch.ssp }
    {
        self.pass.cpu().arch().ssp
    }

    /// How its thread ended, or none where it hasn't.
    pub fn end(&self) -> Option<End>
        ensures end { result ≡ (own self.now).core.over }
        ensures state { IsCore self.now.pass.view.job (own self.now).core }
    {
        self.pass.cpu().end()
    }
}

/// Appends a record, if there is one.
fn note(alloc: Global, records: &mut Records, noted: Option<Record>) -> Result<(), NoMemory>
    ensures { OnOk result (records.new ≡ traced records.old noted) }
{
    match noted {
        Some(record) => records.push(alloc, record),
        None => Ok(()),
    }
}

/// The next access, with its record. A child that it bore is put into `child`.
fn access(
    alloc: Global,
    job: &Job,
    shared: &Shared,
    live: &mut Live,
    child: &mut Option<Cpu>,
) -> Result<(), NoMemory>
    requires job { shared.now.job ≡ job.now }
    requires ready { IsReady shared.now live.old }
    requires none { child.old ≡ None }
    ensures step { OnOk result (Accessed shared.now live.old live.new child.new) }
    ensures born { OnOk result (IfSome child.new (IsCpu job.now)) }
{
    let noted = shared.advance(job, &mut live.pass, child);
    note(alloc, &mut live.records, noted)
}

/// The child that an access bore, if any, gets a pass.
fn bear(
    alloc: Global,
    shared: &Shared,
    live: &mut Live,
    child: &mut Option<Cpu>,
    born: &mut Vec<Live>,
) -> Result<(), NoMemory>
    requires pass { IsOf shared.now live.old.pass }
    requires bore { IfSome child.old (λ cpu. Among (new_thread cpu.core) live.old.pass.view.born) }
    requires state { IfSome child.old (IsCpu shared.now.job) }
    ensures went { OnOk result ((before : _) → IsReady shared.now before → Accessed shared.now before live.old child.old → Went shared.now 1 before live.new born.old.items born.new.items) }
    ensures none { child.new ≡ None }
{
    if let Some(cpu) = child.take() {
        let pass = shared.split_child(&mut live.pass, cpu);
        born.push(Live {
            pass,
            records: Records::new(alloc),
        })?;
    }
    Ok(())
}

/// The next access. A child that it bore gets a pass.
fn step(
    alloc: Global,
    job: &Job,
    shared: &Shared,
    live: &mut Live,
    child: &mut Option<Cpu>,
    born: &mut Vec<Live>,
) -> Result<(), NoMemory>
    requires job { shared.now.job ≡ job.now }
    requires ready { IsReady shared.now live.old }
    requires none { child.old ≡ None }
    ensures went { OnOk result (Went shared.now 1 live.old live.new born.old.items born.new.items) }
    ensures none { OnOk result (child.new ≡ None) }
{
    access(alloc, job, shared, live, child)?;
    // The place of a child is taken only where there is one, since that copies it whole.
    if child.is_some() {
        bear(alloc, shared, live, child, born)?;
    }
    Ok(())
}

/// The accesses of a turn, at most.
const TURN: u32 = 64;

/// A turn: up to 64 accesses, and no more once the thread has ended.
#[tactic(auto, using(crate::proofs::Steps::went_next))]
pub fn turn(
    alloc: Global,
    job: &Job,
    shared: &Shared,
    live: &mut Live,
    born: &mut Vec<Live>,
) -> Result<(), NoMemory>
    requires job { shared.now.job ≡ job.now }
    requires ready { IsReady shared.now live.old }
    ensures { OnOk result (Went shared.now 1 live.old live.new born.old.items born.new.items) }
{
    // One place for the children of all accesses.
    let mut child = None;
    step(alloc, job, shared, live, &mut child, born)?;
    for _ in 1..TURN {
        if live.end().is_some() {
            break;
        }
        step(alloc, job, shared, live, &mut child, born)?;
    }
    Ok(())
}
