//! A thread with its records.

ghost use Rattle.std.specs.Prelude.{◌≡◌, [], false, None, OnOk, IfSome};
ghost use Rattle.cet_page.specs.Core.{taken};
ghost use Rattle.cet_page.specs.Machine.{thread_after};
ghost use Rattle.cet_cpu.specs.Cpu.{IsCpu};
ghost use Rattle.cet_run.specs.TracedThreads.{Asked, core_of, thread_of};
ghost use Rattle.cet_run.specs.Outcome.{thread_out};

use crate::outcomes::{Records, ThreadOut};
use cet_cpu::Cpu;
use cet_isa::End;
use cet_words::{Job, NoMemory, Perform};
use std::alloc::Global;
use std::marker::Model;

/// A thread and its records so far.
#[derive(Drop)]
pub struct TracedThread {
    cpu: Cpu,
    records: Records,
}

impl Model for TracedThread {
    ghost use Rattle.cet_run.specs.TracedThreads.{TracedThreadData};

    ghost Value = { TracedThreadData };

    ghost view = { λ g. record { cpu = g.cpu; trace = g.records } };
}

impl TracedThread {
    /// A thread before its first record.
    pub fn new(alloc: Global, cpu: Cpu) -> TracedThread
        ensures { result ≡ record { cpu = cpu; trace = [] } }
    {
        TracedThread {
            cpu,
            records: Records::new(alloc),
        }
    }

    /// How the thread ended, or none where it hasn't.
    pub fn end(&self) -> Option<End>
        ensures { result ≡ self.now.cpu.core.over }
    {
        self.cpu.end()
    }

    /// The thread's number.
    pub fn number(&self) -> u8
        ensures { result ≡ self.now.cpu.core.arch.number }
    {
        self.cpu.arch().number
    }

    /// The thread's shadow stack pointer.
    pub fn ssp(&self) -> u64
        ensures { result ≡ self.now.cpu.core.arch.ssp }
    {
        self.cpu.arch().ssp
    }

    /// The thread, which has ended, as a part of an outcome.
    pub fn out(self) -> ThreadOut
        ensures { result ≡ thread_out (thread_of self) }
    {
        let end = self.end().unwrap_or(End::Group);
        let TracedThread { cpu: _, records } = self;
        ThreadOut { records, end }
    }

    /// What the words answer to the thread's next access.
    #[inline(always)]
    pub fn ask<P: Perform>(&self, job: &Job, words: &mut P) -> u64
        requires state { IsCpu job.now self.now.cpu }
        requires going { self.now.cpu.core.over ≡ None }
        ensures { Asked job.now self.now (P.words words.old) (P.words words.new) result }
    {
        let Some(access) = self.cpu.next(job) else {
            unreachable!()
        };
        words.perform(access)
    }

    /// Whether a thread is born where the next access has this answer.
    pub fn bears(&self, job: &Job, value: u64) -> bool
        requires state { IsCpu job.now self.now.cpu }
        requires going { self.now.cpu.core.over ≡ None }
        ensures { result ≡ false → (taken job.now self.now.cpu.core value).child ≡ None }
    {
        self.cpu.bears(job, value)
    }

    /// The thread that is born where the next access has this answer, if any.
    pub fn child(&self, job: &Job, value: u64) -> Option<Cpu>
        requires state { IsCpu job.now self.now.cpu }
        requires going { self.now.cpu.core.over ≡ None }
        ensures child { core_of result ≡ (taken job.now self.now.cpu.core value).child }
        ensures born { IfSome result (IsCpu job.now) }
    {
        self.cpu.child(job, value)
    }

    /// The thread takes the answer to its next access, and keeps the record that this completes, if any.
    #[inline(always)]
    pub fn take(&mut self, alloc: Global, job: &Job, value: u64) -> Result<(), NoMemory>
        requires state { IsCpu job.now self.old.cpu }
        requires going { self.old.cpu.core.over ≡ None }
        ensures took { OnOk result (thread_of self.new ≡ thread_after (thread_of self.old) (taken job.now self.old.cpu.core value)) }
        ensures state { OnOk result (IsCpu job.now self.new.cpu) }
    {
        if let Some(noted) = self.cpu.accept(job, value) {
            self.records.push(alloc, noted)?;
        }
        Ok(())
    }
}
