//! The guest threads of a run, by number, and which of them are live.

ghost use Rattle.std.specs.Prelude.{◌≡◌, [], ◌∷◌, ◌++◌, ◌<◌, true, false, cond, length, None, OnOk, IfOk};
ghost use Rattle.cet_page.specs.Machine.{machine, step};
ghost use Rattle.cet_cpu.specs.Cpu.{IsCpu};
ghost use Rattle.cet_run.specs.Schedule.{goes_on, live_from};
ghost use Rattle.cet_run.specs.TracedThreads.{AllTraced, AreGuests, AskedAt, BoreAt, LiveBefore, TookAt, left_to, threads_of};
ghost use Rattle.cet_run.specs.Turns.{IsGoing, IsStill, IsTurned, Reached};

use crate::traced_threads::TracedThread;
use cet_cpu::Cpu;
use cet_words::{Job, NoMemory, Perform};
use std::alloc::Global;

/// The guest threads, by number.
#[derive(Drop)]
pub struct Guests {
    pub all: Vec<TracedThread>,
    /// The numbers of the live ones, in order. A turn searches no thread: the list changes where a
    /// thread is born or ends.
    pub live: Vec<usize>,
}

/// Appends a thread's number where it is live.
fn push_live(live: &mut Vec<usize>, at: usize, traced: &TracedThread) -> Result<(), NoMemory>
    ensures { OnOk result (live.new.items ≡ live.old.items ++ cond (goes_on traced.now.cpu.core.over) (at ∷ []) []) }
{
    match traced.end() {
        None => live.push(at)?,
        Some(_) => {}
    }
    Ok(())
}

/// The numbers of the live threads, in order.
#[inline(never)]
fn live_numbers(alloc: Global, all_traced: &[TracedThread]) -> Result<Vec<usize>, NoMemory>
    ensures { IfOk result (λ live. live.items ≡ live_from (threads_of all_traced.now) 0) }
{
    let mut live = Vec::new(alloc);
    for at in 0..all_traced.len() {
        push_live(&mut live, at, &all_traced[at])?;
    }
    Ok(live)
}

/// What the words answer to the next access of a thread.
#[inline(always)]
fn ask<P: Perform>(job: &Job, words: &mut P, all_traced: &[TracedThread], at: usize) -> u64
    requires cores { AllTraced job.now all_traced.now }
    requires range { at < length all_traced.now }
    requires going { IsGoing (threads_of all_traced.now) at }
    ensures { AskedAt job.now all_traced.now at (P.words words.old) (P.words words.new) result }
{
    all_traced[at].ask(job, words)
}

/// A thread takes the answer to its next access.
#[inline(always)]
fn take(
    alloc: Global,
    job: &Job,
    all_traced: &mut Vec<TracedThread>,
    at: usize,
    value: u64,
) -> Result<(), NoMemory>
    requires cores { AllTraced job.now all_traced.old.items }
    requires range { at < length all_traced.old.items }
    requires going { IsGoing (threads_of all_traced.old.items) at }
    ensures took { OnOk result (TookAt job.now all_traced.old.items all_traced.new.items at value) }
    ensures cores { OnOk result (AllTraced job.now all_traced.new.items) }
{
    all_traced[at].take(alloc, job, value)
}

/// Keeps the numbers of the live threads, after the turn of one of them.
#[inline(always)]
fn keep_live(
    alloc: Global,
    live: &mut Vec<usize>,
    all_traced: &[TracedThread],
    at: usize,
) -> Result<(), NoMemory>
    requires range { at < length all_traced.now }
    requires live { LiveBefore all_traced.now live.old.items at }
    ensures { OnOk result (live.new.items ≡ live_from (threads_of all_traced.now) 0) }
{
    if all_traced[at].end().is_some() {
        *live = live_numbers(alloc, all_traced)?;
    }
    Ok(())
}

impl Guests {
    /// Thread 0 alone, before its first access.
    pub fn new(alloc: Global, job: &Job, first: Cpu) -> Result<Guests, NoMemory>
        requires born { IsCpu job.now first }
        requires lives { first.core.over ≡ None }
        ensures all { IfOk result (λ guests. guests.all.items ≡ record { cpu = first; trace = [] } ∷ []) }
        ensures guests { IfOk result (λ guests. AreGuests job.now guests.all.items guests.live.items) }
    {
        let mut guests = Guests {
            all: Vec::new(alloc),
            live: Vec::new(alloc),
        };
        guests.bear(alloc, job, first)?;
        Ok(guests)
    }

    /// Whether there is a thread of this number which hasn't ended.
    pub fn goes_on(&self, at: usize) -> bool
        ensures going { result ≡ true → IsGoing (threads_of self.now.all.items) at }
        ensures range { result ≡ true → at < length self.now.all.items }
        ensures ended { result ≡ false → IsStill (threads_of self.now.all.items) at }
    {
        match self.all.get(at) {
            Some(traced) => traced.end().is_none(),
            None => false,
        }
    }

    /// A thread is born.
    fn bear(&mut self, alloc: Global, job: &Job, child: Cpu) -> Result<(), NoMemory>
        requires born { IsCpu job.now child }
        requires lives { child.core.over ≡ None }
        requires guests { AreGuests job.now self.old.all.items self.old.live.items }
        ensures all { OnOk result (self.new.all.items ≡ self.old.all.items ++ record { cpu = child; trace = [] } ∷ []) }
        ensures guests { OnOk result (AreGuests job.now self.new.all.items self.new.live.items) }
    {
        self.live.push(self.all.len())?;
        self.all.push(TracedThread::new(alloc, child))?;
        Ok(())
    }

    /// The thread that the next access of this one bears by this answer, if any, is born.
    #[inline(always)]
    fn bear_by(&mut self, alloc: Global, job: &Job, at: usize, value: u64) -> Result<(), NoMemory>
        requires guests { AreGuests job.now self.old.all.items self.old.live.items }
        requires range { at < length self.old.all.items }
        requires going { IsGoing (threads_of self.old.all.items) at }
        ensures bore { OnOk result (BoreAt job.now self.old.all.items self.new.all.items at value) }
        ensures guests { OnOk result (AreGuests job.now self.new.all.items self.new.live.items) }
    {
        let parent = &self.all[at];
        if !parent.bears(job, value) {
            return Ok(());
        }
        self.bear_child(alloc, job, at, value)
    }

    /// The same, where one may be born: a function of its own, so that the turns that bear nobody stay short.
    #[inline(never)]
    fn bear_child(
        &mut self,
        alloc: Global,
        job: &Job,
        at: usize,
        value: u64,
    ) -> Result<(), NoMemory>
        requires guests { AreGuests job.now self.old.all.items self.old.live.items }
        requires range { at < length self.old.all.items }
        requires going { IsGoing (threads_of self.old.all.items) at }
        ensures bore { OnOk result (BoreAt job.now self.old.all.items self.new.all.items at value) }
        ensures guests { OnOk result (AreGuests job.now self.new.all.items self.new.live.items) }
    {
        let parent = &self.all[at];
        match parent.child(job, value) {
            Some(cpu) => self.bear(alloc, job, cpu),
            None => Ok(()),
        }
    }

    /// One turn of a live thread.
    #[inline(always)]
    pub fn turn<P: Perform>(
        &mut self,
        alloc: Global,
        job: &Job,
        words: &mut P,
        at: usize,
    ) -> Result<(), NoMemory>
        requires guests { AreGuests job.now self.old.all.items self.old.live.items }
        requires reached { Reached job.now (machine (P.words words.old) (threads_of self.old.all.items)) }
        requires range { at < length self.old.all.items }
        requires going { IsGoing (threads_of self.old.all.items) at }
        ensures step { OnOk result (machine (P.words words.new) (threads_of self.new.all.items) ≡ step job.now (machine (P.words words.old) (threads_of self.old.all.items)) at) }
        ensures guests { OnOk result (AreGuests job.now self.new.all.items self.new.live.items) }
        ensures falls { OnOk result (left_to job.now self.new.all.items < left_to job.now self.old.all.items) }
        ensures turned { OnOk result (IsTurned (threads_of self.old.all.items) (threads_of self.new.all.items) at) }
    {
        let value = ask(job, words, &self.all, at);
        self.bear_by(alloc, job, at, value)?;
        take(alloc, job, &mut self.all, at, value)?;
        keep_live(alloc, &mut self.live, &self.all, at)
    }
}
