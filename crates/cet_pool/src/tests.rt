//! Whole runs of small programs on a table of words.

ghost use Rattle.std.specs.Prelude.{◌≤◌, length};

use super::*;
use cet_isa::{End, Record, What};
use cet_run::{Outcome, ProcessEnd};
use cet_shared::{Open, Shared, Turnstile};
use cet_words::{Bytes, Image, Job, NoMemory, Plain, Segment, Segments};
use std::alloc::Global;
use std::process::Abort;
use std::sync::atomic::{AtomicU64, Ordering};
use std::test::Fail;
use std::thread::Threads;

/// `s: jmp short s`, as GNU as assembles it.
const SPIN: [u8; 2] = [0xeb, 0xfe];

/// `mov edi, 0x10900`, `lea rsi, [rsp-4096]`, `mov eax, 56`, `syscall`, `mov eax, 186`, `syscall`,
/// `mov edi, 0`, `mov eax, 60`, `syscall`, as GNU as assembles them.
const CLONE: [u8; 39] = [
    0xbf, 0x00, 0x09, 0x01, 0x00, 0x48, 0x8d, 0xb4, 0x24, 0x00, 0xf0, 0xff, 0xff, 0xb8, 0x38, 0x00,
    0x00, 0x00, 0x0f, 0x05, 0xb8, 0xba, 0x00, 0x00, 0x00, 0x0f, 0x05, 0xbf, 0x00, 0x00, 0x00, 0x00,
    0xb8, 0x3c, 0x00, 0x00, 0x00, 0x0f, 0x05,
];

/// The image of a text of at most 48 bytes at 0x401000.
fn image_of(alloc: Global, text: &[u8]) -> Result<Image, NoMemory>
    requires { length text.now ≤ 48 }
{
    let mut bytes = Bytes::new(alloc);
    bytes.extend(alloc, text)?;
    let segment = Segment {
        start: 0x401000,
        bytes,
        size: 48,
        write: false,
        exec: true,
    };
    let mut segments = Segments::new(alloc);
    segments.push(alloc, segment)?;
    Ok(Image {
        entry: 0x401000,
        marked: true,
        tracked: false,
        segments,
    })
}

/// A gate that counts its calls, and those for a thread that isn't the worker's.
#[derive(Drop)]
struct Counting {
    workers: u32,
    calls: AtomicU64,
    others: AtomicU64,
}

impl Turnstile for Counting {
    fn pass(&self, worker: u32, thread: u8) {
        self.calls.fetch_add(1, Ordering::SeqCst);
        if self.workers == 0 || u32::from(thread) % self.workers != worker {
            self.others.fetch_add(1, Ordering::SeqCst);
        }
    }
}

fn run_on<R: Threads + Sync, G: Turnstile + Sync>(
    rt: &R,
    alloc: Global,
    job: &Job,
    workers: u32,
    gate: &G,
) -> Result<Ran, NoMemory>
    requires { (1 ≤ workers) × (workers ≤ 16) }
{
    let (shared, first) = Shared::new(alloc, job)?;
    let done = drive_rounds(rt, alloc, job, workers, gate, &shared, first)?;
    let into = Plain::new(alloc, job.image)?;
    finish(alloc, job, shared, done, into)
}

fn noted_at(rip: u64, what: What, a: u64, b: u64) -> Record {
    Record {
        rip,
        what,
        code: 0,
        a,
        b,
    }
}

/// The thread of this number has these records, and this end.
fn expect_thread(rt: &impl Abort, outcome: &Outcome, number: usize, records: &[Record], end: End) {
    let out = outcome
        .threads
        .as_slice()
        .get(number)
        .expect(rt, "no thread");
    assert_eq!(rt; out.end, end);
    assert_eq!(rt; out.records.as_slice(), records, "thread {number}");
}

/// A guest that spins has so many records, and so many turns, all of them its own worker's.
fn spins<R: Threads + Sync + Abort>(
    rt: &R,
    alloc: Global,
    limit: u32,
    turns: u64,
) -> Result<(), Fail>
    requires { (1 ≤ limit) × (limit ≤ 100000) }
{
    let image = image_of(alloc, &SPIN)?;
    let job = Job {
        image: &image,
        procs: 4,
        limit,
        signals: &[],
    };
    let gate = Counting {
        workers: 16,
        calls: AtomicU64::new(0),
        others: AtomicU64::new(0),
    };
    let ran = run_on(rt, alloc, &job, 16, &gate)?;
    let out = ran
        .outcome()
        .threads
        .as_slice()
        .first()
        .expect(rt, "no thread");
    assert_eq!(rt; out.end, End::Limit);
    assert_eq!(rt; out.records.len(), limit as usize);
    assert_eq!(rt;
        out.records.get(0),
        Some(noted_at(0x401000, What::Step, 0x401000, 2))
    );
    assert_eq!(rt; ran.outcome().threads.len(), 1);
    assert_eq!(rt; ran.outcome().process, ProcessEnd::Limit(0));
    assert_eq!(rt; gate.calls.load(Ordering::SeqCst), turns);
    assert_eq!(rt; gate.others.load(Ordering::SeqCst), 0);
    Ok(())
}

/// Each jump makes two accesses: 96 of them are three turns of 64, and one more wants a fourth.
#[test]
fn a_guest_that_spins_has_turns_of_64_up_to_its_limit(rt: HostRuntime) -> Result<(), Fail> {
    spins(&rt, rt.alloc(), 96, 3)?;
    spins(&rt, rt.alloc(), 97, 4)
}

/// The parent and its child tell their numbers, and both exit: with a processor for each, the order of
/// their turns changes no record.
fn expect_parent_and_child(rt: &impl Abort, outcome: &Outcome) {
    let parent = [
        noted_at(0x401000, What::Step, 0x10900, 2),
        noted_at(0x401005, What::Step, 0x7fff_efc0, 2),
        noted_at(0x40100d, What::Step, 56, 2),
        noted_at(0x401012, What::Born, 1, 0x2_0001_2000),
        noted_at(0x401014, What::Step, 186, 2),
        noted_at(0x401019, What::Sys, 186, 1000),
        noted_at(0x40101b, What::Step, 0, 2),
        noted_at(0x401020, What::Step, 60, 2),
        noted_at(0x401025, What::Sys, 60, 0),
    ];
    let child = [
        noted_at(0x401014, What::Step, 186, 2),
        noted_at(0x401019, What::Sys, 186, 1001),
        noted_at(0x40101b, What::Step, 0, 2),
        noted_at(0x401020, What::Step, 60, 2),
        noted_at(0x401025, What::Sys, 60, 0),
    ];
    assert_eq!(rt; outcome.threads.len(), 2);
    expect_thread(rt, outcome, 0, &parent, End::Exit(0));
    expect_thread(rt, outcome, 1, &child, End::Exit(0));
    assert_eq!(rt; outcome.stacks.len(), 2);
    assert_eq!(rt; outcome.process, ProcessEnd::Exit(0));
}

#[test]
fn a_child_and_its_parent_run_on_one_worker_and_on_two(rt: HostRuntime) -> Result<(), Fail> {
    let alloc = rt.alloc();
    let image = image_of(alloc, &CLONE)?;
    let job = Job {
        image: &image,
        procs: 2,
        limit: 100,
        signals: &[],
    };
    expect_parent_and_child(&rt, run_on(&rt, alloc, &job, 1, &Open)?.outcome());
    expect_parent_and_child(&rt, run_on(&rt, alloc, &job, 2, &Open)?.outcome());
    Ok(())
}

fn is_sent<T: Send>() {}

#[test]
fn what_is_gathered_goes_to_other_threads() {
    is_sent::<Gathered>();
}
