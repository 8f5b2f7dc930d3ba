//! What a run reads off records, whole runs of small programs, and that records go to other threads.

ghost use Rattle.std.specs.Prelude.{◌≡◌, ◌≤◌, length};

use super::*;
use crate::ends::thread_outs;
use crate::runs::start;
use crate::told_stacks::{FIRST_STACK, kept_pointers, push_all_told, put_in_order};
use crate::turns::give_robin;
use cet_book::{Region, Shown};
use cet_isa::{End, Record, What};
use cet_words::{Bytes, Image, Job, NoMemory, Segment, Segments};
use std::alloc::Global;
use std::process::Abort;
use std::test::Fail;

fn noted(what: What, a: u64, b: u64) -> Record
    ensures { result ≡ record { rip = 0x401000; what = what; code = 0; a = a; b = b } }
{
    Record {
        rip: 0x401000,
        what,
        code: 0,
        a,
        b,
    }
}

#[test]
fn records_tell_of_stacks_which_stand_by_their_starts(rt: HostRuntime) -> Result<(), Fail> {
    let alloc = rt.alloc();
    // a birth's stack is the eight pages below the child's SSP, and a claim's has the bytes asked for in whole pages
    let told = [
        noted(What::Born, 1, 0x20001f000),
        noted(What::Sys, 186, 0x200030000),
        noted(What::Claim, 0x20000a000, 0x1001),
        noted(What::Claim, 0x200020000, 8),
        noted(What::Call, 0x20000e000, 0x200008ff8),
        noted(What::Claim, 0x20000d000, 0x2000),
    ];
    let mut spans = Vec::new(alloc);
    push_all_told(&mut spans, &told)?;
    spans.push(FIRST_STACK)?;
    put_in_order(&mut spans)?;
    let spans_by_start = [
        (0x200001000, 0x200009000),
        (0x20000a000, 0x20000c000),
        (0x20000d000, 0x20000f000),
        (0x200017000, 0x20001f000),
        (0x200020000, 0x200021000),
    ];
    assert_eq!(rt; spans.len(), spans_by_start.len());
    for (span, (start, end)) in spans.iter().zip(spans_by_start) {
        assert_eq!(rt; *span, Region { start, end });
    }
    Ok(())
}

/// `mov edi, 7`, `mov eax, 60`, `syscall`, as GNU as assembles them.
const EXIT_SEVEN: [u8; 12] = [
    0xbf, 0x07, 0x00, 0x00, 0x00, 0xb8, 0x3c, 0x00, 0x00, 0x00, 0x0f, 0x05,
];

/// `mov edi, 0x10900`, `lea rsi, [rsp-4096]`, `mov eax, 56`, `syscall`, `mov eax, 186`, `syscall`,
/// `mov edi, 0`, `mov eax, 60`, `syscall`, as GNU as assembles them.
const CLONE: [u8; 39] = [
    0xbf, 0x00, 0x09, 0x01, 0x00, 0x48, 0x8d, 0xb4, 0x24, 0x00, 0xf0, 0xff, 0xff, 0xb8, 0x38, 0x00,
    0x00, 0x00, 0x0f, 0x05, 0xb8, 0xba, 0x00, 0x00, 0x00, 0x0f, 0x05, 0xbf, 0x00, 0x00, 0x00, 0x00,
    0xb8, 0x3c, 0x00, 0x00, 0x00, 0x0f, 0x05,
];

/// The image of a text of at most 48 bytes at 0x401000.
fn image_of(alloc: Global, text: &[u8]) -> Result<Image, NoMemory>
    requires { length text.now ≤ 48 }
{
    let mut bytes = Bytes::new(alloc);
    bytes.extend(alloc, text)?;
    let segment = Segment {
        start: 0x401000,
        bytes,
        size: 48,
        write: false,
        exec: true,
    };
    let mut segments = Segments::new(alloc);
    segments.push(alloc, segment)?;
    Ok(Image {
        entry: 0x401000,
        marked: true,
        tracked: false,
        segments,
    })
}

fn noted_at(rip: u64, what: What, a: u64, b: u64) -> Record {
    Record {
        rip,
        what,
        code: 0,
        a,
        b,
    }
}

/// The thread of this number has these records, and ended by exit with this status.
fn expect_thread(
    rt: &impl Abort,
    outcome: &Outcome,
    number: usize,
    records: &[Record],
    status: u8,
) {
    let out = outcome
        .threads
        .as_slice()
        .get(number)
        .expect(rt, "no thread");
    assert_eq!(rt; out.end, End::Exit(status));
    assert_eq!(rt; out.records.as_slice(), records, "thread {number}");
}

/// These shadow stacks are shown, and all are lost.
fn expect_lost(rt: &impl Abort, outcome: &Outcome, spans: &[(u64, u64)]) {
    assert_eq!(rt; outcome.stacks.len(), spans.len());
    for (stack, (start, end)) in outcome.stacks.as_slice().iter().zip(spans) {
        assert_eq!(rt;
            stack.region,
            Region {
                start: *start,
                end: *end
            }
        );
        assert_eq!(rt; stack.shown, Shown::Lost);
    }
}

fn expect_exit_seven(rt: &impl Abort, outcome: &Outcome) {
    let records = [
        noted_at(0x401000, What::Step, 7, 2),
        noted_at(0x401005, What::Step, 60, 2),
        noted_at(0x40100a, What::Sys, 60, 7),
    ];
    assert_eq!(rt; outcome.threads.len(), 1);
    expect_thread(rt, outcome, 0, &records, 7);
    expect_lost(rt, outcome, &[(0x200001000, 0x200009000)]);
    assert_eq!(rt; outcome.process, ProcessEnd::Exit(7));
}

#[test]
fn each_schedule_runs_one_thread_to_its_exit(rt: HostRuntime) -> Result<(), Fail> {
    let alloc = rt.alloc();
    let image = image_of(alloc, &EXIT_SEVEN)?;
    let job = Job {
        image: &image,
        procs: 1,
        limit: 100,
        signals: &[],
    };
    expect_exit_seven(&rt, &robin(alloc, &job)?);
    expect_exit_seven(&rt, &replay(alloc, &job, &[])?);
    expect_exit_seven(&rt, &mix(alloc, &job, 1)?);
    Ok(())
}

/// What a run by Robin has left, read off its words and threads.
fn read_off(alloc: Global, job: &Job) -> Result<Outcome, NoMemory> {
    let (mut words, mut guests) = start(alloc, job)?;
    give_robin(alloc, job, &mut words, &mut guests)?;
    let ssps = kept_pointers(alloc, &guests.all)?;
    let outs = thread_outs(alloc, guests.all)?;
    outcome_of(alloc, job, &mut words, outs, &ssps)
}

#[test]
fn an_outcome_is_read_off_what_a_run_has_left(rt: HostRuntime) -> Result<(), Fail> {
    let alloc = rt.alloc();
    let image = image_of(alloc, &EXIT_SEVEN)?;
    let job = Job {
        image: &image,
        procs: 1,
        limit: 100,
        signals: &[],
    };
    expect_exit_seven(&rt, &read_off(alloc, &job)?);
    Ok(())
}

/// The parent and its child tell their numbers, and both exit.
fn expect_parent_and_child(rt: &impl Abort, outcome: &Outcome) {
    let parent = [
        noted_at(0x401000, What::Step, 0x10900, 2),
        noted_at(0x401005, What::Step, 0x7fff_efc0, 2),
        noted_at(0x40100d, What::Step, 56, 2),
        noted_at(0x401012, What::Born, 1, 0x2_0001_2000),
        noted_at(0x401014, What::Step, 186, 2),
        noted_at(0x401019, What::Sys, 186, 1000),
        noted_at(0x40101b, What::Step, 0, 2),
        noted_at(0x401020, What::Step, 60, 2),
        noted_at(0x401025, What::Sys, 60, 0),
    ];
    let child = [
        noted_at(0x401014, What::Step, 186, 2),
        noted_at(0x401019, What::Sys, 186, 1001),
        noted_at(0x40101b, What::Step, 0, 2),
        noted_at(0x401020, What::Step, 60, 2),
        noted_at(0x401025, What::Sys, 60, 0),
    ];
    assert_eq!(rt; outcome.threads.len(), 2);
    expect_thread(rt, outcome, 0, &parent, 0);
    expect_thread(rt, outcome, 1, &child, 0);
    let spans = [(0x200001000, 0x200009000), (0x20000a000, 0x200012000)];
    expect_lost(rt, outcome, &spans);
    assert_eq!(rt; outcome.process, ProcessEnd::Exit(0));
}

/// Given turns to the birth, which is thread 0's turn 21, and then those of the child until it has ended.
const CHILD_FIRST: [u32; 61] = [
    0, 0, 0, 0, 0, 0, 0, 0, 0, 0, 0, 0, 0, 0, 0, 0, 0, 0, 0, 0, 0, 1, 1, 1, 1, 1, 1, 1, 1, 1, 1, 1,
    1, 1, 1, 1, 1, 1, 1, 1, 1, 1, 1, 1, 1, 1, 1, 1, 1, 1, 1, 1, 1, 1, 1, 1, 1, 1, 1, 1, 1,
];

/// With a processor for each thread the order of their turns changes no record.
#[test]
fn a_child_and_its_parent_exit_in_either_order(rt: HostRuntime) -> Result<(), Fail> {
    let alloc = rt.alloc();
    let image = image_of(alloc, &CLONE)?;
    let job = Job {
        image: &image,
        procs: 2,
        limit: 100,
        signals: &[],
    };
    expect_parent_and_child(&rt, &robin(alloc, &job)?);
    expect_parent_and_child(&rt, &replay(alloc, &job, &CHILD_FIRST)?);
    expect_parent_and_child(&rt, &mix(alloc, &job, 1)?);
    Ok(())
}

/// The child's fifth and sixth turn come while its parent is in the gate of the only processor.
#[test]
fn a_child_finds_the_gate_of_its_parent_busy(rt: HostRuntime) -> Result<(), Fail> {
    let alloc = rt.alloc();
    let image = image_of(alloc, &CLONE)?;
    let job = Job {
        image: &image,
        procs: 1,
        limit: 100,
        signals: &[],
    };
    let outcome = replay(alloc, &job, &CHILD_FIRST[..27])?;
    let child = outcome.threads.as_slice().get(1).expect(&rt, "no child");
    let busy = noted_at(
        0x401019,
        What::Busy,
        0xffff_8000_0000_2ff8,
        0xffff_8000_0000_2ff9,
    );
    assert_eq!(rt; child.records.get(1), Some(busy));
    assert_eq!(rt; child.end, End::Exit(0));
    assert_eq!(rt; outcome.process, ProcessEnd::Exit(0));
    Ok(())
}

fn is_sent<T: Send>() {}

#[test]
fn records_go_to_other_threads() {
    is_sent::<Records>();
}
