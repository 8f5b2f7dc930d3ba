//! A short thread, access by access, on the words of an image.

ghost use Rattle.std.specs.Prelude.{◌≤◌, length, IfSome};
ghost use Rattle.cet_cpu.specs.Cpu.{IsCpu};

use super::*;
use cet_isa::{Fault, FaultName, Record, What};
use cet_words::{Access, Bytes, Image, Job, NoMemory, Perform, Plain, Segment, Segments};
use std::alloc::Global;
use std::process::Abort;
use std::test::Fail;

/// `mov edi, 7`, `mov eax, 60`, `syscall`, as GNU as assembles them.
const EXIT_SEVEN: [u8; 12] = [
    0xbf, 0x07, 0x00, 0x00, 0x00, 0xb8, 0x3c, 0x00, 0x00, 0x00, 0x0f, 0x05,
];

/// The image of a text of at most 16 bytes at 0x401000.
fn image_of(alloc: Global, text: &[u8]) -> Result<Image, NoMemory>
    requires { length text.now ≤ 16 }
{
    let mut bytes = Bytes::new(alloc);
    bytes.extend(alloc, text)?;
    let segment = Segment {
        start: 0x401000,
        bytes,
        size: 16,
        write: false,
        exec: true,
    };
    let mut segments = Segments::new(alloc);
    segments.push(alloc, segment)?;
    Ok(Image {
        entry: 0x401000,
        marked: true,
        tracked: false,
        segments,
    })
}

/// A record with no error code.
fn noted(rip: u64, what: What, a: u64, b: u64) -> Option<Record> {
    Some(Record {
        rip,
        what,
        code: 0,
        a,
        b,
    })
}

/// The thread makes this access, which completes this record or none.
fn expect_access(
    rt: &impl Abort,
    job: &Job,
    words: &mut Plain,
    cpu: &mut Cpu,
    want: Access,
    record: Option<Record>,
)
    requires { IsCpu job.now cpu.old }
    ensures { IsCpu job.now cpu.new }
{
    assert!(rt; cpu.end().is_none(), "{want:?}");
    let access = cpu.next(job).expect(rt, "no access");
    assert_eq!(rt; access, want);
    let answer = words.perform(access);
    let taken = cpu.take(job, answer);
    assert_eq!(rt; taken.noted, record, "{want:?}");
    assert!(rt; taken.child.is_none(), "{want:?}");
    assert_eq!(rt; taken.end, cpu.end(), "{want:?}");
}

fn expect_accesses(
    rt: &impl Abort,
    job: &Job,
    words: &mut Plain,
    cpu: &mut Cpu,
    rows: &[(Access, Option<Record>)],
)
    requires { IsCpu job.now cpu.old }
    ensures { IsCpu job.now cpu.new }
{
    for (want, record) in rows {
        expect_access(rt, job, words, cpu, *want, *record);
    }
}

#[test]
fn moves_and_exits(rt: HostRuntime) -> Result<(), Fail> {
    let image = image_of(rt.alloc(), &EXIT_SEVEN)?;
    let words = &mut Plain::new(rt.alloc(), &image)?;
    let job = Job {
        image: &image,
        procs: 1,
        limit: 100,
        signals: &[],
    };
    let cpu = &mut first(&job);
    assert_eq!(rt; cpu.arch().rip, 0x401000);
    assert_eq!(rt; cpu.arch().regs[4], 0x7fff_ffc0);
    assert_eq!(rt; cpu.arch().ssp, 0x2_0000_9000);
    // Each boundary loads the word EXIT and the pending signals of thread 0.
    let moves = [
        (Access::Load(1_605_632), None),
        (Access::Load(1_605_664), noted(0x401000, What::Step, 7, 2)),
        (Access::Load(1_605_632), None),
        (Access::Load(1_605_664), noted(0x401005, What::Step, 60, 2)),
    ];
    expect_accesses(&rt, &job, words, cpu, &moves);
    assert_eq!(rt; cpu.arch().regs[7], 7);
    // The token of supervisor stack 0 at 0xffff800000002ff8, and the entries of the pages 2113 to 2120.
    let exit = [
        (Access::Load(1_605_632), None),
        (Access::Load(1_605_664), None),
        (Access::Look(3138), None),
        (
            Access::CompareExchange(1_607_167, 0xffff_8000_0000_2ff8, 0xffff_8000_0000_2ff9),
            None,
        ),
        (Access::Store(1_607_166, 0xffff_8000_0010_0000), None),
        (Access::Store(1_616_961, 0), None),
        (Access::Store(1_616_962, 0), None),
        (Access::Store(1_616_963, 0), None),
        (Access::Store(1_616_964, 0), None),
        (Access::Store(1_616_965, 0), None),
        (Access::Store(1_616_966, 0), None),
        (Access::Store(1_616_967, 0), None),
        (Access::Store(1_616_968, 0), None),
        (Access::Load(1_607_166), None),
        (
            Access::CompareExchange(1_607_167, 0xffff_8000_0000_2ff9, 0xffff_8000_0000_2ff8),
            noted(0x40100a, What::Sys, 60, 7),
        ),
    ];
    expect_accesses(&rt, &job, words, cpu, &exit);
    assert_eq!(rt; cpu.end(), Some(End::Exit(7)));
    assert_eq!(rt; cpu.next(&job), None);
    assert_eq!(rt; cpu.arch().count, 3);
    Ok(())
}

/// `stc`, `mov rbx, 0x200008ff8`, `rstorssp [rbx]`.
const RESTORE: [u8; 15] = [
    0xf9, 0x48, 0xbb, 0xf8, 0x8f, 0x00, 0x00, 0x02, 0x00, 0x00, 0x00, 0xf3, 0x0f, 0x01, 0x2b,
];

/// The thread makes this access, which has this answer, whatever the words are.
fn answer_access(rt: &impl Abort, job: &Job, cpu: &mut Cpu, want: Access, answer: u64) -> Taken
    requires { IsCpu job.now cpu.old }
    ensures state { IsCpu job.now cpu.new }
    ensures born { IfSome result.child (IsCpu job.now) }
{
    assert!(rt; cpu.end().is_none(), "{want:?}");
    let access = cpu.next(job).expect(rt, "no access");
    assert_eq!(rt; access, want);
    cpu.take(job, answer)
}

/// The record of the exchange of RSTORSSP where it finds this word, and the thread after it.
fn restore(rt: &impl Abort, job: &Job, found: u64) -> (Option<Record>, Cpu) {
    let mut cpu = first(job);
    // The entry of the last page of the first shadow stack, which the look is answered.
    let answers = [
        (Access::Load(1_605_632), 0),
        (Access::Load(1_605_664), 0),
        (Access::Load(1_605_632), 0),
        (Access::Load(1_605_664), 0),
        (Access::Load(1_605_632), 0),
        (Access::Load(1_605_664), 0),
        (Access::Look(2120), 0x8000_0000_0094_8065),
    ];
    for (want, answer) in &answers {
        answer_access(rt, job, &mut cpu, *want, *answer);
    }
    let exchange = Access::CompareExchange(1_085_951, 0x2_0000_9001, 0x2_0000_9003);
    let taken = answer_access(rt, job, &mut cpu, exchange, found);
    assert!(rt; taken.child.is_none());
    assert!(rt; taken.end.is_none());
    (taken.noted, cpu)
}

#[test]
fn restores_by_the_word_found(rt: HostRuntime) -> Result<(), Fail> {
    let image = image_of(rt.alloc(), &RESTORE)?;
    let job = Job {
        image: &image,
        procs: 1,
        limit: 100,
        signals: &[],
    };
    let (record, cpu) = restore(&rt, &job, 0x2_0000_9001);
    assert_eq!(rt;
        record,
        noted(0x40100b, What::Take, 0x2_0000_8ff8, 0x2_0000_9000)
    );
    let arch = cpu.arch();
    assert_eq!(rt;
        [arch.rip, arch.flags, arch.ssp],
        [0x40100f, 2, 0x2_0000_8ff8]
    );
    assert!(rt; arch.due.is_none());
    // The token of another pointer.
    let (record, cpu) = restore(&rt, &job, 0x2_0000_8001);
    let fault = Fault {
        name: FaultName::Cp,
        code: 4,
        a: 0x2_0000_8ff8,
        b: 0x2_0000_8001,
    };
    let miss = Record {
        rip: 0x40100b,
        what: What::Fault(FaultName::Cp),
        code: 4,
        a: 0x2_0000_8ff8,
        b: 0x2_0000_8001,
    };
    assert_eq!(rt; record, Some(miss));
    let arch = cpu.arch();
    assert_eq!(rt;
        [arch.rip, arch.flags, arch.ssp],
        [0x40100b, 3, 0x2_0000_9000]
    );
    assert_eq!(rt; arch.due, Some(fault));
    Ok(())
}

/// `mov edi, 0x10900`, `mov esi, edi`, `mov eax, 56`, `syscall`, as GNU as assembles them.
const CLONE: [u8; 14] = [
    0xbf, 0x00, 0x09, 0x01, 0x00, 0x89, 0xfe, 0xb8, 0x38, 0x00, 0x00, 0x00, 0x0f, 0x05,
];

/// The accesses of these instructions before the birth, with their answers. The shadow stack has pages 10 to
/// 17 of the area, which are pages 2,122 to 2,129.
const BEFORE_BIRTH: [(Access, u64); 20] = [
    (Access::Load(1_605_632), 0),
    (Access::Load(1_605_664), 0),
    (Access::Load(1_605_632), 0),
    (Access::Load(1_605_664), 0),
    (Access::Load(1_605_632), 0),
    (Access::Load(1_605_664), 0),
    (Access::Load(1_605_632), 0),
    (Access::Load(1_605_664), 0),
    (Access::Look(3138), 0x8000_0000_00d4_2061),
    (
        Access::CompareExchange(1_607_167, 0xffff_8000_0000_2ff8, 0xffff_8000_0000_2ff9),
        0xffff_8000_0000_2ff8,
    ),
    (Access::Store(1_607_166, 0xffff_8000_0010_0000), 0),
    (Access::FetchAdd(1_605_634, 9), 9),
    (Access::Store(1_616_970, 0x8000_0000_0094_a065), 0),
    (Access::Store(1_616_971, 0x8000_0000_0094_b065), 0),
    (Access::Store(1_616_972, 0x8000_0000_0094_c065), 0),
    (Access::Store(1_616_973, 0x8000_0000_0094_d065), 0),
    (Access::Store(1_616_974, 0x8000_0000_0094_e065), 0),
    (Access::Store(1_616_975, 0x8000_0000_0094_f065), 0),
    (Access::Store(1_616_976, 0x8000_0000_0095_0065), 0),
    (Access::Store(1_616_977, 0x8000_0000_0095_1065), 0),
];

/// The same, of an access that bears no thread.
fn answer_alone(rt: &impl Abort, job: &Job, cpu: &mut Cpu, want: Access, answer: u64)
    requires { IsCpu job.now cpu.old }
    ensures { IsCpu job.now cpu.new }
{
    let taken = answer_access(rt, job, cpu, want, answer);
    assert!(rt; taken.child.is_none(), "{want:?}");
}

fn answer_each(rt: &impl Abort, job: &Job, cpu: &mut Cpu, rows: &[(Access, u64)])
    requires { IsCpu job.now cpu.old }
    ensures { IsCpu job.now cpu.new }
{
    for (want, answer) in rows {
        answer_alone(rt, job, cpu, *want, *answer);
    }
}

/// The thread after these accesses, and the child, where the draw of its number has this answer.
fn birth(rt: &impl Abort, job: &Job, number: u64) -> (Cpu, Option<Cpu>)
    ensures parent { IsCpu job.now result.0 }
    ensures child { IfSome result.1 (IsCpu job.now) }
{
    let mut cpu = first(job);
    answer_each(rt, job, &mut cpu, &BEFORE_BIRTH);
    let draw = Access::FetchAdd(1_605_633, 1);
    let taken = answer_access(rt, job, &mut cpu, draw, number);
    (cpu, taken.child)
}

/// The child has its own shadow stack and no record, and waits for the load of EXIT; the parent's record
/// tells of it.
#[test]
fn bears_a_thread(rt: HostRuntime) -> Result<(), Fail> {
    let image = image_of(rt.alloc(), &CLONE)?;
    let job = Job {
        image: &image,
        procs: 1,
        limit: 100,
        signals: &[],
    };
    let (mut cpu, child) = birth(&rt, &job, 31);
    let child = child.expect(&rt, "no child");
    assert_eq!(rt; child.next(&job), Some(Access::Load(1_605_632)));
    let arch = child.arch();
    assert_eq!(rt;
        [
            arch.regs[0],
            arch.regs[1],
            arch.regs[4],
            arch.regs[7],
            arch.regs[11]
        ],
        [0, 0x40100e, 0x10900, 0x10900, 2]
    );
    assert_eq!(rt;
        [arch.rip, arch.flags, arch.ssp, arch.made, arch.mask],
        [0x40100e, 2, 0x2_0001_2000, 0x2_0000_a000, 0]
    );
    assert_eq!(rt;
        [arch.count, arch.posted, u32::from(arch.number)],
        [0, 0, 31]
    );
    assert!(rt; arch.due.is_none() && arch.held.is_none());
    answer_alone(&rt, &job, &mut cpu, Access::Load(1_607_166), 0);
    let last = Access::CompareExchange(1_607_167, 0xffff_8000_0000_2ff9, 0xffff_8000_0000_2ff8);
    let taken = answer_access(&rt, &job, &mut cpu, last, 0);
    assert_eq!(rt; taken.noted, noted(0x40100c, What::Born, 31, 0x2_0001_2000));
    assert_eq!(rt; cpu.arch().regs[0], 1031);
    // There is no number left.
    let (cpu, child) = birth(&rt, &job, 32);
    assert!(rt; child.is_none());
    assert_eq!(rt; cpu.next(&job), Some(Access::Store(1_616_970, 0)));
    Ok(())
}

fn is_sent<T: Send>() {}

#[test]
fn goes_to_other_threads() {
    is_sent::<Cpu>();
    is_sent::<Taken>();
}
