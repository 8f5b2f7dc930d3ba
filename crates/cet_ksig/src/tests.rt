//! The tests of each service in their order, and the accesses of services and deliveries by their numbers,
//! written out.

ghost use Rattle.std.specs.Prelude.{◌<◌, ◌-◌, ◌^◌};

mod deliveries;
mod returns;
mod services;

use super::*;
use cet_isa::{Arch, Fault, What};
use cet_page::{Next, Vals};
use cet_words::{Access, Bytes, Image, Job, NoMemory, Segment, Segments};
use std::alloc::Global;
use std::process::Abort;

/// The entry of page 1, which has code: it is executable and not writable.
const CODE: u64 = 0x10_1025;

/// The entries of pages 2 and 3, which have data.
const DATA: u64 = 0x8000_0000_0010_2067;

const MORE_DATA: u64 = 0x8000_0000_0010_3067;

/// The entries of pages 1,086 and 1,087 of the main stack.
const STACK: u64 = 0x8000_0000_0053_e067;

const MORE_STACK: u64 = 0x8000_0000_0053_f067;

/// The entries of pages 2,120 and 2,119 of the shadow area.
const SHADOW: u64 = 0x8000_0000_0094_8065;

const LOWER_SHADOW: u64 = 0x8000_0000_0094_7065;

/// The word EXIT.
const EXIT: u32 = 1_605_632;

/// An access and its answer.
type Made = (Access, u64);

/// Thread 3 at 0x401000. Its registers are 0x10 to 0x1f, but for RSP.
fn thread(rsp: u64, ssp: u64, due: Option<Fault>) -> Arch
    ensures { result.count < 2 ^ 32 - 1 }
{
    Arch {
        regs: [
            0x10, 0x11, 0x12, 0x13, rsp, 0x15, 0x16, 0x17, 0x18, 0x19, 0x1a, 0x1b, 0x1c, 0x1d,
            0x1e, 0x1f,
        ],
        rip: 0x40_1000,
        flags: 0x43,
        ssp,
        mask: 4,
        count: 5,
        posted: 0,
        number: 3,
        made: 0x2_0000_1000,
        due,
        held: Some(3),
    }
}

/// An image with code at 0x401000.
fn image(alloc: Global) -> Result<Image, NoMemory> {
    let mut segments = Segments::new(alloc);
    segments.push(
        alloc,
        Segment {
            start: 0x40_1000,
            bytes: Bytes::new(alloc),
            size: 16,
            write: false,
            exec: true,
        },
    )?;
    Ok(Image {
        entry: 0x40_1000,
        marked: true,
        tracked: false,
        segments,
    })
}

fn asked(rt: &impl Abort, job: &Job, arch: &Arch, vals: &Vals, work: Work) -> Next
    requires { arch.now.count < 2 ^ 32 - 1 }
{
    match work {
        Work::Service => {}
        Work::Fault => assert!(rt; arch.due.is_some()),
        Work::Pending(signal) => assert!(rt; signal >= 1 && signal <= 31),
    }
    next(job, arch, vals, &work)
}
/// The work makes these accesses next.
fn expect_accesses(
    rt: &impl Abort,
    job: &Job,
    arch: &Arch,
    work: Work,
    vals: &mut Vals,
    accesses: &[Made],
)
    requires { arch.now.count < 2 ^ 32 - 1 }
{
    for (access, answer) in accesses {
        let wanted = asked(rt, job, arch, vals, work);
        assert_eq!(rt; wanted, Next::Access(*access), "{:?}", arch.regs);
        assert!(rt; vals.count() < 32 && vals.done() < 4096);
        vals.add(*access, *answer);
    }
}

/// The work is over, with a record of this kind, `a` and `b`; the state after it.
fn expect_end(
    rt: &impl Abort,
    job: &Job,
    arch: &Arch,
    work: Work,
    vals: &Vals,
    told: (What, u64, u64),
) -> Arch
    requires { arch.now.count < 2 ^ 32 - 1 }
{
    match asked(rt, job, arch, vals, work) {
        Next::Done(after, Some(noted)) => {
            assert_eq!(rt; (noted.what, noted.a, noted.b), told);
            assert_eq!(rt; (noted.rip, noted.code), (0x40_1000, 0));
            assert_eq!(rt; after.count, 6);
            after
        }
        other => {
            assert!(rt; false, "{other:?} {told:?}");
            *arch
        }
    }
}

/// The work makes these accesses, and is over with this record.
fn expect_work(
    rt: &impl Abort,
    job: &Job,
    arch: &Arch,
    work: Work,
    accesses: &[Made],
    told: (What, u64, u64),
) -> Arch
    requires { arch.now.count < 2 ^ 32 - 1 }
{
    let mut vals = Vals::new();
    expect_accesses(rt, job, arch, work, &mut vals, accesses);
    expect_end(rt, job, arch, work, &vals, told)
}

/// The work makes these accesses, and is over with the kill by signal 11: no register, mask or SSP changes.
fn expect_kill(rt: &impl Abort, job: &Job, arch: &Arch, work: Work, accesses: [&[Made]; 2])
    requires { arch.now.count < 2 ^ 32 - 1 }
{
    let mut vals = Vals::new();
    for part in accesses {
        expect_accesses(rt, job, arch, work, &mut vals, part);
    }
    let kill = [(Access::CompareExchange(EXIT, 0, 0x20b), 0x107)];
    expect_accesses(rt, job, arch, work, &mut vals, &kill);
    let after = expect_end(rt, job, arch, work, &vals, (What::Kill, 11, 0x107));
    assert_eq!(rt; after.regs, arch.regs);
    assert_eq!(rt; (after.rip, after.flags), (0x40_1000, 0x43));
    assert_eq!(rt; (after.ssp, after.mask), (arch.ssp, 4));
}
