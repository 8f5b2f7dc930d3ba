//! The accesses of deliveries by their numbers, written out.

use super::*;
use cet_isa::FaultName;
use cet_page::{Cursor, Leaving, Mark, Suspended};
use std::test::Fail;

/// Where the frame of RSP 0x7ffff0d8 goes, and the accesses up to it, behind those that differ.
const FRAME: u64 = 0x7fff_ef88;

/// The delivery of signal 10, pending at thread 3, to a handler at 0x401004.
fn delivery() -> [Made; 35] {
    [
        (Access::FetchAnd(1_605_667, 0xffff_ffff_ffff_fdff), 0x200),
        (Access::Load(1_605_736), 0x40_1004),
        (Access::Load(1_605_737), 0x0400_0000),
        (Access::Load(1_605_738), 0x40_1008),
        (Access::Load(1_605_739), 0x4_0101),
        (Access::Look(1086), STACK),
        (Access::Look(1087), MORE_STACK),
        (Access::Look(2120), SHADOW),
        (Access::Look(2119), LOWER_SHADOW),
        (Access::Store(556_529, 0x40_1008), 0),
        (Access::Store(556_530, 0x10), 0),
        (Access::Store(556_531, 0x11), 0),
        (Access::Store(556_532, 0x12), 0),
        (Access::Store(556_533, 0x13), 0),
        (Access::Store(556_534, 0x7fff_f0d8), 0),
        (Access::Store(556_535, 0x15), 0),
        (Access::Store(556_536, 0x16), 0),
        (Access::Store(556_537, 0x17), 0),
        (Access::Store(556_538, 0x18), 0),
        (Access::Store(556_539, 0x19), 0),
        (Access::Store(556_540, 0x1a), 0),
        (Access::Store(556_541, 0x1b), 0),
        (Access::Store(556_542, 0x1c), 0),
        (Access::Store(556_543, 0x1d), 0),
        (Access::Store(556_544, 0x1e), 0),
        (Access::Store(556_545, 0x1f), 0),
        (Access::Store(556_546, 0x40_1000), 0),
        (Access::Store(556_547, 0x43), 0),
        (Access::Store(556_548, 4), 0),
        (Access::Store(556_549, 10), 0),
        (Access::Store(556_550, 0), 0),
        (Access::Store(556_551, 0), 0),
        (Access::Store(556_552, 0), 0),
        (Access::Store(1_085_440, 0x8000_0002_0000_8008), 0),
        (Access::Store(1_085_439, 0x40_1008), 0),
    ]
}

/// The delivery of signal 10 as far as the looks.
fn before_looks() -> [Made; 5] {
    [
        (Access::FetchAnd(1_605_667, 0xffff_ffff_ffff_fdff), 0x200),
        (Access::Load(1_605_736), 2),
        (Access::Load(1_605_737), 0),
        (Access::Load(1_605_738), 0),
        (Access::Load(1_605_739), 0),
    ]
}

/// RSP, SSP and the looks of a frame that can't be pushed: none follows one that fails, and no address on no
/// page is looked at. The frame of RSP 0x8000000000000148 isn't canonical, and that of 0x80000090 reaches
/// past the stack.
fn unplaced() -> [(u64, u64, &'static [Made]); 8] {
    [
        (0, 0x2_0000_8008, &[]),
        (0x8000_0000_0000_0148, 0x2_0000_8008, &[]),
        (
            0x8000_0090,
            0x2_0000_8008,
            &[(Access::Look(1087), MORE_STACK)],
        ),
        (0x7fff_f0d8, 0x2_0000_8008, &[(Access::Look(1086), SHADOW)]),
        (
            0x7fff_f0d8,
            0x2_0000_8008,
            &[(Access::Look(1086), STACK), (Access::Look(1087), 0)],
        ),
        (
            0x7fff_f0d8,
            7,
            &[
                (Access::Look(1086), STACK),
                (Access::Look(1087), MORE_STACK),
            ],
        ),
        (
            0x7fff_f0d8,
            0x2_0000_8008,
            &[
                (Access::Look(1086), STACK),
                (Access::Look(1087), MORE_STACK),
                (Access::Look(2120), STACK),
            ],
        ),
        (
            0x7fff_f0d8,
            0x2_0000_8008,
            &[
                (Access::Look(1086), STACK),
                (Access::Look(1087), MORE_STACK),
                (Access::Look(2120), SHADOW),
                (Access::Look(2119), 0),
            ],
        ),
    ]
}

#[test]
fn deliveries_of_pending_signals(rt: HostRuntime) -> Result<(), Fail> {
    let image = image(rt.alloc())?;
    let job = Job {
        image: &image,
        procs: 1,
        limit: 10,
        signals: &[],
    };
    let arch = thread(0x7fff_f0d8, 0x2_0000_8008, None);
    let told = (What::Signal, 10, 0x2_0000_7ff8);
    let after = expect_work(&rt, &job, &arch, Work::Pending(10), &delivery(), told);
    assert_eq!(rt;
        (after.regs[4], after.regs[7], after.regs[6]),
        (FRAME, 10, FRAME)
    );
    assert_eq!(rt;
        (after.rip, after.ssp, after.mask),
        (0x40_1004, 0x2_0000_7ff8, 0x205)
    );
    assert_eq!(rt; (after.regs[0], after.flags), (0x10, 0x43));
    let mut kept = delivery();
    kept[2] = (Access::Load(1_605_737), 0x4400_0000);
    let after = expect_work(&rt, &job, &arch, Work::Pending(10), &kept, told);
    assert_eq!(rt; after.mask, 5);
    for (rsp, ssp, looks) in unplaced() {
        let arch = thread(rsp, ssp, None);
        expect_kill(
            &rt,
            &job,
            &arch,
            Work::Pending(10),
            [&before_looks(), looks],
        );
    }
    Ok(())
}

/// The default kills, also by signal 9, and an ignored signal leaves its record alone.
#[test]
fn deliveries_without_a_handler(rt: HostRuntime) -> Result<(), Fail> {
    let image = image(rt.alloc())?;
    let job = Job {
        image: &image,
        procs: 1,
        limit: 10,
        signals: &[],
    };
    let arch = thread(0, 0, None);
    let killed = [
        (Access::FetchAnd(1_605_667, 0xffff_ffff_ffff_feff), 0x100),
        (Access::Load(1_605_732), 0),
        (Access::CompareExchange(EXIT, 0, 0x209), 0),
    ];
    let told = (What::Kill, 9, 0);
    expect_work(&rt, &job, &arch, Work::Pending(9), &killed, told);
    let ignored = [
        (Access::FetchAnd(1_605_667, 0xffff_ffff_bfff_ffff), 0),
        (Access::Load(1_605_820), 1),
    ];
    let told = (What::Ignore, 31, 0);
    let after = expect_work(&rt, &job, &arch, Work::Pending(31), &ignored, told);
    assert_eq!(rt; after.regs, arch.regs);
    assert_eq!(rt; (after.rip, after.mask), (0x40_1000, 4));
    Ok(())
}

/// A fault, the handler's word of its signal, and the words 20 to 23 of its frame.
fn causes() -> [(FaultName, u32, u32, [u64; 4]); 7] {
    [
        (FaultName::Ud, 0, 1_605_712, [4, 2, 0, 0]),
        (FaultName::Gp, 0, 1_605_740, [11, 128, 0, 0]),
        (FaultName::Ac, 0, 1_605_740, [11, 128, 0, 0]),
        (FaultName::Pf, 6, 1_605_740, [11, 1, 6, 0x40_2000]),
        (FaultName::Pf, 7, 1_605_740, [11, 2, 7, 0x40_2000]),
        (FaultName::Cp, 1, 1_605_740, [11, 10, 1, 0]),
        (FaultName::Cp, 4, 1_605_740, [11, 10, 4, 0]),
    ]
}

fn expect_cause(rt: &impl Abort, cause: (FaultName, u32, u32, [u64; 4])) {
    let (name, code, handler, words) = cause;
    let fault = Fault {
        name,
        code,
        a: 0x40_2000,
        b: 77,
    };
    let arch = thread(0x7fff_f0d8, 0x2_0000_8008, Some(fault));
    let answers = [
        2,
        0x0400_0000,
        0x40_1008,
        0,
        STACK,
        MORE_STACK,
        SHADOW,
        LOWER_SHADOW,
    ];
    let stop = fault_delivery(&arch, &fault, &mut Cursor { left: 0, rest: &[] }).err();
    let load = Access::Load(handler);
    assert_eq!(rt; stop, Some(Suspended::Access(load, Mark::Plain)));
    for at in 0..4u32 {
        let mut place = Cursor {
            left: 28 + at,
            rest: &answers,
        };
        let stop = fault_delivery(&arch, &fault, &mut place).err();
        let store = Access::Store(556_549 + at, words[at as usize]);
        assert_eq!(rt;
            stop,
            Some(Suspended::Access(store, Mark::Plain)),
            "{name:?}"
        );
    }
    let mut place = Cursor {
        left: 34,
        rest: &answers,
    };
    let (after, noted, ends) = fault_delivery(&arch, &fault, &mut place).expect(rt, "it goes on");
    assert_eq!(rt;
        (after.due, after.regs[7], ends),
        (None, words[0], Leaving::Back)
    );
    assert_eq!(rt;
        (noted.what, noted.a, noted.rip),
        (What::Signal, words[0], 0x40_1000)
    );
}

/// A masked fault's signal, and one without a handler, kill.
#[test]
fn deliveries_of_faults(rt: HostRuntime) -> Result<(), Fail> {
    let image = image(rt.alloc())?;
    let job = Job {
        image: &image,
        procs: 1,
        limit: 10,
        signals: &[],
    };
    for cause in causes() {
        expect_cause(&rt, cause);
    }
    let fault = Fault {
        name: FaultName::Ud,
        code: 0,
        a: 0,
        b: 0,
    };
    let mut arch = thread(0, 0, Some(fault));
    let kill = (Access::CompareExchange(EXIT, 0, 0x204), 0);
    let told = (What::Kill, 4, 0);
    for handler in [0, 1] {
        let accesses = [(Access::Load(1_605_712), handler), kill];
        let after = expect_work(&rt, &job, &arch, Work::Fault, &accesses, told);
        assert_eq!(rt; (after.due, after.rip, after.mask), (None, 0x40_1000, 4));
    }
    arch.mask = 8;
    let after = expect_work(&rt, &job, &arch, Work::Fault, &[kill], told);
    assert_eq!(rt; (after.due, after.mask), (None, 8));
    Ok(())
}
