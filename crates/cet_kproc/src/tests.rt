//! Errors, accesses and results of the services, written out.

ghost use Rattle.std.specs.Prelude.{◌<◌, ◌-◌, ◌^◌};
ghost use Rattle.cet_page.specs.Finish.{IsMade};

use super::*;
use cet_isa::{Arch, Record, What};
use cet_page::{Cursor, Leaving, Mark, Next, Suspended, Vals};
use cet_words::{Access, Bytes, Image, Job, NoMemory, Segment, Segments};
use std::alloc::Global;
use std::process::Abort;
use std::test::Fail;

/// Thread 3 at a SYSCALL at 0x401000 that asks for the service of a number with three arguments. The kernel
/// made its shadow stack from 0x20000c000 on.
fn thread(asked: [u64; 4]) -> Arch
    ensures count { result.count < 2 ^ 32 - 1 }
    ensures made { IsMade result.made }
{
    let mut regs = [0; 16];
    regs[0] = asked[0];
    regs[7] = asked[1];
    regs[6] = asked[2];
    regs[2] = asked[3];
    Arch {
        regs,
        rip: 0x40_1000,
        flags: 0x43,
        ssp: 0x2_0000_9000,
        mask: 0,
        count: 5,
        posted: 0,
        number: 3,
        made: 0x2_0000_c000,
        due: None,
        held: None,
    }
}

/// Number and arguments; the answers so far; the accesses; and the record's kind, first and second value.
type Row = (
    [u64; 4],
    &'static [u64],
    &'static [Access],
    (What, u64, u64),
);

/// What a service has returned, by its number.
const fn result(number: u64, value: u64) -> (What, u64, u64) {
    (What::Sys, number, value)
}

const fn error(number: u64, errno: u64) -> (What, u64, u64)
    requires { 0 < errno }
{
    (What::Sys, number, u64::MAX - errno + 1)
}

/// The entry of a writable page of the image, and one that the user may not use.
const USABLE: u64 = 0x8000_0000_0020_0067;

const KERNEL_ONLY: u64 = 0x8000_0000_0020_0063;

/// Page 256 begins at 0x500000, with word 131,072.
const LOOK: Access = Access::Look(256);

const LOOK_ABOVE: Access = Access::Look(257);

/// File, address, length. The words are 11 22 33 .. and 09 0a 0b .. from the lowest byte on.
fn writes() -> [Row; 17] {
    const LOW: u64 = 0x8877_6655_4433_2211;
    const HIGH: u64 = 0x100f_0e0d_0c0b_0a09;
    const FIRST: Access = Access::Load(131_072);
    const SECOND: Access = Access::Load(131_073);
    const AT_END: Access = Access::Load(131_583);
    const ABOVE: Access = Access::Load(131_584);
    [
        ([1, 0, 0x500000, 0], &[], &[], error(1, 9)),
        ([1, 3, 0x500000, 8], &[], &[], error(1, 9)),
        ([1, 1, 0x30, 0], &[], &[], result(1, 0)),
        ([1, 1, u64::MAX - 6, 8], &[], &[], error(1, 14)),
        ([1, 1, u64::MAX - 7, 100], &[], &[], error(1, 14)),
        ([1, 1, 0x3f_fffc, 8], &[], &[], error(1, 14)),
        ([1, 2, 0x500000, 1], &[0], &[LOOK], error(1, 14)),
        ([1, 2, 0x500000, 1], &[KERNEL_ONLY], &[LOOK], error(1, 14)),
        (
            [1, 1, 0x7f_fffc, 8],
            &[USABLE],
            &[Access::Look(1023)],
            error(1, 14),
        ),
        (
            [1, 1, 0x50_0ffe, 4],
            &[USABLE, 0],
            &[LOOK, LOOK_ABOVE],
            error(1, 14),
        ),
        (
            [1, 1, 0x500000, 8],
            &[USABLE, USABLE, LOW],
            &[LOOK, LOOK, FIRST],
            (What::Wrote, 8, LOW),
        ),
        (
            [1, 2, 0x500001, 3],
            &[USABLE, USABLE, LOW],
            &[LOOK, LOOK, FIRST],
            (What::Wrote, 3, 0x44_3322),
        ),
        (
            [1, 1, 0x500007, 1],
            &[USABLE, USABLE, LOW],
            &[LOOK, LOOK, FIRST],
            (What::Wrote, 1, 0x88),
        ),
        (
            [1, 1, 0x500007, 2],
            &[USABLE, USABLE, LOW, HIGH],
            &[LOOK, LOOK, FIRST, SECOND],
            (What::Wrote, 2, 0x988),
        ),
        (
            [1, 1, 0x500005, u64::MAX],
            &[USABLE, USABLE, LOW, HIGH],
            &[LOOK, LOOK, FIRST, SECOND],
            (What::Wrote, 8, 0x0d0c_0b0a_0988_7766),
        ),
        (
            [1, 1, 0x50_0ffe, 4],
            &[USABLE, USABLE, LOW, HIGH],
            &[LOOK, LOOK_ABOVE, AT_END, ABOVE],
            (What::Wrote, 4, 0x0a09_8877),
        ),
        (
            [1, 1, 0x2_0000_1000, 8],
            &[0x8000_0000_0094_1065, 0x8000_0000_0094_1065, 7],
            &[
                Access::Look(2113),
                Access::Look(2113),
                Access::Load(1_081_856),
            ],
            (What::Wrote, 8, 7),
        ),
    ]
}

/// Code and argument.
fn features() -> [Row; 15] {
    [
        ([158, 0x5000, 8, 0], &[], &[], error(158, 22)),
        ([158, 0x5004, 8, 0], &[], &[], error(158, 22)),
        ([158, 0x5006, 8, 0], &[], &[], error(158, 22)),
        ([158, 0x1_0000_5003, 8, 0], &[], &[], error(158, 22)),
        ([158, 0x5001, 0, 0], &[], &[], error(158, 22)),
        ([158, 0x5001, 1, 0], &[], &[], error(158, 1)),
        ([158, 0x5002, 0, 0], &[], &[], error(158, 22)),
        ([158, 0x5002, 2, 0], &[], &[], error(158, 1)),
        ([158, 0x5003, 0, 0], &[], &[], result(158, 0)),
        ([158, 0x5003, u64::MAX, 0], &[], &[], result(158, 0)),
        ([158, 0x5005, 0x50_0004, 0], &[], &[], error(158, 14)),
        ([158, 0x5005, 0, 0], &[], &[], error(158, 14)),
        (
            [158, 0x5005, 0x2_0000_1000, 0],
            &[0x8000_0000_0094_1065],
            &[Access::Look(2113)],
            error(158, 14),
        ),
        (
            [158, 0x5005, 0x50_0008, 0],
            &[USABLE],
            &[LOOK, Access::Store(131_073, 1)],
            result(158, 0),
        ),
        ([202, 0, 0, 0], &[], &[], error(202, 38)),
    ]
}

/// Pages 12 to 19 of the area are pages 2,124 to 2,131, with entries in the words from 1,616,972 on.
const BIRTH: [Access; 10] = [
    Access::FetchAdd(1_605_634, 9),
    Access::Store(1_616_972, 0x8000_0000_0094_c065),
    Access::Store(1_616_973, 0x8000_0000_0094_d065),
    Access::Store(1_616_974, 0x8000_0000_0094_e065),
    Access::Store(1_616_975, 0x8000_0000_0094_f065),
    Access::Store(1_616_976, 0x8000_0000_0095_0065),
    Access::Store(1_616_977, 0x8000_0000_0095_1065),
    Access::Store(1_616_978, 0x8000_0000_0095_2065),
    Access::Store(1_616_979, 0x8000_0000_0095_3065),
    Access::FetchAdd(1_605_633, 1),
];

const NO_BIRTH: [Access; 18] = [
    Access::FetchAdd(1_605_634, 9),
    Access::Store(1_616_972, 0x8000_0000_0094_c065),
    Access::Store(1_616_973, 0x8000_0000_0094_d065),
    Access::Store(1_616_974, 0x8000_0000_0094_e065),
    Access::Store(1_616_975, 0x8000_0000_0094_f065),
    Access::Store(1_616_976, 0x8000_0000_0095_0065),
    Access::Store(1_616_977, 0x8000_0000_0095_1065),
    Access::Store(1_616_978, 0x8000_0000_0095_2065),
    Access::Store(1_616_979, 0x8000_0000_0095_3065),
    Access::FetchAdd(1_605_633, 1),
    Access::Store(1_616_972, 0),
    Access::Store(1_616_973, 0),
    Access::Store(1_616_974, 0),
    Access::Store(1_616_975, 0),
    Access::Store(1_616_976, 0),
    Access::Store(1_616_977, 0),
    Access::Store(1_616_978, 0),
    Access::Store(1_616_979, 0),
];

/// Flags and stack. A draw fits where 1,014 pages were drawn at most, and a number is below 32.
fn births() -> [Row; 15] {
    const DRAW: [Access; 1] = [Access::FetchAdd(1_605_634, 9)];
    const LAST: [Access; 10] = [
        Access::FetchAdd(1_605_634, 9),
        Access::Store(1_617_975, 0x8000_0000_00d3_7065),
        Access::Store(1_617_976, 0x8000_0000_00d3_8065),
        Access::Store(1_617_977, 0x8000_0000_00d3_9065),
        Access::Store(1_617_978, 0x8000_0000_00d3_a065),
        Access::Store(1_617_979, 0x8000_0000_00d3_b065),
        Access::Store(1_617_980, 0x8000_0000_00d3_c065),
        Access::Store(1_617_981, 0x8000_0000_00d3_d065),
        Access::Store(1_617_982, 0x8000_0000_00d3_e065),
        Access::FetchAdd(1_605_633, 1),
    ];
    [
        ([56, 0x1_0800, 8, 0], &[], &[], error(56, 22)),
        ([56, 0x1_0100, 8, 0], &[], &[], error(56, 22)),
        ([56, 0x900, 8, 0], &[], &[], error(56, 22)),
        ([56, 0x1_0901, 8, 0], &[], &[], error(56, 22)),
        ([56, 0x9_0900, 8, 0], &[], &[], error(56, 22)),
        ([56, 0x8000_0000_0001_0900, 8, 0], &[], &[], error(56, 22)),
        ([56, 0x1_0900, 0, 0], &[], &[], error(56, 22)),
        ([56, 0x1_0900, 8, 0], &[1015], &DRAW, error(56, 12)),
        ([56, 0x1_0900, 8, 0], &[u64::MAX], &DRAW, error(56, 12)),
        (
            [56, 0x1_0900, 8, 0],
            &[11, 1],
            &BIRTH,
            (What::Born, 1, 0x2_0001_4000),
        ),
        (
            [56, 0x5_0f00, u64::MAX, 0],
            &[11, 31],
            &BIRTH,
            (What::Born, 31, 0x2_0001_4000),
        ),
        (
            [56, 0x1_0b00, 8, 0],
            &[11, 2],
            &BIRTH,
            (What::Born, 2, 0x2_0001_4000),
        ),
        (
            [56, 0x1_0900, 8, 0],
            &[1014, 1],
            &LAST,
            (What::Born, 1, 0x2_003f_f000),
        ),
        ([56, 0x1_0900, 8, 0], &[11, 32], &NO_BIRTH, error(56, 11)),
        (
            [56, 0x1_0900, 8, 0],
            &[11, u64::MAX],
            &NO_BIRTH,
            error(56, 11),
        ),
    ]
}

/// The others that go back to the thread.
fn others() -> [Row; 4] {
    const ENDS: Access = Access::CompareExchange(1_605_632, 0, 0x107);
    [
        ([24, 1, 2, 3], &[], &[], result(24, 0)),
        ([186, 1, 2, 3], &[], &[], result(186, 1003)),
        ([231, 7, 0, 0], &[0], &[ENDS], result(231, 7)),
        ([231, 0xff07, 0, 0], &[0x20b], &[ENDS], result(231, 7)),
    ]
}

fn after(arch: &Arch, left: u32, rest: &[u64]) -> Result<(Arch, Record, Leaving), Suspended>
    requires count { arch.now.count < 2 ^ 32 - 1 }
    requires made { IsMade arch.now.made }
{
    follow(arch, &mut Cursor { left, rest })
}

/// The draw of a number bears a thread, with its shadow stack above the place that was drawn.
fn mark_of(access: Access, answers: &[u64]) -> Mark {
    match access {
        Access::FetchAdd(1_605_633, 1) if answers.first() == Some(&11) => {
            Mark::Bears(0x2_0000_c000)
        }
        Access::FetchAdd(1_605_633, 1) => Mark::Bears(0x2_003f_7000),
        _ => Mark::Plain,
    }
}

/// What the service gives to RAX.
fn result_of(told: (What, u64, u64)) -> u64 {
    match told {
        (What::Born, child, _) => child.saturating_add(1000),
        (What::Wrote, count, _) => count,
        (_, _, value) => value,
    }
}

/// Gives a service its answers.
fn expect_row(rt: &impl Abort, row: Row) {
    let (asked, answers, accesses, told) = row;
    let arch = thread(asked);
    let mut left = 0;
    for access in accesses {
        let stop = after(&arch, left, answers).err();
        assert_eq!(rt;
            stop,
            Some(Suspended::Access(*access, mark_of(*access, answers))),
            "{asked:?}"
        );
        left = left.checked_add(1).expect(rt, "too many accesses");
    }
    let (next, noted, ends) = after(&arch, left, answers).expect(rt, "it goes on");
    assert_eq!(rt; (noted.what, noted.a, noted.b), told, "{asked:?}");
    assert_eq!(rt;
        (
            next.regs[0],
            next.regs[1],
            next.regs[11],
            next.rip,
            next.count
        ),
        (result_of(told), 0x40_1002, 0x43, 0x40_1002, 6)
    );
    assert_eq!(rt; ends, Leaving::Back);
}

#[test]
fn rows_of_accesses(rt: HostRuntime) {
    for row in writes() {
        expect_row(&rt, row);
    }
    for row in features() {
        expect_row(&rt, row);
    }
    for row in births() {
        expect_row(&rt, row);
    }
    for row in others() {
        expect_row(&rt, row);
    }
}

/// exit with 0x1ff: eight stores of 0, and the thread ends with 255. Its registers stay.
#[test]
fn exit_by_number(rt: HostRuntime) {
    let arch = thread([60, 0x1ff, 0, 0]);
    for (left, access) in (0..8).zip(&NO_BIRTH[10..]) {
        let stop = after(&arch, left, &[]).err();
        assert_eq!(rt; stop, Some(Suspended::Access(*access, Mark::Plain)));
    }
    let (next, noted, ends) = after(&arch, 8, &[]).expect(&rt, "it goes on");
    assert_eq!(rt; (noted.what, noted.a, noted.b), (What::Sys, 60, 255));
    assert_eq!(rt; ends, Leaving::Ended(255));
    assert_eq!(rt;
        (next.regs[0], next.regs[1], next.regs[7], next.regs[11]),
        (60, 0, 0x1ff, 0)
    );
    assert_eq!(rt; (next.rip, next.count), (0x40_1000, 6));
}

/// An image with code at 0x401000, all zeros.
fn image(alloc: Global) -> Result<Image, NoMemory> {
    let mut segments = Segments::new(alloc);
    segments.push(
        alloc,
        Segment {
            start: 0x40_1000,
            bytes: Bytes::new(alloc),
            size: 16,
            write: false,
            exec: true,
        },
    )?;
    Ok(Image {
        entry: 0x40_1000,
        marked: true,
        tracked: false,
        segments,
    })
}

/// An exit_group: its exchange, and then its result.
#[test]
fn next_of_an_exit_group(rt: HostRuntime) -> Result<(), Fail> {
    let image = image(rt.alloc())?;
    let job = Job {
        image: &image,
        procs: 1,
        limit: 10,
        signals: &[],
    };
    let arch = thread([231, 7, 0, 0]);
    let mut vals = Vals::new();
    let ends = Access::CompareExchange(1_605_632, 0, 0x107);
    assert_eq!(rt; next(&job, &arch, &vals), Next::Access(ends));
    vals.add(ends, 0);
    match next(&job, &arch, &vals) {
        Next::Done(after, Some(noted)) => {
            assert_eq!(rt; (noted.what, noted.b), (What::Sys, 7));
            assert_eq!(rt; after.regs[0], 7);
        }
        other => assert!(rt; false, "{other:?}"),
    }
    Ok(())
}

#[test]
fn numbers_of_services(rt: HostRuntime) {
    for number in [1, 24, 56, 60, 158, 186, 231] {
        assert!(rt; serves(number));
    }
    for number in [0, 9, 11, 13, 14, 15, 202, 234, 453, u64::MAX] {
        assert!(rt; !serves(number));
    }
}
