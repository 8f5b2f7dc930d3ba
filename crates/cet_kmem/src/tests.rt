//! Errors, accesses and results of the services, written out.

ghost use Rattle.std.specs.Prelude.{◌<◌, ◌-◌, ◌^◌};

use super::*;
use cet_isa::{Arch, Record, What};
use cet_page::{Cursor, Leaving, Mark, Next, Suspended, Vals};
use cet_words::{Access, Bytes, Image, Job, NoMemory, Segment, Segments};
use std::alloc::Global;
use std::process::Abort;
use std::test::Fail;

/// A thread at a SYSCALL at 0x401000 that asks for a service by its number, with RDI, RSI, RDX and R10.
fn thread(number: u64, asked: [u64; 4]) -> Arch
    ensures { result.count < 2 ^ 32 - 1 }
{
    let mut regs = [0; 16];
    regs[0] = number;
    regs[7] = asked[0];
    regs[6] = asked[1];
    regs[2] = asked[2];
    regs[10] = asked[3];
    Arch {
        regs,
        rip: 0x40_1000,
        flags: 0x43,
        ssp: 0x2_0000_9000,
        mask: 0,
        count: 5,
        posted: 0,
        number: 0,
        made: 0x2_0000_1000,
        due: None,
        held: None,
    }
}

/// The record's kind, first and second value.
type Told = (What, u64, u64);

/// The arguments; the answers so far; the accesses; and the record.
type Row = ([u64; 4], &'static [u64], &'static [Access], Told);

/// An error's result is minus its number.
const fn error(service: u64, number: u64) -> Told {
    (What::Sys, service, 0_u64.wrapping_sub(number))
}

/// Arguments of map_shadow_stack that are refused, with the error's number; no access comes before the
/// tests.
const REFUSED_STACKS: [([u64; 4], u64); 13] = [
    ([0, 4096, 2, 0], 22),
    ([0, 0, 1, 0], 28),
    ([0, 7, 1, 0], 28),
    ([4096, 4096, 1, 0], 34),
    ([0xffff_ffff, 0, 0, 0], 34),
    ([0, u64::MAX, 1, 0], 75),
    ([0, u64::MAX - 4094, 0, 0], 75),
    ([0, 4095, 1, 0], 22),
    ([0, 0, 0, 0], 22),
    ([0x1_0000_0000, 4096, 1, 0], 17),
    ([0, 1 << 63, 1, 0], 12),
    ([0, u64::MAX - 4095, 0, 0], 12),
    ([0, 1022 * 4096 + 1, 0, 0], 12),
];

/// The counter stays raised where a draw fails. The entry of page 2,122 is word 1,616,970, and the word at
/// 0x20000a000 is 1,086,464.
fn stacks() -> [Row; 5] {
    const DRAW: [Access; 1] = [Access::FetchAdd(1_605_634, 2)];
    [
        ([0, 4096, 1, 0], &[1022], &DRAW, error(453, 12)),
        ([0, 4096, 1, 0], &[u64::MAX], &DRAW, error(453, 12)),
        (
            [0, 8, 1, 0],
            &[9],
            &[
                Access::FetchAdd(1_605_634, 2),
                Access::Store(1_616_970, 0x8000_0000_0094_a065),
                Access::Store(1_086_464, 0x2_0000_a009),
            ],
            (What::Claim, 0x2_0000_a000, 8),
        ),
        (
            [0, 4095, 0, 0],
            &[9],
            &[
                Access::FetchAdd(1_605_634, 2),
                Access::Store(1_616_970, 0x8000_0000_0094_a065),
            ],
            (What::Claim, 0x2_0000_a000, 4095),
        ),
        (
            [0, 8192, 1, 0],
            &[1020],
            &[
                Access::FetchAdd(1_605_634, 3),
                Access::Store(1_617_981, 0x8000_0000_00d3_d065),
                Access::Store(1_617_982, 0x8000_0000_00d3_e065),
                Access::Store(1_605_119, 0x2_003f_f001),
            ],
            (What::Claim, 0x2_003f_d000, 8192),
        ),
    ]
}

/// Arguments of mmap that are refused: by the address, the length, the rights and the flags, by several of
/// them, and by the number of pages.
const REFUSED_MAPPINGS: [([u64; 4], u64); 18] = [
    ([0x1_0000_0000, 4096, 3, 0x22], 22),
    ([1, 4096, 3, 0x22], 22),
    ([0, 0, 3, 0x22], 22),
    ([0, 4096, 0, 0x22], 22),
    ([0, 4096, 1, 0x22], 22),
    ([0, 4096, 7, 0x22], 22),
    ([0, 4096, 0x1_0000_0003, 0x22], 22),
    ([0, 4096, 3, 0x2], 22),
    ([0, 4096, 3, 0x21], 22),
    ([0, 4096, 3, 0x32], 22),
    ([0, 4096, 3, 0x2_0002], 22),
    ([0, 4096, 3, 0x1_0000_0022], 22),
    ([4096, u64::MAX, 3, 0x22], 22),
    ([0, u64::MAX, 7, 0x22], 22),
    ([0, u64::MAX, 3, 0x122], 22),
    ([0, 4_194_305, 3, 0x22], 12),
    ([0, 1 << 63, 3, 0x2_0022], 12),
    ([0, u64::MAX, 3, 0x22], 12),
];

/// The entries of the pages 1,088 to 2,111 are the words 1,615,936 to 1,616,959.
fn mappings() -> [Row; 5] {
    [
        (
            [0, 5000, 3, 0x22],
            &[0],
            &[
                Access::FetchAdd(1_605_635, 2),
                Access::Store(1_615_936, 0x8000_0000_0054_0067),
                Access::Store(1_615_937, 0x8000_0000_0054_1067),
            ],
            (What::Sys, 9, 0x1_0000_0000),
        ),
        (
            [0, 1, 3, 0x2_0022],
            &[1023],
            &[
                Access::FetchAdd(1_605_635, 1),
                Access::Store(1_616_959, 0x8000_0000_0093_f067),
            ],
            (What::Sys, 9, 0x1_003f_f000),
        ),
        (
            [0, 4097, 3, 0x22],
            &[1023],
            &[Access::FetchAdd(1_605_635, 2)],
            error(9, 12),
        ),
        (
            [0, 4096, 3, 0x22],
            &[u64::MAX],
            &[Access::FetchAdd(1_605_635, 1)],
            error(9, 12),
        ),
        (
            [0, 4_194_304, 3, 0x22],
            &[1],
            &[Access::FetchAdd(1_605_635, 1024)],
            error(9, 12),
        ),
    ]
}

/// Ranges that munmap refuses, each with EINVAL: misaligned, empty, rounded up to 2^64 or more, with a sum of
/// 2^64 and past it, across the ends of the two areas and over both, and in the other stretches of memory
/// or in none.
const REFUSED_RANGES: [([u64; 4], u64); 22] = [
    ([0x1_0000_0001, 4096, 0, 0], 22),
    ([0x1_0000_0ff8, 8, 0, 0], 22),
    ([0x1_0000_0000, 0, 0, 0], 22),
    ([0x1_0000_0000, u64::MAX, 0, 0], 22),
    ([0x1_0000_0000, u64::MAX - 4094, 0, 0], 22),
    ([0x1_0000_0000, 0xffff_ffff_0000_0000, 0, 0], 22),
    ([0x1_0000_0000, 0xffff_ffff_0000_0001, 0, 0], 22),
    ([0xffff_ffff_ffff_f000, 0x1_0000_2000, 0, 0], 22),
    ([0xffff_ffff_ffff_f000, 0x2_0000_2000, 0, 0], 22),
    ([0x1_003f_f000, 8192, 0, 0], 22),
    ([0x1_0000_0000, 4_194_305, 0, 0], 22),
    ([0xffff_f000, 8192, 0, 0], 22),
    ([0x2_003f_f000, 4097, 0, 0], 22),
    ([0x1_ffff_f000, 8192, 0, 0], 22),
    ([0x1_0000_0000, 0x1_0040_0000, 0, 0], 22),
    ([0x1_0040_0000, 4096, 0, 0], 22),
    ([0x2_0040_0000, 4096, 0, 0], 22),
    ([0x40_0000, 4096, 0, 0], 22),
    ([0x7ffc_0000, 4096, 0, 0], 22),
    ([0xffff_8000_0000_0000, 4096, 0, 0], 22),
    ([0xffff_ffff_ffff_f000, 4096, 0, 0], 22),
    ([0, 4096, 0, 0], 22),
];

/// Ranges of both areas, which may end at an area's end.
fn unmappings() -> [Row; 4] {
    [
        (
            [0x1_0000_1000, 8192, 0, 0],
            &[],
            &[Access::Store(1_615_937, 0), Access::Store(1_615_938, 0)],
            (What::Sys, 11, 0),
        ),
        (
            [0x1_003f_f000, 1, 0, 0],
            &[],
            &[Access::Store(1_616_959, 0)],
            (What::Sys, 11, 0),
        ),
        (
            [0x2_0000_a000, 4097, 0, 0],
            &[],
            &[Access::Store(1_616_970, 0), Access::Store(1_616_971, 0)],
            (What::Sys, 11, 0),
        ),
        (
            [0x2_003f_f000, 4096, 0, 0],
            &[],
            &[Access::Store(1_617_983, 0)],
            (What::Sys, 11, 0),
        ),
    ]
}

fn after(arch: &Arch, left: u32, rest: &[u64]) -> Result<(Arch, Record, Leaving), Suspended>
    requires { arch.now.count < 2 ^ 32 - 1 }
{
    follow(arch, &mut Cursor { left, rest })
}

fn expect_record(
    rt: &impl Abort,
    asked: [u64; 4],
    told: Told,
    came: Result<(Arch, Record, Leaving), Suspended>,
) {
    let (next, noted, ends) = came.ok().expect(rt, "it goes on");
    let result = if told.0 == What::Claim {
        told.1
    } else {
        told.2
    };
    assert_eq!(rt; (noted.what, noted.a, noted.b), told, "{asked:?}");
    assert_eq!(rt;
        (next.regs[0], next.rip, ends),
        (result, 0x40_1002, Leaving::Back)
    );
}

/// Gives a call its answers; all accesses but the first are stores.
fn expect_row(rt: &impl Abort, number: u64, row: Row) {
    let (asked, answers, accesses, told) = row;
    let arch = thread(number, asked);
    let mut left = 0;
    for access in accesses {
        let rest = if left == 0 { &[] } else { answers };
        expect_stop(rt, &arch, left, rest, *access);
        left = left.checked_add(1).expect(rt, "too many accesses");
    }
    expect_record(rt, asked, told, after(&arch, left, answers));
}

fn expect_stop(rt: &impl Abort, arch: &Arch, left: u32, rest: &[u64], access: Access)
    requires { arch.now.count < 2 ^ 32 - 1 }
{
    let stop = after(arch, left, rest).err();
    let asked = (arch.regs[7], arch.regs[6]);
    assert_eq!(rt;
        stop,
        Some(Suspended::Access(access, Mark::Plain)),
        "{asked:?} after {left:?}"
    );
}

#[test]
fn rows_of_accesses(rt: HostRuntime) {
    for row in stacks() {
        expect_row(&rt, 453, row);
    }
    for row in mappings() {
        expect_row(&rt, 9, row);
    }
    for row in unmappings() {
        expect_row(&rt, 11, row);
    }
}

fn expect_refusals(rt: &impl Abort, number: u64, rows: &[([u64; 4], u64)]) {
    for (asked, wanted) in rows {
        let arch = thread(number, *asked);
        let told = error(number, *wanted);
        expect_record(rt, *asked, told, after(&arch, 0, &[]));
    }
}

/// Nothing is accessed where the arguments are refused.
#[test]
fn arguments_refused(rt: HostRuntime) {
    expect_refusals(&rt, 453, &REFUSED_STACKS);
    expect_refusals(&rt, 9, &REFUSED_MAPPINGS);
    expect_refusals(&rt, 11, &REFUSED_RANGES);
}

/// All 1,024 pages of an area: the first store, the last, and the end.
#[test]
fn whole_areas(rt: HostRuntime) {
    let mapped = thread(9, [0, 4_194_304, 3, 0x22]);
    let first = Access::Store(1_615_936, 0x8000_0000_0054_0067);
    let last = Access::Store(1_616_959, 0x8000_0000_0093_f067);
    expect_stop(&rt, &mapped, 1, &[0], first);
    expect_stop(&rt, &mapped, 1024, &[0], last);
    expect_record(
        &rt,
        [0, 4_194_304, 3, 0x22],
        (What::Sys, 9, 0x1_0000_0000),
        after(&mapped, 1025, &[0]),
    );
    let unmapped = thread(11, [0x1_0000_0000, 4_194_304, 0, 0]);
    expect_stop(&rt, &unmapped, 0, &[], Access::Store(1_615_936, 0));
    expect_stop(&rt, &unmapped, 1023, &[], Access::Store(1_616_959, 0));
    let stacks = [0x2_0000_0000, 4_193_305, 0, 0];
    let unmapped = thread(11, stacks);
    expect_stop(&rt, &unmapped, 0, &[], Access::Store(1_616_960, 0));
    expect_stop(&rt, &unmapped, 1023, &[], Access::Store(1_617_983, 0));
    expect_record(&rt, stacks, (What::Sys, 11, 0), after(&unmapped, 1024, &[]));
}

/// An image with code at 0x401000, all zeros.
fn image(alloc: Global) -> Result<Image, NoMemory> {
    let mut segments = Segments::new(alloc);
    segments.push(
        alloc,
        Segment {
            start: 0x40_1000,
            bytes: Bytes::new(alloc),
            size: 16,
            write: false,
            exec: true,
        },
    )?;
    Ok(Image {
        entry: 0x40_1000,
        marked: true,
        tracked: false,
        segments,
    })
}

/// A call that finds no place: its fetch-and-add, and then its result.
#[test]
fn next_of_a_full_area(rt: HostRuntime) -> Result<(), Fail> {
    let image = image(rt.alloc())?;
    let job = Job {
        image: &image,
        procs: 1,
        limit: 10,
        signals: &[],
    };
    let arch = thread(453, [0, 4096, 1, 0]);
    let mut vals = Vals::new();
    let draw = Access::FetchAdd(1_605_634, 2);
    assert_eq!(rt; next(&job, &arch, &vals), Next::Access(draw));
    vals.add(draw, 1022);
    match next(&job, &arch, &vals) {
        Next::Done(after, Some(noted)) => {
            assert_eq!(rt; (noted.what, noted.b), (What::Sys, u64::MAX - 11));
            assert_eq!(rt; after.regs[0], u64::MAX - 11);
        }
        other => assert!(rt; false, "{other:?}"),
    }
    Ok(())
}
