//! The tests of each service in their order, and its accesses and results, written out.

ghost use Rattle.std.specs.Prelude.{◌<◌, ◌-◌, ◌^◌};

use super::*;
use std::test::Fail;

/// The word NEXT_THREAD.
const NEXT_THREAD: u32 = 1_605_633;

/// A thread that asks for a service with four arguments.
fn asking(number: u64, asked: [u64; 4]) -> Arch
    ensures { result.count < 2 ^ 32 - 1 }
{
    let mut arch = thread(0x7fff_f0d8, 0x2_0000_8008, None);
    arch.regs[0] = number;
    arch.regs[7] = asked[0];
    arch.regs[6] = asked[1];
    arch.regs[2] = asked[2];
    arch.regs[10] = asked[3];
    arch
}

/// A service's arguments, its accesses, and its result.
type Row = ([u64; 4], &'static [Made], u64);

const fn error(number: u64) -> u64
    requires { 0 < number }
{
    u64::MAX - number + 1
}

fn expect_row(rt: &impl Abort, job: &Job, number: u64, row: Row) -> Arch {
    let (asked, accesses, result) = row;
    let arch = asking(number, asked);
    let told = (What::Sys, number, result);
    let after = expect_work(rt, job, &arch, Work::Service, accesses, told);
    assert_eq!(rt;
        (after.regs[0], after.rip),
        (result, 0x40_1002),
        "{asked:?}"
    );
    after
}

/// rt_sigaction of a signal, a new action, an old one and a size, up to the loads: each test before the next.
fn action_arguments() -> [Row; 17] {
    const NEW: [Made; 2] = [(Access::Look(2), DATA), (Access::Look(2), DATA)];
    [
        ([5, 0x40_2000, 0, 16], &[], error(22)),
        ([0, 0x40_2000, 0, 8], &[], error(22)),
        ([32, 0x40_2000, 0, 8], &[], error(22)),
        ([9, 0x40_2000, 0, 8], &[], error(22)),
        ([19, 0x40_2001, 0, 8], &[], error(22)),
        ([9, 0, 0, 8], &[], 0),
        ([5, 0x40_2004, 0, 8], &[], error(14)),
        ([5, 0x80_0000, 0, 8], &[], error(14)),
        ([5, u64::MAX - 7, 0, 8], &[], error(14)),
        ([5, 0x40_2000, 0, 8], &[(Access::Look(2), 0)], error(14)),
        (
            [5, 0x40_2ff0, 0, 8],
            &[(Access::Look(2), DATA), (Access::Look(3), 0)],
            error(14),
        ),
        (
            [5, 0x7f_fff0, 0, 8],
            &[(Access::Look(1023), DATA)],
            error(14),
        ),
        ([5, 0x40_2000, 0x40_2001, 8], &NEW, error(14)),
        ([5, 0x40_2000, 0x80_0000, 8], &NEW, error(14)),
        (
            [5, 0x40_2000, 0x40_1000, 8],
            &[
                (Access::Look(2), DATA),
                (Access::Look(2), DATA),
                (Access::Look(1), CODE),
            ],
            error(14),
        ),
        (
            [5, 0x40_2000, 0x40_2ff0, 8],
            &[
                (Access::Look(2), DATA),
                (Access::Look(2), DATA),
                (Access::Look(2), DATA),
                (Access::Look(3), CODE),
            ],
            error(14),
        ),
        ([5, 0, 0x40_2004, 8], &[], error(14)),
    ]
}

/// rt_sigaction from the loads on: flags and restorers that are refused, and each store.
fn action_changes() -> [Row; 9] {
    [
        (
            [5, 0x40_2000, 0, 8],
            &[
                (Access::Look(2), DATA),
                (Access::Look(2), DATA),
                (Access::Load(1024), 2),
                (Access::Load(1025), 0x5000_0004),
                (Access::Load(1026), 0x40_1008),
                (Access::Load(1027), 0),
            ],
            error(22),
        ),
        (
            [5, 0x40_2000, 0, 8],
            &[
                (Access::Look(2), DATA),
                (Access::Look(2), DATA),
                (Access::Load(1024), 2),
                (Access::Load(1025), 0x0400_0001),
                (Access::Load(1026), 0x40_1008),
                (Access::Load(1027), 0),
            ],
            error(22),
        ),
        (
            [5, 0x40_2000, 0x40_2020, 8],
            &[
                (Access::Look(2), DATA),
                (Access::Look(2), DATA),
                (Access::Look(2), DATA),
                (Access::Look(2), DATA),
                (Access::Load(1024), 2),
                (Access::Load(1025), 0x0400_0000),
                (Access::Load(1026), 0x40_2000),
                (Access::Load(1027), 0),
            ],
            error(22),
        ),
        (
            [5, 0x40_2000, 0, 8],
            &[
                (Access::Look(2), DATA),
                (Access::Look(2), DATA),
                (Access::Load(1024), 2),
                (Access::Load(1025), 0x0400_0000),
                (Access::Load(1026), 0),
                (Access::Load(1027), 0),
            ],
            error(22),
        ),
        (
            [31, 0x40_2000, 0x40_2ff0, 8],
            &[
                (Access::Look(2), DATA),
                (Access::Look(2), DATA),
                (Access::Look(2), DATA),
                (Access::Look(3), MORE_DATA),
                (Access::Load(1024), 0x40_1004),
                (Access::Load(1025), 0x5400_0004),
                (Access::Load(1026), 0x40_1fff),
                (Access::Load(1027), 0x77),
                (Access::Load(1_605_820), 1),
                (Access::Load(1_605_821), 2),
                (Access::Load(1_605_822), 3),
                (Access::Load(1_605_823), 4),
                (Access::Store(1534, 1), 0),
                (Access::Store(1535, 2), 0),
                (Access::Store(1536, 3), 0),
                (Access::Store(1537, 4), 0),
                (Access::Store(1_605_822, 0x40_1fff), 0),
                (Access::Store(1_605_821, 0x5400_0004), 0),
                (Access::Store(1_605_823, 0x77), 0),
                (Access::Store(1_605_820, 0x40_1004), 0),
            ],
            0,
        ),
        (
            [1, 0x40_2000, 0, 8],
            &[
                (Access::Look(2), DATA),
                (Access::Look(2), DATA),
                (Access::Load(1024), 2),
                (Access::Load(1025), 0x0400_0000),
                (Access::Load(1026), 0x40_1000),
                (Access::Load(1027), u64::MAX),
                (Access::Store(1_605_702, 0x40_1000), 0),
                (Access::Store(1_605_701, 0x0400_0000), 0),
                (Access::Store(1_605_703, u64::MAX), 0),
                (Access::Store(1_605_700, 2), 0),
            ],
            0,
        ),
        (
            [5, 0x40_2000, 0, 8],
            &[
                (Access::Look(2), DATA),
                (Access::Look(2), DATA),
                (Access::Load(1024), 1),
                (Access::Load(1025), 9),
                (Access::Load(1026), 0),
                (Access::Load(1027), 8),
                (Access::Store(1_605_716, 1), 0),
            ],
            0,
        ),
        (
            [5, 0x40_2000, 0, 8],
            &[
                (Access::Look(2), DATA),
                (Access::Look(2), DATA),
                (Access::Load(1024), 0),
                (Access::Load(1025), 9),
                (Access::Load(1026), 0),
                (Access::Load(1027), 8),
                (Access::Store(1_605_716, 0), 0),
            ],
            0,
        ),
        (
            [19, 0, 0x40_2000, 8],
            &[
                (Access::Look(2), DATA),
                (Access::Look(2), DATA),
                (Access::Load(1_605_772), 1),
                (Access::Load(1_605_773), 2),
                (Access::Load(1_605_774), 3),
                (Access::Load(1_605_775), 4),
                (Access::Store(1024, 1), 0),
                (Access::Store(1025, 2), 0),
                (Access::Store(1026, 3), 0),
                (Access::Store(1027, 4), 0),
            ],
            0,
        ),
    ]
}

/// rt_sigprocmask of how, a set, an old mask and a size, and the mask afterwards; it is 4 before.
fn masks() -> [(Row, u64); 13] {
    [
        (([0, 0x40_2000, 0, 4], &[], error(22)), 4),
        (([3, 0x40_2000, 0, 8], &[], error(22)), 4),
        (([3, 0x40_2001, 0, 8], &[], error(22)), 4),
        (([3, 0, 0, 8], &[], 0), 4),
        (([0, 0x40_2004, 0, 8], &[], error(14)), 4),
        (
            ([0, 0x40_2000, 0, 8], &[(Access::Look(2), 0)], error(14)),
            4,
        ),
        (
            (
                [0, 0x40_2000, 0x40_2001, 8],
                &[(Access::Look(2), DATA)],
                error(14),
            ),
            4,
        ),
        (
            (
                [0, 0x40_2000, 0x40_1000, 8],
                &[(Access::Look(2), DATA), (Access::Look(1), CODE)],
                error(14),
            ),
            4,
        ),
        (
            (
                [0, 0x40_2000, 0, 8],
                &[(Access::Look(2), DATA), (Access::Load(1024), 3)],
                0,
            ),
            7,
        ),
        (
            (
                [1, 0x40_2000, 0, 8],
                &[(Access::Look(2), DATA), (Access::Load(1024), 6)],
                0,
            ),
            0,
        ),
        (
            (
                [2, 0x40_2000, 0x40_2ff8, 8],
                &[
                    (Access::Look(2), DATA),
                    (Access::Look(2), DATA),
                    (Access::Load(1024), u64::MAX),
                    (Access::Store(1535, 4), 0),
                ],
                0,
            ),
            0xffff_ffff_fffb_feff,
        ),
        (
            (
                [0, 0x40_2000, 0, 8],
                &[(Access::Look(2), DATA), (Access::Load(1024), 0x4_0100)],
                0,
            ),
            4,
        ),
        (
            (
                [1, 0, 0x40_2000, 8],
                &[(Access::Look(2), DATA), (Access::Store(1024, 4), 0)],
                0,
            ),
            4,
        ),
    ]
}

/// tgkill of a group, a thread and a signal, among threads of a number that is loaded.
fn posts() -> [Row; 11] {
    [
        ([1, 1000, 32, 0], &[], error(22)),
        ([1000, 1000, u64::MAX, 0], &[], error(22)),
        ([1001, 1000, 31, 0], &[], error(3)),
        (
            [1000, 999, 1, 0],
            &[(Access::Load(NEXT_THREAD), 2)],
            error(3),
        ),
        (
            [1000, 1002, 1, 0],
            &[(Access::Load(NEXT_THREAD), 2)],
            error(3),
        ),
        (
            [1000, 1000, 0, 0],
            &[(Access::Load(NEXT_THREAD), 0)],
            error(3),
        ),
        (
            [1000, 1032, 1, 0],
            &[(Access::Load(NEXT_THREAD), 40)],
            error(3),
        ),
        ([1000, 1001, 0, 0], &[(Access::Load(NEXT_THREAD), 2)], 0),
        (
            [1000, 1001, 1, 0],
            &[
                (Access::Load(NEXT_THREAD), 2),
                (Access::FetchOr(1_605_665, 1), 7),
            ],
            0,
        ),
        (
            [1000, 1031, 31, 0],
            &[
                (Access::Load(NEXT_THREAD), u64::MAX),
                (Access::FetchOr(1_605_695, 0x4000_0000), 0),
            ],
            0,
        ),
        (
            [1000, 1000, 9, 0],
            &[
                (Access::Load(NEXT_THREAD), 1),
                (Access::FetchOr(1_605_664, 0x100), 0),
            ],
            0,
        ),
    ]
}

#[test]
fn services(rt: HostRuntime) -> Result<(), Fail> {
    let image = image(rt.alloc())?;
    let job = Job {
        image: &image,
        procs: 1,
        limit: 10,
        signals: &[],
    };
    for row in action_arguments() {
        expect_row(&rt, &job, 13, row);
    }
    for row in action_changes() {
        let after = expect_row(&rt, &job, 13, row);
        assert_eq!(rt; (after.mask, after.ssp), (4, 0x2_0000_8008));
    }
    for (row, mask) in masks() {
        let after = expect_row(&rt, &job, 14, row);
        assert_eq!(rt; after.mask, mask);
    }
    for row in posts() {
        expect_row(&rt, &job, 234, row);
    }
    expect_row(&rt, &job, 24, ([0, 0, 0, 0], &[], error(38)));
    Ok(())
}
