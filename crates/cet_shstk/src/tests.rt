//! Accesses, records and faults of the instructions on shadow stacks, written out.

ghost use Rattle.std.specs.Prelude.{◌<◌, ◌≤◌, ◌-◌, ◌^◌, length};

use super::*;
use cet_isa::{Arch, Base, Fault, FaultName, Instr, Mem, Record, Reg, What};
use cet_page::{Cursor, Mark, Next, Suspended, Vals};
use cet_words::{Access, Bytes, Image, Job, NoMemory, Segment, Segments};
use std::alloc::Global;
use std::process::Abort;
use std::test::Fail;

/// The entries of the last page of the first shadow stack, of one page two pages behind it, and of the
/// last page of the main stack.
const FIRST: u64 = 0x8000_0000_0094_8065;

const SECOND: u64 = 0x8000_0000_0094_a065;

const MAIN: u64 = 0x8000_0000_0053_f067;

/// The word at 0x200008ff0 is 1,085,950, and that at 0x20000aff8 is 1,086,975.
const OPEN: u64 = 0x2_0000_8ff0;

const OTHER: u64 = 0x2_0000_aff8;

/// A thread at 0x401000 with these RFLAGS, this SSP, and a value in RBX.
fn thread(flags: u64, ssp: u64, rbx: u64) -> Arch
    ensures { result.count < 2 ^ 32 - 1 }
{
    let mut regs = [0; 16];
    regs[3] = rbx;
    Arch {
        regs,
        rip: 0x40_1000,
        flags,
        ssp,
        mask: 0,
        count: 5,
        posted: 0,
        number: 0,
        made: 0x2_0000_1000,
        due: None,
        held: None,
    }
}

const AT_RBX: Mem = Mem {
    base: Base::Reg(Reg::Rbx),
    index: None,
    scale: 1,
    disp: 0,
};

const TAKE: Instr = Instr::Rstorssp { mem: AT_RBX };

const READ: Instr = Instr::Rdsspq { reg: Reg::Rcx };

const RAISE: Instr = Instr::Incsspq { reg: Reg::Rbx };

/// An instruction, RFLAGS, SSP and RBX before it, the answers that it is given, its accesses, and its record
/// with RFLAGS and SSP after it.
type Row = (
    Instr,
    [u64; 3],
    &'static [u64],
    &'static [Access],
    Result<(Record, u64, u64), Suspended>,
);

fn record(what: What, a: u64, b: u64) -> Record {
    Record {
        rip: 0x40_1000,
        what,
        code: 0,
        a,
        b,
    }
}

fn fault<T>(name: FaultName, code: u32, a: u64, b: u64) -> Result<T, Suspended> {
    Err(Suspended::Fault(Fault { name, code, a, b }))
}

/// The token for 0x20000aff8 is 0x20000b001, and what stands there afterwards 0x200008ff3.
fn restores() -> [Row; 6] {
    const TAKEN: [Access; 2] = [
        Access::Look(2122),
        Access::CompareExchange(1_086_975, 0x2_0000_b001, 0x2_0000_8ff3),
    ];
    [
        (
            TAKE,
            [0xc7, OPEN, OTHER],
            &[SECOND, 0x2_0000_b001],
            &TAKEN,
            Ok((record(What::Take, OTHER, OPEN), 2, OTHER)),
        ),
        (
            TAKE,
            [2, OPEN, OTHER],
            &[SECOND, 0x2_0000_9003],
            &TAKEN,
            fault(FaultName::Cp, 4, OTHER, 0x2_0000_9003),
        ),
        (
            TAKE,
            [2, OPEN, OTHER + 4],
            &[],
            &[],
            fault(FaultName::Gp, 0, 0, 0),
        ),
        (
            TAKE,
            [2, OPEN, 1 << 47],
            &[],
            &[],
            fault(FaultName::Gp, 0, 0, 0),
        ),
        (
            TAKE,
            [2, OPEN, 0x7fff_fff0],
            &[MAIN],
            &[Access::Look(1087)],
            fault(FaultName::Pf, 71, 0x7fff_fff0, MAIN),
        ),
        (
            TAKE,
            [2, OPEN, 0x9000_0000],
            &[],
            &[],
            fault(FaultName::Pf, 70, 0x9000_0000, 0),
        ),
    ]
}

/// The token of the stack that was left at 0x200008ff0 goes to 0x200008fe8, word 1,085,949. The word
/// 0x401006 looks like one that leads to 0x401000.
fn saves() -> [Row; 8] {
    const READ: [Access; 2] = [Access::Look(2122), Access::Load(1_086_975)];
    [
        (
            Instr::Saveprevssp,
            [2, OTHER, 0],
            &[SECOND, 0x2_0000_8ff3, FIRST],
            &[
                Access::Look(2122),
                Access::Load(1_086_975),
                Access::Look(2120),
                Access::Store(1_085_949, 0x2_0000_8ff1),
            ],
            Ok((
                record(What::Save, 0x2_0000_8fe8, 0x2_0000_b000),
                2,
                0x2_0000_b000,
            )),
        ),
        (
            Instr::Saveprevssp,
            [3, OTHER, 0],
            &[SECOND, 0x2_0000_8ff3],
            &READ,
            fault(FaultName::Gp, 0, 0, 0),
        ),
        (
            Instr::Saveprevssp,
            [2, OTHER, 0],
            &[SECOND, 0x40_1005],
            &READ,
            fault(FaultName::Gp, 0, 0, 0),
        ),
        // the word of a signal's frame
        (
            Instr::Saveprevssp,
            [2, OTHER, 0],
            &[SECOND, 0x8000_0002_0000_9000],
            &READ,
            fault(FaultName::Gp, 0, 0, 0),
        ),
        (
            Instr::Saveprevssp,
            [2, OTHER, 0],
            &[SECOND, 0x8000_0000_0013],
            &READ,
            fault(FaultName::Gp, 0, 0, 0),
        ),
        (
            Instr::Saveprevssp,
            [2, OTHER, 0],
            &[SECOND, 0x40_1006, 0],
            &[Access::Look(2122), Access::Load(1_086_975), Access::Look(0)],
            fault(FaultName::Pf, 70, 0x40_0ff8, 0),
        ),
        // the pointer's word is that which holds it, and the token goes below the other pointer rounded down
        (
            Instr::Saveprevssp,
            [2, OTHER + 4, 0],
            &[SECOND, 0x2_0000_8ff7, FIRST],
            &[
                Access::Look(2122),
                Access::Load(1_086_975),
                Access::Look(2120),
                Access::Store(1_085_949, 0x2_0000_8ff5),
            ],
            Ok((
                record(What::Save, 0x2_0000_8fe8, 0x2_0000_b004),
                2,
                0x2_0000_b004,
            )),
        ),
        (
            Instr::Saveprevssp,
            [3, 0x2_0000_9000, 0],
            &[0],
            &[Access::Look(2121)],
            fault(FaultName::Pf, 68, 0x2_0000_9000, 0),
        ),
    ]
}

/// Two elements lie above 0x200008ff0, and then a page that is absent. The count is the register's low byte.
fn raises() -> [Row; 10] {
    const BOTH: [Access; 2] = [Access::Look(2120), Access::Look(2120)];
    [
        (
            RAISE,
            [0x43, OPEN, 0x102],
            &[FIRST, FIRST],
            &BOTH,
            Ok((record(What::Raise, 0x2_0000_9000, 2), 0x43, 0x2_0000_9000)),
        ),
        (
            RAISE,
            [2, OPEN, 0x100],
            &[FIRST, FIRST],
            &BOTH,
            Ok((record(What::Raise, OPEN, 0), 2, OPEN)),
        ),
        (
            RAISE,
            [2, OPEN, 3],
            &[FIRST, 0],
            &[Access::Look(2120), Access::Look(2121)],
            fault(FaultName::Pf, 68, 0x2_0000_9000, 0),
        ),
        (
            RAISE,
            [2, 0x2_0000_9000, 0],
            &[0],
            &[Access::Look(2121)],
            fault(FaultName::Pf, 68, 0x2_0000_9000, 0),
        ),
        // 255 elements reach 8 * 254 bytes up; a pointer that is no multiple of 8; and one on no page
        (
            RAISE,
            [2, 0x2_0000_8808, 255],
            &[FIRST, FIRST],
            &BOTH,
            Ok((record(What::Raise, 0x2_0000_9000, 255), 2, 0x2_0000_9000)),
        ),
        (
            RAISE,
            [2, 0x2_0000_8ff4, 1],
            &[FIRST, FIRST],
            &BOTH,
            Ok((record(What::Raise, 0x2_0000_8ffc, 1), 2, 0x2_0000_8ffc)),
        ),
        (
            RAISE,
            [2, 0x9000_0000, 1],
            &[],
            &[],
            fault(FaultName::Pf, 68, 0x9000_0000, 0),
        ),
        (
            READ,
            [0x93, OPEN, 7],
            &[],
            &[],
            Ok((record(What::Step, OPEN, 0x93), 0x93, OPEN)),
        ),
        (
            Instr::Wrssq {
                mem: AT_RBX,
                reg: Reg::Rax,
            },
            [2, OPEN, OPEN],
            &[],
            &[],
            fault(FaultName::Ud, 0, 0, 0),
        ),
        (
            Instr::Wrussq {
                mem: AT_RBX,
                reg: Reg::Rax,
            },
            [2, OPEN, OPEN],
            &[],
            &[],
            fault(FaultName::Gp, 0, 0, 0),
        ),
    ]
}

/// An instruction of 4 bytes with these answers, after so many accesses of which so many were kept.
fn after(arch: &Arch, instr: &Instr, left: u32, rest: &[u64]) -> Result<(Arch, Record), Suspended>
    requires { arch.now.count < 2 ^ 32 - 1 }
{
    let mut after = *arch;
    let noted = follow(&mut after, instr, 0x40_1004, &mut Cursor { left, rest })?;
    Ok((after, noted))
}

/// Gives an instruction its answers one after another.
fn expect_row(rt: &impl Abort, row: Row) {
    let (instr, before, answers, accesses, end) = row;
    let arch = thread(before[0], before[1], before[2]);
    let mut left = 0;
    let mut kept = 0;
    for access in accesses {
        let rest = answers.get(..kept).expect(rt, "too few answers");
        let stop = after(&arch, &instr, left, rest).err();
        assert_eq!(rt;
            stop,
            Some(Suspended::Access(*access, Mark::Plain)),
            "{instr:?}"
        );
        left = left.checked_add(1).expect(rt, "too many accesses");
        if !matches!(access, Access::Store(_, _)) {
            kept = kept.checked_add(1).expect(rt, "too many answers");
        }
    }
    let came = after(&arch, &instr, left, answers);
    let told = came.map(|(after, noted)| (noted, after.flags, after.ssp));
    if let Ok((after, _)) = came {
        let copied = if instr == READ { OPEN } else { 0 };
        assert_eq!(rt;
            (after.rip, after.regs[1], after.count),
            (0x40_1004, copied, 6),
            "{instr:?}"
        );
    }
    assert_eq!(rt; told, end, "{instr:?}");
}

#[test]
fn rows_of_accesses(rt: HostRuntime) {
    for row in restores() {
        expect_row(&rt, row);
    }
    for row in saves() {
        expect_row(&rt, row);
    }
    for row in raises() {
        expect_row(&rt, row);
    }
}

/// The image of a text of at most 16 bytes at 0x401000.
fn image_of(alloc: Global, text: &[u8]) -> Result<Image, NoMemory>
    requires { length text.now ≤ 16 }
{
    let mut bytes = Bytes::new(alloc);
    bytes.extend(alloc, text)?;
    let segment = Segment {
        start: 0x40_1000,
        bytes,
        size: 16,
        write: false,
        exec: true,
    };
    let mut segments = Segments::new(alloc);
    segments.push(alloc, segment)?;
    Ok(Image {
        entry: 0x40_1000,
        marked: true,
        tracked: false,
        segments,
    })
}

/// `rstorssp [rbx]` of four bytes at RIP, and the address behind it.
#[test]
fn next_of_a_restore(rt: HostRuntime) -> Result<(), Fail> {
    let image = image_of(rt.alloc(), &[0xf3, 0x0f, 0x01, 0x2b])?;
    let job = Job {
        image: &image,
        procs: 1,
        limit: 10,
        signals: &[],
    };
    let arch = thread(2, OPEN, OTHER);
    let mut vals = Vals::new();
    let look = Access::Look(2122);
    assert_eq!(rt; next(&job, &arch, &vals, &TAKE), Next::Access(look));
    vals.add(look, SECOND);
    let exchange = Access::CompareExchange(1_086_975, 0x2_0000_b001, 0x2_0000_8ff3);
    assert_eq!(rt; next(&job, &arch, &vals, &TAKE), Next::Access(exchange));
    vals.add(exchange, 0x2_0000_b001);
    match next(&job, &arch, &vals, &TAKE) {
        Next::Done(after, noted) => {
            assert_eq!(rt; (after.rip, after.ssp), (0x40_1004, OTHER));
            assert_eq!(rt; noted, Some(record(What::Take, OTHER, OPEN)));
        }
        other => assert!(rt; false, "{other:?}"),
    }
    Ok(())
}
