//! Accesses, records and faults of calls, returns, pushes, pops and jumps, written out. The comparison with the
//! processor (tools/cosim) has the conditions of jumps.

ghost use Rattle.std.specs.Prelude.{◌<◌, ◌-◌, ◌^◌, ◌≤◌, length};

use super::*;
use cet_isa::{Arch, Base, Fault, FaultName, Instr, Mem, Operand, Record, Reg, What};
use cet_page::{Cursor, Mark, Next, Suspended, Vals};
use cet_words::{Access, Bytes, Image, Job, NoMemory, Segment, Segments};
use std::alloc::Global;
use std::process::Abort;
use std::test::Fail;

/// The entries of the last page of the main stack and of the last page of the first shadow stack.
const STACK_ENTRY: u64 = 0x8000_0000_0053_f067;

const SHADOW_ENTRY: u64 = 0x8000_0000_0094_8065;

/// A thread at 0x401000 with RSP 0x7fffffb0, SSP 0x200008ff8 and RBP 0x7fffff00.
fn thread() -> Arch
    ensures { result.count < 2 ^ 32 - 1 }
{
    Arch {
        regs: [
            0x11,
            0x22,
            0x33,
            0x40_1000,
            0x7fff_ffb0,
            0x7fff_ff00,
            0x66,
            0x77,
            0x8000_0000_0000,
            0x99,
            0xaa,
            0xbb,
            0xcc,
            0xdd,
            0xee,
            0xff,
        ],
        rip: 0x40_1000,
        flags: 2,
        ssp: 0x2_0000_8ff8,
        mask: 0,
        count: 5,
        posted: 0,
        number: 0,
        made: 0x2_0000_1000,
        due: None,
        held: None,
    }
}

/// An instruction of 3 bytes with these answers, after so many accesses: the state and the record that it leaves.
fn after(arch: &Arch, instr: &Instr, left: u32, rest: &[u64]) -> Result<(Arch, Record), Suspended>
    requires { arch.now.count < 2 ^ 32 - 1 }
{
    let mut after = *arch;
    let noted = follow(&mut after, instr, 0x40_1003, &mut Cursor { left, rest })?;
    Ok((after, noted))
}

/// The accesses of an instruction of 3 bytes that is given these answers, one after another, and what it
/// comes to.
fn accesses(
    rt: &impl Abort,
    arch: &Arch,
    instr: &Instr,
    answers: &[u64],
    wanted: &[Access],
) -> Result<(Arch, Record), Suspended>
    requires { arch.now.count < 2 ^ 32 - 1 }
{
    let mut left = 0;
    let mut kept = 0;
    for access in wanted {
        let rest = answers.get(..kept).expect(rt, "too few answers");
        let stop = after(arch, instr, left, rest);
        assert_eq!(rt;
            stop.err(),
            Some(Suspended::Access(*access, Mark::Plain)),
            "{instr:?}"
        );
        left = left.checked_add(1).expect(rt, "too many accesses");
        if !matches!(access, Access::Store(_, _)) {
            kept = kept.checked_add(1).expect(rt, "too many answers");
        }
    }
    after(arch, instr, left, answers)
}

/// A record with no error code.
fn record(what: What, a: u64, b: u64) -> Record {
    Record {
        rip: 0x40_1000,
        what,
        code: 0,
        a,
        b,
    }
}

fn step(value: u64) -> Record {
    record(What::Step, value, 2)
}

/// A fault with this code and these two values.
fn fault<T>(name: FaultName, code: u32, a: u64, b: u64) -> Result<T, Suspended> {
    Err(Suspended::Fault(Fault { name, code, a, b }))
}

/// An instruction, the answers that it is given, its accesses, and its record with RIP and RSP after it.
type Row = (
    Instr,
    &'static [u64],
    &'static [Access],
    Result<(Record, u64, u64), Suspended>,
);

/// The word at 0x7fffffa8 is 557,045, and that at 0x200008ff8 is 1,085,951.
fn rows() -> [Row; 9] {
    let at_rbx = Mem {
        base: Base::Reg(Reg::Rbx),
        index: None,
        scale: 1,
        disp: 8,
    };
    let call = |reg| Instr::CallInd {
        target: Operand::Reg(reg),
        notrack: false,
    };
    let ret = Instr::RetImm { bytes: 24 };
    [
        // RSP as it was before the push.
        (
            Instr::Push {
                src: Operand::Reg(Reg::Rsp),
            },
            &[STACK_ENTRY],
            &[Access::Look(1087), Access::Store(557_045, 0x7fff_ffb0)],
            Ok((step(0x7fff_ffb0), 0x40_1003, 0x7fff_ffa8)),
        ),
        // The word at 0x401008 is loaded before the stack is looked at.
        (
            Instr::Push {
                src: Operand::Mem(at_rbx),
            },
            &[0x0010_1025, 0x1234, STACK_ENTRY],
            &[
                Access::Look(1),
                Access::Load(513),
                Access::Look(1087),
                Access::Store(557_045, 0x1234),
            ],
            Ok((step(0x1234), 0x40_1003, 0x7fff_ffa8)),
        ),
        (
            Instr::Pop { dst: Reg::Rsp },
            &[STACK_ENTRY, 0x5678],
            &[Access::Look(1087), Access::Load(557_046)],
            Ok((step(0x5678), 0x40_1003, 0x5678)),
        ),
        // The word at 0x7fffff00, where RBP points.
        (
            Instr::Leave,
            &[STACK_ENTRY, 0x5678],
            &[Access::Look(1087), Access::Load(557_024)],
            Ok((step(0x5678), 0x40_1003, 0x7fff_ff08)),
        ),
        (
            call(Reg::Rbx),
            &[STACK_ENTRY, SHADOW_ENTRY],
            &[
                Access::Look(1087),
                Access::Look(2120),
                Access::Store(557_045, 0x40_1003),
                Access::Store(1_085_950, 0x40_1003),
            ],
            Ok((
                record(What::Call, 0x40_1000, 0x2_0000_8ff0),
                0x40_1000,
                0x7fff_ffa8,
            )),
        ),
        // A target that isn't canonical faults before any access.
        (call(Reg::R8), &[], &[], fault(FaultName::Gp, 0, 0, 0)),
        (
            ret,
            &[STACK_ENTRY, SHADOW_ENTRY, 0x40_1020, 0x40_1020],
            &RETURN,
            Ok((
                record(What::Ret, 0x40_1020, 0x2_0000_9000),
                0x40_1020,
                0x7fff_ffd0,
            )),
        ),
        (
            ret,
            &[STACK_ENTRY, SHADOW_ENTRY, 0x40_1020, 0x40_1021],
            &RETURN,
            fault(FaultName::Cp, 1, 0x40_1020, 0x40_1021),
        ),
        (
            Instr::JmpRel { disp: -3 },
            &[],
            &[],
            Ok((step(0x40_1000), 0x40_1000, 0x7fff_ffb0)),
        ),
    ]
}

const RETURN: [Access; 4] = [
    Access::Look(1087),
    Access::Look(2120),
    Access::Load(557_046),
    Access::Load(1_085_951),
];

#[test]
fn accesses_and_records(rt: HostRuntime) {
    for (instr, answers, wanted, want) in rows() {
        let came = accesses(&rt, &thread(), &instr, answers, wanted);
        let came = came.map(|(arch, noted)| (noted, arch.rip, arch.regs[4]));
        assert_eq!(rt; came, want, "{instr:?}");
    }
}

/// The image of a text of at most 16 bytes at 0x401000.
fn image_of(alloc: Global, text: &[u8]) -> Result<Image, NoMemory>
    requires { length text.now ≤ 16 }
{
    let mut bytes = Bytes::new(alloc);
    bytes.extend(alloc, text)?;
    let segment = Segment {
        start: 0x40_1000,
        bytes,
        size: 16,
        write: false,
        exec: true,
    };
    let mut segments = Segments::new(alloc);
    segments.push(alloc, segment)?;
    Ok(Image {
        entry: 0x40_1000,
        marked: true,
        tracked: false,
        segments,
    })
}

/// `push rcx` of one byte at RIP: its looks and store, and then the address behind it.
#[test]
fn next_of_a_push(rt: HostRuntime) -> Result<(), Fail> {
    let image = image_of(rt.alloc(), &[0x51])?;
    let job = Job {
        image: &image,
        procs: 1,
        limit: 10,
        signals: &[],
    };
    let push = Instr::Push {
        src: Operand::Reg(Reg::Rcx),
    };
    let arch = thread();
    let mut vals = Vals::new();
    let look = Access::Look(1087);
    assert_eq!(rt; next(&job, &arch, &vals, &push), Next::Access(look));
    vals.add(look, STACK_ENTRY);
    let store = Access::Store(557_045, 0x22);
    assert_eq!(rt; next(&job, &arch, &vals, &push), Next::Access(store));
    vals.add(store, 0);
    match next(&job, &arch, &vals, &push) {
        Next::Done(after, noted) => {
            assert_eq!(rt; (after.rip, after.regs[4]), (0x40_1001, 0x7fff_ffa8));
            assert_eq!(rt; noted, Some(step(0x22)));
        }
        other => assert!(rt; false, "{other:?}"),
    }
    Ok(())
}
