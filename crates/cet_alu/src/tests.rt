//! Accesses and faults by the pages of the instructions in the Intel SDM, volume 2, worked by hand. The comparison
//! with the processor (tools/cosim) has values and flags.

ghost use Rattle.std.specs.Prelude.{◌≡◌, ◌-◌, ◌^◌, ◌<◌, ◌≤◌, length};

use super::*;
use cet_isa::Size::Qword;
use cet_isa::{Arch, Base, Fault, FaultName, Instr, Mem, Operand, Reg};
use cet_page::{Cursor, Mark, Next, Suspended, Vals, set_register};
use cet_words::{Access, Bytes, Image, Job, NoMemory, Segment, Segments};
use std::alloc::Global;
use std::test::Fail;

const CF: u64 = 0x1;

const RAX: Operand = Operand::Reg(Reg::Rax);

const RCX: Operand = Operand::Reg(Reg::Rcx);

/// The memory at RCX.
const AT_RCX: Mem = Mem {
    base: Base::Reg(Reg::Rcx),
    index: None,
    scale: 1,
    disp: 0,
};

/// A thread with these values in RAX and RCX and these status flags.
fn thread(rax: u64, rcx: u64, flags: u64) -> Arch
    ensures { result.count ≡ 0 }
{
    let mut arch = Arch {
        regs: [0x5555_5555_5555_5555; 16],
        rip: 0x40_1000,
        flags: flags | 2,
        ssp: 0x2_0000_9000,
        mask: 0,
        count: 0,
        posted: 0,
        number: 0,
        made: 0x2_0000_1000,
        due: None,
        held: None,
    };
    set_register(&mut arch, Reg::Rax, rax);
    set_register(&mut arch, Reg::Rcx, rcx);
    arch
}

/// A fault with this code, address and entry.
fn fault(name: FaultName, code: u32, a: u64, b: u64) -> Suspended {
    Suspended::Fault(Fault { name, code, a, b })
}

/// The access that comes next.
fn stop_at(access: Access) -> Suspended {
    Suspended::Access(access, Mark::Plain)
}

/// The entry of the last page of the main stack, the same with U clear, and with W clear.
const ENTRY: u64 = 0x8000_0000_0053_f067;

const KERNEL: u64 = 0x8000_0000_0053_f063;

const READ_ONLY: u64 = 0x8000_0000_0053_f025;

/// An instruction, RCX, the answers that it has had, and where it stops. RAX is 5, and the word at 0x7ffff010
/// is 556,546.
type Row = (Instr, u64, &'static [u64], Suspended);

fn rows() -> [Row; 15] {
    let (mem, reg, size) = (AT_RCX, Reg::Rax, Qword);
    let (at, src) = (Operand::Mem(mem), RAX);
    let load = Instr::Mov {
        size,
        dst: RAX,
        src: at,
    };
    let store = Instr::Mov { size, dst: at, src };
    let test = Instr::Test { size, dst: at, src };
    let exchange = Instr::Xchg { dst: at, reg };
    let add = Instr::LockXadd { mem, reg };
    let locked = Instr::LockCmpxchg { mem, reg };
    let addr = 0x7fff_f010;
    let word = 556_546;
    let split = 0xffff_ffff_ffff_fffc;
    let passed: &[u64] = &[ENTRY];
    [
        (store, addr, &[], stop_at(Access::Look(1087))),
        (store, addr, passed, stop_at(Access::Store(word, 5))),
        (test, addr, passed, stop_at(Access::Load(word))),
        (exchange, addr, passed, stop_at(Access::Swap(word, 5))),
        (add, addr, passed, stop_at(Access::FetchAdd(word, 5))),
        (locked, addr, &[], stop_at(Access::Look(1087))),
        (
            locked,
            addr,
            passed,
            stop_at(Access::CompareExchange(word, 5, 5)),
        ),
        (load, 0x8000_0000_0001, &[], fault(FaultName::Gp, 0, 0, 0)),
        (locked, split, &[], fault(FaultName::Ac, 0, split, 0)),
        (load, 0, &[], fault(FaultName::Pf, 4, 0, 0)),
        (store, 0x3f_fff8, &[], fault(FaultName::Pf, 6, 0x3f_fff8, 0)),
        (locked, addr, &[0], fault(FaultName::Pf, 6, addr, 0)),
        (load, addr, &[KERNEL], fault(FaultName::Pf, 5, addr, KERNEL)),
        (
            store,
            addr,
            &[READ_ONLY],
            fault(FaultName::Pf, 7, addr, READ_ONLY),
        ),
        (Instr::Ud2, 0, &[], fault(FaultName::Ud, 0, 0, 0)),
    ]
}

#[test]
fn accesses_and_faults(rt: HostRuntime) {
    for (instr, rcx, rest, stop) in rows() {
        let left = if rest.is_empty() { 0 } else { 1 };
        let at = &mut Cursor { left, rest };
        let came = follow(&mut thread(5, rcx, 0), &instr, 0x40_1007, at);
        assert_eq!(rt; came, Err(stop), "{instr:?} {rcx:x}");
    }
}

/// The image of a text of at most 16 bytes at 0x401000.
fn image_of(alloc: Global, text: &[u8]) -> Result<Image, NoMemory>
    requires { length text.now ≤ 16 }
{
    let mut bytes = Bytes::new(alloc);
    bytes.extend(alloc, text)?;
    let segment = Segment {
        start: 0x40_1000,
        bytes,
        size: 16,
        write: false,
        exec: true,
    };
    let mut segments = Segments::new(alloc);
    segments.push(alloc, segment)?;
    Ok(Image {
        entry: 0x40_1000,
        marked: true,
        tracked: false,
        segments,
    })
}

/// `mov rax, [rcx]` of three bytes at RIP: its look and load, and then the address behind it.
#[test]
fn next_of_a_load(rt: HostRuntime) -> Result<(), Fail> {
    let image = image_of(rt.alloc(), &[0x48, 0x8b, 0x01])?;
    let job = Job {
        image: &image,
        procs: 1,
        limit: 10,
        signals: &[],
    };
    let load = Instr::Mov {
        size: Qword,
        dst: RAX,
        src: Operand::Mem(AT_RCX),
    };
    let arch = thread(1, 0x7fff_ffa8, CF);
    let mut vals = Vals::new();
    // The last page of the main stack, and the word at 0x7fffffa8.
    let look = Access::Look(1087);
    assert_eq!(rt; next(&job, &arch, &vals, &load), Next::Access(look));
    vals.add(look, 0x8000_0000_0053_f067);
    let word = Access::Load(557_045);
    assert_eq!(rt; next(&job, &arch, &vals, &load), Next::Access(word));
    vals.add(word, 0x1234);
    match next(&job, &arch, &vals, &load) {
        Next::Done(after, noted) => {
            assert_eq!(rt; (after.rip, after.flags), (0x40_1003, CF | 2));
            let mut loaded = arch;
            set_register(&mut loaded, Reg::Rax, 0x1234);
            assert_eq!(rt; after.regs, loaded.regs);
            let noted = noted.expect(&rt, "no record");
            assert_eq!(rt; (noted.a, noted.b), (0x1234, CF | 2));
        }
        other => assert!(rt; false, "{other:?}"),
    }
    Ok(())
}
