//! Instructions by their bytes, as GNU as assembles them or as the manual has them.

use super::maps::{PREFIXED, PREFIXED_TWO_BYTE};
use super::{Decoded, decode};
use cet_isa::{Base, Instr, Mem, Operand, Reg, Size};

fn ok(instr: Instr, len: u8) -> Decoded {
    Decoded::Ok { instr, len }
}

fn mem(base: Base, index: Option<Reg>, scale: u8, disp: i32) -> Mem {
    Mem {
        base,
        index,
        scale,
        disp,
    }
}

fn load(dst: Reg, src: Mem) -> Instr {
    Instr::Mov {
        size: Size::Qword,
        dst: Operand::Reg(dst),
        src: Operand::Mem(src),
    }
}

#[test]
fn no_instruction(rt: HostRuntime) {
    let short: [&[u8]; 9] = [
        &[],
        &[0x48],
        &[0xf3, 0x0f, 0x01],
        &[0x66, 0x66, 0x2e],
        &[0xf0, 0x48],
        &[0xf3, 0x0f, 0x1e],
        &[0x48, 0x0f, 0x38],
        &[0x66, 0x48, 0x0f, 0x38, 0xf5],
        &[0x66, 0x66],
    ];
    for bytes in short {
        assert_eq!(rt; decode(bytes), Decoded::Short, "at {bytes:?}");
    }
    // A register for RSTORSSP and no REX for INCSSPQ; REX before a prefix, RET, NOP and a jump; a prefix before
    // 0f, before an opcode without it, and before another prefix.
    let unknown: [&[u8]; 13] = [
        &[0xf3, 0x0f, 0x01, 0xeb],
        &[0xf3, 0x0f, 0xae, 0xe8],
        &[0x00],
        &[0x48, 0x66, 0x90],
        &[0x48, 0xc3],
        &[0x40, 0x90],
        &[0x48, 0xe8, 0, 0, 0, 0],
        &[0xf3, 0xc3],
        &[0x2e, 0x66, 0x90],
        &[0x3e, 0x0f],
        &[0xf3, 0x01, 0x2b],
        &[0xf0, 0x66, 0x90],
        &[0xf3, 0x66, 0x90],
    ];
    for bytes in unknown {
        assert_eq!(rt; decode(bytes), Decoded::Unknown, "at {bytes:?}");
    }
}

#[test]
fn shadow_stack(rt: HostRuntime) {
    let rbx = mem(Base::Reg(Reg::Rbx), None, 1, 0);
    let rows: [(&[u8], Decoded); 7] = [
        (
            &[0xf3, 0x0f, 0x01, 0x2b],
            ok(Instr::Rstorssp { mem: rbx }, 4),
        ),
        (&[0xf3, 0x0f, 0x01, 0xea], ok(Instr::Saveprevssp, 4)),
        (
            &[0xf3, 0x48, 0x0f, 0xae, 0xe8],
            ok(Instr::Incsspq { reg: Reg::Rax }, 5),
        ),
        // REX.R is ignored where the reg field is part of the opcode.
        (
            &[0xf3, 0x4d, 0x0f, 0xae, 0xe8],
            ok(Instr::Incsspq { reg: Reg::R8 }, 5),
        ),
        (
            &[0xf3, 0x48, 0x0f, 0x1e, 0xc8],
            ok(Instr::Rdsspq { reg: Reg::Rax }, 5),
        ),
        (&[0x66, 0x90], ok(Instr::Nop, 2)),
        (&[0x0f, 0x0b], ok(Instr::Ud2, 2)),
    ];
    for (bytes, want) in rows {
        assert_eq!(rt; decode(bytes), want, "at {bytes:?}");
    }
}

#[test]
fn addressing(rt: HostRuntime) {
    let r13 = Base::Reg(Reg::R13);
    let rows: [(&[u8], Decoded); 6] = [
        // REX.B is ignored at RIP, and where SIB has no base.
        (
            &[0x49, 0x8b, 0x05, 5, 0, 0, 0],
            ok(load(Reg::Rax, mem(Base::Rip, None, 1, 5)), 7),
        ),
        (
            &[0x49, 0x8b, 0x04, 0x25, 8, 0, 0, 0],
            ok(load(Reg::Rax, mem(Base::None, None, 1, 8)), 8),
        ),
        // Base 5 at mod 1 is rbp or r13; index 4 with REX.X is r12.
        (
            &[0x49, 0x8b, 0x45, 0xf8],
            ok(load(Reg::Rax, mem(r13, None, 1, -8)), 4),
        ),
        (
            &[0x4b, 0x8b, 0x44, 0x65, 0],
            ok(load(Reg::Rax, mem(r13, Some(Reg::R12), 2, 0)), 5),
        ),
        (
            &[0x48, 0x8b, 0x04, 0xe4],
            ok(load(Reg::Rax, mem(Base::Reg(Reg::Rsp), None, 1, 0)), 4),
        ),
        (
            &[0x4c, 0x8b, 0x3c, 0xcb],
            ok(
                load(Reg::R15, mem(Base::Reg(Reg::Rbx), Some(Reg::Rcx), 8, 0)),
                4,
            ),
        ),
    ];
    for (bytes, want) in rows {
        assert_eq!(rt; decode(bytes), want, "at {bytes:?}");
    }
}

#[test]
fn opcodes_have_one_list_each(rt: HostRuntime) {
    assert!(rt; PREFIXED.disjoint());
    assert!(rt; PREFIXED_TWO_BYTE.disjoint());
}

#[test]
fn behind_prefixes(rt: HostRuntime) {
    let rbx = mem(Base::Reg(Reg::Rbx), None, 1, 0);
    let rows: [(&[u8], Decoded); 10] = [
        (
            &[0x3e, 0x41, 0xff, 0xe3],
            ok(
                Instr::JmpInd {
                    target: Operand::Reg(Reg::R11),
                    notrack: true,
                },
                4,
            ),
        ),
        (
            &[0xf0, 0x48, 0x0f, 0xc1, 0x03],
            ok(
                Instr::LockXadd {
                    mem: rbx,
                    reg: Reg::Rax,
                },
                5,
            ),
        ),
        (
            &[0xf0, 0x48, 0x0f, 0xb1, 0x0b],
            ok(
                Instr::LockCmpxchg {
                    mem: rbx,
                    reg: Reg::Rcx,
                },
                5,
            ),
        ),
        (
            &[0x48, 0x0f, 0x38, 0xf6, 0x03],
            ok(
                Instr::Wrssq {
                    mem: rbx,
                    reg: Reg::Rax,
                },
                5,
            ),
        ),
        (
            &[0x66, 0x48, 0x0f, 0x38, 0xf5, 0x03],
            ok(
                Instr::Wrussq {
                    mem: rbx,
                    reg: Reg::Rax,
                },
                6,
            ),
        ),
        (&[0xf3, 0x90], ok(Instr::Pause, 2)),
        (&[0xf3, 0x0f, 0x1e, 0xfa], ok(Instr::Endbr64, 4)),
        (&[0x66, 0x0f, 0x1f, 0x03], ok(Instr::Nop, 4)),
        (&[0x66, 0x2e, 0x0f, 0x1f, 0x03], ok(Instr::Nop, 5)),
        (&[0x66, 0x66, 0x2e, 0x0f, 0x1f, 0x03], ok(Instr::Nop, 6)),
    ];
    for (bytes, want) in rows {
        assert_eq!(rt; decode(bytes), want, "at {bytes:?}");
    }
}

fn is_sent<T: Send>() {}

#[test]
fn goes_to_other_threads() {
    is_sent::<Decoded>();
}
