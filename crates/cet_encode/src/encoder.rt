//! From an instruction to its canonical bytes.

ghost use Rattle.std.specs.Prelude.{◌≡◌, ◌<◌, [], ℕ, List, length, ◌++◌, OnOk, OnErr};
ghost use Rattle.cet_isa.specs.Canonical.{canonical_spelling};
ghost use Rattle.cet_isa.specs.Reading.{decoded, Read};
ghost use Rattle.cet_isa.specs.Spelled.{InstrFits};
ghost use Rattle.cet_isa.specs.Spells.{Spells};
ghost use Rattle.cet_encode.specs.Bytes.{rm_bytes};
ghost use Rattle.cet_encode.specs.Groups.{IsFixed, IsMoving, IsShadow};

use crate::bytes::{Opcode, opcode, put_reg, put_rm, put_row};
use crate::spelling::{
    put_alu, put_indirect, put_mov, put_push, put_relative, put_return, put_shift, put_test,
    put_wide_move,
};
use cet_isa::{Instr, Operand, Reg, Size};
use cet_words::{Bytes, NoMemory};
use std::alloc::Global;

/// The bytes of an instruction without operands.
fn fixed_bytes(instr: Instr) -> &'static [u8]
    requires { IsFixed instr }
    ensures bytes { result.now ≡ canonical_spelling instr }
    ensures fits { InstrFits instr }
{
    match instr {
        Instr::Leave => &[0xc9],
        Instr::Ret => &[0xc3],
        Instr::Nop => &[0x90],
        Instr::Pause => &[0xf3, 0x90],
        Instr::Endbr64 => &[0xf3, 0x0f, 0x1e, 0xfa],
        Instr::Ud2 => &[0x0f, 0x0b],
        Instr::Syscall => &[0x0f, 0x05],
        Instr::Stc => &[0xf9],
        Instr::Clc => &[0xf8],
        Instr::Saveprevssp => &[0xf3, 0x0f, 0x01, 0xea],
        Instr::Setssbsy => &[0xf3, 0x0f, 0x01, 0xe8],
        _ => unreachable!(),
    }
}

/// Appends an instruction that has a register and an operand.
fn put_moving(alloc: Global, out: &mut Bytes, instr: Instr) -> Result<(), NoMemory>
    requires { IsMoving instr }
    ensures { OnOk result (out.new ≡ out.old ++ canonical_spelling instr) }
{
    use Operand::Mem;
    use Size::{Dword, Qword};

    match instr {
        Instr::MovZero8 { dst, src } =>
            put_row!(alloc out [] [0x0f] 0xb6; Dword, dst.number(), Mem(src)),
        Instr::MovSign32 { dst, src } => put_row!(alloc out [] [] 0x63; Qword, dst.number(), src),
        Instr::Lea { size, dst, src } =>
            put_row!(alloc out [] [] 0x8d; size, dst.number(), Mem(src)),
        Instr::Xchg { dst, reg } => put_row!(alloc out [] [] 0x87; Qword, reg.number(), dst),
        Instr::LockXadd { mem, reg } =>
            put_row!(alloc out [0xf0] [0x0f] 0xc1; Qword, reg.number(), Mem(mem)),
        Instr::LockCmpxchg { mem, reg } =>
            put_row!(alloc out [0xf0] [0x0f] 0xb1; Qword, reg.number(), Mem(mem)),
        Instr::Imul { size, dst, src } =>
            put_row!(alloc out [] [0x0f] 0xaf; size, dst.number(), src),
        Instr::Cmov {
            cond,
            size,
            dst,
            src,
        } => { put_row!(alloc out [] [0x0f] 0x40 + cond.number(); size, dst.number(), src) }
        _ => unreachable!(),
    }
}

/// Appends an instruction of shadow stacks that has an operand.
fn put_shadow(alloc: Global, out: &mut Bytes, instr: Instr) -> Result<(), NoMemory>
    requires { IsShadow instr }
    ensures { OnOk result (out.new ≡ out.old ++ canonical_spelling instr) }
{
    use Operand::{Mem, Reg};
    use Size::{Dword, Qword};

    match instr {
        Instr::Incsspq { reg } => put_row!(alloc out [0xf3] [0x0f] 0xae; Qword, 5, Reg(reg)),
        Instr::Rdsspq { reg } => put_row!(alloc out [0xf3] [0x0f] 0x1e; Qword, 1, Reg(reg)),
        Instr::Rstorssp { mem } => put_row!(alloc out [0xf3] [0x0f] 0x01; Dword, 5, Mem(mem)),
        Instr::Clrssbsy { mem } => put_row!(alloc out [0xf3] [0x0f] 0xae; Dword, 6, Mem(mem)),
        Instr::Wrssq { mem, reg } =>
            put_row!(alloc out [] [0x0f 0x38] 0xf6; Qword, reg.number(), Mem(mem)),
        Instr::Wrussq { mem, reg } =>
            put_row!(alloc out [0x66] [0x0f 0x38] 0xf5; Qword, reg.number(), Mem(mem)),
        _ => unreachable!(),
    }
}

/// Appends an instruction that reads and writes one register.
fn put_unary(
    alloc: Global,
    out: &mut Bytes,
    opcode: u8,
    digit: u8,
    size: Size,
    reg: Reg,
) -> Result<(), NoMemory>
    requires { digit < 8 }
    ensures { OnOk result (out.new ≡ out.old ++ rm_bytes [] [] size opcode digit (Operand.Reg reg)) }
{
    put_row!(alloc out [] [] opcode; size, digit, Operand::Reg(reg))
}

/// Appends the canonical spelling.
fn put_spelling(alloc: Global, out: &mut Bytes, instr: Instr) -> Result<(), NoMemory>
    ensures bytes { OnOk result (out.new ≡ out.old ++ canonical_spelling instr) }
    ensures fits { InstrFits instr }
{
    match instr {
        Instr::Alu { op, size, dst, src } => put_alu(alloc, out, op, size, dst, src),
        Instr::Test { size, dst, src } => put_test(alloc, out, size, dst, src),
        Instr::Mov { size, dst, src } => put_mov(alloc, out, size, dst, src),
        Instr::MovWide { dst, value } => put_wide_move(alloc, out, dst, value),
        Instr::Inc { size, reg } => put_unary(alloc, out, 0xff, 0, size, reg),
        Instr::Dec { size, reg } => put_unary(alloc, out, 0xff, 1, size, reg),
        Instr::Not { size, reg } => put_unary(alloc, out, 0xf7, 2, size, reg),
        Instr::Neg { size, reg } => put_unary(alloc, out, 0xf7, 3, size, reg),
        Instr::Shl { size, reg, count } => put_shift(alloc, out, 4, size, reg, count),
        Instr::Shr { size, reg, count } => put_shift(alloc, out, 5, size, reg, count),
        Instr::Sar { size, reg, count } => put_shift(alloc, out, 7, size, reg, count),
        Instr::Push { src } => put_push(alloc, out, src),
        Instr::Pop { dst } => put_reg(alloc, out, 0x58, Size::Dword, dst),
        Instr::CallRel { disp } => put_relative(alloc, out, &[0xe8], disp),
        Instr::CallInd { target, notrack } => put_indirect(alloc, out, 2, target, notrack),
        Instr::JmpRel { disp } => put_relative(alloc, out, &[0xe9], disp),
        Instr::JmpInd { target, notrack } => put_indirect(alloc, out, 4, target, notrack),
        Instr::Jcc { cond, disp } => {
            put_relative(alloc, out, &[0x0f, 0x80 + cond.number()], disp)
        }
        Instr::RetImm { bytes } => put_return(alloc, out, bytes),
        Instr::MovZero8 { .. }
        | Instr::MovSign32 { .. }
        | Instr::Lea { .. }
        | Instr::Xchg { .. }
        | Instr::LockXadd { .. }
        | Instr::LockCmpxchg { .. }
        | Instr::Imul { .. }
        | Instr::Cmov { .. } => put_moving(alloc, out, instr),
        Instr::Incsspq { .. }
        | Instr::Rdsspq { .. }
        | Instr::Rstorssp { .. }
        | Instr::Clrssbsy { .. }
        | Instr::Wrssq { .. }
        | Instr::Wrussq { .. } => put_shadow(alloc, out, instr),
        _ => out.extend(alloc, fixed_bytes(instr)),
    }
}

/// Appends the canonical spelling of an instruction: the first row of the table that spells it, the shortest
/// displacement and immediate, and REX only where one of its bits is needed. Where no memory is left `out`
/// stays as it is.
pub fn encode(alloc: Global, instr: &Instr, out: &mut Bytes) -> Result<(), NoMemory>
    requires { (bytes : List ℕ) × Spells bytes instr.now }
    ensures ok { OnOk result (out.new ≡ out.old ++ canonical_spelling instr.now) }
    ensures err { OnErr result (out.new ≡ out.old) }

    // Whatever follows the spelling, it is decoded as this instruction.
    ensures back { (rest : List ℕ) → decoded (canonical_spelling instr.now ++ rest) ≡ Read instr.now (length (canonical_spelling instr.now)) }
{
    let mut spelling = Bytes::new(alloc);
    put_spelling(alloc, &mut spelling, *instr)?;
    out.extend(alloc, spelling.as_slice())
}
