//! What the fields of an encoding mean: the instruction that they make.
//!
//! Each instruction is written into the answer where it is made, since one that is handed on is copied each time.

ghost use Rattle.std.specs.Prelude.{◌≡◌};
ghost use Rattle.cet_isa.specs.Meaning.{instr_of};
ghost use Rattle.cet_decode.specs.Views.{arith_view, unary_view, move_view, flow_view, shadow_view, kind_view, fields_view};

use crate::decoder::Decoded;
use crate::fields::{
    Parts, cond_in_opcode, count, imm_operand, mem_operand, op_in_digit, op_in_opcode,
    reg_in_field, reg_in_opcode, reg_operand, rm, signed, size, wide, word,
};
use crate::forms::Kind;
use crate::kinds::{Arith, Flow, Move, Shadow, Unary};
use cet_isa::{AluOp, Instr, Operand, Reg, Size};

/// Writes an instruction of `len` bytes.
#[inline(always)]
fn put(out: &mut Decoded, len: u8, instr: Instr)
    ensures { out.new ≡ Decoded.Ok instr len }
{
    *out = Decoded::Ok { instr, len };
}

fn alu(op: AluOp, size: Size, dst: Operand, src: Operand) -> Instr
    ensures { result ≡ Instr.Alu op size dst src }
{
    Instr::Alu { op, size, dst, src }
}

fn test(size: Size, dst: Operand, src: Operand) -> Instr
    ensures { result ≡ Instr.Test size dst src }
{
    Instr::Test { size, dst, src }
}

fn mov(size: Size, dst: Operand, src: Operand) -> Instr
    ensures { result ≡ Instr.Mov size dst src }
{
    Instr::Mov { size, dst, src }
}

#[inline(always)]
fn arith(kind: Arith, x: Parts, imm: &[u8], len: u8, out: &mut Decoded)
    ensures { out.new ≡ Decoded.Ok (instr_of (arith_view kind) (fields_view x imm.now)) len }
{
    let size = size(x);
    let reg = reg_in_field(x);
    match kind {
        Arith::AluRmReg => put(
            out,
            len,
            alu(op_in_opcode(x), size, rm(x), Operand::Reg(reg)),
        ),
        Arith::AluRegRm => put(
            out,
            len,
            alu(op_in_opcode(x), size, Operand::Reg(reg), rm(x)),
        ),
        Arith::AluRmImm => put(out, len, alu(op_in_digit(x), size, rm(x), imm_operand(imm))),
        Arith::AluRaxImm => put(
            out,
            len,
            alu(
                op_in_opcode(x),
                size,
                Operand::Reg(Reg::Rax),
                imm_operand(imm),
            ),
        ),
        Arith::TestRmReg => put(out, len, test(size, rm(x), Operand::Reg(reg))),
        Arith::TestRmImm => put(out, len, test(size, rm(x), imm_operand(imm))),
        Arith::TestRaxImm => put(
            out,
            len,
            test(size, Operand::Reg(Reg::Rax), imm_operand(imm)),
        ),
        Arith::Imul => put(
            out,
            len,
            Instr::Imul {
                size,
                dst: reg,
                src: rm(x),
            },
        ),
    }
}

#[inline(always)]
fn unary(kind: Unary, x: Parts, imm: &[u8], len: u8, out: &mut Decoded)
    ensures { out.new ≡ Decoded.Ok (instr_of (unary_view kind) (fields_view x imm.now)) len }
{
    let size = size(x);
    let reg = reg_operand(rm(x));
    match kind {
        Unary::Inc => put(out, len, Instr::Inc { size, reg }),
        Unary::Dec => put(out, len, Instr::Dec { size, reg }),
        Unary::Not => put(out, len, Instr::Not { size, reg }),
        Unary::Neg => put(out, len, Instr::Neg { size, reg }),
        Unary::Shl(amount) => put(
            out,
            len,
            Instr::Shl {
                size,
                reg,
                count: count(amount, imm),
            },
        ),
        Unary::Shr(amount) => put(
            out,
            len,
            Instr::Shr {
                size,
                reg,
                count: count(amount, imm),
            },
        ),
        Unary::Sar(amount) => put(
            out,
            len,
            Instr::Sar {
                size,
                reg,
                count: count(amount, imm),
            },
        ),
    }
}

#[inline(always)]
fn moved(kind: Move, x: Parts, imm: &[u8], len: u8, out: &mut Decoded)
    ensures { out.new ≡ Decoded.Ok (instr_of (move_view kind) (fields_view x imm.now)) len }
{
    let size = size(x);
    let reg = reg_in_field(x);
    match kind {
        Move::MovRmReg => put(out, len, mov(size, rm(x), Operand::Reg(reg))),
        Move::MovRegRm => put(out, len, mov(size, Operand::Reg(reg), rm(x))),
        Move::MovRegImm => put(
            out,
            len,
            mov(
                Size::Dword,
                Operand::Reg(reg_in_opcode(x)),
                imm_operand(imm),
            ),
        ),
        Move::MovRmImm => put(out, len, mov(size, rm(x), imm_operand(imm))),
        Move::MovWide => put(
            out,
            len,
            Instr::MovWide {
                dst: reg_in_opcode(x),
                value: wide(imm),
            },
        ),
        Move::MovZero8 => put(
            out,
            len,
            Instr::MovZero8 {
                dst: reg,
                src: mem_operand(rm(x)),
            },
        ),
        Move::MovSign32 => put(
            out,
            len,
            Instr::MovSign32 {
                dst: reg,
                src: rm(x),
            },
        ),
        Move::Lea => put(
            out,
            len,
            Instr::Lea {
                size,
                dst: reg,
                src: mem_operand(rm(x)),
            },
        ),
        Move::Xchg => put(out, len, Instr::Xchg { dst: rm(x), reg }),
        Move::LockXadd => put(
            out,
            len,
            Instr::LockXadd {
                mem: mem_operand(rm(x)),
                reg,
            },
        ),
        Move::LockCmpxchg => put(
            out,
            len,
            Instr::LockCmpxchg {
                mem: mem_operand(rm(x)),
                reg,
            },
        ),
        Move::Cmov => put(
            out,
            len,
            Instr::Cmov {
                cond: cond_in_opcode(x),
                size,
                dst: reg,
                src: rm(x),
            },
        ),
    }
}

#[inline(always)]
fn flow(kind: Flow, x: Parts, imm: &[u8], len: u8, out: &mut Decoded)
    ensures { out.new ≡ Decoded.Ok (instr_of (flow_view kind) (fields_view x imm.now)) len }
{
    match kind {
        Flow::PushReg => put(
            out,
            len,
            Instr::Push {
                src: Operand::Reg(reg_in_opcode(x)),
            },
        ),
        Flow::PushImm => put(
            out,
            len,
            Instr::Push {
                src: imm_operand(imm),
            },
        ),
        Flow::PushMem => put(out, len, Instr::Push { src: rm(x) }),
        Flow::Pop => put(
            out,
            len,
            Instr::Pop {
                dst: reg_in_opcode(x),
            },
        ),
        Flow::CallRel => put(out, len, Instr::CallRel { disp: signed(imm) }),
        Flow::CallInd(notrack) => put(
            out,
            len,
            Instr::CallInd {
                target: rm(x),
                notrack,
            },
        ),
        Flow::JmpRel => put(out, len, Instr::JmpRel { disp: signed(imm) }),
        Flow::JmpInd(notrack) => put(
            out,
            len,
            Instr::JmpInd {
                target: rm(x),
                notrack,
            },
        ),
        Flow::Jcc => put(
            out,
            len,
            Instr::Jcc {
                cond: cond_in_opcode(x),
                disp: signed(imm),
            },
        ),
        Flow::RetImm => put(out, len, Instr::RetImm { bytes: word(imm) }),
    }
}

#[inline(always)]
fn shadow(kind: Shadow, x: Parts, imm: &[u8], len: u8, out: &mut Decoded)
    ensures { out.new ≡ Decoded.Ok (instr_of (shadow_view kind) (fields_view x imm.now)) len }
{
    let mem = mem_operand(rm(x));
    match kind {
        Shadow::Incsspq => put(
            out,
            len,
            Instr::Incsspq {
                reg: reg_operand(rm(x)),
            },
        ),
        Shadow::Rdsspq => put(
            out,
            len,
            Instr::Rdsspq {
                reg: reg_operand(rm(x)),
            },
        ),
        Shadow::Rstorssp => put(out, len, Instr::Rstorssp { mem }),
        Shadow::Clrssbsy => put(out, len, Instr::Clrssbsy { mem }),
        Shadow::Wrssq => put(
            out,
            len,
            Instr::Wrssq {
                mem,
                reg: reg_in_field(x),
            },
        ),
        Shadow::Wrussq => put(
            out,
            len,
            Instr::Wrussq {
                mem,
                reg: reg_in_field(x),
            },
        ),
    }
}

/// Writes the instruction of this kind with these fields and this immediate, of `len` bytes.
#[inline(always)]
pub fn put_instr(kind: &Kind, x: Parts, imm: &[u8], len: u8, out: &mut Decoded)
    ensures { out.new ≡ Decoded.Ok (instr_of (kind_view kind.now) (fields_view x imm.now)) len }
{
    match kind {
        Kind::Arith(kind) => arith(*kind, x, imm, len, out),
        Kind::Unary(kind) => unary(*kind, x, imm, len, out),
        Kind::Move(kind) => moved(*kind, x, imm, len, out),
        Kind::Flow(kind) => flow(*kind, x, imm, len, out),
        Kind::Shadow(kind) => shadow(*kind, x, imm, len, out),
        Kind::Plain(instr) => put(out, len, *instr),
    }
}
