//! Which instructions have a spelling.

ghost use Rattle.std.specs.Prelude.{◌≡◌, ◌↔◌, ℕ, List, IsTrue};
ghost use Rattle.cet_isa.specs.Spells.{Spells};
ghost use Rattle.cet_isa.specs.Spelled.{mem_ok, place_ok, alu_ok, test_ok, mov_ok, push_ok, has_spelling, InstrFits};

use crate::instructions::{AluOp, Base, Instr, Mem, Operand, Reg, Size};

/// Rsp is no index, RIP has none, and the scale is 1 without an index.
fn is_mem(mem: &Mem) -> bool
    ensures { result ≡ mem_ok mem.now }
{
    match (mem.base, mem.index) {
        (_, None) => mem.scale == 1,
        (Base::Rip, Some(_)) => false,
        (_, Some(index)) => index != Reg::Rsp && matches!(mem.scale, 1 | 2 | 4 | 8),
    }
}

/// A register or memory.
fn is_place(operand: &Operand) -> bool
    ensures { result ≡ place_ok operand.now }
{
    match operand {
        Operand::Reg(_) => true,
        Operand::Mem(mem) => is_mem(mem),
        Operand::Imm(_) => false,
    }
}

fn is_alu(op: AluOp, dst: &Operand, src: &Operand) -> bool
    ensures { result ≡ alu_ok op dst.now src.now }
{
    match (dst, src) {
        (Operand::Reg(_), Operand::Imm(_)) => true,
        (Operand::Reg(_), src) => is_place(src),
        (Operand::Mem(mem), Operand::Reg(_) | Operand::Imm(_)) => op == AluOp::Cmp && is_mem(mem),
        _ => false,
    }
}

fn is_test(dst: &Operand, src: &Operand) -> bool
    ensures { result ≡ test_ok dst.now src.now }
{
    !matches!(src, Operand::Mem(_)) && is_place(dst)
}

fn is_mov(size: Size, dst: &Operand, src: &Operand) -> bool
    ensures { result ≡ mov_ok size dst.now src.now }
{
    match (dst, src) {
        (Operand::Reg(_), Operand::Imm(_)) => true,
        (Operand::Reg(_), src) => is_place(src),
        (Operand::Mem(mem), Operand::Reg(_) | Operand::Imm(_)) => size == Size::Qword
            && is_mem(mem),
        _ => false,
    }
}

fn is_push(src: &Operand) -> bool
    ensures { result ≡ push_ok src.now }
{
    matches!(src, Operand::Imm(_)) || is_place(src)
}

fn passes(instr: &Instr) -> bool
    ensures { result ≡ has_spelling instr.now }
{
    match instr {
        Instr::Alu { op, dst, src, .. } => is_alu(*op, dst, src),
        Instr::Test { dst, src, .. } => is_test(dst, src),
        Instr::Mov { size, dst, src } => is_mov(*size, dst, src),
        Instr::Push { src } => is_push(src),
        Instr::MovSign32 { src: place, .. }
        | Instr::Xchg { dst: place, .. }
        | Instr::Imul { src: place, .. }
        | Instr::Cmov { src: place, .. }
        | Instr::CallInd { target: place, .. }
        | Instr::JmpInd { target: place, .. } => is_place(place),
        Instr::MovZero8 { src: mem, .. }
        | Instr::Lea { src: mem, .. }
        | Instr::LockXadd { mem, .. }
        | Instr::LockCmpxchg { mem, .. }
        | Instr::Rstorssp { mem }
        | Instr::Clrssbsy { mem }
        | Instr::Wrssq { mem, .. }
        | Instr::Wrussq { mem, .. } => is_mem(mem),
        _ => true,
    }
}

fn passes_by_value(instr: Instr) -> bool
    ensures fits { InstrFits instr }
    ensures test { result ≡ has_spelling instr }
{
    passes(&instr)
}

/// Whether some bytes spell the instruction.
pub fn is_spelled(instr: &Instr) -> bool
    ensures spelled { IsTrue result ↔ ((bytes : List ℕ) × Spells bytes instr.now) }
    ensures test { result ≡ has_spelling instr.now }

    // The numbers of the instruction are those of its fields' types.
    ensures fits { InstrFits instr.now }
{
    passes_by_value(*instr)
}
