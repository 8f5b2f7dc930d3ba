//! Arithmetic, tests and shifts, and the instructions that change CF (Intel SDM volume 2).

ghost use Rattle.std.specs.Prelude.{◌≡◌, ◌-◌, ◌%◌, ◌^◌, ◌<◌};
ghost use Rattle.cet_page.specs.Flags.{rflags};
ghost use Rattle.cet_page.specs.Script.{play};
ghost use Rattle.cet_page.specs.Plays.{Follows};
ghost use Rattle.cet_page.specs.Operands.{Leaves, register, stepped, assigned, settled};
ghost use Rattle.cet_page.specs.Values.{bits, limit, sum, difference, keeping, ones_complement, shifted_left, shifted_right, shifted_arithmetic};
ghost use Rattle.cet_page.specs.Arithmetic.{carry, alu, test, imul, with_carry, shift_count, shift};

use crate::values::{
    bits, difference, keeping, logical, ones_complement, operation, product, shifted_arithmetic,
    shifted_left, shifted_right, sum,
};
use cet_isa::{AluOp, Arch, Count, Operand, Record, Reg, Size};
use cet_page::{
    Cursor, StatusFlags, Suspended, assign, compare, invalid_opcode, register, register_of, settle,
    step_with,
};

/// CF.
fn carry(arch: &Arch) -> bool
    ensures { result ≡ carry arch.now }
{
    StatusFlags::of(arch.flags).cf
}

/// ADD, OR, ADC, SBB, AND, SUB, XOR or CMP.
#[tactic(auto, using(cet_page::proofs::ScriptLaws::play_bind), unfolding(cet_page::specs::Arithmetic::alu))]
pub fn alu(
    arch: &mut Arch,
    op: AluOp,
    size: Size,
    dst: Operand,
    src: Operand,
    next: u64,
    at: &mut Cursor,
) -> Result<Record, Suspended>
    requires { arch.old.count < 2 ^ 32 - 1 }
    ensures { Follows (play (alu arch.old op size dst src next) at.old.left at.old.rest.now) arch.old arch.new result at.new.left at.new.rest.now }
{
    let x = at.read_operand(arch, size, dst, next)?;
    let y = at.read_operand(arch, size, src, next)?;
    let computed = operation(op, size, x, y, carry(arch));
    match (op, dst) {
        (AluOp::Cmp, _) => Ok(compare(arch, computed, next)),
        (_, Operand::Reg(reg)) => Ok(settle(arch, reg, computed, next)),
        _ => Err(invalid_opcode()),
    }
}

/// TEST.
#[tactic(auto, using(cet_page::proofs::ScriptLaws::play_bind), unfolding(cet_page::specs::Arithmetic::test))]
pub fn test(
    arch: &mut Arch,
    size: Size,
    dst: Operand,
    src: Operand,
    next: u64,
    at: &mut Cursor,
) -> Result<Record, Suspended>
    requires { arch.old.count < 2 ^ 32 - 1 }
    ensures { Follows (play (test arch.old size dst src next) at.old.left at.old.rest.now) arch.old arch.new result at.new.left at.new.rest.now }
{
    let x = at.read_operand(arch, size, dst, next)?;
    let y = at.read_operand(arch, size, src, next)?;
    Ok(compare(arch, logical(size, x & y), next))
}

/// IMUL of two operands.
#[tactic(auto, using(cet_page::proofs::ScriptLaws::play_bind), unfolding(cet_page::specs::Arithmetic::imul))]
pub fn imul(
    arch: &mut Arch,
    size: Size,
    reg: Reg,
    src: Operand,
    next: u64,
    at: &mut Cursor,
) -> Result<Record, Suspended>
    requires { arch.old.count < 2 ^ 32 - 1 }
    ensures { Follows (play (imul arch.old size reg src next) at.old.left at.old.rest.now) arch.old arch.new result at.new.left at.new.rest.now }
{
    let y = at.read_operand(arch, size, src, next)?;
    let computed = product(size, register_of(arch, size, reg), y);
    Ok(settle(arch, reg, computed, next))
}

/// INC.
pub fn inc(arch: &mut Arch, size: Size, reg: Reg, next: u64) -> Record
    requires { arch.old.count < 2 ^ 32 - 1 }
    ensures { Leaves (settled arch.old reg (keeping (carry arch.old) (sum size (register arch.old reg % limit size) 1 0)) next) arch.new result }
{
    let more = sum(size, register_of(arch, size, reg), 1, false);
    let computed = keeping(carry(arch), more);
    settle(arch, reg, computed, next)
}

/// DEC.
pub fn dec(arch: &mut Arch, size: Size, reg: Reg, next: u64) -> Record
    requires { arch.old.count < 2 ^ 32 - 1 }
    ensures { Leaves (settled arch.old reg (keeping (carry arch.old) (difference size (register arch.old reg % limit size) 1 0)) next) arch.new result }
{
    let less = difference(size, register_of(arch, size, reg), 1, false);
    let computed = keeping(carry(arch), less);
    settle(arch, reg, computed, next)
}

/// NOT.
pub fn not(arch: &mut Arch, size: Size, reg: Reg, next: u64) -> Record
    requires { arch.old.count < 2 ^ 32 - 1 }
    ensures { Leaves (assigned arch.old reg (ones_complement size (register arch.old reg % limit size)) next) arch.new result }
{
    let value = ones_complement(size, register_of(arch, size, reg));
    assign(arch, reg, value, next)
}

/// NEG.
pub fn neg(arch: &mut Arch, size: Size, reg: Reg, next: u64) -> Record
    requires { arch.old.count < 2 ^ 32 - 1 }
    ensures { Leaves (settled arch.old reg (difference size 0 (register arch.old reg % limit size) 0) next) arch.new result }
{
    let computed = difference(size, 0, register_of(arch, size, reg), false);
    settle(arch, reg, computed, next)
}

/// By how many places a shift goes: its count modulo the size.
fn shift_count(arch: &Arch, size: Size, count: Count) -> u32
    ensures value { result ≡ shift_count arch.now size count }
    ensures range { result < bits size }
{
    let count = match count {
        Count::Number(number) => u32::from(number),
        Count::Cl => (register(arch, Reg::Rcx) % 256) as u32,
    };
    count % bits(size)
}

/// SHL.
pub fn shl(arch: &mut Arch, size: Size, reg: Reg, count: Count, next: u64) -> Record
    requires { arch.old.count < 2 ^ 32 - 1 }
    ensures { Leaves (shift arch.old size reg (shift_count arch.old size count) (shifted_left size (register arch.old reg % limit size) (shift_count arch.old size count)) next) arch.new result }
{
    let value = register_of(arch, size, reg);
    let count = shift_count(arch, size, count);
    if count == 0 {
        return assign(arch, reg, value, next);
    }
    settle(arch, reg, shifted_left(size, value, count), next)
}

/// SHR.
pub fn shr(arch: &mut Arch, size: Size, reg: Reg, count: Count, next: u64) -> Record
    requires { arch.old.count < 2 ^ 32 - 1 }
    ensures { Leaves (shift arch.old size reg (shift_count arch.old size count) (shifted_right size (register arch.old reg % limit size) (shift_count arch.old size count)) next) arch.new result }
{
    let value = register_of(arch, size, reg);
    let count = shift_count(arch, size, count);
    if count == 0 {
        return assign(arch, reg, value, next);
    }
    settle(arch, reg, shifted_right(size, value, count), next)
}

/// SAR.
pub fn sar(arch: &mut Arch, size: Size, reg: Reg, count: Count, next: u64) -> Record
    requires { arch.old.count < 2 ^ 32 - 1 }
    ensures { Leaves (shift arch.old size reg (shift_count arch.old size count) (shifted_arithmetic size (register arch.old reg % limit size) (shift_count arch.old size count)) next) arch.new result }
{
    let value = register_of(arch, size, reg);
    let count = shift_count(arch, size, count);
    if count == 0 {
        return assign(arch, reg, value, next);
    }
    settle(arch, reg, shifted_arithmetic(size, value, count), next)
}

/// STC or CLC.
pub fn set_carry(arch: &mut Arch, carry: bool, next: u64) -> Record
    requires { arch.old.count < 2 ^ 32 - 1 }
    ensures { Leaves (stepped arch.old arch.old.regs next (rflags (with_carry carry arch.old)) 0) arch.new result }
{
    let mut flags = StatusFlags::of(arch.flags);
    flags.cf = carry;
    step_with(arch, next, flags.rflags(), 0)
}
