//! Moves and addresses (Intel SDM volume 2).

ghost use Rattle.std.specs.Prelude.{◌≡◌, ◌-◌, ◌%◌, ◌^◌, ◌<◌};
ghost use Rattle.cet_page.specs.Script.{play};
ghost use Rattle.cet_page.specs.Plays.{Follows};
ghost use Rattle.cet_page.specs.Operands.{Leaves, effective, assigned};
ghost use Rattle.cet_page.specs.Values.{limit};
ghost use Rattle.cet_page.specs.Arithmetic.{move, movzx, movsxd, cmov};

use cet_isa::{Arch, Cond, Mem, Operand, Record, Reg, Size};
use cet_page::{
    Cursor, StatusFlags, Suspended, assign, effective, invalid_opcode, register_of, step, truncated,
};

/// MOV to a register, or of 64 bits to memory.
#[tactic(auto, using(cet_page::proofs::ScriptLaws::play_bind, crate::proofs::MoveCases::move_register, crate::proofs::MoveCases::move_memory, crate::proofs::MoveCases::move_no_half, crate::proofs::MoveCases::move_nowhere))]
pub fn mov(
    arch: &mut Arch,
    size: Size,
    dst: Operand,
    src: Operand,
    next: u64,
    at: &mut Cursor,
) -> Result<Record, Suspended>
    requires { arch.old.count < 2 ^ 32 - 1 }
    ensures { Follows (play (move arch.old size dst src next) at.old.left at.old.rest.now) arch.old arch.new result at.new.left at.new.rest.now }
{
    match (size, dst) {
        (_, Operand::Reg(reg)) => {
            let value = at.read_operand(arch, size, src, next)?;
            Ok(assign(arch, reg, value, next))
        }
        (Size::Qword, Operand::Mem(mem)) => {
            let value = at.read_operand(arch, Size::Qword, src, next)?;
            at.store_at(effective(arch, mem, next), value)?;
            Ok(step(arch, next, value))
        }
        _ => Err(invalid_opcode()),
    }
}

/// MOVZX of a byte.
#[tactic(auto, using(cet_page::proofs::ScriptLaws::play_bind), unfolding(cet_page::specs::Arithmetic::movzx))]
pub fn movzx(
    arch: &mut Arch,
    reg: Reg,
    mem: Mem,
    next: u64,
    at: &mut Cursor,
) -> Result<Record, Suspended>
    requires { arch.old.count < 2 ^ 32 - 1 }
    ensures { Follows (play (movzx arch.old reg mem next) at.old.left at.old.rest.now) arch.old arch.new result at.new.left at.new.rest.now }
{
    let value = at.load_byte(effective(arch, mem, next))?;
    Ok(assign(arch, reg, value, next))
}

/// MOVSXD of 32 bits.
#[tactic(auto, using(cet_page::proofs::ScriptLaws::play_bind), unfolding(cet_page::specs::Arithmetic::movsxd))]
pub fn movsxd(
    arch: &mut Arch,
    reg: Reg,
    src: Operand,
    next: u64,
    at: &mut Cursor,
) -> Result<Record, Suspended>
    requires { arch.old.count < 2 ^ 32 - 1 }
    ensures { Follows (play (movsxd arch.old reg src next) at.old.left at.old.rest.now) arch.old arch.new result at.new.left at.new.rest.now }
{
    let value = at.read_operand(arch, Size::Dword, src, next)?;
    let extended = i64::from((value as u32).cast_signed()).cast_unsigned();
    Ok(assign(arch, reg, extended, next))
}

/// CMOVcc. It reads its operand, and clears the upper half of a 32-bit register, also where the
/// condition fails.
#[tactic(auto, using(cet_page::proofs::ScriptLaws::play_bind), unfolding(cet_page::specs::Arithmetic::cmov))]
pub fn cmov(
    arch: &mut Arch,
    cond: Cond,
    size: Size,
    reg: Reg,
    src: Operand,
    next: u64,
    at: &mut Cursor,
) -> Result<Record, Suspended>
    requires { arch.old.count < 2 ^ 32 - 1 }
    ensures { Follows (play (cmov arch.old cond size reg src next) at.old.left at.old.rest.now) arch.old arch.new result at.new.left at.new.rest.now }
{
    let value = at.read_operand(arch, size, src, next)?;
    let moved = if StatusFlags::of(arch.flags).holds(cond) {
        value
    } else {
        register_of(arch, size, reg)
    };
    Ok(assign(arch, reg, moved, next))
}

/// LEA.
pub fn lea(arch: &mut Arch, size: Size, reg: Reg, mem: Mem, next: u64) -> Record
    requires { arch.old.count < 2 ^ 32 - 1 }
    ensures { Leaves (assigned arch.old reg (effective arch.old mem next % limit size) next) arch.new result }
{
    let addr = effective(arch, mem, next);
    assign(arch, reg, truncated(size, addr), next)
}
