//! Exchanges and locked operations, of 64 bits (Intel SDM volume 2).

ghost use Rattle.std.specs.Prelude.{◌≡◌, ◌-◌, ◌^◌, ◌<◌};
ghost use Rattle.cet_page.specs.Script.{play};
ghost use Rattle.cet_page.specs.Plays.{Follows};
ghost use Rattle.cet_page.specs.Arithmetic.{xchg, lock_xadd, rax_found, lock_cmpxchg};

use crate::values::{difference, sum};
use cet_isa::{Arch, Mem, Operand, Record, Reg, Size};
use cet_page::{
    Cursor, Suspended, assign, effective, invalid_opcode, register, set_register, step, step_with,
};

/// XCHG of two registers, or of a register with memory.
#[tactic(auto, using(cet_page::proofs::ScriptLaws::play_bind), unfolding(cet_page::specs::Arithmetic::xchg))]
pub fn xchg(
    arch: &mut Arch,
    dst: Operand,
    reg: Reg,
    next: u64,
    at: &mut Cursor,
) -> Result<Record, Suspended>
    requires { arch.old.count < 2 ^ 32 - 1 }
    ensures { Follows (play (xchg arch.old dst reg next) at.old.left at.old.rest.now) arch.old arch.new result at.new.left at.new.rest.now }
{
    match dst {
        Operand::Reg(other) => {
            let value = register(arch, reg);
            let found = register(arch, other);
            set_register(arch, reg, found);
            set_register(arch, other, value);
            Ok(step(arch, next, value))
        }
        Operand::Mem(mem) => {
            let word = at.write_place(effective(arch, mem, next))?;
            let found = at.swap(word, register(arch, reg))?;
            Ok(assign(arch, reg, found, next))
        }
        Operand::Imm(_) => Err(invalid_opcode()),
    }
}

/// LOCK XADD.
#[tactic(auto, using(cet_page::proofs::ScriptLaws::play_bind), unfolding(cet_page::specs::Arithmetic::lock_xadd))]
pub fn lock_xadd(
    arch: &mut Arch,
    mem: Mem,
    reg: Reg,
    next: u64,
    at: &mut Cursor,
) -> Result<Record, Suspended>
    requires { arch.old.count < 2 ^ 32 - 1 }
    ensures { Follows (play (lock_xadd arch.old mem reg next) at.old.left at.old.rest.now) arch.old arch.new result at.new.left at.new.rest.now }
{
    let word = at.write_place(effective(arch, mem, next))?;
    let added = register(arch, reg);
    let found = at.fetch_add(word, added)?;
    let flags = sum(Size::Qword, found, added, false).flags.rflags();
    set_register(arch, reg, found);
    Ok(step_with(arch, next, flags, found))
}

/// RAX gets the word that was found, if it differs.
fn take_found(arch: &mut Arch, found: u64)
    ensures { arch.new ≡ record arch.old { regs = rax_found arch.old found } }
{
    if register(arch, Reg::Rax) != found {
        set_register(arch, Reg::Rax, found);
    }
}

/// LOCK CMPXCHG.
#[tactic(auto, using(cet_page::proofs::ScriptLaws::play_bind), unfolding(cet_page::specs::Arithmetic::lock_cmpxchg))]
pub fn lock_cmpxchg(
    arch: &mut Arch,
    mem: Mem,
    reg: Reg,
    next: u64,
    at: &mut Cursor,
) -> Result<Record, Suspended>
    requires { arch.old.count < 2 ^ 32 - 1 }
    ensures { Follows (play (lock_cmpxchg arch.old mem reg next) at.old.left at.old.rest.now) arch.old arch.new result at.new.left at.new.rest.now }
{
    let word = at.write_place(effective(arch, mem, next))?;
    let expected = register(arch, Reg::Rax);
    let found = at.compare_exchange(word, expected, register(arch, reg))?;
    let flags = difference(Size::Qword, expected, found, false)
        .flags
        .rflags();
    take_found(arch, found);
    Ok(step_with(arch, next, flags, found))
}
