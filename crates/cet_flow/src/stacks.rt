//! Pushes and pops of 64 bits (Intel SDM volume 2, PUSH, POP and LEAVE).

ghost use Rattle.std.specs.Prelude.{◌≡◌, ◌-◌, ◌^◌, ◌<◌};
ghost use Rattle.cet_page.specs.Script.{play};
ghost use Rattle.cet_page.specs.Plays.{Follows};
ghost use Rattle.cet_page.specs.Flow.{push, pop, leave};

use cet_isa::{Arch, Operand, RBP, RSP, Record, Reg, Size};
use cet_page::{Cursor, Suspended, set_register, step};

/// PUSH. The value is read before RSP changes.
#[tactic(auto, using(cet_page::proofs::ScriptLaws::play_bind), unfolding(cet_page::specs::Flow::push))]
pub fn push(arch: &mut Arch, src: Operand, next: u64, at: &mut Cursor) -> Result<Record, Suspended>
    requires { arch.old.count < 2 ^ 32 - 1 }
    ensures { Follows (play (push arch.old src next) at.old.left at.old.rest.now) arch.old arch.new result at.new.left at.new.rest.now }
{
    let value = at.read_operand(arch, Size::Qword, src, next)?;
    let sp = arch.regs[RSP].wrapping_sub(8);
    at.store_at(sp, value)?;
    arch.regs[RSP] = sp;
    Ok(step(arch, next, value))
}

/// POP. Where the register is RSP, it keeps the value.
#[tactic(auto, using(cet_page::proofs::ScriptLaws::play_bind), unfolding(cet_page::specs::Flow::pop))]
pub fn pop(arch: &mut Arch, reg: Reg, next: u64, at: &mut Cursor) -> Result<Record, Suspended>
    requires { arch.old.count < 2 ^ 32 - 1 }
    ensures { Follows (play (pop arch.old reg next) at.old.left at.old.rest.now) arch.old arch.new result at.new.left at.new.rest.now }
{
    let sp = arch.regs[RSP];
    let value = at.load_at(sp, Size::Qword)?;
    arch.regs[RSP] = sp.wrapping_add(8);
    set_register(arch, reg, value);
    Ok(step(arch, next, value))
}

/// LEAVE: RSP becomes RBP, and RBP is popped.
#[tactic(auto, using(cet_page::proofs::ScriptLaws::play_bind), unfolding(cet_page::specs::Flow::leave))]
pub fn leave(arch: &mut Arch, next: u64, at: &mut Cursor) -> Result<Record, Suspended>
    requires { arch.old.count < 2 ^ 32 - 1 }
    ensures { Follows (play (leave arch.old next) at.old.left at.old.rest.now) arch.old arch.new result at.new.left at.new.rest.now }
{
    let frame = arch.regs[RBP];
    let value = at.load_at(frame, Size::Qword)?;
    arch.regs[RSP] = frame.wrapping_add(8);
    arch.regs[RBP] = value;
    Ok(step(arch, next, value))
}
