//! Near calls (Intel SDM volume 2, CALL).

ghost use Rattle.std.specs.Prelude.{◌≡◌, ◌-◌, ◌^◌, ◌<◌};
ghost use Rattle.cet_page.specs.Script.{play};
ghost use Rattle.cet_page.specs.Plays.{Follows};
ghost use Rattle.cet_page.specs.Operands.{Leaves};
ghost use Rattle.cet_page.specs.Flow.{called, call, call_next, call_relative, call_to, call_indirect};

use crate::jumps::relative;
use cet_isa::{Arch, Operand, RSP, Record, Size, What, is_canonical};
use cet_page::{Cursor, Kind, Suspended, Who, general_protection, word_in};

/// Ends a call that leaves the stack pointers so; the answer is its record.
fn end_call(arch: &mut Arch, target: u64, sp: u64, ssp: u64) -> Record
    requires { arch.old.count < 2 ^ 32 - 1 }
    ensures { Leaves (called arch.old target sp ssp) arch.new result }
{
    let noted = Record {
        rip: arch.rip,
        what: What::Call,
        code: 0,
        a: target,
        b: ssp,
    };
    arch.regs[RSP] = sp;
    arch.rip = target;
    arch.ssp = ssp;
    arch.count += 1;
    noted
}

/// A call that pushes the return address on both stacks.
#[tactic(auto, using(cet_page::proofs::ScriptLaws::play_bind), unfolding(cet_page::specs::Flow::call, cet_page::specs::Parts::store_as))]
fn call(arch: &mut Arch, back: u64, target: u64, at: &mut Cursor) -> Result<Record, Suspended>
    requires { arch.old.count < 2 ^ 32 - 1 }
    ensures { Follows (play (call arch.old back target) at.old.left at.old.rest.now) arch.old arch.new result at.new.left at.new.rest.now }
{
    let sp = arch.regs[RSP].wrapping_sub(8);
    let ssp = arch.ssp.wrapping_sub(8);
    at.check_address(sp, 8)?;
    let page = at.look(Kind::Store, Who::User, sp)?;
    let shadow = at.look(Kind::ShadowStore, Who::User, ssp)?;
    at.store(word_in(page, sp), back)?;
    at.store(word_in(shadow, ssp), back)?;
    Ok(end_call(arch, target, sp, ssp))
}

/// A call to the next instruction, which pushes on the program stack alone.
#[tactic(auto, using(cet_page::proofs::ScriptLaws::play_bind), unfolding(cet_page::specs::Flow::call_next))]
fn call_next(arch: &mut Arch, back: u64, at: &mut Cursor) -> Result<Record, Suspended>
    requires { arch.old.count < 2 ^ 32 - 1 }
    ensures { Follows (play (call_next arch.old back) at.old.left at.old.rest.now) arch.old arch.new result at.new.left at.new.rest.now }
{
    let sp = arch.regs[RSP].wrapping_sub(8);
    at.check_address(sp, 8)?;
    let page = at.look(Kind::Store, Who::User, sp)?;
    at.store(word_in(page, sp), back)?;
    let ssp = arch.ssp;
    Ok(end_call(arch, back, sp, ssp))
}

/// A relative near call.
pub fn call_relative(
    arch: &mut Arch,
    disp: i32,
    next: u64,
    at: &mut Cursor,
) -> Result<Record, Suspended>
    requires { arch.old.count < 2 ^ 32 - 1 }
    ensures { Follows (play (call_relative arch.old disp next) at.old.left at.old.rest.now) arch.old arch.new result at.new.left at.new.rest.now }
{
    if disp == 0 {
        return call_next(arch, next, at);
    }
    call(arch, next, relative(next, disp), at)
}

fn call_to(arch: &mut Arch, back: u64, target: u64, at: &mut Cursor) -> Result<Record, Suspended>
    requires { arch.old.count < 2 ^ 32 - 1 }
    ensures { Follows (play (call_to arch.old back target) at.old.left at.old.rest.now) arch.old arch.new result at.new.left at.new.rest.now }
{
    if !is_canonical(target) {
        return Err(general_protection());
    }
    call(arch, back, target, at)
}

/// An indirect near call.
#[tactic(auto, using(cet_page::proofs::ScriptLaws::play_bind), unfolding(cet_page::specs::Flow::call_indirect))]
pub fn call_indirect(
    arch: &mut Arch,
    target: Operand,
    next: u64,
    at: &mut Cursor,
) -> Result<Record, Suspended>
    requires { arch.old.count < 2 ^ 32 - 1 }
    ensures { Follows (play (call_indirect arch.old target next) at.old.left at.old.rest.now) arch.old arch.new result at.new.left at.new.rest.now }
{
    let target = at.read_operand(arch, Size::Qword, target, next)?;
    call_to(arch, next, target, at)
}
