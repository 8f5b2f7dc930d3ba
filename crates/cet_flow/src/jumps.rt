//! Jumps (Intel SDM volume 2, JMP and Jcc).

ghost use Rattle.std.specs.Prelude.{◌≡◌, ◌-◌, ◌^◌, ◌<◌, ℕ, List};
ghost use Rattle.cet_page.specs.Script.{play};
ghost use Rattle.cet_page.specs.Plays.{Follows};
ghost use Rattle.cet_page.specs.Operands.{Leaves};
ghost use Rattle.cet_page.specs.Flow.{relative, jumped, jump_to, jump_indirect, jump_target};

use cet_isa::{Arch, Cond, Operand, Record, Size, is_canonical};
use cet_page::{Cursor, StatusFlags, Suspended, general_protection, step};

/// The target of a relative displacement.
pub fn relative(next: u64, disp: i32) -> u64
    ensures { result ≡ relative next disp }
{
    next.wrapping_add_signed(i64::from(disp))
}

/// Ends a jump; the answer is its record.
pub fn end_jump(arch: &mut Arch, target: u64) -> Record
    requires { arch.old.count < 2 ^ 32 - 1 }
    ensures { Leaves (jumped arch.old target) arch.new result }
{
    step(arch, target, target)
}

fn jump_to(arch: &mut Arch, target: u64) -> Result<Record, Suspended>
    requires { arch.old.count < 2 ^ 32 - 1 }
    ensures { (left : ℕ) (values : List ℕ) → Follows (play (jump_to arch.old target) left values) arch.old arch.new result left values }
{
    if !is_canonical(target) {
        return Err(general_protection());
    }
    Ok(end_jump(arch, target))
}

/// An indirect near jump.
#[tactic(auto, using(cet_page::proofs::ScriptLaws::play_bind), unfolding(cet_page::specs::Flow::jump_indirect))]
pub fn jump_indirect(
    arch: &mut Arch,
    target: Operand,
    next: u64,
    at: &mut Cursor,
) -> Result<Record, Suspended>
    requires { arch.old.count < 2 ^ 32 - 1 }
    ensures { Follows (play (jump_indirect arch.old target next) at.old.left at.old.rest.now) arch.old arch.new result at.new.left at.new.rest.now }
{
    let target = at.read_operand(arch, Size::Qword, target, next)?;
    jump_to(arch, target)
}

/// A conditional jump.
pub fn jump_if(arch: &mut Arch, cond: Cond, disp: i32, next: u64) -> Record
    requires { arch.old.count < 2 ^ 32 - 1 }
    ensures { Leaves (jumped arch.old (jump_target arch.old cond disp next)) arch.new result }
{
    let target = if StatusFlags::of(arch.flags).holds(cond) {
        relative(next, disp)
    } else {
        next
    };
    end_jump(arch, target)
}
