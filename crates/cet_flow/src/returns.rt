//! Near returns (Intel SDM volume 2, RET, and volume 1, the chapter on shadow stacks).

ghost use Rattle.std.specs.Prelude.{◌≡◌, ◌-◌, ◌^◌, ◌<◌};
ghost use Rattle.cet_page.specs.Script.{play};
ghost use Rattle.cet_page.specs.Plays.{Follows};
ghost use Rattle.cet_page.specs.Operands.{Leaves};
ghost use Rattle.cet_page.specs.Flow.{returned, ret, return_differs};

use cet_isa::{Arch, Fault, FaultName, RSP, Record, What, is_canonical};
use cet_page::{Cursor, Kind, Suspended, Who, general_protection, word_in};

/// Ends a return to this target; the answer is its record.
fn end_return(arch: &mut Arch, bytes: u16, target: u64) -> Record
    requires { arch.old.count < 2 ^ 32 - 1 }
    ensures { Leaves (returned arch.old bytes target) arch.new result }
{
    let ssp = arch.ssp.wrapping_add(8);
    let noted = Record {
        rip: arch.rip,
        what: What::Ret,
        code: 0,
        a: target,
        b: ssp,
    };
    arch.regs[RSP] = arch.regs[RSP].wrapping_add(8 + u64::from(bytes));
    arch.rip = target;
    arch.ssp = ssp;
    arch.count += 1;
    noted
}

/// #CP of a near return whose words differ.
fn return_differs(word: u64, shadow_word: u64) -> Fault
    ensures { result ≡ return_differs word shadow_word }
{
    Fault {
        name: FaultName::Cp,
        code: 1,
        a: word,
        b: shadow_word,
    }
}

/// A near return, which takes so many bytes more off the program stack.
#[tactic(auto, using(cet_page::proofs::ScriptLaws::play_bind), unfolding(cet_page::specs::Flow::ret, cet_page::specs::Parts::load_as))]
pub fn ret(arch: &mut Arch, bytes: u16, at: &mut Cursor) -> Result<Record, Suspended>
    requires { arch.old.count < 2 ^ 32 - 1 }
    ensures { Follows (play (ret arch.old bytes) at.old.left at.old.rest.now) arch.old arch.new result at.new.left at.new.rest.now }
{
    let sp = arch.regs[RSP];
    at.check_address(sp, 8)?;
    let page = at.look(Kind::Load, Who::User, sp)?;
    let shadow = at.look(Kind::ShadowLoad, Who::User, arch.ssp)?;
    let word = at.load(word_in(page, sp))?;
    let shadow_word = at.load(word_in(shadow, arch.ssp))?;
    if word != shadow_word {
        return Err(Suspended::Fault(return_differs(word, shadow_word)));
    }
    if !is_canonical(word) {
        return Err(general_protection());
    }
    Ok(end_return(arch, bytes, word))
}
