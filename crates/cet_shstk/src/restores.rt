//! RSTORSSP: another shadow stack is taken by its restore token (Intel SDM volume 2).

ghost use Rattle.std.specs.Prelude.{◌≡◌, ◌-◌, ◌^◌, ◌<◌};
ghost use Rattle.cet_page.specs.Script.{play};
ghost use Rattle.cet_page.specs.Plays.{Follows};
ghost use Rattle.cet_page.specs.Operands.{Leaves};
ghost use Rattle.cet_page.specs.ShadowStacks.{restored, rstorssp, no_restore_token};

use cet_isa::{Arch, Fault, FaultName, Record, What};
use cet_page::{Cursor, Kind, Suspended, Who, previous_token, restore_token_at, word_in};

/// RFLAGS with CF, PF, AF, ZF, SF and OF clear.
const CLEAR: u64 = 2;

/// Ends RSTORSSP; the answer is its record.
fn end_rstorssp(arch: &mut Arch, addr: u64, next: u64) -> Record
    requires { arch.old.count < 2 ^ 32 - 1 }
    ensures { Leaves (restored arch.old addr next) arch.new result }
{
    let noted = Record {
        rip: arch.rip,
        what: What::Take,
        code: 0,
        a: addr,
        b: arch.ssp,
    };
    arch.rip = next;
    arch.flags = CLEAR;
    arch.ssp = addr;
    arch.count += 1;
    noted
}

/// #CP(RSTORSSP): the word found at the address is no restore token for it.
fn no_restore_token(addr: u64, found: u64) -> Fault
    ensures { result ≡ no_restore_token addr found }
{
    Fault {
        name: FaultName::Cp,
        code: 4,
        a: addr,
        b: found,
    }
}

/// RSTORSSP at an address, where a misaligned address is #GP(0). The token is tested and replaced by one
/// exchange, so of two threads that want it one gets it.
#[tactic(auto, using(cet_page::proofs::ScriptLaws::play_bind), unfolding(cet_page::specs::ShadowStacks::rstorssp, cet_page::specs::Parts::compare_exchange_as))]
pub fn rstorssp(arch: &mut Arch, addr: u64, next: u64, at: &mut Cursor) -> Result<Record, Suspended>
    requires { arch.old.count < 2 ^ 32 - 1 }
    ensures { Follows (play (rstorssp arch.old addr next) at.old.left at.old.rest.now) arch.old arch.new result at.new.left at.new.rest.now }
{
    let token = restore_token_at(addr);
    at.check_address_gp(addr, 8)?;
    let page = at.look(Kind::ShadowStore, Who::User, addr)?;
    let found = at.compare_exchange(word_in(page, addr), token, previous_token(arch.ssp))?;
    if found != token {
        return Err(Suspended::Fault(no_restore_token(addr, found)));
    }
    Ok(end_rstorssp(arch, addr, next))
}
