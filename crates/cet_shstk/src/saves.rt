//! SAVEPREVSSP: the shadow stack that was left gets a restore token (Intel SDM volume 2).

ghost use Rattle.std.specs.Prelude.{◌≡◌, ◌-◌, ◌^◌, ◌<◌};
ghost use Rattle.cet_page.specs.Script.{play};
ghost use Rattle.cet_page.specs.Plays.{Follows};
ghost use Rattle.cet_page.specs.Operands.{Leaves};
ghost use Rattle.cet_page.specs.ShadowStacks.{saved, save, save_checked, save_by, saveprevssp};

use cet_isa::{Arch, Record, What, is_canonical};
use cet_page::{
    Cursor, Kind, Suspended, Who, general_protection, is_previous_token, previous_ssp,
    restore_token, saved_at, word_in,
};

/// Ends SAVEPREVSSP; the answer is its record.
fn end_saveprevssp(arch: &mut Arch, addr: u64, next: u64) -> Record
    requires { arch.old.count < 2 ^ 32 - 1 }
    ensures { Leaves (saved arch.old addr next) arch.new result }
{
    let ssp = arch.ssp.wrapping_add(8);
    let noted = Record {
        rip: arch.rip,
        what: What::Save,
        code: 0,
        a: addr,
        b: ssp,
    };
    arch.rip = next;
    arch.ssp = ssp;
    arch.count += 1;
    noted
}

/// The restore token of the shadow stack that was left at this pointer is stored below it.
#[tactic(auto, using(cet_page::proofs::ScriptLaws::play_bind), unfolding(cet_page::specs::ShadowStacks::save, cet_page::specs::Parts::store_as))]
fn save(arch: &mut Arch, ssp: u64, next: u64, at: &mut Cursor) -> Result<Record, Suspended>
    requires { arch.old.count < 2 ^ 32 - 1 }
    ensures { Follows (play (save arch.old ssp next) at.old.left at.old.rest.now) arch.old arch.new result at.new.left at.new.rest.now }
{
    let addr = saved_at(ssp);
    let page = at.look(Kind::ShadowStore, Who::User, addr)?;
    at.store(word_in(page, addr), restore_token(ssp))?;
    Ok(end_saveprevssp(arch, addr, next))
}

/// The address of the token must be canonical, else #GP(0).
fn save_checked(arch: &mut Arch, ssp: u64, next: u64, at: &mut Cursor) -> Result<Record, Suspended>
    requires { arch.old.count < 2 ^ 32 - 1 }
    ensures { Follows (play (save_checked arch.old ssp next) at.old.left at.old.rest.now) arch.old arch.new result at.new.left at.new.rest.now }
{
    if !is_canonical(saved_at(ssp)) {
        return Err(general_protection());
    }
    save(arch, ssp, next, at)
}

/// What the word at SSP leads to: CF set is #GP(0), and so is a word that is no previous-SSP token.
fn save_by(arch: &mut Arch, word: u64, next: u64, at: &mut Cursor) -> Result<Record, Suspended>
    requires { arch.old.count < 2 ^ 32 - 1 }
    ensures { Follows (play (save_by arch.old word next) at.old.left at.old.rest.now) arch.old arch.new result at.new.left at.new.rest.now }
{
    if arch.flags % 2 == 1 {
        return Err(general_protection());
    }
    if !is_previous_token(word) {
        return Err(general_protection());
    }
    save_checked(arch, previous_ssp(word), next, at)
}

/// SAVEPREVSSP. The word at SSP is read before CF is tested.
#[tactic(auto, using(cet_page::proofs::ScriptLaws::play_bind), unfolding(cet_page::specs::ShadowStacks::saveprevssp))]
pub fn saveprevssp(arch: &mut Arch, next: u64, at: &mut Cursor) -> Result<Record, Suspended>
    requires { arch.old.count < 2 ^ 32 - 1 }
    ensures { Follows (play (saveprevssp arch.old next) at.old.left at.old.rest.now) arch.old arch.new result at.new.left at.new.rest.now }
{
    let page = at.look(Kind::ShadowLoad, Who::User, arch.ssp)?;
    let word = at.load(word_in(page, arch.ssp))?;
    save_by(arch, word, next, at)
}
