//! INCSSPQ: the newest elements of the shadow stack go (Intel SDM volume 2).

ghost use Rattle.std.specs.Prelude.{◌≡◌, ◌-◌, ◌^◌, ◌<◌};
ghost use Rattle.cet_page.specs.Script.{play};
ghost use Rattle.cet_page.specs.Plays.{Refines, Follows};
ghost use Rattle.cet_page.specs.Operands.{Leaves};
ghost use Rattle.cet_page.specs.Parts.{look_as};
ghost use Rattle.cet_page.specs.ShadowStacks.{raised, raised_if, incsspq};

use cet_isa::{Arch, Record, What};
use cet_page::{Cursor, Kind, Suspended, Who};

/// Ends INCSSPQ; the answer is its record.
fn end_incsspq(arch: &mut Arch, count: u8, next: u64) -> Record
    requires { arch.old.count < 2 ^ 32 - 1 }
    ensures { Leaves (raised arch.old count next) arch.new result }
{
    let ssp = arch.ssp.wrapping_add(8 * u64::from(count));
    let noted = Record {
        rip: arch.rip,
        what: What::Raise,
        code: 0,
        a: ssp,
        b: u64::from(count),
    };
    arch.rip = next;
    arch.ssp = ssp;
    arch.count += 1;
    noted
}

/// The look at the last of so many elements, with which they go.
#[tactic(auto)]
fn look_last(count: u8, addr: u64, at: &mut Cursor) -> Result<u32, Suspended>
    ensures { Refines (play (look_as (raised_if count) Kind.ShadowLoad Who.User addr) at.old.left at.old.rest.now) result at.new.left at.new.rest.now }
{
    at.look_as(Kind::ShadowLoad, Who::User, addr)
}

/// INCSSPQ by so many elements. The first and the last of them are touched; for a count of 0 both looks are at SSP.
#[tactic(auto, using(cet_page::proofs::ScriptLaws::play_bind), unfolding(cet_page::specs::ShadowStacks::incsspq))]
pub fn incsspq(arch: &mut Arch, count: u8, next: u64, at: &mut Cursor) -> Result<Record, Suspended>
    requires { arch.old.count < 2 ^ 32 - 1 }
    ensures { Follows (play (incsspq arch.old count next) at.old.left at.old.rest.now) arch.old arch.new result at.new.left at.new.rest.now }
{
    let last = u64::from(count.max(1) - 1);
    let _first = at.look(Kind::ShadowLoad, Who::User, arch.ssp)?;
    let _last = look_last(count, arch.ssp.wrapping_add(8 * last), at)?;
    Ok(end_incsspq(arch, count, next))
}
