//! The delivery of a pending signal and of a due fault (Linux, signal(7)).

ghost use Rattle.std.specs.Prelude.{◌≡◌, ◌-◌, ◌^◌, ◌<◌, ◌≤◌};
ghost use Rattle.cet_page.specs.Script.{play};
ghost use Rattle.cet_page.specs.Plays.{Refines};
ghost use Rattle.cet_page.specs.Delivery.{enter_handler, fault_delivery, handle, ignore, ignored, pending_delivery};

use crate::frames::{frame_places, push_or_kill};
use crate::kills::{is_masked, kill, signal_of};
use crate::posts::signal_bit;
use cet_isa::{Arch, Fault, Record, What};
use cet_page::{Action, Cursor, Leaving, Suspended};
use cet_words::{action_word, pend_word};

/// The handler that stands for the kill.
const DEFAULT: u64 = 0;

/// The handler that stands for none.
const IGNORE: u64 = 1;

fn ignored(arch: &Arch, signal: u8) -> (Arch, Record, Leaving)
    requires { arch.now.count < 2 ^ 32 - 1 }
    ensures { result ≡ ignored arch.now signal }
{
    let mut after = *arch;
    after.count = arch.count + 1;
    let noted = Record {
        rip: arch.rip,
        what: What::Ignore,
        code: 0,
        a: u64::from(signal),
        b: 0,
    };
    (after, noted, Leaving::Back)
}

/// A signal that was sent is passed over, and one of a fault kills.
fn ignore(
    arch: &Arch,
    signal: u8,
    cause: Option<Fault>,
    at: &mut Cursor,
) -> Result<(Arch, Record, Leaving), Suspended>
    requires { arch.now.count < 2 ^ 32 - 1 }
    ensures { Refines (play (ignore arch.now signal cause) at.old.left at.old.rest.now) result at.new.left at.new.rest.now }
{
    match cause {
        Some(_) => kill(arch, signal, at),
        None => Ok(ignored(arch, signal)),
    }
}

/// The delivery to a handler of the thread's.
#[tactic(auto, using(cet_page::proofs::ScriptLaws::play_bind), unfolding(cet_page::specs::Delivery::enter_handler))]
fn enter_handler(
    arch: &Arch,
    signal: u8,
    cause: Option<Fault>,
    handler: u64,
    at: &mut Cursor,
) -> Result<(Arch, Record, Leaving), Suspended>
    requires low { 1 ≤ signal }
    requires high { signal ≤ 31 }
    requires count { arch.now.count < 2 ^ 32 - 1 }
    ensures { Refines (play (enter_handler arch.now signal cause handler) at.old.left at.old.rest.now) result at.new.left at.new.rest.now }
{
    let word = action_word(signal);
    let flags = at.load(word + 1)?;
    let restorer = at.load(word + 2)?;
    let mask = at.load(word + 3)?;
    let places = frame_places(arch, at)?;
    let action = Action {
        handler,
        flags,
        restorer,
        mask,
    };
    push_or_kill(arch, signal, cause, &action, places, at)
}

/// The delivery, by what the signal's handler is.
#[tactic(auto, using(cet_page::proofs::ScriptLaws::play_bind), unfolding(cet_page::specs::Delivery::handle))]
fn handle(
    arch: &Arch,
    signal: u8,
    cause: Option<Fault>,
    at: &mut Cursor,
) -> Result<(Arch, Record, Leaving), Suspended>
    requires low { 1 ≤ signal }
    requires high { signal ≤ 31 }
    requires count { arch.now.count < 2 ^ 32 - 1 }
    ensures { Refines (play (handle arch.now signal cause) at.old.left at.old.rest.now) result at.new.left at.new.rest.now }
{
    match at.load(action_word(signal))? {
        DEFAULT => kill(arch, signal, at),
        IGNORE => ignore(arch, signal, cause, at),
        handler => enter_handler(arch, signal, cause, handler, at),
    }
}

/// The delivery of a pending signal, which is pending no longer.
#[tactic(auto, using(cet_page::proofs::ScriptLaws::play_bind), unfolding(cet_page::specs::Delivery::pending_delivery))]
pub fn pending_delivery(
    arch: &Arch,
    signal: u8,
    at: &mut Cursor,
) -> Result<(Arch, Record, Leaving), Suspended>
    requires low { 1 ≤ signal }
    requires high { signal ≤ 31 }
    requires count { arch.now.count < 2 ^ 32 - 1 }
    ensures { Refines (play (pending_delivery arch.now signal) at.old.left at.old.rest.now) result at.new.left at.new.rest.now }
{
    at.fetch_and(pend_word(arch.number), !signal_bit(signal))?;
    handle(arch, signal, None, at)
}

/// The delivery of a due fault; one whose signal is masked kills.
#[tactic(auto, unfolding(cet_page::specs::Delivery::fault_delivery))]
pub fn fault_delivery(
    arch: &Arch,
    fault: &Fault,
    at: &mut Cursor,
) -> Result<(Arch, Record, Leaving), Suspended>
    requires { arch.now.count < 2 ^ 32 - 1 }
    ensures { Refines (play (fault_delivery arch.now fault.now) at.old.left at.old.rest.now) result at.new.left at.new.rest.now }
{
    let signal = signal_of(fault.name);
    if is_masked(arch.mask, signal) {
        return kill(arch, signal, at);
    }
    handle(arch, signal, Some(*fault), at)
}
