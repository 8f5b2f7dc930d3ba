//! The signals of faults, and the kill of the process by a signal.

ghost use Rattle.std.specs.Prelude.{◌≡◌, ◌-◌, ◌^◌, ◌<◌, ◌≤◌};
ghost use Rattle.cet_page.specs.Script.{play};
ghost use Rattle.cet_page.specs.Plays.{Refines};
ghost use Rattle.cet_page.specs.Gate.{is_masked, kill, killed, signal_of};

use cet_isa::{Arch, FaultName, Record, What};
use cet_page::{Cursor, Leaving, Suspended};
use cet_words::EXIT_WORD;

/// SIGSEGV, which also kills where a frame can't be pushed or popped.
pub const SEGV: u8 = 11;

/// SIGILL.
const ILL: u8 = 4;

/// What EXIT becomes by a kill, but for the signal.
const KILLED: u64 = 0x200;

/// The signal of a fault.
pub fn signal_of(name: FaultName) -> u8
    ensures value { result ≡ signal_of name }
    ensures low { 1 ≤ result }
    ensures high { result ≤ 31 }
{
    match name {
        FaultName::Ud => ILL,
        FaultName::Gp | FaultName::Pf | FaultName::Ac | FaultName::Cp => SEGV,
    }
}

/// Whether a signal is in a mask, of which bit s - 1 is signal s.
pub fn is_masked(mask: u64, signal: u8) -> bool
    requires low { 1 ≤ signal }
    requires high { signal ≤ 31 }
    ensures { result ≡ is_masked mask signal }
{
    mask >> (signal - 1) & 1 == 1
}

fn killed(arch: &Arch, signal: u8, before: u64) -> (Arch, Record, Leaving)
    requires { arch.now.count < 2 ^ 32 - 1 }
    ensures { result ≡ killed arch.now signal before }
{
    let mut after = *arch;
    after.due = None;
    after.count = arch.count + 1;
    let noted = Record {
        rip: arch.rip,
        what: What::Kill,
        code: 0,
        a: u64::from(signal),
        b: before,
    };
    (after, noted, Leaving::Back)
}

/// The kill of the process by a signal.
#[tactic(auto, using(cet_page::proofs::ScriptLaws::play_bind), unfolding(cet_page::specs::Gate::kill))]
pub fn kill(arch: &Arch, signal: u8, at: &mut Cursor) -> Result<(Arch, Record, Leaving), Suspended>
    requires { arch.now.count < 2 ^ 32 - 1 }
    ensures { Refines (play (kill arch.now signal) at.old.left at.old.rest.now) result at.new.left at.new.rest.now }
{
    let before = at.compare_exchange(EXIT_WORD, 0, KILLED + u64::from(signal))?;
    Ok(killed(arch, signal, before))
}
