//! tgkill: a signal for a thread (Linux, tgkill(2)).

ghost use Rattle.std.specs.Prelude.{◌≡◌, ◌+◌, ◌-◌, ◌^◌, ◌<◌, ◌≤◌, true};
ghost use Rattle.cet_page.specs.Finish.{rdx};
ghost use Rattle.cet_page.specs.Script.{play};
ghost use Rattle.cet_page.specs.Plays.{Refines};
ghost use Rattle.cet_page.specs.Signals.{is_thread, last_signal, post, tgkill};
ghost use Rattle.cet_page.specs.Structures.{signal_bit};

use crate::structures::LAST_SIGNAL;
use cet_isa::{Arch, RDI, RDX, RSI, Record};
use cet_page::{Cursor, Errno, Leaving, Suspended, failed, serve};
use cet_words::{NEXT_THREAD_WORD, THREAD_LIMIT, pend_word};

/// The process's number, and that of its first thread.
const GROUP: u64 = 1000;

/// The bit of a signal in a mask and in PEND: bit s - 1 is signal s.
pub fn signal_bit(signal: u8) -> u64
    requires low { 1 ≤ signal }
    requires high { signal ≤ 31 }
    ensures { result ≡ signal_bit signal }
{
    1 << (signal - 1)
}

/// Whether a thread of this number is born, of so many.
fn is_thread(born: u64, tid: u64) -> bool
    ensures { result ≡ is_thread born tid }
{
    tid >= GROUP && tid < GROUP + born.min(THREAD_LIMIT)
}

/// The service, by the number of threads.
#[tactic(auto, using(cet_page::proofs::ScriptLaws::play_bind), unfolding(cet_page::specs::Signals::post))]
fn post(arch: &Arch, born: u64, at: &mut Cursor) -> Result<(Arch, Record, Leaving), Suspended>
    requires count { arch.now.count < 2 ^ 32 - 1 }
    requires signal { rdx arch.now ≤ last_signal }
    ensures { Refines (play (post arch.now born) at.old.left at.old.rest.now) result at.new.left at.new.rest.now }
{
    let (tid, signal) = (arch.regs[RSI], arch.regs[RDX]);
    if !is_thread(born, tid) {
        return Ok(failed(arch, Errno::Srch));
    }
    if signal == 0 {
        return Ok(serve(arch, 0));
    }
    at.fetch_or(pend_word((tid - GROUP) as u8), signal_bit(signal as u8))?;
    Ok(serve(arch, 0))
}

/// tgkill of a group, a thread of it and a signal; signal 0 only asks for the thread.
#[tactic(auto, using(cet_page::proofs::ScriptLaws::play_bind), unfolding(cet_page::specs::Signals::tgkill))]
pub fn tgkill(arch: &Arch, at: &mut Cursor) -> Result<(Arch, Record, Leaving), Suspended>
    requires { arch.now.count < 2 ^ 32 - 1 }
    ensures { Refines (play (tgkill arch.now) at.old.left at.old.rest.now) result at.new.left at.new.rest.now }
{
    if arch.regs[RDX] > LAST_SIGNAL {
        return Ok(failed(arch, Errno::Inval));
    }
    if arch.regs[RDI] != GROUP {
        return Ok(failed(arch, Errno::Srch));
    }
    let born = at.load(NEXT_THREAD_WORD)?;
    post(arch, born, at)
}
