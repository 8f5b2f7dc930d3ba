//! exit and exit_group: the end of a thread, and of the process.

ghost use Rattle.std.specs.Prelude.{◌≡◌, ◌+◌, ◌-◌, ◌^◌, ◌<◌};
ghost use Rattle.cet_page.specs.Script.{play};
ghost use Rattle.cet_page.specs.Plays.{Refines};
ghost use Rattle.cet_page.specs.Finish.{IsMade};
ghost use Rattle.cet_page.specs.Processes.{exit, exit_group, exit_status};

use cet_isa::{Arch, RDI, Record};
use cet_page::{Cursor, Leaving, Suspended, counted, serve, sys_record};
use cet_words::{EXIT_WORD, FIRST_ENTRY_WORD, FIRST_SHADOW_PAGE, SHADOW_START};

/// What EXIT holds above the status of an exit_group.
const ENDED: u64 = 0x100;

/// The pages of the shadow stack that the kernel made for a thread.
pub const THREAD_PAGES: u32 = 8;

/// The low byte of RDI.
fn exit_status(arch: &Arch) -> u8
    ensures { result ≡ exit_status arch.now }
{
    (arch.regs[RDI] % 256) as u8
}

/// exit, which ends the thread: the pages of its shadow stack become absent.
#[tactic(auto, using(cet_page::proofs::ScriptLaws::play_bind), unfolding(cet_page::specs::Processes::exit))]
pub fn exit(arch: &Arch, at: &mut Cursor) -> Result<(Arch, Record, Leaving), Suspended>
    requires count { arch.now.count < 2 ^ 32 - 1 }
    requires made { IsMade arch.now.made }
    ensures { Refines (play (exit arch.now) at.old.left at.old.rest.now) result at.new.left at.new.rest.now }
{
    let page = FIRST_SHADOW_PAGE + ((arch.made - SHADOW_START) / 4096) as u32;
    at.stores(THREAD_PAGES, FIRST_ENTRY_WORD + page, 0, 0)?;
    let status = exit_status(arch);
    let noted = sys_record(arch, u64::from(status));
    Ok((counted(arch), noted, Leaving::Ended(status)))
}

/// exit_group, which ends the process, where none has ended it before. The thread goes on to its next
/// boundary.
#[tactic(auto, using(cet_page::proofs::ScriptLaws::play_bind), unfolding(cet_page::specs::Processes::exit_group))]
pub fn exit_group(arch: &Arch, at: &mut Cursor) -> Result<(Arch, Record, Leaving), Suspended>
    requires { arch.now.count < 2 ^ 32 - 1 }
    ensures { Refines (play (exit_group arch.now) at.old.left at.old.rest.now) result at.new.left at.new.rest.now }
{
    let status = u64::from(exit_status(arch));
    at.compare_exchange(EXIT_WORD, 0, ENDED + status)?;
    Ok(serve(arch, status))
}
