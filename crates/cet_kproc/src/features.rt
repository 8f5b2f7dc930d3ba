//! arch_prctl: the features of shadow stacks, of which all are locked (Linux, Documentation/arch/x86/shstk.rst).

ghost use Rattle.std.specs.Prelude.{◌≡◌, ◌-◌, ◌^◌, ◌<◌, IfSome};
ghost use Rattle.cet_words.specs.Layout.{page_count};
ghost use Rattle.cet_page.specs.Script.{play};
ghost use Rattle.cet_page.specs.Plays.{Refines};
ghost use Rattle.cet_page.specs.Processes.{arch_prctl, arch_prctl_of, put_status, tell_status};

use cet_isa::{Arch, RDI, RSI, Record};
use cet_page::{Cursor, Errno, Kind, Leaving, Suspended, Who, failed, serve, word_in};

/// ARCH_SHSTK_ENABLE, which turns a feature on.
const ENABLE: u64 = 0x5001;

/// ARCH_SHSTK_DISABLE, which turns a feature off.
const DISABLE: u64 = 0x5002;

/// ARCH_SHSTK_LOCK, which locks features as they are.
const LOCK: u64 = 0x5003;

/// ARCH_SHSTK_STATUS, which tells the features that are on.
const STATUS: u64 = 0x5005;

/// ARCH_SHSTK_SHSTK, shadow stacks.
const SHADOW_STACKS: u64 = 1;

/// The features that are on are stored where the page allows it.
#[tactic(auto, using(cet_page::proofs::ScriptLaws::play_bind), unfolding(cet_page::specs::Processes::put_status))]
fn put_status(
    arch: &Arch,
    addr: u64,
    page: Option<u32>,
    at: &mut Cursor,
) -> Result<(Arch, Record, Leaving), Suspended>
    requires count { arch.now.count < 2 ^ 32 - 1 }
    requires page { IfSome page (λ p. p < page_count) }
    ensures { Refines (play (put_status arch.now addr page) at.old.left at.old.rest.now) result at.new.left at.new.rest.now }
{
    let Some(page) = page else {
        return Ok(failed(arch, Errno::Fault));
    };
    at.store(word_in(page, addr), SHADOW_STACKS)?;
    Ok(serve(arch, 0))
}

#[tactic(auto, using(cet_page::proofs::ScriptLaws::play_bind), unfolding(cet_page::specs::Processes::tell_status))]
fn tell_status(
    arch: &Arch,
    addr: u64,
    at: &mut Cursor,
) -> Result<(Arch, Record, Leaving), Suspended>
    requires { arch.now.count < 2 ^ 32 - 1 }
    ensures { Refines (play (tell_status arch.now addr) at.old.left at.old.rest.now) result at.new.left at.new.rest.now }
{
    let page = at.probe(Kind::Store, Who::User, addr)?;
    put_status(arch, addr, page, at)
}

fn arch_prctl_of(
    arch: &Arch,
    code: u64,
    argument: u64,
    at: &mut Cursor,
) -> Result<(Arch, Record, Leaving), Suspended>
    requires { arch.now.count < 2 ^ 32 - 1 }
    ensures { Refines (play (arch_prctl_of arch.now code argument) at.old.left at.old.rest.now) result at.new.left at.new.rest.now }
{
    match code {
        ENABLE | DISABLE if argument == 0 => Ok(failed(arch, Errno::Inval)),
        ENABLE | DISABLE => Ok(failed(arch, Errno::Perm)),
        LOCK => Ok(serve(arch, 0)),
        STATUS if argument % 8 != 0 => Ok(failed(arch, Errno::Fault)),
        STATUS => tell_status(arch, argument, at),
        _ => Ok(failed(arch, Errno::Inval)),
    }
}

/// arch_prctl of a code and an argument.
pub fn arch_prctl(arch: &Arch, at: &mut Cursor) -> Result<(Arch, Record, Leaving), Suspended>
    requires { arch.now.count < 2 ^ 32 - 1 }
    ensures { Refines (play (arch_prctl arch.now) at.old.left at.old.rest.now) result at.new.left at.new.rest.now }
{
    arch_prctl_of(arch, arch.regs[RDI], arch.regs[RSI], at)
}
