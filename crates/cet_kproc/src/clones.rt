//! clone: a new thread of the process, with a shadow stack of its own.

ghost use Rattle.std.specs.Prelude.{◌≡◌, ◌+◌, ◌-◌, ◌^◌, ◌<◌, ◌≤◌, true};
ghost use Rattle.cet_words.specs.Layout.{draw_shadow_word, next_thread_word};
ghost use Rattle.cet_page.specs.Script.{play};
ghost use Rattle.cet_page.specs.Plays.{Refines};
ghost use Rattle.cet_page.specs.Parts.{fetch_add_as};
ghost use Rattle.cet_page.specs.MapShadowStack.{claimed_if, drawn_start};
ghost use Rattle.cet_page.specs.Processes.{bear, bear_by, bear_drawn, bore, born_if, clone, clone_of, draw_thread, give_up, makes_thread, thread_id, thread_pages};

use crate::exits::THREAD_PAGES;
use cet_isa::{Arch, RDI, RSI, Record, What};
use cet_page::{Cursor, Errno, Leaving, Mark, Suspended, can_draw, failed, served};
use cet_words::{
    Access, DRAW_SHADOW_WORD, FIRST_ENTRY_WORD, FIRST_SHADOW_PAGE, NEXT_THREAD_WORD, SHADOW_START,
    THREAD_LIMIT, THREAD_REGION_SIZE, shadow_entry,
};

/// CLONE_VM, CLONE_SIGHAND and CLONE_THREAD.
const NEEDED: u64 = 0x1_0900;

/// CLONE_FS, CLONE_FILES and CLONE_SYSVSEM.
const ALLOWED: u64 = 0x4_0600;

/// The pages of a thread's shadow stack, and the one below them that stays absent.
const DRAWN_PAGES: u64 = 9;

/// The id of thread 0, which is the process's.
const FIRST_ID: u64 = 1000;

/// The id of a thread.
pub fn thread_id(number: u64) -> u64
    requires { number < 2 ^ 32 }
    ensures { result ≡ thread_id number }
{
    FIRST_ID + number
}

/// Whether the flags are those of a thread: all that are needed, and no others but those that are allowed.
fn makes_thread(flags: u64) -> bool
    ensures { result ≡ makes_thread flags }
{
    flags | ALLOWED == NEEDED + ALLOWED
}

fn bore(arch: &Arch, child: u64, start: u64) -> (Arch, Record, Leaving)
    requires count { arch.now.count < 2 ^ 32 - 1 }
    requires child { child < 32 }
    requires start { start < 2 ^ 63 }
    ensures { result ≡ bore arch.now child start }
{
    let noted = Record {
        rip: arch.rip,
        what: What::Born,
        code: 0,
        a: child,
        b: start + THREAD_REGION_SIZE,
    };
    (served(arch, thread_id(child)), noted, Leaving::Back)
}

/// No further thread can be: the pages become absent again.
#[tactic(auto, using(cet_page::proofs::ScriptLaws::play_bind), unfolding(cet_page::specs::Processes::give_up))]
fn give_up(arch: &Arch, page: u32, at: &mut Cursor) -> Result<(Arch, Record, Leaving), Suspended>
    requires count { arch.now.count < 2 ^ 32 - 1 }
    requires page { page ≤ 3136 }
    ensures { Refines (play (give_up arch.now page) at.old.left at.old.rest.now) result at.new.left at.new.rest.now }
{
    at.stores(THREAD_PAGES, FIRST_ENTRY_WORD + page, 0, 0)?;
    Ok(failed(arch, Errno::Again))
}

/// By the child's number: below 32 it is born.
fn bear_by(
    arch: &Arch,
    drawn: u64,
    child: u64,
    at: &mut Cursor,
) -> Result<(Arch, Record, Leaving), Suspended>
    requires count { arch.now.count < 2 ^ 32 - 1 }
    requires drawn { drawn + 9 ≤ 1023 }
    ensures { Refines (play (bear_by arch.now drawn child) at.old.left at.old.rest.now) result at.new.left at.new.rest.now }
{
    if child < THREAD_LIMIT {
        return Ok(bore(arch, child, SHADOW_START + 4096 * (drawn + 1)));
    }
    give_up(arch, FIRST_SHADOW_PAGE + (drawn as u32 + 1), at)
}

/// The draw of the child's number, with which the child is born that has its shadow stack at this address.
#[tactic(auto, unfolding(cet_page::specs::Parts::fetch_add_as))]
fn draw_number(start: u64, at: &mut Cursor) -> Result<u64, Suspended>
    ensures { Refines (play (fetch_add_as (born_if start) next_thread_word 1) at.old.left at.old.rest.now) result at.new.left at.new.rest.now }
{
    at.ask_as(Access::FetchAdd(NEXT_THREAD_WORD, 1), Mark::Bears(start))
}

/// A child on the shadow stack whose place was drawn: the entries of its pages, and then its number.
#[tactic(auto, using(cet_page::proofs::ScriptLaws::play_bind), unfolding(cet_page::specs::Processes::bear))]
fn bear(arch: &Arch, drawn: u64, at: &mut Cursor) -> Result<(Arch, Record, Leaving), Suspended>
    requires count { arch.now.count < 2 ^ 32 - 1 }
    requires drawn { drawn + 9 ≤ 1023 }
    ensures { Refines (play (bear arch.now drawn) at.old.left at.old.rest.now) result at.new.left at.new.rest.now }
{
    let page = FIRST_SHADOW_PAGE + (drawn as u32 + 1);
    let entry = FIRST_ENTRY_WORD + page;
    at.stores(THREAD_PAGES, entry, shadow_entry(page), 4096)?;
    let child = draw_number(SHADOW_START + 4096 * (drawn + 1), at)?;
    bear_by(arch, drawn, child, at)
}

fn bear_drawn(
    arch: &Arch,
    drawn: u64,
    at: &mut Cursor,
) -> Result<(Arch, Record, Leaving), Suspended>
    requires { arch.now.count < 2 ^ 32 - 1 }
    ensures { Refines (play (bear_drawn arch.now drawn) at.old.left at.old.rest.now) result at.new.left at.new.rest.now }
{
    if !can_draw(u64::from(THREAD_PAGES), drawn) {
        return Ok(failed(arch, Errno::NoMem));
    }
    bear(arch, drawn, at)
}

/// The draw of the place of the child's shadow stack.
#[tactic(auto, unfolding(cet_page::specs::Parts::fetch_add_as))]
fn draw_pages(at: &mut Cursor) -> Result<u64, Suspended>
    ensures { Refines (play (fetch_add_as (claimed_if thread_pages true) draw_shadow_word (thread_pages + 1)) at.old.left at.old.rest.now) result at.new.left at.new.rest.now }
{
    at.fetch_add(DRAW_SHADOW_WORD, DRAWN_PAGES)
}

#[tactic(auto, using(cet_page::proofs::ScriptLaws::play_bind), unfolding(cet_page::specs::Processes::draw_thread))]
fn draw_thread(arch: &Arch, at: &mut Cursor) -> Result<(Arch, Record, Leaving), Suspended>
    requires { arch.now.count < 2 ^ 32 - 1 }
    ensures { Refines (play (draw_thread arch.now) at.old.left at.old.rest.now) result at.new.left at.new.rest.now }
{
    let drawn = draw_pages(at)?;
    bear_drawn(arch, drawn, at)
}

/// clone of flags and the child's program stack. The child is made by the access that draws its number.
pub fn clone(arch: &Arch, at: &mut Cursor) -> Result<(Arch, Record, Leaving), Suspended>
    requires { arch.now.count < 2 ^ 32 - 1 }
    ensures { Refines (play (clone arch.now) at.old.left at.old.rest.now) result at.new.left at.new.rest.now }
{
    let (flags, stack) = (arch.regs[RDI], arch.regs[RSI]);
    if !makes_thread(flags) || stack == 0 {
        return Ok(failed(arch, Errno::Inval));
    }
    draw_thread(arch, at)
}
