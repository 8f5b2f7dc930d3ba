//! rt_sigaction: the action of a signal (Linux, sigaction(2)).

ghost use Rattle.std.specs.Prelude.{◌≡◌, ◌+◌, ◌-◌, ◌^◌, ◌<◌, ◌≤◌, IfOk, IfSome};
ghost use Rattle.cet_words.specs.Layout.{action_word, word_count};
ghost use Rattle.cet_page.specs.Script.{play};
ghost use Rattle.cet_page.specs.Plays.{Refines};
ghost use Rattle.cet_page.specs.Finish.{rdi};
ghost use Rattle.cet_page.specs.Signals.{action_refused, allowed_flags, asked_action, change_action, copy_action, has_handler, is_allowed, is_code};
ghost use Rattle.cet_page.specs.Signals.{is_fixed, last_signal, load_action, new_action, old_action, rt_sigaction, set_action, set_handler};

use crate::structures::{Given, LAST_SIGNAL, MASK_SIZE, given_span};
use cet_isa::{Arch, R10, RDI, RDX, RSI, Record};
use cet_page::{Action, Cursor, Errno, Kind, Leaving, Suspended, failed, serve};
use cet_words::{Job, action_word, code_byte};

/// SIGKILL, whose action can't be changed.
const KILL: u64 = 9;

/// SIGSTOP, whose action can't be changed.
const STOP: u64 = 19;

/// The handler that stands for none; 0 is the default.
const IGNORE: u64 = 1;

/// SA_RESTORER: the action has a restorer.
const SA_RESTORER: u64 = 0x0400_0000;

/// SA_RESTORER, SA_NODEFER 0x40000000, SA_RESTART 0x10000000 and SA_SIGINFO 4: the flags that are taken.
const TAKEN_FLAGS: u64 = 0x5400_0004;

/// The last of an action's four words stands so many bytes above the first.
const ACTION_LAST: u64 = 24;

/// Whether the action of a signal can't be changed.
fn is_fixed(signal: u64) -> bool
    ensures { result ≡ is_fixed signal }
{
    signal == KILL || signal == STOP
}

/// Whether the arguments are refused: a mask has 8 bytes, signals are 1 to 31, and two can't be changed.
fn refused(signal: u64, new: u64, size: u64) -> bool
    ensures { result ≡ action_refused signal new size }
{
    size != MASK_SIZE || signal == 0 || signal > LAST_SIGNAL || new != 0 && is_fixed(signal)
}

fn allowed_flags(flags: u64) -> bool
    ensures { result ≡ allowed_flags flags }
{
    flags & SA_RESTORER == SA_RESTORER && flags | TAKEN_FLAGS == TAKEN_FLAGS
}

/// Whether an address is in an executable page of the image.
fn is_code(job: &Job, addr: u64) -> bool
    ensures { result ≡ is_code job.now addr }
{
    code_byte(job.image, addr).is_some()
}

/// Whether an action has a handler of the thread's.
fn has_handler(action: &Action) -> bool
    ensures { result ≡ has_handler action.now }
{
    action.handler > IGNORE
}

fn is_allowed(job: &Job, asked: Option<Action>) -> bool
    ensures { result ≡ is_allowed job.now asked }
{
    match asked {
        Some(action) => {
            !has_handler(&action) || allowed_flags(action.flags) && is_code(job, action.restorer)
        }
        None => true,
    }
}

/// The four words of an action.
#[tactic(auto, using(cet_page::proofs::ScriptLaws::play_bind), unfolding(cet_page::specs::Signals::load_action))]
fn load_action(word: u32, at: &mut Cursor) -> Result<Action, Suspended>
    requires { word + 24 ≤ word_count }
    ensures { Refines (play (load_action word) at.old.left at.old.rest.now) result at.new.left at.new.rest.now }
{
    let handler = at.load(word)?;
    let flags = at.load(word + 1)?;
    let restorer = at.load(word + 2)?;
    let mask = at.load(word + 3)?;
    Ok(Action {
        handler,
        flags,
        restorer,
        mask,
    })
}

/// The action that is asked for, where there is one.
#[tactic(auto, using(cet_page::proofs::ScriptLaws::play_bind), unfolding(cet_page::specs::Signals::asked_action))]
fn asked_action(new: Option<u32>, at: &mut Cursor) -> Result<Option<Action>, Suspended>
    requires { IfSome new (λ word. word + 24 ≤ word_count) }
    ensures { Refines (play (asked_action new) at.old.left at.old.rest.now) result at.new.left at.new.rest.now }
{
    let Some(word) = new else {
        return Ok(None);
    };
    let action = load_action(word, at)?;
    Ok(Some(action))
}

/// The store of a signal's action where it is asked for.
#[tactic(auto, using(cet_page::proofs::ScriptLaws::play_bind), unfolding(cet_page::specs::Signals::copy_action))]
fn copy_action(signal: u8, old: Option<u32>, at: &mut Cursor) -> Result<(), Suspended>
    requires signal { signal ≤ 31 }
    requires old { IfSome old (λ word. word + 24 ≤ word_count) }
    ensures { Refines (play (copy_action signal old) at.old.left at.old.rest.now) result at.new.left at.new.rest.now }
{
    let Some(word) = old else {
        return Ok(());
    };
    let action = load_action(action_word(signal), at)?;
    at.store_each(
        word,
        &[action.handler, action.flags, action.restorer, action.mask],
    )
}

/// An action with a handler, which is stored last.
#[tactic(auto, using(cet_page::proofs::ScriptLaws::play_bind), unfolding(cet_page::specs::Signals::set_handler))]
fn set_handler(signal: u8, action: &Action, at: &mut Cursor) -> Result<(), Suspended>
    requires { signal ≤ 31 }
    ensures { Refines (play (set_handler signal action.now) at.old.left at.old.rest.now) result at.new.left at.new.rest.now }
{
    let word = action_word(signal);
    at.store(word + 2, action.restorer)?;
    at.store(word + 1, action.flags)?;
    at.store(word + 3, action.mask)?;
    at.store(word, action.handler)
}

/// The action that is asked for; without a handler, its first word alone.
#[tactic(auto, using(cet_page::proofs::ScriptLaws::play_bind), unfolding(cet_page::specs::Signals::set_action))]
fn set_action(signal: u8, asked: Option<Action>, at: &mut Cursor) -> Result<(), Suspended>
    requires { signal ≤ 31 }
    ensures { Refines (play (set_action signal asked) at.old.left at.old.rest.now) result at.new.left at.new.rest.now }
{
    let Some(action) = asked else {
        return Ok(());
    };
    if has_handler(&action) {
        return set_handler(signal, &action, at);
    }
    at.store(action_word(signal), action.handler)
}

/// The change, by the action that is asked for.
#[tactic(auto, using(cet_page::proofs::ScriptLaws::play_bind), unfolding(cet_page::specs::Signals::change_action))]
fn change_action(
    job: &Job,
    arch: &Arch,
    old: Option<u32>,
    asked: Option<Action>,
    at: &mut Cursor,
) -> Result<(Arch, Record, Leaving), Suspended>
    requires count { arch.now.count < 2 ^ 32 - 1 }
    requires signal { rdi arch.now ≤ last_signal }
    requires old { IfSome old (λ word. word + 24 ≤ word_count) }
    ensures { Refines (play (change_action job.now arch.now old asked) at.old.left at.old.rest.now) result at.new.left at.new.rest.now }
{
    if !is_allowed(job, asked) {
        return Ok(failed(arch, Errno::Inval));
    }
    let signal = arch.regs[RDI] as u8;
    copy_action(signal, old, at)?;
    set_action(signal, asked, at)?;
    Ok(serve(arch, 0))
}

/// The service, by the words of both actions.
#[tactic(auto, using(cet_page::proofs::ScriptLaws::play_bind), unfolding(cet_page::specs::Signals::new_action))]
fn new_action(
    job: &Job,
    arch: &Arch,
    new: Option<u32>,
    old: Given,
    at: &mut Cursor,
) -> Result<(Arch, Record, Leaving), Suspended>
    requires count { arch.now.count < 2 ^ 32 - 1 }
    requires signal { rdi arch.now ≤ last_signal }
    requires new { IfSome new (λ word. word + 24 ≤ word_count) }
    requires old { IfOk old (λ found. IfSome found (λ word. word + 24 ≤ word_count)) }
    ensures { Refines (play (new_action job.now arch.now new old) at.old.left at.old.rest.now) result at.new.left at.new.rest.now }
{
    let old = match old {
        Ok(old) => old,
        Err(error) => return Ok(failed(arch, error)),
    };
    let asked = asked_action(new, at)?;
    change_action(job, arch, old, asked, at)
}

/// The service, by the words of the new action.
#[tactic(auto, using(cet_page::proofs::ScriptLaws::play_bind), unfolding(cet_page::specs::Signals::old_action))]
fn old_action(
    job: &Job,
    arch: &Arch,
    new: Given,
    at: &mut Cursor,
) -> Result<(Arch, Record, Leaving), Suspended>
    requires count { arch.now.count < 2 ^ 32 - 1 }
    requires signal { rdi arch.now ≤ last_signal }
    requires new { IfOk new (λ found. IfSome found (λ word. word + 24 ≤ word_count)) }
    ensures { Refines (play (old_action job.now arch.now new) at.old.left at.old.rest.now) result at.new.left at.new.rest.now }
{
    let new = match new {
        Ok(new) => new,
        Err(error) => return Ok(failed(arch, error)),
    };
    let old = given_span(Kind::Store, arch.regs[RDX], ACTION_LAST, at)?;
    new_action(job, arch, new, old, at)
}

/// rt_sigaction of a signal, the address of its new action, that for its old one, and the size of a mask.
#[tactic(auto, using(cet_page::proofs::ScriptLaws::play_bind), unfolding(cet_page::specs::Signals::rt_sigaction))]
pub fn rt_sigaction(
    job: &Job,
    arch: &Arch,
    at: &mut Cursor,
) -> Result<(Arch, Record, Leaving), Suspended>
    requires { arch.now.count < 2 ^ 32 - 1 }
    ensures { Refines (play (rt_sigaction job.now arch.now) at.old.left at.old.rest.now) result at.new.left at.new.rest.now }
{
    if refused(arch.regs[RDI], arch.regs[RSI], arch.regs[R10]) {
        return Ok(failed(arch, Errno::Inval));
    }
    let new = given_span(Kind::Load, arch.regs[RSI], ACTION_LAST, at)?;
    old_action(job, arch, new, at)
}
