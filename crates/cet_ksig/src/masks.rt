//! rt_sigprocmask: the mask of signals (Linux, sigprocmask(2)).

ghost use Rattle.std.specs.Prelude.{◌≡◌, ◌+◌, ◌-◌, ◌^◌, ◌<◌, ◌≤◌, IfOk, IfSome};
ghost use Rattle.cet_words.specs.Layout.{word_count};
ghost use Rattle.cet_page.specs.Script.{play};
ghost use Rattle.cet_page.specs.Plays.{Refines};
ghost use Rattle.cet_page.specs.Signals.{asked_mask, change_mask, copy_mask, mask_by, mask_refused, new_mask, old_mask, rt_sigprocmask};

use crate::structures::{Given, MASK_SIZE, given_word, maskable, without};
use cet_isa::{Arch, R10, RDI, RDX, RSI, Record};
use cet_page::{Cursor, Errno, Kind, Leaving, Suspended, failed, serve};

/// SIG_BLOCK: the set is added.
const BLOCK: u64 = 0;

/// SIG_UNBLOCK: the set is removed.
const UNBLOCK: u64 = 1;

/// SIG_SETMASK, the last way: the set is the mask.
const SET_MASK: u64 = 2;

fn refused(how: u64, set: u64, size: u64) -> bool
    ensures { result ≡ mask_refused how set size }
{
    size != MASK_SIZE || set != 0 && how > SET_MASK
}

fn mask_by(how: u64, mask: u64, set: u64) -> u64
    ensures { result ≡ mask_by how mask set }
{
    match how {
        BLOCK => mask | set,
        UNBLOCK => without(mask, set),
        _ => set,
    }
}

/// The mask by a set, where there is one.
fn new_mask(arch: &Arch, set: Option<u64>) -> u64
    ensures { result ≡ new_mask arch.now set }
{
    match set {
        Some(set) => maskable(mask_by(arch.regs[RDI], arch.mask, set)),
        None => arch.mask,
    }
}

#[tactic(auto, using(cet_page::proofs::ScriptLaws::play_bind), unfolding(cet_page::specs::Signals::asked_mask))]
fn asked_mask(arch: &Arch, set: Option<u32>, at: &mut Cursor) -> Result<u64, Suspended>
    requires { IfSome set (λ word. word + 24 ≤ word_count) }
    ensures { Refines (play (asked_mask arch.now set) at.old.left at.old.rest.now) result at.new.left at.new.rest.now }
{
    let Some(word) = set else {
        return Ok(new_mask(arch, None));
    };
    let set = at.load(word)?;
    Ok(new_mask(arch, Some(set)))
}

#[tactic(auto, unfolding(cet_page::specs::Signals::copy_mask))]
fn copy_mask(arch: &Arch, old: Option<u32>, at: &mut Cursor) -> Result<(), Suspended>
    requires { IfSome old (λ word. word + 24 ≤ word_count) }
    ensures { Refines (play (copy_mask arch.now old) at.old.left at.old.rest.now) result at.new.left at.new.rest.now }
{
    match old {
        Some(word) => at.store(word, arch.mask),
        None => Ok(()),
    }
}

/// The service, by the words of both masks.
#[tactic(auto, using(cet_page::proofs::ScriptLaws::play_bind), unfolding(cet_page::specs::Signals::change_mask))]
fn change_mask(
    arch: &Arch,
    set: Option<u32>,
    old: Given,
    at: &mut Cursor,
) -> Result<(Arch, Record, Leaving), Suspended>
    requires count { arch.now.count < 2 ^ 32 - 1 }
    requires set { IfSome set (λ word. word + 24 ≤ word_count) }
    requires old { IfOk old (λ found. IfSome found (λ word. word + 24 ≤ word_count)) }
    ensures { Refines (play (change_mask arch.now set old) at.old.left at.old.rest.now) result at.new.left at.new.rest.now }
{
    let old = match old {
        Ok(old) => old,
        Err(error) => return Ok(failed(arch, error)),
    };
    let mask = asked_mask(arch, set, at)?;
    copy_mask(arch, old, at)?;
    let mut after = *arch;
    after.mask = mask;
    Ok(serve(&after, 0))
}

/// The service, by the word of the set.
#[tactic(auto, using(cet_page::proofs::ScriptLaws::play_bind), unfolding(cet_page::specs::Signals::old_mask))]
fn old_mask(arch: &Arch, set: Given, at: &mut Cursor) -> Result<(Arch, Record, Leaving), Suspended>
    requires count { arch.now.count < 2 ^ 32 - 1 }
    requires set { IfOk set (λ found. IfSome found (λ word. word + 24 ≤ word_count)) }
    ensures { Refines (play (old_mask arch.now set) at.old.left at.old.rest.now) result at.new.left at.new.rest.now }
{
    let set = match set {
        Ok(set) => set,
        Err(error) => return Ok(failed(arch, error)),
    };
    let old = given_word(Kind::Store, arch.regs[RDX], at)?;
    change_mask(arch, set, old, at)
}

/// rt_sigprocmask: how, the address of a set, that for the old mask, and the size of a mask.
#[tactic(auto, using(cet_page::proofs::ScriptLaws::play_bind), unfolding(cet_page::specs::Signals::rt_sigprocmask))]
pub fn rt_sigprocmask(arch: &Arch, at: &mut Cursor) -> Result<(Arch, Record, Leaving), Suspended>
    requires { arch.now.count < 2 ^ 32 - 1 }
    ensures { Refines (play (rt_sigprocmask arch.now) at.old.left at.old.rest.now) result at.new.left at.new.rest.now }
{
    if refused(arch.regs[RDI], arch.regs[RSI], arch.regs[R10]) {
        return Ok(failed(arch, Errno::Inval));
    }
    let set = given_word(Kind::Load, arch.regs[RSI], at)?;
    old_mask(arch, set, at)
}
