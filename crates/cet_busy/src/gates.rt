//! The gate's way in and way out.

ghost use Rattle.std.specs.Prelude.{◌≡◌, ◌+◌, ◌<◌, [], ◌∷◌};
ghost use Rattle.cet_words.specs.Layout.{token, token_word};
ghost use Rattle.cet_words.specs.Change.{Freed};
ghost use Rattle.cet_page.specs.Script.{play};
ghost use Rattle.cet_page.specs.Plays.{Refines};
ghost use Rattle.cet_page.specs.Parts.{compare_exchange_as};
ghost use Rattle.cet_page.specs.Gate.{busied_if, busy_record, gate_in, gate_out, stack_of};

use cet_isa::{Arch, Record, What};
use cet_page::{Cursor, Leaving, Mark, Suspended};
use cet_words::{Access, Job, KERNEL_RETURN, token, token_page, token_word};

/// The supervisor stack of a thread's processor, below 8.
pub fn stack_of(job: &Job, arch: &Arch) -> u8
    ensures value { result ≡ stack_of job.now arch.now }
    ensures range { result < 8 }
{
    arch.number % job.procs
}

/// The first exchange: it takes the supervisor stack, where it finds the token free.
#[tactic(auto, unfolding(cet_page::specs::Parts::compare_exchange_as))]
fn take_stack(k: u8, at: &mut Cursor) -> Result<u64, Suspended>
    requires { k < 8 }
    ensures { Refines (play (compare_exchange_as (busied_if k) (token_word k) (token k) (token k + 1)) at.old.left at.old.rest.now) result at.new.left at.new.rest.now }
{
    let free = token(k);
    at.ask_as(
        Access::CompareExchange(token_word(k), free, free + 1),
        Mark::Takes(k),
    )
}

/// The last exchange, which gives the supervisor stack back.
#[tactic(auto, unfolding(cet_page::specs::Parts::compare_exchange_as))]
fn give_stack(k: u8, at: &mut Cursor) -> Result<u64, Suspended>
    requires { k < 8 }
    ensures { Refines (play (compare_exchange_as (λ found. Freed k ∷ []) (token_word k) (token k + 1) (token k)) at.old.left at.old.rest.now) result at.new.left at.new.rest.now }
{
    let free = token(k);
    at.ask_as(
        Access::CompareExchange(token_word(k), free + 1, free),
        Mark::Gives,
    )
}

/// The way in to supervisor stack k. Where it is busy, the word found.
#[tactic(auto, using(cet_page::proofs::ScriptLaws::play_bind), unfolding(cet_page::specs::Gate::gate_in, cet_page::specs::Parts::compare_exchange_as))]
pub fn gate_in(k: u8, at: &mut Cursor) -> Result<Option<u64>, Suspended>
    requires { k < 8 }
    ensures { Refines (play (gate_in k) at.old.left at.old.rest.now) result at.new.left at.new.rest.now }
{
    at.read_entry(token_page(k))?;
    let free = token(k);
    let found = take_stack(k, at)?;
    if found != free {
        return Ok(Some(found));
    }
    at.store(token_word(k) - 1, KERNEL_RETURN)?;
    Ok(None)
}

/// The way out, where nothing else ends with it. What follows is the same whatever it finds.
#[tactic(auto, using(cet_page::proofs::ScriptLaws::play_bind), unfolding(cet_page::specs::Gate::gate_out))]
fn way_out(k: u8, at: &mut Cursor) -> Result<(), Suspended>
    requires { k < 8 }
    ensures { Refines (play (gate_out Leaving.Back k) at.old.left at.old.rest.now) result at.new.left at.new.rest.now }
{
    at.load(token_word(k) - 1)?;
    give_stack(k, at)?;
    Ok(())
}

/// The way out of supervisor stack k, with what ends with it.
#[tactic(auto, using(cet_page::proofs::GateLaws::comes_out))]
pub fn gate_out(k: u8, ends: Leaving, at: &mut Cursor) -> Result<(), Suspended>
    requires { k < 8 }
    ensures { Refines (play (gate_out ends k) at.old.left at.old.rest.now) result at.new.left at.new.rest.now }
{
    way_out(k, at)
}

/// The record of a busy supervisor stack: the address of its token, and the word found there.
pub fn busy_record(arch: &Arch, k: u8, found: u64) -> Record
    ensures { result ≡ busy_record arch.now k found }
{
    Record {
        rip: arch.rip,
        what: What::Busy,
        code: 0,
        a: token(k),
        b: found,
    }
}
