//! Where a thread's structures lie that the kernel reads or writes, and the arguments of services.

ghost use Rattle.std.specs.Prelude.{◌≡◌, ◌+◌, ◌≤◌, IfOk, IfSome};
ghost use Rattle.cet_words.specs.Layout.{word_count};
ghost use Rattle.cet_page.specs.Script.{play};
ghost use Rattle.cet_page.specs.Plays.{Refines};
ghost use Rattle.cet_page.specs.Structures.{given, given_at, given_span, given_word, maskable, one_word, span, without};

use cet_page::{Cursor, Errno, Kind, Suspended, Who, word_in};

/// Signals are numbered from 1 to this one.
pub const LAST_SIGNAL: u64 = 31;

/// The size of a mask of signals in bytes.
pub const MASK_SIZE: u64 = 8;

/// The bits of SIGKILL and SIGSTOP, which are never masked.
const NEVER_MASKED: u64 = 0x40100;

/// A word that a service is given: none for address 0, and an error where it can't be reached.
pub type Given = Result<Option<u32>, Errno>;

/// A mask without these bits.
pub fn without(mask: u64, bits: u64) -> u64
    ensures { result ≡ without mask bits }
{
    mask & !bits
}

/// The signals of a mask that may be masked.
pub fn maskable(mask: u64) -> u64
    ensures { result ≡ maskable mask }
{
    without(mask, NEVER_MASKED)
}

/// The first word of a structure of at most 24 words, whose last word is so many bytes above it. None
/// where a look fails; then the next look isn't made.
#[tactic(auto, using(cet_page::proofs::ScriptLaws::play_bind), unfolding(cet_page::specs::Structures::span))]
pub fn span(kind: Kind, addr: u64, last: u64, at: &mut Cursor) -> Result<Option<u32>, Suspended>
    ensures comes { Refines (play (span kind addr last) at.old.left at.old.rest.now) result at.new.left at.new.rest.now }
    ensures range { IfOk result (λ found. IfSome found (λ word. word + 24 ≤ word_count)) }
{
    let Some(page) = at.probe(kind, Who::User, addr)? else {
        return Ok(None);
    };
    match at.probe(kind, Who::User, addr.wrapping_add(last))? {
        Some(_) => Ok(Some(word_in(page, addr))),
        None => Ok(None),
    }
}

/// The word at an address, by one look.
#[tactic(auto, using(cet_page::proofs::ScriptLaws::play_bind), unfolding(cet_page::specs::Structures::one_word))]
fn one_word(kind: Kind, addr: u64, at: &mut Cursor) -> Result<Option<u32>, Suspended>
    ensures comes { Refines (play (one_word kind addr) at.old.left at.old.rest.now) result at.new.left at.new.rest.now }
    ensures range { IfOk result (λ found. IfSome found (λ word. word + 24 ≤ word_count)) }
{
    match at.probe(kind, Who::User, addr)? {
        Some(page) => Ok(Some(word_in(page, addr))),
        None => Ok(None),
    }
}

fn given(found: Option<u32>) -> Given
    ensures { result ≡ given found }
{
    match found {
        Some(word) => Ok(Some(word)),
        None => Err(Errno::Fault),
    }
}

/// The first word of a structure that a service is given.
#[tactic(auto, using(cet_page::proofs::ScriptLaws::play_bind), unfolding(cet_page::specs::Structures::given_span))]
pub fn given_span(kind: Kind, addr: u64, last: u64, at: &mut Cursor) -> Result<Given, Suspended>
    ensures comes { Refines (play (given_span kind addr last) at.old.left at.old.rest.now) result at.new.left at.new.rest.now }
    ensures range { IfOk result (λ told. IfOk told (λ found. IfSome found (λ word. word + 24 ≤ word_count))) }
{
    if addr == 0 {
        return Ok(Ok(None));
    }
    if addr % 8 != 0 {
        return Ok(Err(Errno::Fault));
    }
    let found = span(kind, addr, last, at)?;
    Ok(given(found))
}

/// The one word that a service is given.
#[tactic(auto, using(cet_page::proofs::ScriptLaws::play_bind), unfolding(cet_page::specs::Structures::given_word))]
pub fn given_word(kind: Kind, addr: u64, at: &mut Cursor) -> Result<Given, Suspended>
    ensures comes { Refines (play (given_word kind addr) at.old.left at.old.rest.now) result at.new.left at.new.rest.now }
    ensures range { IfOk result (λ told. IfOk told (λ found. IfSome found (λ word. word + 24 ≤ word_count))) }
{
    if addr == 0 {
        return Ok(Ok(None));
    }
    if addr % 8 != 0 {
        return Ok(Err(Errno::Fault));
    }
    let found = one_word(kind, addr, at)?;
    Ok(given(found))
}
