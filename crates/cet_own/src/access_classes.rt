//! The classes of accesses, by what an access can do to the book of shadow stacks.

ghost use Rattle.std.specs.Prelude.{◌≡◌, IsTrue};
ghost use Rattle.cet_own.specs.Keeps.{HasClass, HasClassInRuns};
ghost use Rattle.cet_own.specs.Class.{address_of, class_by, draws_number, draws_pages, exchanges_token, finds_word, is_shadow_word, is_supervisor_token, reads_stack, stores_below, stores_token};

use cet_isa::Arch;
use cet_page::restore_token;
use cet_words::{
    Access, DRAW_SHADOW_WORD, FIRST_KERNEL_PAGE, FIRST_KERNEL_WORD, FIRST_SHADOW_PAGE,
    FIRST_SHADOW_WORD, NEXT_THREAD_WORD, SHADOW_START, THREAD_LIMIT, token_word,
};

/// What an access can do to the book of shadow stacks.
#[derive(Clone, Copy, Debug, PartialEq, Eq)]
pub enum Class {
    /// Nothing, or a supervisor stack becomes busy.
    Neutral,
    /// A call, or the frame of a signal.
    Push,
    /// A return, or the newest elements are passed over.
    Raise,
    /// A restore token is taken.
    Acquire,
    /// The restore token of the stack that was left is written.
    Release,
    /// Pages are drawn for a stack.
    Claim,
    /// The restore token of a new stack is written, or a thread is born onto it.
    Seed,
    /// A supervisor stack becomes free, and with it the frame of a signal goes, or the thread's stack ends.
    End,
}

fn is_shadow_word(word: u32) -> bool
    ensures { result ≡ is_shadow_word word }
{
    word >= FIRST_SHADOW_WORD && word < FIRST_KERNEL_WORD
}

/// The address of a word of the shadow area.
fn address_of(word: u32) -> u64
    requires { IsTrue (is_shadow_word word) }
    ensures { result ≡ address_of word }
{
    SHADOW_START + 8 * u64::from(word - FIRST_SHADOW_WORD)
}

fn is_supervisor_token(word: u32) -> bool
    ensures { result ≡ is_supervisor_token word }
{
    word >= token_word(0) && word <= token_word(7) && (word - token_word(0)) % 1024 == 0
}

fn finds_word(access: &Access, value: u64) -> bool
    ensures { result ≡ finds_word access.now value }
{
    match *access {
        Access::CompareExchange(word, expected, _) => is_shadow_word(word) && value == expected,
        _ => false,
    }
}

fn stores_token(access: &Access) -> bool
    ensures { result ≡ stores_token access.now }
{
    match *access {
        Access::Store(word, next) => is_shadow_word(word)
            && next == restore_token(address_of(word) + 8),
        _ => false,
    }
}

fn draws_number(access: &Access, value: u64) -> bool
    ensures { result ≡ draws_number access.now value }
{
    match *access {
        Access::FetchAdd(word, _) => word == NEXT_THREAD_WORD && value < THREAD_LIMIT,
        _ => false,
    }
}

fn stores_below(access: &Access, ssp: u64) -> bool
    ensures { result ≡ stores_below access.now ssp }
{
    match *access {
        Access::Store(word, next) => {
            is_shadow_word(word)
                && (address_of(word) + 8 == ssp && next < 1 << 63 || address_of(word) + 16 == ssp)
        }
        _ => false,
    }
}

fn draws_pages(access: &Access) -> bool
    ensures { result ≡ draws_pages access.now }
{
    match *access {
        Access::FetchAdd(word, _) => word == DRAW_SHADOW_WORD,
        _ => false,
    }
}

fn exchanges_token(access: &Access) -> bool
    ensures { result ≡ exchanges_token access.now }
{
    match *access {
        Access::CompareExchange(word, _, _) => is_supervisor_token(word),
        _ => false,
    }
}

fn reads_stack(access: &Access, ssp: u64) -> bool
    ensures { result ≡ reads_stack access.now ssp }
{
    match *access {
        Access::Load(word) => is_shadow_word(word) && address_of(word) == ssp,
        Access::Look(page) => page >= FIRST_SHADOW_PAGE && page < FIRST_KERNEL_PAGE,
        _ => false,
    }
}

/// The first class that fits.
fn class_in_table(access: &Access, arch: &Arch, value: u64) -> Class
    ensures { result ≡ class_by access.now arch.now value }
{
    let held = arch.held.is_some();
    if finds_word(access, value) {
        Class::Acquire
    } else if stores_token(access) && !held {
        Class::Release
    } else if stores_token(access) && held || draws_number(access, value) {
        Class::Seed
    } else if stores_below(access, arch.ssp) {
        Class::Push
    } else if draws_pages(access) {
        Class::Claim
    } else if exchanges_token(access) && held {
        Class::End
    } else if reads_stack(access, arch.ssp) && !held {
        Class::Raise
    } else {
        Class::Neutral
    }
}

/// The class of an access, by the state of the thread before it and its answer. Wherever the ownership
/// invariant holds, the access changes the book of shadow stacks as its class may, and keeps the
/// invariant; and so it does in every run.
pub fn class_of(access: &Access, arch: &Arch, value: u64) -> Class
    ensures class { result ≡ class_by access.now arch.now value }
    ensures laws { HasClass result access.now arch.now value }
    ensures runs { HasClassInRuns result access.now arch.now value }
{
    class_in_table(access, arch, value)
}
