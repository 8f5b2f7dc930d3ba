//! The page check and its page faults (Intel SDM volume 3A, paging access rights and page-fault error codes).

ghost use Rattle.std.specs.Prelude.{◌≡◌};
ghost use Rattle.cet_page.specs.Page.{checked, has, index_at, page_fault, kind_allows, who_allows, is_shadow_stack_page};

use bitflags::Flags;
use cet_isa::{Fault, FaultName, PageEntry};

/// What an access to a page is for.
#[derive(Clone, Copy, Debug, PartialEq, Eq)]
pub enum Kind {
    Fetch,
    Load,
    Store,
    ShadowLoad,
    ShadowStore,
}

/// Who makes an access.
#[derive(Clone, Copy, Debug, PartialEq, Eq)]
pub enum Who {
    User,
    Supervisor,
}

/// Whether an entry has a bit.
#[tactic(auto, using(crate::proofs::PageLaws::some_bits))]
fn has(entry: u64, bit: PageEntry) -> bool
    ensures { result ≡ has entry bit.0 }
{
    PageEntry::from_bits_retain(entry).intersects(bit)
}

/// Whether an entry has D and not R/W, as those of shadow-stack pages.
fn is_shadow_stack_page(entry: u64) -> bool
    ensures { result ≡ is_shadow_stack_page entry }
{
    let both = PageEntry::D.union(PageEntry::RW);
    let entry = PageEntry::from_bits_retain(entry).intersection(both);
    entry.bits() == PageEntry::D.bits()
}

#[tactic(auto, using(crate::proofs::PageLaws::no_bits))]
fn kind_allows(kind: Kind, entry: u64) -> bool
    ensures { result ≡ kind_allows kind entry }
{
    match kind {
        Kind::Fetch => !has(entry, PageEntry::XD),
        Kind::Load => true,
        Kind::Store => has(entry, PageEntry::RW),
        Kind::ShadowLoad => is_shadow_stack_page(entry),
        Kind::ShadowStore => is_shadow_stack_page(entry),
    }
}

#[tactic(auto, using(crate::proofs::PageLaws::no_bits))]
fn who_allows(who: Who, entry: u64) -> bool
    ensures { result ≡ who_allows who entry }
{
    match who {
        Who::User => has(entry, PageEntry::US),
        Who::Supervisor => !has(entry, PageEntry::US),
    }
}

/// The page fault of an access at `addr` that saw this entry.
pub fn page_fault(entry: u64, kind: Kind, who: Who, addr: u64) -> Fault
    ensures { result ≡ page_fault entry kind who addr }
{
    let present_code = if has(entry, PageEntry::P) { 1 } else { 0 };
    let kind_code = match kind {
        Kind::Fetch => 16,
        Kind::Load => 0,
        Kind::Store => 2,
        Kind::ShadowLoad => 64,
        Kind::ShadowStore => 66,
    };
    let who_code = match who {
        Who::User => 4,
        Who::Supervisor => 0,
    };
    Fault {
        name: FaultName::Pf,
        code: present_code + kind_code + who_code,
        a: addr,
        b: entry,
    }
}

/// The page check: whether an entry lets an access pass, else its page fault.
pub fn check(entry: u64, kind: Kind, who: Who, addr: u64) -> Result<(), Fault>
    ensures { result ≡ checked entry kind who addr }
{
    if has(entry, PageEntry::P) && who_allows(who, entry) && kind_allows(kind, entry) {
        Ok(())
    } else {
        Err(page_fault(entry, kind, who, addr))
    }
}

/// The index of an address in its page table: bits 20 to 12.
pub fn index_of(addr: u64) -> u16
    ensures { result ≡ index_at addr }
{
    (addr / 4096 % 512) as u16
}
