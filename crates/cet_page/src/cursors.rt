//! A place in a row, and the parts that rows are made of.

ghost use Rattle.std.specs.Prelude.{◌≡◌, ◌+◌, ◌*◌, ◌/◌, ◌%◌, ◌^◌, ◌<◌, ◌≤◌, [], IfOk, IfSome, List, Some, length, ℕ};
ghost use Rattle.cet_words.specs.Access.{InRange};
ghost use Rattle.cet_words.specs.Layout.{word_in, page_count, word_count};
ghost use Rattle.cet_page.specs.Script.{play, ask, tell, done, no_changes};
ghost use Rattle.cet_page.specs.Plays.{Refines, RefinesBy, Asks, Marks};
ghost use Rattle.cet_words.specs.Change.{Change};
ghost use Rattle.cet_page.specs.Parts.{general_protection, invalid_opcode, check_address, check_address_as, look, look_as, look_in_as, probe, probe_in, read_entry};
ghost use Rattle.cet_page.specs.Parts.{load, loads, store, stores, store_each, compare_exchange, swap, fetch_add, fetch_or, fetch_and};

use crate::checks::{Kind, Who, check, page_fault};
use cet_isa::{Fault, FaultName, is_canonical};
use cet_words::{Access, page_of};

/// What an access means for the thread itself.
#[derive(Clone, Copy, Debug, PartialEq, Eq)]
pub enum Mark {
    /// Nothing.
    Plain,
    /// It takes this supervisor stack, where it finds the token free.
    Takes(u8),
    /// It gives the supervisor stack back that the thread holds.
    Gives,
    /// Where the answer is below 32, it bears the thread of that number, with its shadow stack from this
    /// address on.
    Bears(u64),
}

/// Why a row goes no further: it wants an access, or has a fault.
#[derive(Clone, Copy, Debug, PartialEq, Eq)]
pub enum Suspended {
    Access(Access, Mark),
    Fault(Fault),
}

/// A place among the accesses that were made: how many of them follow, and the values kept of these.
#[derive(Clone, Copy, Debug)]
pub struct Cursor<'a> {
    pub left: u32,
    pub rest: &'a [u64],
}

/// #GP(0), general protection.
pub fn general_protection() -> Suspended
    ensures { result ≡ Suspended.Fault general_protection }
{
    Suspended::Fault(Fault {
        name: FaultName::Gp,
        code: 0,
        a: 0,
        b: 0,
    })
}

/// #UD, invalid opcode.
pub fn invalid_opcode() -> Suspended
    ensures { result ≡ Suspended.Fault invalid_opcode }
{
    Suspended::Fault(Fault {
        name: FaultName::Ud,
        code: 0,
        a: 0,
        b: 0,
    })
}

/// The number of the word that holds an address of a page.
pub fn word_in(page: u32, addr: u64) -> u32
    requires { page < page_count }
    ensures value { result ≡ word_in page addr }
    ensures range { result < word_count }
{
    512 * page + (addr % 4096 / 8) as u32
}

impl<'a> Cursor<'a> {
    /// An access whose value is kept.
    pub fn ask(&mut self, access: Access) -> Result<u64, Suspended>
        requires { InRange access }
        ensures { Refines (play (ask access no_changes done) self.old.left self.old.rest.now) result self.new.left self.new.rest.now }
    {
        self.ask_as(access, Mark::Plain)
    }

    /// An access whose value is kept, with its mark.
    pub fn ask_as(&mut self, access: Access, mark: Mark) -> Result<u64, Suspended>
        requires { InRange access }
        ensures { Asks access mark self.old.left self.old.rest.now result self.new.left self.new.rest.now }
    {
        if self.left == 0 {
            return Err(Suspended::Access(access, mark));
        }
        let [value, rest @ ..] = self.rest else {
            return Err(Suspended::Access(access, mark));
        };
        self.left -= 1;
        self.rest = rest;
        Ok(*value)
    }

    /// A store.
    #[tactic(auto, unfolding(crate::specs::Parts::store_as))]
    pub fn store(&mut self, word: u32, value: u64) -> Result<(), Suspended>
        requires { word < word_count }
        ensures { Refines (play (store word value) self.old.left self.old.rest.now) result self.new.left self.new.rest.now }
    {
        if self.left == 0 {
            return Err(Suspended::Access(Access::Store(word, value), Mark::Plain));
        }
        self.left -= 1;
        Ok(())
    }

    /// The load of a word.
    #[tactic(auto, unfolding(crate::specs::Parts::load_as))]
    pub fn load(&mut self, word: u32) -> Result<u64, Suspended>
        requires { word < word_count }
        ensures { Refines (play (load word) self.old.left self.old.rest.now) result self.new.left self.new.rest.now }
    {
        self.ask(Access::Load(word))
    }

    /// A compare-and-exchange; the answer is the word found.
    #[tactic(auto, unfolding(crate::specs::Parts::compare_exchange_as))]
    pub fn compare_exchange(
        &mut self,
        word: u32,
        expected: u64,
        value: u64,
    ) -> Result<u64, Suspended>
        requires { word < word_count }
        ensures { Refines (play (compare_exchange word expected value) self.old.left self.old.rest.now) result self.new.left self.new.rest.now }
    {
        self.ask(Access::CompareExchange(word, expected, value))
    }

    /// The exchange of a word; the answer is the word found.
    #[tactic(auto, unfolding(crate::specs::Parts::swap))]
    pub fn swap(&mut self, word: u32, value: u64) -> Result<u64, Suspended>
        requires { word < word_count }
        ensures { Refines (play (swap word value) self.old.left self.old.rest.now) result self.new.left self.new.rest.now }
    {
        self.ask(Access::Swap(word, value))
    }

    /// A fetch-and-add; the answer is the word found.
    #[tactic(auto, unfolding(crate::specs::Parts::fetch_add_as))]
    pub fn fetch_add(&mut self, word: u32, value: u64) -> Result<u64, Suspended>
        requires { word < word_count }
        ensures { Refines (play (fetch_add word value) self.old.left self.old.rest.now) result self.new.left self.new.rest.now }
    {
        self.ask(Access::FetchAdd(word, value))
    }

    /// A fetch-and-or; the answer is the word found.
    #[tactic(auto, unfolding(crate::specs::Parts::fetch_or))]
    pub fn fetch_or(&mut self, word: u32, value: u64) -> Result<u64, Suspended>
        requires { word < word_count }
        ensures { Refines (play (fetch_or word value) self.old.left self.old.rest.now) result self.new.left self.new.rest.now }
    {
        self.ask(Access::FetchOr(word, value))
    }

    /// A fetch-and-and; the answer is the word found.
    #[tactic(auto, unfolding(crate::specs::Parts::fetch_and))]
    pub fn fetch_and(&mut self, word: u32, value: u64) -> Result<u64, Suspended>
        requires { word < word_count }
        ensures { Refines (play (fetch_and word value) self.old.left self.old.rest.now) result self.new.left self.new.rest.now }
    {
        self.ask(Access::FetchAnd(word, value))
    }

    /// Stores to so many words, the lowest first: the first gets the value, and each further one the value
    /// before and the step. They are passed over at once.
    #[tactic(auto, using(crate::proofs::PartLaws::play_stores_over, crate::proofs::PartLaws::play_stores_wants))]
    pub fn stores(&mut self, count: u32, word: u32, value: u64, step: u64) -> Result<(), Suspended>
        requires words { word + count ≤ word_count }
        requires values { value + step * count < 2 ^ 64 }
        ensures { Refines (play (stores count word value step) self.old.left self.old.rest.now) result self.new.left self.new.rest.now }
    {
        if self.left >= count {
            self.left -= count;
            return Ok(());
        }
        let at = self.left;
        Err(Suspended::Access(
            Access::Store(word + at, value + step * u64::from(at)),
            Mark::Plain,
        ))
    }

    /// Stores of these values, the lowest first: to a word and to those above it. They are passed over at once.
    #[tactic(auto, using(crate::proofs::PartLaws::play_each_over, crate::proofs::PartLaws::play_each_wants))]
    pub fn store_each(&mut self, word: u32, values: &[u64]) -> Result<(), Suspended>
        requires { word + length values.now ≤ word_count }
        ensures { Refines (play (store_each word values.now) self.old.left self.old.rest.now) result self.new.left self.new.rest.now }
    {
        let count = values.len() as u32;
        if self.left >= count {
            self.left -= count;
            return Ok(());
        }
        let at = self.left;
        Err(Suspended::Access(Access::Store(word + at, values[at as usize]), Mark::Plain))
    }

    /// The loads of so many words, the lowest first. They are passed over at once.
    #[tactic(auto, using(crate::proofs::PartLaws::play_loads_over, crate::proofs::PartLaws::play_loads_wants))]
    pub fn loads(&mut self, count: u32, word: u32) -> Result<&'a [u64], Suspended>
        requires { word + count ≤ word_count }
        ensures comes { RefinesBy (λ answers. answers.now) (play (loads count word) self.old.left self.old.rest.now) result self.new.left self.new.rest.now }
        ensures length { IfOk result (λ answers. length answers.now ≡ count) }
    {
        let there = (self.left as usize).min(self.rest.len()) as u32;
        if there < count {
            return Err(Suspended::Access(Access::Load(word + there), Mark::Plain));
        }
        let (answers, rest) = self.rest.split_at(count as usize);
        self.left -= count;
        self.rest = rest;
        Ok(answers)
    }

    /// The look at a page of which no test is made.
    #[tactic(auto, unfolding(crate::specs::Parts::read_entry))]
    pub fn read_entry(&mut self, page: u32) -> Result<u64, Suspended>
        requires { page < page_count }
        ensures { Refines (play (read_entry page) self.old.left self.old.rest.now) result self.new.left self.new.rest.now }
    {
        self.ask(Access::Look(page))
    }

    /// The canonical test, and then the test for a multiple of the size in bytes.
    #[tactic(auto, unfolding(crate::specs::Parts::check_address_as))]
    pub fn check_address(&mut self, addr: u64, size: u64) -> Result<(), Suspended>
        requires { 0 < size }
        ensures { Refines (play (check_address addr size) self.old.left self.old.rest.now) result self.new.left self.new.rest.now }
    {
        if !is_canonical(addr) {
            return Err(general_protection());
        }
        if addr % size != 0 {
            return Err(Suspended::Fault(Fault {
                name: FaultName::Ac,
                code: 0,
                a: addr,
                b: 0,
            }));
        }
        Ok(())
    }

    /// The canonical test and the test for a multiple of the size in bytes, which both fail with #GP(0).
    #[tactic(auto, unfolding(crate::specs::Parts::check_address_as))]
    pub fn check_address_gp(&mut self, addr: u64, size: u64) -> Result<(), Suspended>
        requires { 0 < size }
        ensures { Refines (play (check_address_as general_protection addr size) self.old.left self.old.rest.now) result self.new.left self.new.rest.now }
    {
        if !is_canonical(addr) || addr % size != 0 {
            return Err(general_protection());
        }
        Ok(())
    }

    /// The look at the page of an address, with the page check; the answer is the page's number.
    #[tactic(auto, unfolding(crate::specs::Parts::look_as, crate::specs::Parts::look_in_as))]
    pub fn look(&mut self, kind: Kind, who: Who, addr: u64) -> Result<u32, Suspended>
        ensures comes { Refines (play (look kind who addr) self.old.left self.old.rest.now) result self.new.left self.new.rest.now }
        ensures range { IfOk result (λ page. page < page_count) }
    {
        let Some(page) = page_of(addr) else {
            return Err(Suspended::Fault(page_fault(0, kind, who, addr)));
        };
        self.look_in(page, kind, who, addr)
    }

    /// The same look, where it has changes that its mark needn't tell.
    #[tactic(auto, using(crate::proofs::PartLaws::look_changes))]
    pub fn look_as(&mut self, kind: Kind, who: Who, addr: u64) -> Result<u32, Suspended>
        ensures comes { (changes : ℕ → List Change) → Marks Mark.Plain changes → Refines (play (look_as changes kind who addr) self.old.left self.old.rest.now) result self.new.left self.new.rest.now }
        ensures range { IfOk result (λ page. page < page_count) }
    {
        self.look(kind, who, addr)
    }

    #[tactic(auto, using(crate::proofs::ScriptLaws::play_bind), unfolding(crate::specs::Parts::look_in_as))]
    fn look_in(&mut self, page: u32, kind: Kind, who: Who, addr: u64) -> Result<u32, Suspended>
        requires { page < page_count }
        ensures comes { Refines (play (look_in_as no_changes (Some page) kind who addr) self.old.left self.old.rest.now) result self.new.left self.new.rest.now }
        ensures range { IfOk result (λ page. page < page_count) }
    {
        let entry = self.ask(Access::Look(page))?;
        match check(entry, kind, who, addr) {
            Ok(()) => Ok(page),
            Err(fault) => Err(Suspended::Fault(fault)),
        }
    }

    /// The look at the page of an address where nothing faults: the page's number, or none where the
    /// page check fails.
    #[tactic(auto, unfolding(crate::specs::Parts::probe, crate::specs::Parts::probe_in))]
    pub fn probe(&mut self, kind: Kind, who: Who, addr: u64) -> Result<Option<u32>, Suspended>
        ensures comes { Refines (play (probe kind who addr) self.old.left self.old.rest.now) result self.new.left self.new.rest.now }
        ensures range { IfOk result (λ found. IfSome found (λ page. page < page_count)) }
    {
        let Some(page) = page_of(addr) else {
            return Ok(None);
        };
        self.probe_in(page, kind, who, addr)
    }

    #[tactic(auto, using(crate::proofs::ScriptLaws::play_bind), unfolding(crate::specs::Parts::probe_in))]
    fn probe_in(
        &mut self,
        page: u32,
        kind: Kind,
        who: Who,
        addr: u64,
    ) -> Result<Option<u32>, Suspended>
        requires { page < page_count }
        ensures comes { Refines (play (probe_in (Some page) kind who) self.old.left self.old.rest.now) result self.new.left self.new.rest.now }
        ensures range { IfOk result (λ found. IfSome found (λ page. page < page_count)) }
    {
        let entry = self.ask(Access::Look(page))?;
        if check(entry, kind, who, addr).is_ok() {
            Ok(Some(page))
        } else {
            Ok(None)
        }
    }
}
