//! One access to the words, and what has words.

ghost use Rattle.std.specs.Prelude.{◌≡◌, ℕ, List};
ghost use Rattle.cet_words.specs.Access.{InRange, answer, after};

/// One access: to the entry of a page (`Look`), or to a word by its number.
#[derive(Clone, Copy, Debug, PartialEq, Eq)]
pub enum Access {
    /// A look at a page's entry.
    Look(u32),
    Load(u32),
    /// The word and the value stored.
    Store(u32, u64),
    /// The word and its new value.
    Swap(u32, u64),
    /// The word and what is added to it, modulo 2^64.
    FetchAdd(u32, u64),
    /// The word and the bits set in it.
    FetchOr(u32, u64),
    /// The word and the bits kept in it.
    FetchAnd(u32, u64),
    /// The word, the value expected, and the new value where that was found.
    CompareExchange(u32, u64, u64),
}

/// Words on which one access after another is done.
pub trait Perform {
    /// The words, in the order of their numbers.
    ghost words: { Self → List ℕ };

    /// Does one access, and answers the word as it was before; a store answers 0.
    fn perform(&mut self, access: Access) -> u64
        requires { InRange access }
        ensures answer { result ≡ answer (words self.old) access }
        ensures words { words self.new ≡ after (words self.old) access };
}
