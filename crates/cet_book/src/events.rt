//! What can happen to the book, and why an event isn't applied.

use cet_words::NoMemory;

/// What one access does to the book. Regions have numbers from 0, in the order of their claims; `start` and `at` are
/// addresses of the shadow area.
#[derive(Clone, Copy, Debug, PartialEq, Eq)]
pub enum Event {
    /// A call; `back` is the address that it is to return to.
    Called {
        thread: u8,
        back: u64,
    },
    /// A return.
    Returned {
        thread: u8,
    },
    /// An INCSSP that takes so many entries off.
    Raised {
        thread: u8,
        count: u8,
    },
    /// An RSTORSSP that takes the restore token at `at`.
    Acquired {
        thread: u8,
        at: u64,
    },
    /// A SAVEPREVSSP.
    Released {
        thread: u8,
    },
    /// So many pages of 4096 bytes are drawn for a new region.
    Claimed {
        thread: u8,
        start: u64,
        pages: u32,
        maker: bool,
    },
    /// A region in the making gets words 0 and a restore token below them.
    Seeded {
        thread: u8,
        region: u32,
        blanks: u32,
    },
    /// A thread is born onto a region that its parent was making.
    Born {
        parent: u8,
        child: u8,
        region: u32,
    },
    /// A signal's frame and the address of its restorer.
    Pushed {
        thread: u8,
        restorer: u64,
    },
    /// A return from a signal takes its frame off.
    Popped {
        thread: u8,
    },
    /// A thread ends.
    Ended {
        thread: u8,
    },
    /// A thread comes to hold a supervisor stack, numbered from 0 to 7.
    Busied {
        thread: u8,
        stack: u8,
    },
    /// A thread gives its supervisor stack back.
    Freed {
        thread: u8,
        stack: u8,
    },
}

/// Why an event isn't applied.
#[derive(Clone, Copy, Debug, PartialEq, Eq)]
pub enum BookFault {
    /// The book has no such event.
    NotLegal,
    /// Memory is short.
    NoMemory,
}

impl From<NoMemory> for BookFault {
    ghost use Rattle.std.specs.Prelude.{◌≡◌};
    ghost use Rattle.cet_book.specs.declared.events.BookFault.TheVariants as fault;

    ghost from_gives = { λ _ e. e ≡ fault.NoMemory };

    fn from(_error: NoMemory) -> BookFault {
        BookFault::NoMemory
    }
}
