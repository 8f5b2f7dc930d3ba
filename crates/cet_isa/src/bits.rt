//! Named bits of RFLAGS and of page entries.

ghost use Rattle.std.specs.Prelude.{⊤, [], ◌∷◌, ◌^◌, codes};

use bitflags::{Flag, Flags, bitflag_items};

/// Bits of RFLAGS (Intel SDM volume 1, EFLAGS register).
#[derive(Clone, Copy, PartialEq, Eq, Debug)]
pub struct Rflags(u64);

bitflag_items! {
    impl Rflags: u64 {
        /// Carry.
        const CF = 0x1;
        /// Bit 1, which is always set.
        const FIXED = 0x2;
        /// Parity: the low byte has an even number of ones.
        const PF = 0x4;
        /// Auxiliary carry.
        const AF = 0x10;
        /// Zero.
        const ZF = 0x40;
        /// Sign.
        const SF = 0x80;
        /// Interrupts enabled.
        const IF = 0x200;
        /// Overflow.
        const OF = 0x800;
    }
}

impl Flags for Rflags {
    type Bits = u64;

    ghost exact = { ⊤ };

    ghost table = { (codes "CF", 0x1) ∷ (codes "FIXED", 0x2) ∷ (codes "PF", 0x4) ∷ (codes "AF", 0x10) ∷ (codes "ZF", 0x40) ∷ (codes "SF", 0x80) ∷ (codes "IF", 0x200) ∷ (codes "OF", 0x800) ∷ [] };

    ghost set_of = { λ flags. flags.0 };

    fn flags<'a>() -> &'a [Flag<Rflags>] {
        Rflags::FLAGS
    }

    fn bits(&self) -> u64 {
        self.0
    }

    fn from_bits_retain(bits: u64) -> Rflags {
        Rflags(bits)
    }
}

/// Bits of a page entry (Intel SDM volume 3A, 4-level paging).
#[derive(Clone, Copy, PartialEq, Eq, Debug)]
pub struct PageEntry(u64);

bitflag_items! {
    impl PageEntry: u64 {
        /// Present.
        const P = 0x1;
        /// Writable.
        const RW = 0x2;
        /// For the user.
        const US = 0x4;
        /// Accessed.
        const A = 0x20;
        /// Dirty.
        const D = 0x40;
        /// Execute-disable.
        const XD = 0x8000_0000_0000_0000;
    }
}

impl Flags for PageEntry {
    type Bits = u64;

    ghost exact = { ⊤ };

    ghost table = { (codes "P", 0x1) ∷ (codes "RW", 0x2) ∷ (codes "US", 0x4) ∷ (codes "A", 0x20) ∷ (codes "D", 0x40) ∷ (codes "XD", 2 ^ 63) ∷ [] };

    ghost set_of = { λ entry. entry.0 };

    fn flags<'a>() -> &'a [Flag<PageEntry>] {
        PageEntry::FLAGS
    }

    fn bits(&self) -> u64 {
        self.0
    }

    fn from_bits_retain(bits: u64) -> PageEntry {
        PageEntry(bits)
    }
}
