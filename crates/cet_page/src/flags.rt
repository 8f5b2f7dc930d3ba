//! The status flags.

ghost use Rattle.std.specs.Prelude.{◌≡◌};
ghost use Rattle.cet_page.specs.Flags.{with_flag, rflags, status, holds, xor};

use bitflags::Flags;
use cet_isa::{Cond, Rflags};

/// The status flags of RFLAGS but AF, which reads 0.
#[derive(Clone, Copy, Debug, PartialEq, Eq)]
pub struct StatusFlags {
    pub cf: bool,
    pub pf: bool,
    pub zf: bool,
    pub sf: bool,
    pub of: bool,
}

/// What an operation computes.
#[derive(Clone, Copy, Debug, PartialEq, Eq)]
pub struct Computed {
    pub value: u64,
    pub flags: StatusFlags,
}

fn with(flags: Rflags, flag: Rflags, set: bool) -> Rflags
    ensures { result.0 ≡ with_flag set flag.0 flags.0 }
{
    if set { flags.union(flag) } else { flags }
}

fn xor(a: bool, b: bool) -> bool
    ensures { result ≡ xor a b }
{
    a != b
}

impl StatusFlags {
    /// The status flags in RFLAGS.
    pub fn of(flags: u64) -> StatusFlags
        ensures { result ≡ status flags }
    {
        let flags = Rflags::from_bits_retain(flags);
        StatusFlags {
            cf: flags.contains(Rflags::CF),
            pf: flags.contains(Rflags::PF),
            zf: flags.contains(Rflags::ZF),
            sf: flags.contains(Rflags::SF),
            of: flags.contains(Rflags::OF),
        }
    }

    /// RFLAGS with these status flags.
    pub fn rflags(self) -> u64
        ensures { result ≡ rflags self }
    {
        let flags = with(Rflags::FIXED, Rflags::CF, self.cf);
        let flags = with(flags, Rflags::PF, self.pf);
        let flags = with(flags, Rflags::ZF, self.zf);
        let flags = with(flags, Rflags::SF, self.sf);
        with(flags, Rflags::OF, self.of).bits()
    }

    /// Whether a condition holds.
    pub fn holds(self, cond: Cond) -> bool
        ensures { result ≡ holds cond self }
    {
        match cond {
            Cond::O => self.of,
            Cond::No => !self.of,
            Cond::B => self.cf,
            Cond::Ae => !self.cf,
            Cond::E => self.zf,
            Cond::Ne => !self.zf,
            Cond::Be => self.cf || self.zf,
            Cond::A => !(self.cf || self.zf),
            Cond::S => self.sf,
            Cond::Ns => !self.sf,
            Cond::P => self.pf,
            Cond::Np => !self.pf,
            Cond::L => xor(self.sf, self.of),
            Cond::Ge => !xor(self.sf, self.of),
            Cond::Le => self.zf || xor(self.sf, self.of),
            Cond::G => !(self.zf || xor(self.sf, self.of)),
        }
    }
}
