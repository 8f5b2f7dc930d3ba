//! Addresses.

ghost use Rattle.std.specs.Prelude.{◌≡◌};
ghost use Rattle.cet_isa.specs.Address.{canonical};

/// Whether bits 63 to 47 of the address are equal (Intel SDM volume 1, canonical addressing).
pub fn is_canonical(addr: u64) -> bool
    ensures { result ≡ canonical addr }
{
    let upper = addr >> 47;
    upper == 0 || upper == 0x1ffff
}
