//! Fields of an encoding.

ghost use Rattle.std.specs.Prelude.{◌≡◌};
ghost use Rattle.cet_isa.specs.Canonical.{fits_byte};

/// Whether a field of one byte holds the signed number.
pub fn fits_byte(value: i32) -> bool
    ensures { result ≡ fits_byte value }
{
    i8::try_from(value).is_ok()
}
