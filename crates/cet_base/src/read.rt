//! The number that a text writes.

ghost use Rattle.std.specs.Prelude.{◌≡◌, ◌≤◌};
ghost use Rattle.cet_base.specs.Numbers.{digits_number, numeral, number_of};

/// The number that digits of a radix write. `None` where one is no digit, or the number needs more
/// than 64 bits.
fn digits_number(digits: &[u8], radix: u32) -> Option<u64>
    requires low { 2 ≤ radix }
    requires high { radix ≤ 36 }
    ensures { result ≡ digits_number radix digits.now }
{
    let mut value: u64 = 0;
    for code in digits {
        let digit = char::from(*code).to_digit(radix)?;
        value = value
            .checked_mul(u64::from(radix))?
            .checked_add(u64::from(digit))?;
    }
    Some(value)
}

/// The same of 1 to `most` digits.
fn numeral(digits: &[u8], radix: u32, most: usize) -> Option<u64>
    requires low { 2 ≤ radix }
    requires high { radix ≤ 36 }
    ensures { result ≡ numeral radix most digits.now }
{
    if 1 <= digits.len() && digits.len() <= most {
        digits_number(digits, radix)
    } else {
        None
    }
}

/// Reads a number: 1 to 20 decimal digits, or `0x` and 1 to 16 hexadecimal digits, whose letters may be
/// of either case. `None` where the text has neither form, or the number needs more than 64 bits.
#[tactic(auto, unfolding(crate::specs::Numbers::number_of))]
pub fn read_u64(text: &[u8]) -> Option<u64>
    ensures { result ≡ number_of text.now }
{
    match text {
        [b'0', b'x', digits @ ..] => numeral(digits, 16, 16),
        _ => numeral(text, 10, 20),
    }
}
