//! How an encoding begins: what stands before its opcode.

ghost use Rattle.std.specs.Prelude.{◌≡◌, option_map};
ghost use Rattle.cet_decode.specs.Lead.{lead, is_prefix, is_longer, behind_escape, behind_rex, behind_prefix, behind_one, lead_at, has_long_prefix};

/// What stands before an opcode: one prefix, REX and 0f at most.
#[derive(Clone, Copy)]
pub struct Lead<'a> {
    /// The prefix other than REX.
    pub prefix: Option<u8>,
    /// The REX prefix, 0 for none.
    pub rex: u8,
    /// Whether 0f stands before the opcode.
    pub escaped: bool,
    /// The opcode, or the byte behind 0f where another one stands before the opcode.
    pub opcode: u8,
    /// The bytes behind it.
    pub rest: &'a [u8],
}

/// Whether a row begins by this byte as a prefix.
fn is_prefix(byte: u8) -> bool
    ensures { result ≡ is_prefix byte }
{
    byte == 0x3e || byte == 0x66 || byte == 0xf0 || byte == 0xf3
}

/// Whether a row has this byte as its second prefix.
fn is_longer(byte: u8) -> bool
    ensures { result ≡ is_longer byte }
{
    byte == 0x66 || byte == 0x2e
}

/// From the byte behind 0f on.
fn behind_escape(prefix: Option<u8>, rex: u8, bytes: &[u8]) -> Option<Lead<'_>>
    ensures { option_map (λ x. lead x.prefix x.rex x.escaped x.opcode x.rest.now) result ≡ behind_escape prefix rex bytes.now }
{
    match bytes {
        [] => None,
        [opcode, rest @ ..] => Some(Lead {
            prefix,
            rex,
            escaped: true,
            opcode: *opcode,
            rest,
        }),
    }
}

/// From the byte behind REX on.
fn behind_rex(prefix: Option<u8>, rex: u8, bytes: &[u8]) -> Option<Lead<'_>>
    ensures { option_map (λ x. lead x.prefix x.rex x.escaped x.opcode x.rest.now) result ≡ behind_rex prefix rex bytes.now }
{
    match bytes {
        [] => None,
        [opcode, rest @ ..] => {
            if *opcode == 0x0f {
                behind_escape(prefix, rex, rest)
            } else {
                Some(Lead {
                    prefix,
                    rex,
                    escaped: false,
                    opcode: *opcode,
                    rest,
                })
            }
        }
    }
}

/// From the byte behind a prefix on, or from the first where there is none.
fn behind_prefix(prefix: Option<u8>, bytes: &[u8]) -> Option<Lead<'_>>
    ensures { option_map (λ x. lead x.prefix x.rex x.escaped x.opcode x.rest.now) result ≡ behind_prefix prefix bytes.now }
{
    match bytes {
        [] => None,
        [first, rest @ ..] => {
            if *first / 16 == 4 {
                behind_rex(prefix, *first, rest)
            } else {
                behind_rex(prefix, 0, bytes)
            }
        }
    }
}

/// From the byte behind a prefix on, where no second prefix stands there.
fn behind_one(prefix: u8, bytes: &[u8]) -> Option<Lead<'_>>
    ensures { option_map (λ x. lead x.prefix x.rex x.escaped x.opcode x.rest.now) result ≡ behind_one prefix bytes.now }
{
    match bytes {
        [] => None,
        [first, ..] => {
            if is_longer(*first) {
                None
            } else {
                behind_prefix(Some(prefix), bytes)
            }
        }
    }
}

/// What stands before the opcode of these bytes, where that isn't more than one prefix, REX and 0f, and the
/// bytes don't end before it.
pub fn lead_of(bytes: &[u8]) -> Option<Lead<'_>>
    ensures { option_map (λ x. lead x.prefix x.rex x.escaped x.opcode x.rest.now) result ≡ lead_at bytes.now }
{
    match bytes {
        [] => None,
        [first, rest @ ..] => {
            if is_prefix(*first) {
                behind_one(*first, rest)
            } else {
                behind_prefix(None, bytes)
            }
        }
    }
}

/// Whether the bytes begin by more than one prefix of one row.
pub fn has_long_prefix(bytes: &[u8]) -> bool
    ensures { result ≡ has_long_prefix bytes.now }
{
    match bytes {
        [] => false,
        [_only] => false,
        [first, next, ..] => *first == 0x66 && is_longer(*next),
    }
}
