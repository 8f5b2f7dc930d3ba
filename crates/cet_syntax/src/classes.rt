//! Classes of bytes, and the bytes of a class at the front of a text.

ghost use Rattle.std.specs.Prelude.{◌≡◌};
ghost use Rattle.cet_syntax.specs.Tokens.{is_blank, is_sign, is_decimal, is_name_byte, in_class, front, behind};

/// A class of bytes.
#[derive(Clone, Copy)]
pub enum Class {
    /// Space and tab.
    Blank,
    /// All but blanks.
    Solid,
    /// All but blanks and the signs `,` `[` `]` `+` `-` `*`.
    Letter,
    /// The letters of ASCII, digits and `_`.
    NameByte,
    /// All but `;` and `#`, which begin a comment.
    BeforeComment,
}

pub(crate) fn is_blank(byte: u8) -> bool
    ensures { result ≡ is_blank byte }
{
    byte == b' ' || byte == b'\t'
}

pub(crate) fn is_sign(byte: u8) -> bool
    ensures { result ≡ is_sign byte }
{
    matches!(byte, b',' | b'[' | b']' | b'+' | b'-' | b'*')
}

pub(crate) fn is_decimal(byte: u8) -> bool
    ensures { result ≡ is_decimal byte }
{
    byte >= b'0' && byte <= b'9'
}

fn is_name_byte(byte: u8) -> bool
    ensures { result ≡ is_name_byte byte }
{
    is_decimal(byte)
        || (byte >= b'a' && byte <= b'z')
        || (byte >= b'A' && byte <= b'Z')
        || byte == b'_'
}

pub(crate) fn in_class(class: Class, byte: u8) -> bool
    ensures { result ≡ in_class class byte }
{
    match class {
        Class::Blank => is_blank(byte),
        Class::Solid => !is_blank(byte),
        Class::Letter => !(is_sign(byte) || is_blank(byte)),
        Class::NameByte => is_name_byte(byte),
        Class::BeforeComment => !(byte == b';' || byte == b'#'),
    }
}

/// The bytes of a class at the front of a text, and what follows them.
pub(crate) fn split_class(class: Class, text: &[u8]) -> (&[u8], &[u8])
    ensures front { result.0.now ≡ front class text.now }
    ensures behind { result.1.now ≡ behind class text.now }
{
    let mut at = 0;
    while at < text.len() && in_class(class, text[at]) {
        at += 1;
    }
    text.split_at(at)
}

/// The text after the bytes of a class.
pub(crate) fn skip_class(class: Class, text: &[u8]) -> &[u8]
    ensures { result.now ≡ behind class text.now }
{
    split_class(class, text).1
}
