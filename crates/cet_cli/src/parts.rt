//! A text, in two at the first of its signs.

ghost use Rattle.std.specs.Prelude.{◌≡◌, ◌<◌, option_map};
ghost use Rattle.cet_cli.specs.Parts.{back, front};

/// A text up to the first of its signs, and what stands behind that. The sign is of ASCII.
pub(crate) fn parted(text: &str, sign: char) -> (&str, Option<&str>)
    requires { sign < 128 }
    ensures front { result.0.now ≡ front sign text.now }
    ensures back { option_map (λ t. t.now) result.1 ≡ back sign text.now }
{
    match text.split_once(sign) {
        Some((front, back)) => (front, Some(back)),
        None => (text, None),
    }
}
