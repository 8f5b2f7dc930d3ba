//! The lines of a text.

ghost use Rattle.std.specs.Prelude.{◌≡◌, ◌∷◌, ◌==◌, length, ◌≤◌, ◌+◌};
ghost use Rattle.std.specs.List.{slice_split, position};
ghost use Rattle.cet_syntax.specs.Parts.{parts_left};

fn newline(text: &[u8]) -> Option<usize>
    ensures { result ≡ position (λ b. b == 10) text.now }
{
    text.iter().position(|byte| *byte == b'\n')
}

/// The first line of a text, and the text after its newline.
#[tactic(auto, using(crate::proofs::PartLaws::part_laws))]
pub fn first_line(text: &[u8]) -> (&[u8], Option<&[u8]>)
    ensures { slice_split (λ b. b == 10) text.now ≡ result.0.now ∷ parts_left result.1 }
{
    match newline(text) {
        Some(at) => (&text[..at], Some(&text[at + 1..])),
        None => (text, None),
    }
}
