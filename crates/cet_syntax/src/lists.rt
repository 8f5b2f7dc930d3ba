//! Lists of numbers and labels.

ghost use Rattle.std.specs.Prelude.{◌≡◌, length, ◌<◌};
ghost use Rattle.cet_syntax.specs.Line.{byte_of, quad_of, is_byte, is_quad, list_fits};
ghost use Rattle.cet_syntax.specs.Operands.{separated, negative_item, item_first};
ghost use Rattle.cet_syntax.specs.Tokens.{tokens};
ghost use Rattle.cet_syntax.specs.Views.{
  place_view,
  disp_view,
  item_option_view,
  list_item_view,
  fits_kind,
  IsFirstByte,
  IsFirstQuad,
  IsShorter,
};

use crate::places::{Item, Place, byte_field, number_place, quad_field, word_place};
use crate::tokens::{Token, first_word, next};

/// What the items of a list are.
#[derive(Clone, Copy)]
pub(crate) enum ListKind {
    Bytes,
    Quads,
}

/// The byte of an item. A label has none.
fn byte_of(place: Place) -> Option<u8>
    ensures { result ≡ byte_of (place_view place.entry) }
{
    match place {
        Place::Number(Some(value)) => byte_field(value),
        _ => None,
    }
}

/// The word of an item.
fn quad_of(place: Place) -> Option<Item>
    ensures { item_option_view result ≡ quad_of (place_view place.entry) }
{
    match place {
        Place::Number(Some(value)) => match quad_field(value) {
            Some(word) => Some(Item::Known(word)),
            None => None,
        },
        Place::Number(None) => None,
        Place::Label(name) => Some(Item::Named(name)),
    }
}

fn fits(kind: ListKind, place: Place) -> bool
    ensures { result ≡ fits_kind kind (place_view place.entry) }
{
    match kind {
        ListKind::Bytes => byte_of(place).is_some(),
        ListKind::Quads => quad_of(place).is_some(),
    }
}

/// An item before the end, or before a comma and more.
fn separated<'a>(place: Option<Place<'a>>, text: &'a [u8]) -> Option<(Place<'a>, Option<&'a [u8]>)>
    ensures item { list_item_view result ≡ separated (disp_view place.entry) (tokens text.now) }
    ensures shorter { IsShorter text.now result }
{
    let place = place?;
    match next(text) {
        None => Some((place, None)),
        Some((Token::Sign(b','), rest)) => Some((place, Some(rest))),
        Some(_) => None,
    }
}

fn negative_item(text: &[u8]) -> Option<(Place<'_>, Option<&[u8]>)>
    ensures item { list_item_view result ≡ negative_item (tokens text.now) }
    ensures shorter { IsShorter text.now result }
{
    let (word, rest) = first_word(text)?;
    separated(number_place(true, word), rest)
}

/// The first item of a list, and the text after its comma.
#[tactic(auto, unfolding(crate::specs::Operands::item_first))]
fn item(text: &[u8]) -> Option<(Place<'_>, Option<&[u8]>)>
    ensures item { list_item_view result ≡ item_first (tokens text.now) }
    ensures shorter { IsShorter text.now result }
{
    match next(text)? {
        (Token::Word(word), rest) => separated(word_place(word), rest),
        (Token::Minus, rest) => negative_item(rest),
        (Token::Sign(_), _) => None,
    }
}

/// Whether all items of a list fit. `None` where the text is no list.
#[tactic(auto, using(crate::proofs::ListLaws::list_laws), unfolding(crate::specs::Line::list_fits))]
pub(crate) fn list_fits(kind: ListKind, text: &[u8]) -> Option<bool>
    ensures { result ≡ list_fits (fits_kind kind) (tokens text.now) }
{
    let mut rest = text;
    let mut all_fit = true;
    loop {
        let (place, after) = item(rest)?;
        all_fit = all_fit && fits(kind, place);
        match after {
            None => return Some(all_fit),
            Some(more) => rest = more,
        }
    }
}

/// The first byte of a list, and the text after it.
#[tactic(auto, using(crate::proofs::ListLaws::byte_laws))]
pub fn next_byte(text: &[u8]) -> Option<(u8, &[u8])>
    ensures { IsFirstByte text.now result }
{
    let (place, after) = item(text)?;
    let byte = byte_of(place)?;
    match after {
        Some(rest) => Some((byte, rest)),
        None => Some((byte, &[])),
    }
}

/// The first word of a list, and the text after it.
#[tactic(auto, using(crate::proofs::ListLaws::quad_laws))]
pub fn next_quad(text: &[u8]) -> Option<(Item<'_>, &[u8])>
    ensures { IsFirstQuad text.now result }
{
    let (place, after) = item(text)?;
    let word = quad_of(place)?;
    match after {
        Some(rest) => Some((word, rest)),
        None => Some((word, &[])),
    }
}
