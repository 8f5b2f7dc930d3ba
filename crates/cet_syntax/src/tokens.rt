//! The tokens of a line's operands.

ghost use Rattle.std.specs.Prelude.{◌≡◌, length, ◌<◌, IfSome};
ghost use Rattle.cet_syntax.specs.Tokens.{begins_word, sign_token, word_first, sign_first, tokens};
ghost use Rattle.cet_syntax.specs.Views.{token_view, IsFirstToken, IsAfterSign, IsAfterWord};

use crate::classes::{Class, in_class, is_blank, is_sign, split_class};

/// A word; one of the signs; a `-` with a word directly after it.
#[derive(Clone, Copy)]
pub(crate) enum Token<'a> {
    Word(&'a [u8]),
    Sign(u8),
    Minus,
}

fn begins_word(text: &[u8]) -> bool
    ensures { result ≡ begins_word text.now }
{
    match text {
        [] => false,
        [byte, ..] => in_class(Class::Letter, *byte),
    }
}

/// A sign, by the text after it.
fn sign_token(byte: u8, rest: &[u8]) -> Token<'static>
    ensures { token_view result ≡ sign_token byte (begins_word rest.now) }
{
    if byte == b'-' && begins_word(rest) {
        Token::Minus
    } else {
        Token::Sign(byte)
    }
}

/// The first token of a text, and the text after it.
#[tactic(auto, using(crate::proofs::TokenLaws::first_token_laws), unfolding(crate::specs::Tokens::tokens))]
pub(crate) fn next(text: &[u8]) -> Option<(Token<'_>, &[u8])>
    ensures token { IsFirstToken text.now result }
    ensures shorter { IfSome result (λ x. length x.1.now < length text.now) }
{
    let mut rest = text;
    while let [byte, after @ ..] = rest {
        if is_sign(*byte) {
            return Some((sign_token(*byte, after), after));
        }
        if !is_blank(*byte) {
            let (word, left) = split_class(Class::Letter, rest);
            return Some((Token::Word(word), left));
        }
        rest = after;
    }
    None
}

/// The text after this sign, where it is the first token.
pub(crate) fn after_sign(sign: u8, text: &[u8]) -> Option<&[u8]>
    ensures { IsAfterSign sign text.now result }
{
    match next(text) {
        Some((Token::Sign(byte), rest)) if byte == sign => Some(rest),
        _ => None,
    }
}

/// The word that is the first token, and the text after it.
pub(crate) fn first_word(text: &[u8]) -> Option<(&[u8], &[u8])>
    ensures word { IsAfterWord text.now result }
    ensures shorter { IfSome result (λ x. length x.1.now < length text.now) }
{
    match next(text) {
        Some((Token::Word(word), rest)) => Some((word, rest)),
        _ => None,
    }
}
