//! One line of a text by itself.

ghost use Rattle.std.specs.Prelude.{◌≡◌, length, ◌<◌, IfSome};
ghost use Rattle.std.specs.Str.{is_utf8};
ghost use Rattle.cet_syntax.specs.Line.{after_colon, first_label, after_labels, line_of};
ghost use Rattle.cet_syntax.specs.Views.{label_view, line_view, IsFirstLabel, IsSpelledStatement};

use crate::classes::{Class, skip_class, split_class};
use crate::names::is_label;
use crate::rules::Rule;
use crate::statements::{Statement, statement_of};

/// A line: the text at whose front its labels stand, and what it states.
#[derive(Clone, Copy)]
pub struct Line<'a> {
    pub labels: &'a [u8],
    pub statement: Statement<'a>,
}

/// A label and the text after its colon, where a colon stands directly after the name.
fn after_colon<'a>(name: &'a [u8], rest: &'a [u8]) -> Option<(&'a [u8], &'a [u8])>
    ensures label { label_view result ≡ after_colon name.now rest.now }
    ensures shorter { IfSome result (λ x. length x.1.now < length rest.now) }
{
    match rest {
        [] => None,
        [byte, after @ ..] => {
            if *byte == b':' && is_label(name) {
                Some((name, after))
            } else {
                None
            }
        }
    }
}

/// The first label of a text, and the text after its colon.
#[tactic(auto, using(crate::proofs::TokenLaws::behind_shorter), unfolding(crate::specs::Line::first_label))]
fn first_label(text: &[u8]) -> Option<(&[u8], &[u8])>
    ensures label { label_view result ≡ first_label text.now }
    ensures shorter { IfSome result (λ x. length x.1.now < length text.now) }
{
    let start = skip_class(Class::Blank, text);
    let (name, rest) = split_class(Class::NameByte, start);
    after_colon(name, rest)
}

/// The first label of a text, and the text after it.
#[tactic(auto, using(crate::proofs::LineLaws::label_laws))]
pub fn next_label(text: &[u8]) -> Option<(&[u8], &[u8])>
    ensures label { IsFirstLabel text.now result }
    ensures shorter { IfSome result (λ x. length x.1.now < length text.now) }
{
    first_label(text)
}

#[tactic(auto, using(crate::proofs::LineLaws::label_laws))]
fn after_labels(text: &[u8]) -> &[u8]
    ensures { result.now ≡ after_labels text.now }
{
    let mut rest = text;
    while let Some((_, after)) = first_label(rest) {
        rest = after;
    }
    rest
}

#[tactic(auto, using(crate::proofs::LineLaws::utf8_laws))]
fn is_utf8(bytes: &[u8]) -> bool
    ensures { result ≡ is_utf8 bytes.now }
{
    std::str::from_utf8(bytes).is_ok()
}

/// Reads a line, without its newline.
#[tactic(auto, using(crate::proofs::LineLaws::label_nil), unfolding(crate::specs::Line::line_of))]
pub fn read_line(bytes: &[u8]) -> Line<'_>
    ensures value { line_view result ≡ line_of bytes.now }
    ensures spelled { IsSpelledStatement result.statement }
{
    if !is_utf8(bytes) {
        return Line {
            labels: &[],
            statement: Statement::Broken(Rule::NotUtf8),
        };
    }
    let text = split_class(Class::BeforeComment, bytes).0;
    Line {
        labels: text,
        statement: statement_of(after_labels(text)),
    }
}
