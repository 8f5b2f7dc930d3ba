//! The first pass: the places of all labels, and the first line with a label that is defined before.

ghost use Rattle.std.specs.Prelude.{◌≡◌, ◌<◌, ◌-◌, ◌^◌, length, IfOk};
ghost use Rattle.cet_asm.specs.Layout.{start};
ghost use Rattle.cet_asm.specs.Program.{lines_of, end_from};
ghost use Rattle.cet_asm.specs.Passes.{place_in, places_from, twice_from, number_if, no_places};

use crate::labels::{Labels, define_all};
use crate::layout::{after, start, symbol_of};
use crate::sections::SymbolValue;
use crate::sizes::size_of;
use cet_syntax::{first_line, read_line};
use cet_words::NoMemory;
use std::alloc::Global;
use std::collections::BTreeMap;

/// What the first pass finds.
#[derive(Drop)]
pub(crate) struct Survey<'a> {
    pub labels: Labels<'a>,

    /// The number of the first line with a label that is defined before.
    pub twice: Option<u32>,
}

fn number_if(again: bool, number: u32) -> Option<u32>
    ensures { result ≡ number_if again number }
{
    if again { Some(number) } else { None }
}

/// Finds the labels of a text.
pub(crate) fn first_pass(alloc: Global, source: &[u8]) -> Result<Survey<'_>, NoMemory>
    requires { length source.now < 2 ^ 32 - 1 }
    ensures places { IfOk result (λ x. place_in x.labels.places ≡ places_from no_places start (lines_of source.now)) }
    ensures text_size { IfOk result (λ x. x.labels.text_size ≡ (end_from start (lines_of source.now)).text) }
    ensures twice { IfOk result (λ x. x.twice ≡ twice_from 1 no_places start (lines_of source.now)) }
{
    let mut places: BTreeMap<&[u8], SymbolValue> = BTreeMap::new(alloc);
    let mut here = start();
    let mut above: u32 = 0;
    let mut twice = None;
    let mut left = Some(source);
    while let Some(text) = left {
        let (bytes, rest) = first_line(text);
        let line = read_line(bytes);
        let again = define_all(&mut places, line.labels, symbol_of(here))?;
        twice = twice.or(number_if(again, above + 1));
        let size = size_of(alloc, line.statement)?;
        here = after(here, line.statement, size);
        above += 1;
        left = rest;
    }
    let labels = Labels {
        places,
        text_size: here.text,
    };
    Ok(Survey { labels, twice })
}
