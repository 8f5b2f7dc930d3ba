//! Where the next bytes stand, and how long a program may get.

ghost use Rattle.std.specs.Prelude.{◌≡◌, ◌<◌, ◌≤◌, ◌^◌, if◌then◌else◌};
ghost use Rattle.cet_words.specs.Layout.{page_up};
ghost use Rattle.cet_asm.specs.Layout.{grown, exceeds, after, symbol_of, start, address_of, size_of, program_limit};
ghost use Rattle.cet_syntax.specs.Views.{statement_view};
ghost use Rattle.cet_asm.specs.Passes.{IsWithin};

use crate::sections::{LocationCounter, Section, SymbolValue};
use cet_syntax::Statement;
use cet_words::page_up;

/// The address at which the text of a program starts.
pub const TEXT_START: u64 = 0x401000;

/// The most bytes that the text, rounded up to whole pages, and the data may have: they end at 0x800000.
const PROGRAM_LIMIT: u64 = 4_190_208;

pub(crate) fn start() -> LocationCounter
    ensures start { result ≡ start }
    ensures within { IsWithin result }
{
    LocationCounter {
        section: Section::Text,
        text: 0,
        static_data: 0,
    }
}

fn grown(here: LocationCounter, size: u64) -> LocationCounter
    requires within { IsWithin here }
    requires size { size ≤ program_limit }
    ensures { result ≡ grown here size }
{
    match here.section {
        Section::Text => LocationCounter {
            section: here.section,
            text: here.text + size,
            static_data: here.static_data,
        },
        Section::Data => LocationCounter {
            section: here.section,
            text: here.text,
            static_data: here.static_data + size,
        },
    }
}

fn exceeds(here: LocationCounter) -> bool
    requires text { here.text < 2 ^ 32 }
    requires static_data { here.static_data < 2 ^ 32 }
    ensures { result ≡ exceeds here }
{
    page_up(here.text) + here.static_data > PROGRAM_LIMIT
}

/// Whether the program gets too long by so many bytes.
#[tactic(auto, using(crate::proofs::LayoutLaws::layout_laws))]
pub(crate) fn is_too_long(here: LocationCounter, size: u128) -> bool
    requires { IsWithin here }
    ensures { result ≡ exceeds (grown here size) }
{
    if size > PROGRAM_LIMIT as u128 {
        return true;
    }
    exceeds(grown(here, size as u64))
}

fn moved(here: LocationCounter, size: u128) -> LocationCounter
    requires { IsWithin here }
    ensures here { result ≡ (if exceeds (grown here size) then here else grown here size) }
    ensures within { IsWithin result }
{
    if is_too_long(here, size) {
        here
    } else {
        grown(here, size as u64)
    }
}

/// After a line of so many bytes. One that makes the program too long has none.
#[tactic(auto, unfolding(crate::specs::Layout::after, crate::specs::Layout::is_too_long))]
pub(crate) fn after(here: LocationCounter, statement: Statement, size: u128) -> LocationCounter
    requires within { IsWithin here }
    requires size { size ≡ size_of (statement_view statement) }
    ensures here { result ≡ after here (statement_view statement.entry) }
    ensures within { IsWithin result }
{
    match statement {
        Statement::TextSection => LocationCounter {
            section: Section::Text,
            text: here.text,
            static_data: here.static_data,
        },
        Statement::DataSection => LocationCounter {
            section: Section::Data,
            text: here.text,
            static_data: here.static_data,
        },
        _ => moved(here, size),
    }
}

pub(crate) fn symbol_of(here: LocationCounter) -> SymbolValue
    ensures { result ≡ symbol_of here }
{
    let offset = match here.section {
        Section::Text => here.text,
        Section::Data => here.static_data,
    };
    SymbolValue {
        section: here.section,
        offset,
    }
}

/// The address of a place, where the text has so many bytes.
#[tactic(auto, unfolding(crate::specs::Layout::address_of))]
pub(crate) fn address_of(text: u64, symbol: SymbolValue) -> u64
    requires text { text ≤ program_limit }
    requires symbol { symbol.offset ≤ program_limit }
    ensures address { result ≡ address_of text symbol }
    ensures small { result < 2 ^ 24 }
{
    match symbol.section {
        Section::Text => TEXT_START + symbol.offset,
        Section::Data => TEXT_START + page_up(text) + symbol.offset,
    }
}
