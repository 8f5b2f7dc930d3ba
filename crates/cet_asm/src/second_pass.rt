//! The second pass: the rules of each line, and the bytes of the program.

ghost use Rattle.std.specs.Prelude.{◌≡◌, ◌<◌, ◌≤◌, ◌-◌, ◌^◌, ◌++◌, length, OnOk, true, codes};
ghost use Rattle.cet_asm.specs.Layout.{size_of, program_limit};
ghost use Rattle.cet_asm.specs.Program.{lines_of, bytes_of, in_section, is_in_reach, mark_after, symbol_address};
ghost use Rattle.cet_syntax.specs.Views.{statement_view, IsSpelledStatement};
ghost use Rattle.cet_asm.specs.Passes.{is_number, IsWithin};
ghost use Rattle.cet_asm.specs.Places.{symbols_view, IsSmall};
ghost use Rattle.cet_asm.specs.Second.{IsSecond, IsLineAnswer};
ghost use Rattle.cet_asm.specs.declared.sections.Section.TheVariants.{Text, Data};

use crate::checks::{broken_at, rule_number};
use crate::emission::put_statement;
use crate::labels::{Labels, symbol_address};
use crate::layout::{after, start};
use crate::program::{AsmFault, Program};
use crate::sections::{LocationCounter, Section};
use crate::sizes::size_of;
use cet_syntax::{Statement, first_line, read_line};
use cet_words::{Bytes, NoMemory};
use std::alloc::Global;

/// What has been written so far.
#[derive(Drop)]
struct Output {
    text: Bytes,
    static_data: Bytes,
}

fn is_number(number: u32, line: Option<u32>) -> bool
    ensures { result ≡ is_number number line }
{
    match line {
        Some(line) => line == number,
        None => false,
    }
}

fn mark_after(mark: u8, statement: Statement) -> u8
    ensures { result ≡ mark_after mark (statement_view statement.entry) }
{
    match statement {
        Statement::Mark(mark) => mark,
        _ => mark,
    }
}

/// Appends the bytes of a line to those of its section.
fn put_line<'a>(
    alloc: Global,
    out: &mut Output,
    labels: &Labels<'a>,
    here: LocationCounter,
    statement: Statement<'a>,
    size: u128,
) -> Result<(), NoMemory>
    requires small { IsSmall (symbols_view labels.now) }
    requires within { IsWithin here }
    requires spelled { IsSpelledStatement statement }
    requires size { size ≡ size_of (statement_view statement) }
    requires short { size ≤ program_limit }
    requires reach { is_in_reach (symbols_view labels.now) here (statement_view statement) ≡ true }
    ensures text { OnOk result (out.new.text ≡ out.old.text ++ in_section Text here.section (bytes_of (symbols_view labels.now) here (statement_view statement.entry))) }
    ensures static_data { OnOk result (out.new.static_data ≡ out.old.static_data ++ in_section Data here.section (bytes_of (symbols_view labels.now) here (statement_view statement.entry))) }
{
    match here.section {
        Section::Text => put_statement(alloc, &mut out.text, labels, here, statement, size),
        Section::Data => put_statement(alloc, &mut out.static_data, labels, here, statement, size),
    }
}

/// Tests a line, and appends its bytes. The answer is where the next line stands.
#[tactic(auto, using(crate::proofs::CheckLaws::check_laws))]
fn second_line<'a>(
    alloc: Global,
    out: &mut Output,
    labels: &Labels<'a>,
    twice: bool,
    number: u32,
    here: LocationCounter,
    statement: Statement<'a>,
) -> Result<LocationCounter, AsmFault>
    requires small { IsSmall (symbols_view labels.now) }
    requires within { IsWithin here }
    requires spelled { IsSpelledStatement statement }
    ensures answer { IsLineAnswer (symbols_view labels.now) twice number here (statement_view statement.entry) result }
    ensures text { OnOk result (out.new.text ≡ out.old.text ++ in_section Text here.section (bytes_of (symbols_view labels.now) here (statement_view statement.entry))) }
    ensures static_data { OnOk result (out.new.static_data ≡ out.old.static_data ++ in_section Data here.section (bytes_of (symbols_view labels.now) here (statement_view statement.entry))) }
{
    let size = size_of(alloc, statement)?;
    if let Some(rule) = broken_at(labels, twice, here, statement, size) {
        return Err(AsmFault::At {
            line: number,
            rule: rule_number(rule),
        });
    }
    put_line(alloc, out, labels, here, statement, size)?;
    Ok(after(here, statement, size))
}

/// Where the program starts: at `_start`, or else where the text does.
fn entry(labels: &Labels) -> u64
    requires { IsSmall (symbols_view labels.now) }
    ensures { result ≡ symbol_address (symbols_view labels.now) (codes "_start") }
{
    symbol_address(labels, b"_start")
}

/// Tests the lines of a text and writes its program, by the places of its labels and the first line with a label that
/// is defined before.
pub(crate) fn second_pass<'a>(
    alloc: Global,
    source: &'a [u8],
    labels: &Labels<'a>,
    twice: Option<u32>,
) -> Result<Program, AsmFault>
    requires short { length source.now < 2 ^ 32 - 1 }
    requires small { IsSmall (symbols_view labels.now) }
    ensures { IsSecond (symbols_view labels.now) twice (lines_of source.now) result }
{
    let mut out = Output {
        text: Bytes::new(alloc),
        static_data: Bytes::new(alloc),
    };
    let mut here = start();
    let mut mark = 2;
    let mut above: u32 = 0;
    let mut left = Some(source);
    while let Some(text) = left {
        let (bytes, rest) = first_line(text);
        let line = read_line(bytes);
        let number = above + 1;
        here = second_line(
            alloc,
            &mut out,
            labels,
            is_number(number, twice),
            number,
            here,
            line.statement,
        )?;
        mark = mark_after(mark, line.statement);
        above = number;
        left = rest;
    }
    Ok(Program {
        text: out.text,
        static_data: out.static_data,
        entry: entry(labels),
        mark,
    })
}
