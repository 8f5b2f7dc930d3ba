//! The text of a report.

ghost use Rattle.std.specs.Prelude.{◌≡◌, ◌≤◌, ◌++◌, length, map, OnOk, IfOk};
ghost use Rattle.std.specs.List.{flat_map, enumerate_from};
ghost use Rattle.cet_trace.specs.Line.{word_text};
ghost use Rattle.cet_trace.specs.Report.{thread_line, thread_text, entry_text, shown_from, shown_entries, stack_line, stack_text, process_text, process_words, report_of};

use crate::lines::{Word, put_line};
use crate::records::put_records;
use cet_base::Style;
use cet_book::{Shown, StackReport};
use cet_isa::End;
use cet_run::{Outcome, ProcessEnd, Records, ThreadOut};
use cet_words::{Bytes, NoMemory};
use std::alloc::Global;

/// The mark of a frame in the word of an entry.
const FRAME: u64 = 1 << 63;

/// Appends the first line of a thread.
#[tactic(auto, unfolding(crate::specs::Report::thread_line))]
fn put_thread_line(
    alloc: Global,
    out: &mut Bytes,
    number: u64,
    thread: &ThreadOut,
) -> Result<(), NoMemory>
    ensures { OnOk result (out.new ≡ out.old ++ thread_line number thread.now) }
{
    let first = Word::Text("thread");
    let number = Word::Decimal(number);
    let records = Word::Text("records");
    let count = Word::Decimal(thread.records.len() as u64);
    match thread.end {
        End::Exit(status) => {
            let status = Word::Decimal(u64::from(status));
            let words = [number, records, count, Word::Text("exit"), status];
            put_line(alloc, out, first, &words)
        }
        End::Group => put_line(
            alloc,
            out,
            first,
            &[number, records, count, Word::Text("group")],
        ),
        End::Limit => put_line(
            alloc,
            out,
            first,
            &[number, records, count, Word::Text("limit")],
        ),
    }
}

fn shown_from(style: Style, records: &Records) -> usize
    ensures value { result ≡ shown_from style records.now }
    ensures within { result ≤ length records.now }
{
    match style {
        Style::Full => 0,
        Style::Last => records.len().saturating_sub(1),
    }
}

/// Appends a thread.
#[tactic(auto, unfolding(crate::specs::Report::thread_text))]
fn put_thread(
    alloc: Global,
    out: &mut Bytes,
    number: u64,
    thread: &ThreadOut,
    style: Style,
) -> Result<(), NoMemory>
    ensures { OnOk result (out.new ≡ out.old ++ thread_text style (number, thread.now)) }
{
    put_thread_line(alloc, out, number, thread)?;
    let from = shown_from(style, &thread.records);
    put_records(alloc, out, number, &thread.records, from)
}

fn put_threads(
    alloc: Global,
    out: &mut Bytes,
    threads: &[ThreadOut],
    style: Style,
) -> Result<(), NoMemory>
    ensures { OnOk result (out.new ≡ out.old ++ flat_map (thread_text style) (enumerate_from 0 threads.now)) }
{
    for (number, thread) in threads.iter().enumerate() {
        put_thread(alloc, out, number as u64, thread, style)?;
    }
    Ok(())
}

/// Appends an entry of a shadow stack.
#[tactic(auto, unfolding(crate::specs::Report::entry_text))]
fn put_entry(alloc: Global, out: &mut Bytes, word: u64) -> Result<(), NoMemory>
    ensures { OnOk result (out.new ≡ out.old ++ entry_text word) }
{
    match word {
        0 => put_line(alloc, out, Word::Text("  blank"), &[]),
        FRAME.. => put_line(
            alloc,
            out,
            Word::Text("  frame"),
            &[Word::Hex(word - FRAME)],
        ),
        1..0x1_0000_0000 => put_line(alloc, out, Word::Text("  ret"), &[Word::Hex(word)]),
        _ => put_line(
            alloc,
            out,
            Word::Text("  prev"),
            &[Word::Hex(word - word % 4)],
        ),
    }
}

fn put_entries(alloc: Global, out: &mut Bytes, words: &[u64]) -> Result<(), NoMemory>
    ensures { OnOk result (out.new ≡ out.old ++ flat_map entry_text words.now) }
{
    for word in words {
        put_entry(alloc, out, *word)?;
    }
    Ok(())
}

/// Appends the first line of a shadow stack.
#[tactic(auto, unfolding(crate::specs::Report::stack_line))]
fn put_stack_line(alloc: Global, out: &mut Bytes, stack: &StackReport) -> Result<(), NoMemory>
    ensures { OnOk result (out.new ≡ out.old ++ stack_line stack.now) }
{
    let first = Word::Text("region");
    let start = Word::Hex(stack.region.start);
    let end = Word::Hex(stack.region.end);
    match stack.shown {
        Shown::Current(number) => {
            let number = Word::Decimal(u64::from(number));
            put_line(
                alloc,
                out,
                first,
                &[start, end, Word::Text("current"), number],
            )
        }
        Shown::Parked => put_line(alloc, out, first, &[start, end, Word::Text("parked")]),
        Shown::Left => put_line(alloc, out, first, &[start, end, Word::Text("left")]),
        Shown::Lost => put_line(alloc, out, first, &[start, end, Word::Text("lost")]),
    }
}

/// The words of the entries that are shown.
fn shown_entries(stack: &StackReport) -> &[u64]
    ensures { result.now ≡ shown_entries stack.now.shown stack.now.words }
{
    match stack.shown {
        Shown::Lost => &[],
        Shown::Current(_) | Shown::Parked | Shown::Left => stack.words.as_slice(),
    }
}

/// Appends a shadow stack.
#[tactic(auto, unfolding(crate::specs::Report::stack_text))]
fn put_stack(alloc: Global, out: &mut Bytes, stack: &StackReport) -> Result<(), NoMemory>
    ensures { OnOk result (out.new ≡ out.old ++ stack_text stack.now) }
{
    put_stack_line(alloc, out, stack)?;
    put_entries(alloc, out, shown_entries(stack))
}

fn put_stacks(alloc: Global, out: &mut Bytes, stacks: &[StackReport]) -> Result<(), NoMemory>
    ensures { OnOk result (out.new ≡ out.old ++ flat_map stack_text stacks.now) }
{
    for stack in stacks {
        put_stack(alloc, out, stack)?;
    }
    Ok(())
}

/// A process's end: its kind and its number.
pub(crate) fn process_words(process: ProcessEnd) -> [Word; 2]
    ensures { map word_text result ≡ process_words process }
{
    let (name, number) = match process {
        ProcessEnd::Exit(status) => ("exit", status),
        ProcessEnd::Killed(signal) => ("killed", signal),
        ProcessEnd::Limit(number) => ("limit", number),
    };
    [Word::Text(name), Word::Decimal(u64::from(number))]
}

/// Appends the last line of a report.
#[tactic(auto, unfolding(crate::specs::Report::process_text))]
fn put_process(alloc: Global, out: &mut Bytes, process: ProcessEnd) -> Result<(), NoMemory>
    ensures { OnOk result (out.new ≡ out.old ++ process_text process) }
{
    let words = process_words(process);
    put_line(alloc, out, Word::Text("process"), &words)
}

/// The report of an outcome, in this style.
#[tactic(auto, unfolding(crate::specs::Report::report_of))]
pub fn report(alloc: Global, outcome: &Outcome, style: Style) -> Result<Bytes, NoMemory>
    ensures { IfOk result (λ bytes. bytes ≡ report_of outcome.now style) }
{
    let mut out = Bytes::new(alloc);
    put_line(alloc, &mut out, Word::Text("cetvm report 1"), &[])?;
    put_threads(alloc, &mut out, outcome.threads.as_slice(), style)?;
    put_stacks(alloc, &mut out, outcome.stacks.as_slice())?;
    put_process(alloc, &mut out, outcome.process)?;
    Ok(out)
}
