//! The report of shadow stacks, read from words alone.

ghost use Rattle.std.specs.Prelude.{◌≡◌, ℕ, length, List, map, IfOk};
ghost use Rattle.cet_words.specs.Job.{ImageData};
ghost use Rattle.cet_book.specs.Book.{Book, region};
ghost use Rattle.cet_book.specs.Marks.{report_by, reports, word_report};
ghost use Rattle.cet_book.specs.View.{IsReadable, InStep, Covers, shown_region};

use crate::copies::read_regions;
use crate::marks::{Mark, found_of, list_of};
use crate::regions::{Region, Shown, StackReport, StackReports};
use cet_words::{NoMemory, Perform, Words};
use std::alloc::Global;

/// What a mark tells of a region with these words.
fn report_of(
    alloc: Global,
    region: Region,
    words: &Words,
    mark: Mark,
) -> Result<StackReport, NoMemory>
    ensures { IfOk result (λ report. report ≡ report_by region words.now mark) }
{
    let mut report = StackReport {
        region,
        shown: Shown::Lost,
        words: Words::new(alloc),
    };
    if let Mark::InView(shown, from) = mark {
        report.shown = shown;
        report.words.extend(alloc, list_of(words, from))?;
    }
    Ok(report)
}

/// What the marks tell of the regions.
fn reports_of(
    alloc: Global,
    regions: &[Region],
    copies: &[Words],
    marks: &[Mark],
) -> Result<StackReports, NoMemory>
    requires copies { length copies.now ≡ length regions.now }
    requires marks { length marks.now ≡ length regions.now }
    ensures { IfOk result (λ list. list ≡ reports regions.now copies.now marks.now (length regions.now)) }
{
    let mut list = StackReports::new(alloc);
    for at in 0..regions.len() {
        list.push(
            alloc,
            report_of(alloc, regions[at], &copies[at], marks[at])?,
        )?;
    }
    Ok(list)
}

/// The state and the words of each region, found by reading each word of it once, without a book; no word is changed. A region
/// is followed once at most, so the time is linear in the words. `ssps` are the threads that are on one of the regions, by
/// number, with their shadow-stack pointers.
pub fn report_of_words<P: Perform>(
    alloc: Global,
    words: &mut P,
    regions: &[Region],
    ssps: &[(u8, u64)],
) -> Result<StackReports, NoMemory>
    requires { IsReadable regions.now ssps.now }
    ensures same { P.words words.new ≡ P.words words.old }
    ensures exact { IfOk result (λ list. list ≡ word_report (P.words words.old) regions.now ssps.now) }
    // of words in step with a book, and of regions and pointers that cover it: what the book shows
    ensures shown { IfOk result (λ list. (image : ImageData) (b : Book) (numbers : List ℕ) → InStep image (P.words words.old) b → Covers b numbers regions.now ssps.now → list ≡ map (λ i. shown_region b (region b i)) numbers) }
{
    let copies = read_regions(alloc, words, regions)?;
    let found = found_of(alloc, regions, &copies, ssps)?;
    reports_of(alloc, regions, &copies, &found.marks)
}
