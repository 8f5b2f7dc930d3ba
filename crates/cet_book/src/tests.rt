//! Each case of the book's step with its refusals, and the report of words that no run leaves.

use super::*;
use cet_words::{
    Access, Bytes, FIRST_SHADOW_WORD, Image, NoMemory, Perform, Plain, SHADOW_END, SHADOW_START,
    Segment, Segments,
};
use std::alloc::Global;
use std::process::Abort;
use std::test::Fail;

/// A stack of one page is drawn, which thread 0 makes.
const CLAIM: Event = Event::Claimed {
    thread: 0,
    start: 0x2_0000_a000,
    pages: 1,
    maker: true,
};

const RETURN: Event = Event::Returned { thread: 0 };

const RELEASE: Event = Event::Released { thread: 0 };

const POP: Event = Event::Popped { thread: 0 };

const END: Event = Event::Ended { thread: 0 };

fn call(thread: u8) -> Event {
    Event::Called {
        thread,
        back: 0x401005,
    }
}

fn push(thread: u8) -> Event {
    Event::Pushed {
        thread,
        restorer: 0x401009,
    }
}

fn raise(thread: u8, count: u8) -> Event {
    Event::Raised { thread, count }
}

fn acquire(thread: u8, at: u64) -> Event {
    Event::Acquired { thread, at }
}

fn claim(start: u64, pages: u32) -> Event {
    Event::Claimed {
        thread: 1,
        start,
        pages,
        maker: false,
    }
}

fn seed(thread: u8, region: u32, blanks: u32) -> Event {
    Event::Seeded {
        thread,
        region,
        blanks,
    }
}

fn bear(parent: u8, child: u8, region: u32) -> Event {
    Event::Born {
        parent,
        child,
        region,
    }
}

fn busy(thread: u8, stack: u8) -> Event {
    Event::Busied { thread, stack }
}

fn free(thread: u8, stack: u8) -> Event {
    Event::Freed { thread, stack }
}

/// Each stack's holder, number of entries and newest entry, and each supervisor stack that is held.
fn sketch(alloc: Global, book: &Book) -> Result<String, Fail> {
    let mut text = String::new(alloc);
    for stack in &book.stacks {
        let line = format!(in alloc;
            "{:?} {} {:?}; ",
            stack.holder,
            stack.entries.len(),
            stack.entries.last()
        )?;
        text.push_str(&line)?;
    }
    for (at, gate) in book.gates.iter().enumerate() {
        if let Some(thread) = gate {
            let line = format!(in alloc; "{at} {thread}; ")?;
            text.push_str(&line)?;
        }
    }
    Ok(text)
}

/// Events, one more after them, and the book after it, or nothing where that one isn't legal.
type Case<'a> = (&'a [Event], Event, &'a str);

/// Applies the events of a case.
fn expect(rt: &impl Abort, alloc: Global, case: &Case) -> Result<(), Fail> {
    let (before, event, want) = *case;
    let mut book = Book::new(alloc)?;
    for event in before {
        assert!(rt; book.apply(alloc, event).is_ok(), "{event:?}");
    }
    let old = sketch(alloc, &book)?;
    let result = book.apply(alloc, &event);
    let new = sketch(alloc, &book)?;
    if want.is_empty() {
        assert!(rt; result == Err(BookFault::NotLegal), "{event:?}");
        assert_eq!(rt; new.as_str(), old.as_str(), "{event:?}");
    } else {
        assert!(rt; result.is_ok(), "{event:?}");
        assert_eq!(rt; new.as_str(), want, "{event:?}");
    }
    Ok(())
}

/// What is put on the stack of a thread, and taken off.
fn expect_entries(rt: &impl Abort, alloc: Global) -> Result<(), Fail> {
    let full = [CLAIM, seed(0, 1, 511), acquire(0, 0x2_0000_a000)];
    let room_for_one = [CLAIM, seed(0, 1, 510), acquire(0, 0x2_0000_a008)];
    let switched = [call(0), CLAIM, seed(0, 1, 0), acquire(0, 0x2_0000_aff8)];
    let blank = [CLAIM, seed(0, 1, 1), acquire(0, 0x2_0000_aff0), RELEASE];
    let cases: [Case; 30] = [
        (&[], call(0), "Current(0) 1 Some(Call(4198405)); "),
        (&[], call(1), ""),
        (&full, call(0), ""),
        (
            &room_for_one,
            call(0),
            "Left(1) 0 None; Current(0) 512 Some(Call(4198405)); ",
        ),
        (&[call(0)], RETURN, "Current(0) 0 None; "),
        (&[call(0)], Event::Returned { thread: 1 }, ""),
        (&[], RETURN, ""),
        (&[push(0)], RETURN, "Current(0) 1 Some(Frame); "),
        (&[push(0), RETURN], RETURN, ""),
        (&blank, RETURN, "Parked 0 None; Current(0) 0 None; "),
        (
            &switched,
            RETURN,
            "Lost 1 Some(Call(4198405)); Current(0) 0 None; ",
        ),
        (&[call(0), call(0)], raise(0, 2), "Current(0) 0 None; "),
        (&[call(0), call(0)], raise(1, 2), ""),
        (&[call(0), call(0)], raise(0, 3), ""),
        (&[push(0), call(0)], raise(0, 3), "Current(0) 0 None; "),
        (
            &switched,
            raise(0, 1),
            "Lost 1 Some(Call(4198405)); Current(0) 0 None; ",
        ),
        (&[], raise(0, 0), "Current(0) 0 None; "),
        (&[], raise(1, 0), ""),
        (&[], push(0), "Current(0) 2 Some(Restorer(4198409)); "),
        (&[], push(1), ""),
        (&room_for_one, push(0), ""),
        (&[push(0), RETURN], POP, "Current(0) 0 None; "),
        (&[push(0), RETURN], Event::Popped { thread: 1 }, ""),
        (&[], POP, ""),
        (&[push(0)], POP, ""),
        (&[call(0)], POP, ""),
        (&blank, POP, ""),
        (&switched, POP, ""),
        (&[call(0)], END, "Lost 1 Some(Call(4198405)); "),
        (&[END], END, ""),
    ];
    for case in &cases {
        expect(rt, alloc, case)?;
    }
    Ok(())
}

/// What is taken and parked.
fn expect_switches(rt: &impl Abort, alloc: Global) -> Result<(), Fail> {
    let parked = [call(0), CLAIM, seed(0, 1, 1)];
    let switched = [call(0), CLAIM, seed(0, 1, 1), acquire(0, 0x2_0000_aff0)];
    let called = [CLAIM, seed(0, 1, 0), acquire(0, 0x2_0000_aff8), call(0)];
    let pushed = [CLAIM, seed(0, 1, 0), acquire(0, 0x2_0000_aff8), push(0)];
    let released = [CLAIM, seed(0, 1, 1), acquire(0, 0x2_0000_aff0), RELEASE];
    let lost = [CLAIM, seed(0, 1, 0), acquire(0, 0x2_0000_aff8), END];
    let other = Event::Claimed {
        thread: 0,
        start: 0x2_0000_c000,
        pages: 1,
        maker: true,
    };
    // thread 1 is born and calls while thread 0 is away
    let away = [
        call(0),
        CLAIM,
        seed(0, 1, 2),
        other,
        acquire(0, 0x2_0000_afe8),
        bear(0, 1, 2),
        call(1),
    ];
    let left_full = [
        CLAIM,
        seed(0, 1, 511),
        acquire(0, 0x2_0000_a000),
        other,
        seed(0, 2, 0),
        acquire(0, 0x2_0000_cff8),
    ];
    let cases: [Case; 18] = [
        (
            &parked,
            acquire(0, 0x2_0000_aff0),
            "Left(1) 1 Some(Call(4198405)); Current(0) 2 Some(Previous(0)); ",
        ),
        (&parked, acquire(1, 0x2_0000_aff0), ""),
        (&parked, acquire(0, 0x2_0000_aff8), ""),
        (&parked, acquire(0, 0x1_ffff_fff8), ""),
        (&[CLAIM], acquire(0, 0x2_0000_aff8), ""),
        (&switched, acquire(0, 0x2_0000_aff0), ""),
        (&lost, acquire(0, 0x2_0000_aff0), ""),
        (
            &released,
            acquire(0, 0x2_0000_8ff8),
            "Current(0) 1 Some(Previous(1)); Left(0) 1 Some(Blank); ",
        ),
        (
            &switched,
            RELEASE,
            "Parked 1 Some(Call(4198405)); Current(0) 1 Some(Blank); ",
        ),
        (
            &away,
            call(1),
            "Left(1) 1 Some(Call(4198405)); Current(0) 3 Some(Previous(0)); Current(1) 2 Some(Call(4198405)); ",
        ),
        (
            &away,
            RELEASE,
            "Parked 1 Some(Call(4198405)); Current(0) 2 Some(Blank); Current(1) 1 Some(Call(4198405)); ",
        ),
        (&switched, Event::Released { thread: 1 }, ""),
        (&[], RELEASE, ""),
        (&called, RELEASE, ""),
        (&pushed, RELEASE, ""),
        (&[push(0), RETURN], RELEASE, ""),
        (&released, RELEASE, ""),
        (&left_full, RELEASE, ""),
    ];
    for case in &cases {
        expect(rt, alloc, case)?;
    }
    Ok(())
}

/// What is drawn, made and given to a child.
fn expect_claims(rt: &impl Abort, alloc: Global) -> Result<(), Fail> {
    let seeded = [CLAIM, seed(0, 1, 0)];
    let born = [CLAIM, bear(0, 1, 1)];
    let cases: [Case; 26] = [
        (&[], CLAIM, "Current(0) 0 None; Maker(0) 0 None; "),
        (
            &[],
            claim(0x2_0000_a000, 1013),
            "Current(0) 0 None; Lost 0 None; ",
        ),
        (&[], claim(0x2_0000_a000, 1014), ""),
        (&[], claim(0x2_0000_a000, 1023), ""),
        (&[], claim(0x2_003f_f000, 1), ""),
        (&[], claim(0x2_0000_a000, 0), ""),
        (&[], claim(0x2_0000_a008, 1), ""),
        (&[], claim(0x2_0000_9000, 1), ""),
        (&[CLAIM], claim(0x2_0000_b000, 1), ""),
        (
            &[CLAIM],
            claim(0x2_0000_c000, 1),
            "Current(0) 0 None; Maker(0) 0 None; Lost 0 None; ",
        ),
        (
            &[CLAIM],
            seed(0, 1, 511),
            "Current(0) 0 None; Parked 511 Some(Blank); ",
        ),
        (&[CLAIM], seed(0, 1, 512), ""),
        (&[CLAIM], seed(1, 1, 0), ""),
        (&[CLAIM], seed(0, 0, 0), ""),
        (&[CLAIM], seed(0, 2, 0), ""),
        (&seeded, seed(0, 1, 0), ""),
        (&[claim(0x2_0000_a000, 1)], seed(1, 1, 0), ""),
        (
            &[CLAIM],
            bear(0, 1, 1),
            "Current(0) 0 None; Current(1) 0 None; ",
        ),
        (
            &[CLAIM],
            bear(0, 200, 1),
            "Current(0) 0 None; Current(200) 0 None; ",
        ),
        (
            &[CLAIM, END],
            bear(0, 0, 1),
            "Lost 0 None; Current(0) 0 None; ",
        ),
        (&[CLAIM], bear(1, 2, 1), ""),
        (&[CLAIM], bear(0, 0, 1), ""),
        (&[CLAIM], bear(0, 1, 0), ""),
        (&[CLAIM], bear(0, 1, 2), ""),
        (&seeded, bear(0, 1, 1), ""),
        (&born, bear(0, 2, 1), ""),
    ];
    for case in &cases {
        expect(rt, alloc, case)?;
    }
    Ok(())
}

/// Who holds a supervisor stack.
fn expect_gates(rt: &impl Abort, alloc: Global) -> Result<(), Fail> {
    let cases: [Case; 8] = [
        (&[], busy(1, 7), "Current(0) 0 None; 7 1; "),
        (&[], busy(1, 8), ""),
        (&[busy(1, 7)], busy(0, 7), ""),
        (&[busy(1, 7)], busy(1, 6), ""),
        (&[busy(1, 7)], free(1, 7), "Current(0) 0 None; "),
        (&[busy(1, 7)], free(0, 7), ""),
        (&[busy(1, 7)], free(1, 6), ""),
        (&[], free(1, 8), ""),
    ];
    for case in &cases {
        expect(rt, alloc, case)?;
    }
    Ok(())
}

#[test]
fn cases(rt: HostRuntime) -> Result<(), Fail> {
    let alloc = rt.alloc();
    expect_entries(&rt, alloc)?;
    expect_switches(&rt, alloc)?;
    expect_claims(&rt, alloc)?;
    expect_gates(&rt, alloc)
}

/// Stores words at addresses of the shadow area.
fn put(words: &mut Plain, values: &[(u64, u64)]) {
    for (addr, value) in values {
        if SHADOW_START <= *addr && *addr < SHADOW_END {
            words.perform(Access::Store(
                FIRST_SHADOW_WORD + ((*addr - SHADOW_START) / 8) as u32,
                *value,
            ));
        }
    }
}

/// How each region is shown, and the number of its words.
fn sketch_report(alloc: Global, reports: &StackReports) -> Result<String, Fail> {
    let mut text = String::new(alloc);
    for report in reports.as_slice() {
        let line = format!(in alloc; "{:?} {}; ", report.shown, report.words.len())?;
        text.push_str(&line)?;
    }
    Ok(text)
}

/// An image of one page of code.
fn image(alloc: Global) -> Result<Image, NoMemory> {
    let segment = Segment {
        start: 0x401000,
        bytes: Bytes::new(alloc),
        size: 16,
        write: false,
        exec: true,
    };
    let mut segments = Segments::new(alloc);
    segments.push(alloc, segment)?;
    Ok(Image {
        entry: 0x401000,
        marked: true,
        tracked: false,
        segments,
    })
}

/// Words at their addresses, and the report of them.
type Words<'a> = (&'a [(u64, u64)], &'a str);

/// Reports stacks that have these words and no others. Threads are on the first, at the end of the fifth and at the start of
/// the seventh; the sixth has no page.
fn expect_report(
    rt: &impl Abort,
    alloc: Global,
    words: &mut Plain,
    case: &Words,
) -> Result<(), Fail> {
    let (values, want) = *case;
    let regions = [
        Region {
            start: 0x2_0000_1000,
            end: 0x2_0000_2000,
        },
        Region {
            start: 0x2_0000_3000,
            end: 0x2_0000_4000,
        },
        Region {
            start: 0x2_0000_5000,
            end: 0x2_0000_6000,
        },
        Region {
            start: 0x2_0000_7000,
            end: 0x2_0000_8000,
        },
        Region {
            start: 0x2_0000_9000,
            end: 0x2_0000_a000,
        },
        Region {
            start: 0x2_0000_b000,
            end: 0x2_0000_b000,
        },
        Region {
            start: 0x2_0000_d000,
            end: 0x2_0000_e000,
        },
        Region {
            start: 0x2_0001_0000,
            end: 0x2_0001_1000,
        },
    ];
    let ssps = [(0, 0x2_0000_1ff8), (1, 0x2_0000_a000), (2, 0x2_0000_d000)];
    put(words, values);
    let reports = report_of_words(alloc, words, &regions, &ssps)?;
    let text = sketch_report(alloc, &reports)?;
    assert_eq!(rt; text.as_str(), want);
    Ok(())
}

#[test]
fn odd_words(rt: HostRuntime) -> Result<(), Fail> {
    let alloc = rt.alloc();
    let cases: [Words; 13] = [
        // none, one that leads to its own stack, one between two stacks
        (
            &[],
            "Current(0) 1; Lost 0; Lost 0; Lost 0; Current(1) 0; Lost 0; Current(2) 512; Lost 0; ",
        ),
        (
            &[(0x2_0000_1ff8, 0x2_0000_1ffb)],
            "Current(0) 1; Lost 0; Lost 0; Lost 0; Current(1) 0; Lost 0; Current(2) 512; Lost 0; ",
        ),
        (
            &[(0x2_0000_1ff8, 0x2_0000_2ffb)],
            "Current(0) 1; Lost 0; Lost 0; Lost 0; Current(1) 0; Lost 0; Current(2) 512; Lost 0; ",
        ),
        // a circle to which a thread's stack leads, and one to which nothing leads
        (
            &[
                (0x2_0000_1ff8, 0x2_0000_3ffb),
                (0x2_0000_3ff8, 0x2_0000_1ffb),
            ],
            "Current(0) 1; Left 1; Lost 0; Lost 0; Current(1) 0; Lost 0; Current(2) 512; Lost 0; ",
        ),
        (
            &[
                (0x2_0000_3ff8, 0x2_0000_5ffb),
                (0x2_0000_5ff8, 0x2_0000_3ffb),
            ],
            "Current(0) 1; Lost 0; Lost 0; Lost 0; Current(1) 0; Lost 0; Current(2) 512; Lost 0; ",
        ),
        // into the middle of a stack, to its start, to its end, and to one of no page
        (
            &[(0x2_0000_1ff8, 0x2_0000_7803)],
            "Current(0) 1; Lost 0; Lost 0; Left 256; Current(1) 0; Lost 0; Current(2) 512; Lost 0; ",
        ),
        (
            &[(0x2_0000_1ff8, 0x2_0000_7003)],
            "Current(0) 1; Lost 0; Lost 0; Left 512; Current(1) 0; Lost 0; Current(2) 512; Lost 0; ",
        ),
        (
            &[(0x2_0000_1ff8, 0x2_0000_8003)],
            "Current(0) 1; Lost 0; Lost 0; Left 0; Current(1) 0; Lost 0; Current(2) 512; Lost 0; ",
        ),
        (
            &[(0x2_0000_1ff8, 0x2_0000_b003)],
            "Current(0) 1; Lost 0; Lost 0; Lost 0; Current(1) 0; Left 0; Current(2) 512; Lost 0; ",
        ),
        // restore tokens of an empty stack, of a full one and of one of no page
        (
            &[
                (0x2_0000_3ff8, 0x2_0000_4001),
                (0x2_0000_4ff8, 0x2_0000_5001),
                (0x2_0000_aff8, 0x2_0000_b001),
            ],
            "Current(0) 1; Parked 0; Parked 512; Lost 0; Current(1) 0; Parked 0; Current(2) 512; Lost 0; ",
        ),
        // two in one stack, and one in a thread's stack
        (
            &[
                (0x2_0000_3000, 0x2_0000_3009),
                (0x2_0000_3ff8, 0x2_0000_4001),
                (0x2_0000_1ff0, 0x2_0000_1ff9),
            ],
            "Current(0) 1; Parked 511; Lost 0; Lost 0; Current(1) 0; Lost 0; Current(2) 512; Lost 0; ",
        ),
        // two words that lead to one stack
        (
            &[
                (0x2_0000_d008, 0x2_0000_3ffb),
                (0x2_0000_d010, 0x2_0000_3ff3),
            ],
            "Current(0) 1; Left 1; Lost 0; Lost 0; Current(1) 0; Lost 0; Current(2) 512; Lost 0; ",
        ),
        // each stack leads to the one before it
        (
            &[
                (0x2_0000_1ff8, 0x2_0001_0ffb),
                (0x2_0001_0ff8, 0x2_0000_7ffb),
                (0x2_0000_7ff8, 0x2_0000_5ffb),
                (0x2_0000_5ff8, 0x2_0000_3ffb),
            ],
            "Current(0) 1; Left 1; Left 1; Left 1; Current(1) 0; Lost 0; Current(2) 512; Left 1; ",
        ),
    ];
    for case in &cases {
        let mut words = Plain::new(alloc, &image(alloc)?)?;
        expect_report(&rt, alloc, &mut words, case)?;
    }
    Ok(())
}
