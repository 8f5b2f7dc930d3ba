//! The program over streams that fail.

ghost use Rattle.std.specs.Prelude.{◌≤◌};

use crate::{Status, plain};
use cet_io::{MemSink, MemSource, Source, SureSource};
use std::alloc::{AllocError, Global};
use std::process::Abort;
use std::test::Fail;

/// More than the longest output here has, in bytes.
pub(crate) const ROOM: u32 = 8192;

/// The words of a command, parted by blanks.
pub(crate) fn words(alloc: Global, text: &str) -> Result<Vec<String>, AllocError> {
    let mut words = Vec::new(alloc);
    for word in text.split_whitespace() {
        words.push(String::from_str(alloc, word)?)?;
    }
    Ok(words)
}

fn run<S: Source>(alloc: Global, src: &mut S, sink: &mut MemSink) -> Result<Status, AllocError> {
    Ok(plain(alloc, &words(alloc, "run")?, src, sink))
}

/// The image of an exit with status 7, of 4,108 bytes.
pub(crate) fn exit_seven(rt: &impl Abort, alloc: Global) -> Result<MemSink, Fail> {
    let mut src = SureSource::new(alloc, b"mov edi, 7\nmov eax, 60\nsyscall\n")?;
    let mut image = MemSink::new(alloc, ROOM, ROOM, &[])?;
    let words = words(alloc, "asm")?;
    assert_eq!(rt; plain(alloc, &words, &mut src, &mut image), Status::Done);
    assert_eq!(rt; image.bytes().len(), 4108);
    Ok(image)
}

pub(crate) const EXIT_SEVEN: &str = "cetvm report 1
thread 0 records 3 exit 7
0 step 0000000000401000 0 0000000000000007 0000000000000002
0 step 0000000000401005 0 000000000000003c 0000000000000002
0 sys 000000000040100a 0 000000000000003c 0000000000000007
region 0000000200001000 0000000200009000 lost
process exit 7
";

/// The first part of the report that stays where this write fails. Each takes at most so many bytes.
fn keeps(
    rt: &impl Abort,
    alloc: Global,
    piece: u32,
    failing: u32,
    status: Status,
    kept: usize,
) -> Result<(), Fail>
    requires { 1 ≤ piece }
{
    let mut src = SureSource::new(alloc, exit_seven(rt, alloc)?.bytes())?;
    let mut sink = MemSink::new(alloc, ROOM, piece, &[failing])?;
    assert_eq!(rt; run(alloc, &mut src, &mut sink)?, status);
    assert_eq!(rt; sink.bytes().len(), kept);
    assert!(rt; EXIT_SEVEN.as_bytes().starts_with(sink.bytes()));
    Ok(())
}

/// The report of the exit with status 7 has 281 bytes, so it is that many writes of one byte.
#[test]
fn each_write_that_fails_leaves_a_first_part(rt: HostRuntime) -> Result<(), Fail> {
    for (failing, kept) in [(1, 0), (2, 1), (281, 280)] {
        keeps(&rt, rt.alloc(), 1, failing, Status::WriteFault, kept)?;
    }
    keeps(&rt, rt.alloc(), 1, 282, Status::Done, 281)?;
    keeps(&rt, rt.alloc(), 10, 2, Status::WriteFault, 10)
}

/// The answer where this read fails. Each gives one byte.
fn reads(
    rt: &impl Abort,
    alloc: Global,
    failing: u32,
    status: Status,
    report: &str,
) -> Result<(), Fail> {
    let mut src = MemSource::new(alloc, exit_seven(rt, alloc)?.bytes(), 1, &[failing])?;
    let mut sink = MemSink::new(alloc, ROOM, ROOM, &[])?;
    assert_eq!(rt; run(alloc, &mut src, &mut sink)?, status);
    assert_eq!(rt; src.faults() == 1, status == Status::ReadFault);
    assert_eq!(rt; sink.bytes(), report.as_bytes());
    Ok(())
}

/// The image is 4,108 reads of one byte, and one more finds its end.
#[test]
fn each_read_that_fails_is_a_read_fault(rt: HostRuntime) -> Result<(), Fail> {
    for failing in [1, 2, 4108, 4109] {
        reads(&rt, rt.alloc(), failing, Status::ReadFault, "")?;
    }
    reads(&rt, rt.alloc(), 4110, Status::Done, EXIT_SEVEN)
}

/// A source of one byte more than the most, one read of which fails. Each gives 1 to 4,096 bytes,
/// whatever it asks for: so 2,048 reads give none too many, and 8,388,609 give all.
#[test]
fn the_first_of_fault_and_length_decides(rt: HostRuntime) -> Result<(), Fail> {
    let alloc = rt.alloc();
    let mut bytes = Vec::new(alloc);
    bytes.resize(8_388_609, 0_u8)?;
    for (failing, status) in [(2049, Status::ReadFault), (8_388_610, Status::TooLong)] {
        let mut src = MemSource::new(alloc, &bytes, 4096, &[failing])?;
        let mut sink = MemSink::new(alloc, ROOM, ROOM, &[1])?;
        assert_eq!(rt; run(alloc, &mut src, &mut sink)?, status);
        assert_eq!(rt; sink.faults(), 0);
    }
    Ok(())
}

/// Nothing is written, not even an empty piece, to a sink whose first write would fail.
#[test]
fn a_refusal_uses_no_sink(rt: HostRuntime) -> Result<(), Fail> {
    let alloc = rt.alloc();
    let answers = [
        ("run", Status::Refused { rule: 1, offset: 0 }),
        ("asm", Status::AsmRefused { line: 1, rule: 1 }),
        ("smp", Status::Usage(1)),
    ];
    for (text, status) in answers {
        let words = words(alloc, text)?;
        let mut src = SureSource::new(alloc, b"frob")?;
        let mut sink = MemSink::new(alloc, ROOM, ROOM, &[1])?;
        assert_eq!(rt; plain(alloc, &words, &mut src, &mut sink), status);
        assert_eq!(rt; sink.faults(), 0);
    }
    Ok(())
}
