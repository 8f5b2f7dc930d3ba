//! Threaded runs: over streams that fail, and with a gate that wants two workers at once.

use crate::program_tests::{EXIT_SEVEN, ROOM, exit_seven, words};
use crate::{Status, plain, smp};
use cet_io::{MemSink, MemSource, SureSource};
use cet_pool::Ran;
use cet_shared::{Open, Turnstile};
use std::alloc::Global;
use std::process::Abort;
use std::sync::atomic::{AtomicU64, Ordering};
use std::test::Fail;

/// The exit with status 7 writes the report that it has on one thread.
#[test]
fn one_guest_has_one_report_on_any_number_of_workers(rt: HostRuntime) -> Result<(), Fail> {
    let alloc = rt.alloc();
    for text in ["smp --workers 1", "smp --workers 2", "smp --workers 16"] {
        let words = words(alloc, text)?;
        let mut src = SureSource::new(alloc, exit_seven(&rt, alloc)?.bytes())?;
        let mut sink = MemSink::new(alloc, ROOM, ROOM, &[])?;
        let (status, ran) = smp(&rt, alloc, &words, &mut src, &mut sink, &Open);
        assert_eq!(rt; status, Status::Done);
        assert!(rt; ran.is_some());
        assert_eq!(rt; sink.bytes(), EXIT_SEVEN.as_bytes());
    }
    Ok(())
}

/// A sink that takes ten bytes and then fails has the first ten, and the run is handed out all the same.
#[test]
fn a_write_that_fails_leaves_a_first_part_of_the_run(rt: HostRuntime) -> Result<(), Fail> {
    let alloc = rt.alloc();
    let words = words(alloc, "smp")?;
    let mut src = SureSource::new(alloc, exit_seven(&rt, alloc)?.bytes())?;
    let mut sink = MemSink::new(alloc, ROOM, 10, &[2])?;
    let (status, ran) = smp(&rt, alloc, &words, &mut src, &mut sink, &Open);
    assert_eq!(rt; status, Status::WriteFault);
    assert_eq!(rt; sink.bytes(), b"cetvm repo".as_slice());
    let ran = ran.expect(&rt, "no run");
    assert_eq!(rt; ran.outcome().threads.len(), 1);
    Ok(())
}

/// Neither a read that fails nor a refusal nor another command's words use the sink, whose first write would fail.
#[test]
fn what_is_no_run_writes_nothing(rt: HostRuntime) -> Result<(), Fail> {
    let alloc = rt.alloc();
    let answers = [
        ("smp --workers 2", 1, Status::ReadFault),
        ("smp", 9, Status::Refused { rule: 1, offset: 0 }),
        ("run", 9, Status::Usage(1)),
        ("smp --workers 17", 9, Status::Usage(3)),
    ];
    for (text, failing, expected) in answers {
        let words = words(alloc, text)?;
        let mut src = MemSource::new(alloc, b"frob", 4, &[failing])?;
        let mut sink = MemSink::new(alloc, ROOM, ROOM, &[1])?;
        let (status, ran) = smp(&rt, alloc, &words, &mut src, &mut sink, &Open);
        assert_eq!(rt; status, expected);
        assert!(rt; ran.is_none());
        assert!(rt; sink.bytes().is_empty());
    }
    Ok(())
}

/// A thread bears another, and both count down from 200.
const TWO_COUNTERS: &[u8] = b"_start: mov edi, 0x10900
lea rsi, [rsp-4096]
mov eax, 56
syscall
mov ebp, 200
l: dec rbp
jne l
mov edi, 0
mov eax, 60
syscall
";

/// The most polls of a call that waits.
const POLLS: u32 = 1_000_000_000;

/// A gate whose second and third call each wait until the other has come.
#[derive(Drop)]
struct Meeting {
    calls: AtomicU64,
    come: AtomicU64,
    missed: AtomicU64,
}

impl Meeting {
    /// Waits for the other call. One that has polled often enough notes that it was missed.
    fn meet(&self) {
        self.come.fetch_add(1, Ordering::SeqCst);
        for _ in 0..POLLS {
            if self.come.load(Ordering::SeqCst) >= 2 {
                return;
            }
        }
        self.missed.fetch_add(1, Ordering::SeqCst);
    }
}

impl Turnstile for Meeting {
    fn pass(&self, _worker: u32, _thread: u8) {
        match self.calls.fetch_add(1, Ordering::SeqCst) {
            1 | 2 => self.meet(),
            _ => {}
        }
    }
}

/// The thread of this number has so many records.
fn expect_records(rt: &impl Abort, ran: &Ran, number: usize, count: usize) {
    let thread = ran.outcome().threads.as_slice().get(number);
    assert_eq!(rt; thread.map(|thread| thread.records.len()), Some(count));
}

/// The image of the two counters, and the report that it has under `run`.
fn two_counters(rt: &impl Abort, alloc: Global) -> Result<(MemSink, MemSink), Fail> {
    let mut text = SureSource::new(alloc, TWO_COUNTERS)?;
    let mut image = MemSink::new(alloc, ROOM, ROOM, &[])?;
    assert_eq!(rt;
        plain(alloc, &words(alloc, "asm")?, &mut text, &mut image),
        Status::Done
    );
    let mut src = SureSource::new(alloc, image.bytes())?;
    let mut report = MemSink::new(alloc, 8 * ROOM, 8 * ROOM, &[])?;
    assert_eq!(rt;
        plain(alloc, &words(alloc, "run")?, &mut src, &mut report),
        Status::Done
    );
    Ok((image, report))
}

/// Two workers stand at the gate at the same time. Their threads make 844 and 821 accesses, so with up to 64 a turn they have at
/// least 27 turns. No value depends on the order, so the report is that of one thread of the host.
#[test]
fn two_workers_run_beside_each_other(rt: HostRuntime) -> Result<(), Fail> {
    let alloc = rt.alloc();
    let (image, report) = two_counters(&rt, alloc)?;
    let gate = Meeting {
        calls: AtomicU64::new(0),
        come: AtomicU64::new(0),
        missed: AtomicU64::new(0),
    };
    let words = words(alloc, "smp --workers 2")?;
    let mut src = SureSource::new(alloc, image.bytes())?;
    let mut sink = MemSink::new(alloc, 8 * ROOM, 8 * ROOM, &[])?;
    let (status, ran) = smp(&rt, alloc, &words, &mut src, &mut sink, &gate);
    assert_eq!(rt; status, Status::Done);
    assert_eq!(rt; gate.missed.load(Ordering::SeqCst), 0);
    assert!(rt; gate.calls.load(Ordering::SeqCst) >= 27);
    let ran = ran.expect(&rt, "no run");
    expect_records(&rt, &ran, 0, 408);
    expect_records(&rt, &ran, 1, 404);
    assert_eq!(rt; sink.bytes(), report.bytes());
    Ok(())
}
