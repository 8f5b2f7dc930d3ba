//! Each public call on its happy path: two threads on one table, one after another.

ghost use Rattle.std.specs.Prelude.{◌≡◌, ◌≤◌, length, IfSome};
ghost use Rattle.cet_shared.specs.Held.{IsOf};

use super::*;
use cet_isa::End;
use cet_words::{Bytes, Image, Job, NoMemory, Segment, Segments};
use std::alloc::Global;
use std::test::Fail;

/// `mov edi, 0x10900`, `lea rsi, [rsp-4096]`, `mov eax, 56`, `syscall`, `mov eax, 186`, `syscall`,
/// `mov edi, 0`, `mov eax, 60`, `syscall`, as GNU as assembles them.
const CLONE: [u8; 39] = [
    0xbf, 0x00, 0x09, 0x01, 0x00, 0x48, 0x8d, 0xb4, 0x24, 0x00, 0xf0, 0xff, 0xff, 0xb8, 0x38, 0x00,
    0x00, 0x00, 0x0f, 0x05, 0xb8, 0xba, 0x00, 0x00, 0x00, 0x0f, 0x05, 0xbf, 0x00, 0x00, 0x00, 0x00,
    0xb8, 0x3c, 0x00, 0x00, 0x00, 0x0f, 0x05,
];

/// The image of a text of at most 48 bytes at 0x401000.
fn image_of(alloc: Global, text: &[u8]) -> Result<Image, NoMemory>
    requires { length text.now ≤ 48 }
{
    let mut bytes = Bytes::new(alloc);
    bytes.extend(alloc, text)?;
    let segment = Segment {
        start: 0x401000,
        bytes,
        size: 48,
        write: false,
        exec: true,
    };
    let mut segments = Segments::new(alloc);
    segments.push(alloc, segment)?;
    Ok(Image {
        entry: 0x401000,
        marked: true,
        tracked: false,
        segments,
    })
}

/// Gives a pass accesses until its thread bears a child, whose pass it answers, or ends.
#[tactic(auto, using(crate::proofs::Performing::child_among))]
fn go_on(job: &Job, shared: &Shared, pass: &mut Pass) -> Option<Pass>
    requires job { shared.now.job ≡ job.now }
    requires pass { IsOf shared.now pass.old }
    ensures pass { IsOf shared.now pass.new }
    ensures child { IfSome result (IsOf shared.now) }
{
    'turns: for _turn in 0..1_000 {
        if pass.cpu().end().is_some() {
            break;
        }
        if let Some(child) = shared.perform(job, pass).child {
            return Some(shared.split_child(pass, child));
        }
    }
    None
}

#[test]
fn two_threads_run_on_one_table(rt: HostRuntime) -> Result<(), Fail> {
    let alloc = rt.alloc();
    let image = image_of(alloc, &CLONE)?;
    let job = Job {
        image: &image,
        procs: 4,
        limit: 100,
        signals: &[],
    };
    let (shared, mut pass) = Shared::new(alloc, &job)?;
    let mut child = go_on(&job, &shared, &mut pass).expect(&rt, "the second thread is born");
    assert!(rt; go_on(&job, &shared, &mut child).is_none());
    assert!(rt; go_on(&job, &shared, &mut pass).is_none());
    assert_eq!(rt; pass.cpu().end(), Some(End::Exit(0)));
    assert_eq!(rt; child.cpu().end(), Some(End::Exit(0)));
    shared.gather(&mut pass, child);
    shared.audit(&mut pass);
    Ok(())
}

fn goes_to_another_thread<T: Send>(item: T) -> T {
    item
}

fn is_seen_by_threads<T: Sync>(item: &T) -> &T {
    item
}

#[test]
fn table_and_passes_go_to_other_threads(rt: HostRuntime) -> Result<(), Fail> {
    let alloc = rt.alloc();
    let image = image_of(alloc, &CLONE)?;
    let job = Job {
        image: &image,
        procs: 4,
        limit: 100,
        signals: &[],
    };
    let (shared, pass) = Shared::new(alloc, &job)?;
    let pass = goes_to_another_thread(pass);
    is_seen_by_threads(&shared);
    is_seen_by_threads(&Open).pass(0, pass.cpu().arch().number);
    assert!(rt; goes_to_another_thread(pass).cpu().end().is_none());
    drop(goes_to_another_thread(shared));
    Ok(())
}
