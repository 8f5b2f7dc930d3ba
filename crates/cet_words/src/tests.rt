//! Worked values: the start words of a small image, each access, places, lists.

ghost use Rattle.std.specs.Prelude.{◌≡◌, ◌≤◌, ◌+◌, ◌++◌, length, IfOk};
ghost use Rattle.cet_words.specs.Access.{InRange};

use super::*;
use std::alloc::Global;
use std::process::Abort;
use std::test::Fail;

/// `mov edi, 7`, `mov eax, 60`, `syscall`, as GNU as assembles them.
const EXIT_SEVEN: [u8; 12] = [
    0xbf, 0x07, 0x00, 0x00, 0x00, 0xb8, 0x3c, 0x00, 0x00, 0x00, 0x0f, 0x05,
];

fn bytes_of(alloc: Global, text: &[u8]) -> Result<Bytes, NoMemory>
    ensures { IfOk result (λ bytes. length bytes ≡ length text.now) }
{
    let mut bytes = Bytes::new(alloc);
    for byte in text {
        bytes.push(alloc, *byte)?;
    }
    Ok(bytes)
}

/// The image of `EXIT_SEVEN` at 0x401000.
fn exit_seven(alloc: Global) -> Result<Image, NoMemory> {
    let text = Segment {
        start: 0x401000,
        bytes: bytes_of(alloc, &EXIT_SEVEN)?,
        size: 12,
        write: false,
        exec: true,
    };
    let mut segments = Segments::new(alloc);
    segments.push(alloc, text)?;
    Ok(Image {
        entry: 0x401000,
        marked: true,
        tracked: false,
        segments,
    })
}

fn expect_answer(rt: &impl Abort, words: &mut Plain, access: Access, want: u64)
    requires { InRange access }
{
    assert_eq!(rt; words.perform(access), want, "{access:?}");
}

/// Looks at entries, whose bits are those of a 4-KByte page.
fn expect_entries(rt: &impl Abort, words: &mut Plain) {
    expect_answer(rt, words, Access::Look(0), 0);
    expect_answer(rt, words, Access::Look(1), 0x0000_0000_0010_1025);
    expect_answer(rt, words, Access::Look(2), 0);
    expect_answer(rt, words, Access::Look(1024), 0x8000_0000_0050_0067);
    expect_answer(rt, words, Access::Look(1088), 0);
    expect_answer(rt, words, Access::Look(2112), 0);
    expect_answer(rt, words, Access::Look(2113), 0x8000_0000_0094_1065);
    expect_answer(rt, words, Access::Look(2120), 0x8000_0000_0094_8065);
    expect_answer(rt, words, Access::Look(2121), 0);
    expect_answer(rt, words, Access::Look(3136), 0x8000_0000_00d4_0063);
    expect_answer(rt, words, Access::Look(3137), 0);
    expect_answer(rt, words, Access::Look(3152), 0x8000_0000_00d5_0061);
}

#[test]
fn starts_exit_seven(rt: HostRuntime) -> Result<(), Fail> {
    let image = exit_seven(rt.alloc())?;
    let words = &mut Plain::new(rt.alloc(), &image)?;
    expect_answer(&rt, words, Access::Load(511), 0);
    expect_answer(&rt, words, Access::Load(512), 0x003c_b800_0000_07bf);
    expect_answer(&rt, words, Access::Load(513), 0x0000_0000_050f_0000);
    expect_answer(&rt, words, Access::Load(514), 0);
    // NEXT_THREAD, DRAW_SHADOW and DRAW_MMAP
    expect_answer(&rt, words, Access::Load(1_605_633), 1);
    expect_answer(&rt, words, Access::Load(1_605_634), 9);
    expect_answer(&rt, words, Access::Load(1_605_635), 0);
    // the tokens of the supervisor stacks 0 and 7
    expect_answer(&rt, words, Access::Load(1_607_167), 0xffff_8000_0000_2ff8);
    expect_answer(&rt, words, Access::Load(1_614_335), 0xffff_8000_0001_0ff8);
    expect_entries(&rt, words);
    assert_eq!(rt;
        words.to_words(rt.alloc())?.get(512),
        Some(&0x003c_b800_0000_07bf)
    );
    Ok(())
}

#[test]
fn performs_each_access(rt: HostRuntime) -> Result<(), Fail> {
    let image = exit_seven(rt.alloc())?;
    let words = &mut Plain::new(rt.alloc(), &image)?;
    expect_answer(&rt, words, Access::Store(600_000, 5), 0);
    expect_answer(&rt, words, Access::Swap(600_000, 7), 5);
    expect_answer(&rt, words, Access::FetchAdd(600_000, u64::MAX), 7);
    expect_answer(&rt, words, Access::FetchOr(600_000, 9), 6);
    expect_answer(&rt, words, Access::FetchAnd(600_000, 12), 15);
    expect_answer(&rt, words, Access::CompareExchange(600_000, 6, 1), 12);
    expect_answer(&rt, words, Access::CompareExchange(600_000, 12, 3), 12);
    expect_answer(&rt, words, Access::Load(600_000), 3);
    expect_answer(&rt, words, Access::Look(1), 0x0000_0000_0010_1025);
    Ok(())
}

#[test]
fn finds_places(rt: HostRuntime) -> Result<(), Fail> {
    let image = exit_seven(rt.alloc())?;
    assert_eq!(rt; page_of(0x401000), Some(1));
    assert_eq!(rt; page_of(0x2_0000_1000), Some(2113));
    assert_eq!(rt; page_of(0x800000), None);
    assert_eq!(rt; word_of(0x401008), Some(513));
    assert_eq!(rt; word_of(0xffff_8000_0000_2ff8), Some(1_607_167));
    assert_eq!(rt; word_of(0x401004), None);
    assert_eq!(rt; present(&image, 1), 0x0000_0000_0010_1025);
    assert_eq!(rt; code_byte(&image, 0x401005), Some(0xb8));
    assert_eq!(rt; code_byte(&image, 0x401fff), Some(0));
    assert_eq!(rt; code_byte(&image, 0x402000), None);
    Ok(())
}

#[test]
fn keeps_lists(rt: HostRuntime) -> Result<(), Fail> {
    let alloc = rt.alloc();
    let image = exit_seven(alloc)?;
    assert_eq!(rt; image.segments.len(), 1);
    assert!(rt; image.segments.get(1).is_none());
    let segment = image.segments.get(0).ok_or("no segment")?;
    assert_eq!(rt; segment.bytes.as_slice(), EXIT_SEVEN.as_slice());
    assert_eq!(rt; segment.bytes.get(12), None);
    let mut words = Words::new(alloc);
    words.push(alloc, u64::MAX)?;
    assert_eq!(rt; words.as_slice(), [u64::MAX].as_slice());
    assert_eq!(rt; words.get(1), None);
    words.extend_with(alloc, 3, 2)?;
    assert_eq!(rt; words.as_slice(), [u64::MAX, 3, 3].as_slice());
    let signal = Signal {
        thread: 0,
        count: 6,
        number: 10,
    };
    let mut signals = Signals::new(alloc);
    signals.push(alloc, signal)?;
    assert_eq!(rt; signals.get(0), Some(&signal));
    let job = Job {
        image: &image,
        procs: 4,
        limit: 100_000,
        signals: signals.as_slice(),
    };
    assert_eq!(rt; job.signals.len(), 1);
    Ok(())
}

#[test]
fn prints_no_memory(rt: HostRuntime) -> Result<(), Fail> {
    let text = format!(in rt.alloc(); "{NoMemory}")?;
    assert_eq!(rt; text.as_str(), "out of memory");
    Ok(())
}

fn is_shared<T: Send + Sync>() {}

#[test]
fn crosses_threads() {
    is_shared::<Image>();
    is_shared::<Segment>();
    is_shared::<Segments>();
    is_shared::<Bytes>();
    is_shared::<Words>();
    is_shared::<Signal>();
    is_shared::<Signals>();
    is_shared::<Job<'static>>();
    is_shared::<Access>();
    is_shared::<Plain>();
    is_shared::<NoMemory>();
}
