//! Both calls on a worked file. More files, whole and damaged, are in tests/loader.

use super::*;
use cet_asm::Program;
use cet_words::{Bytes, Segment};
use std::test::Fail;

/// `mov edi, 7`, `mov eax, 60`, `syscall`, as GNU as assembles them.
const EXIT_SEVEN: [u8; 12] = [
    0xbf, 0x07, 0x00, 0x00, 0x00, 0xb8, 0x3c, 0x00, 0x00, 0x00, 0x0f, 0x05,
];

/// The headers and the note of the file of `EXIT_SEVEN`, marked for shadow stacks.
const EXIT_SEVEN_HEADERS: [u8; 264] = [
    0x7f, 0x45, 0x4c, 0x46, 2, 1, 1, 0, 0, 0, 0, 0, 0, 0, 0, 0, //
    2, 0, 62, 0, 1, 0, 0, 0, 0x00, 0x10, 0x40, 0, 0, 0, 0, 0, //
    64, 0, 0, 0, 0, 0, 0, 0, 0, 0, 0, 0, 0, 0, 0, 0, //
    0, 0, 0, 0, 64, 0, 56, 0, 2, 0, 0, 0, 0, 0, 0, 0, //
    1, 0, 0, 0, 5, 0, 0, 0, 0, 0x10, 0, 0, 0, 0, 0, 0, //
    0x00, 0x10, 0x40, 0, 0, 0, 0, 0, 0x00, 0x10, 0x40, 0, 0, 0, 0, 0, //
    12, 0, 0, 0, 0, 0, 0, 0, 12, 0, 0, 0, 0, 0, 0, 0, //
    0, 0x10, 0, 0, 0, 0, 0, 0, //
    0x53, 0xe5, 0x74, 0x64, 4, 0, 0, 0, 232, 0, 0, 0, 0, 0, 0, 0, //
    0, 0, 0, 0, 0, 0, 0, 0, 0, 0, 0, 0, 0, 0, 0, 0, //
    32, 0, 0, 0, 0, 0, 0, 0, 32, 0, 0, 0, 0, 0, 0, 0, //
    8, 0, 0, 0, 0, 0, 0, 0, //
    0, 0, 0, 0, 0, 0, 0, 0, 0, 0, 0, 0, 0, 0, 0, 0, //
    0, 0, 0, 0, 0, 0, 0, 0, 0, 0, 0, 0, 0, 0, 0, 0, //
    0, 0, 0, 0, 0, 0, 0, 0, 0, 0, 0, 0, 0, 0, 0, 0, //
    0, 0, 0, 0, 0, 0, 0, 0, //
    4, 0, 0, 0, 16, 0, 0, 0, 5, 0, 0, 0, 0x47, 0x4e, 0x55, 0, //
    0x02, 0x00, 0x00, 0xc0, 4, 0, 0, 0, 2, 0, 0, 0, 0, 0, 0, 0,
];

#[test]
fn writes_what_it_loads(rt: HostRuntime) -> Result<(), Fail> {
    let alloc = rt.alloc();
    let mut text = Bytes::new(alloc);
    text.extend(alloc, &EXIT_SEVEN)?;
    let program = Program {
        text,
        static_data: Bytes::new(alloc),
        entry: 0x401000,
        mark: 2,
    };
    let file = write(alloc, &program)?;
    let front = file.as_slice().get(..264).ok_or("a short file")?;
    assert_eq!(rt; front, EXIT_SEVEN_HEADERS.as_slice());
    let text = file.as_slice().get(4096..).ok_or("a short file")?;
    assert_eq!(rt; text, EXIT_SEVEN.as_slice());
    let image = load(alloc, file.as_slice()).ok().ok_or("refused")?;
    assert_eq!(rt;
        (image.entry, image.marked, image.tracked),
        (0x401000, true, false)
    );
    assert_eq!(rt; image.segments.len(), 1);
    let segment = image.segments.get(0).ok_or("no segment")?;
    assert_eq!(rt;
        (segment.start, segment.size, segment.write, segment.exec),
        (0x401000, 12, false, true)
    );
    assert_eq!(rt; segment.bytes.as_slice(), EXIT_SEVEN.as_slice());
    Ok(())
}

#[test]
fn refuses_a_cut_file(rt: HostRuntime) {
    let fault = load(rt.alloc(), &EXIT_SEVEN_HEADERS).err();
    assert_eq!(rt;
        fault,
        Some(LoadFault::Refused {
            rule: 8,
            offset: 64
        })
    );
}

fn is_shared<T: Send + Sync>() {}

#[test]
fn crosses_threads() {
    is_shared::<Program>();
    is_shared::<LoadFault>();
    is_shared::<Segment>();
}
