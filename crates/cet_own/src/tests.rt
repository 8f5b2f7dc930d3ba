//! Classes of accesses, by the table.

use super::{Class, class_of};
use cet_isa::Arch;
use cet_words::Access;

/// A thread with SSP 0x200008ff0, which is word 1,085,950, and this supervisor stack.
fn thread(held: Option<u8>) -> Arch {
    Arch {
        regs: [0; 16],
        rip: 0x40_1000,
        flags: 2,
        ssp: 0x2_0000_8ff0,
        mask: 0,
        count: 0,
        posted: 0,
        number: 0,
        made: 0x2_0000_1000,
        due: None,
        held,
    }
}

/// An access, its answer, and its class without and with a supervisor stack. The word at 0x20000aff8 is
/// 1,086,975.
const ROWS: [(Access, u64, Class, Class); 21] = [
    // a restore token is found, and another word
    (
        Access::CompareExchange(1_086_975, 0x2_0000_b001, 0x2_0000_8ff3),
        0x2_0000_b001,
        Class::Acquire,
        Class::Acquire,
    ),
    (
        Access::CompareExchange(1_086_975, 0x2_0000_b001, 0x2_0000_8ff3),
        0,
        Class::Neutral,
        Class::Neutral,
    ),
    // a restore token, the same right below SSP, and one of another address
    (
        Access::Store(1_086_975, 0x2_0000_b001),
        0,
        Class::Release,
        Class::Seed,
    ),
    (
        Access::Store(1_085_949, 0x2_0000_8ff1),
        0,
        Class::Release,
        Class::Seed,
    ),
    (
        Access::Store(1_086_975, 0x2_0000_b009),
        0,
        Class::Neutral,
        Class::Neutral,
    ),
    // the last number of a thread, and one too many
    (Access::FetchAdd(1_605_633, 1), 31, Class::Seed, Class::Seed),
    (
        Access::FetchAdd(1_605_633, 1),
        32,
        Class::Neutral,
        Class::Neutral,
    ),
    // a return address; the frame of a signal, and the restorer below it; one word lower
    (
        Access::Store(1_085_949, 0x40_1005),
        0,
        Class::Push,
        Class::Push,
    ),
    (
        Access::Store(1_085_949, 0x8000_0002_0000_8ff0),
        0,
        Class::Neutral,
        Class::Neutral,
    ),
    (
        Access::Store(1_085_948, 0x40_1005),
        0,
        Class::Push,
        Class::Push,
    ),
    (
        Access::Store(1_085_947, 0x40_1005),
        0,
        Class::Neutral,
        Class::Neutral,
    ),
    // pages of the shadow area are drawn
    (
        Access::FetchAdd(1_605_634, 9),
        1023,
        Class::Claim,
        Class::Claim,
    ),
    // the first and the last supervisor token, a word between, and EXIT
    (
        Access::CompareExchange(1_607_167, 0xffff_8000_0000_2ff9, 0xffff_8000_0000_2ff8),
        0xffff_8000_0000_2ff9,
        Class::Neutral,
        Class::End,
    ),
    (
        Access::CompareExchange(1_614_335, 1, 0),
        1,
        Class::Neutral,
        Class::End,
    ),
    (
        Access::CompareExchange(1_607_168, 1, 0),
        1,
        Class::Neutral,
        Class::Neutral,
    ),
    (
        Access::CompareExchange(1_605_632, 0, 256),
        0,
        Class::Neutral,
        Class::Neutral,
    ),
    // the word at SSP and the one above it; pages of the shadow area, and those beside it
    (
        Access::Load(1_085_950),
        0x40_1005,
        Class::Raise,
        Class::Neutral,
    ),
    (
        Access::Load(1_085_951),
        0x40_1005,
        Class::Neutral,
        Class::Neutral,
    ),
    (Access::Look(2112), 0, Class::Raise, Class::Neutral),
    (Access::Look(3135), 0, Class::Raise, Class::Neutral),
    (Access::Look(3136), 0, Class::Neutral, Class::Neutral),
];

#[test]
fn classes(rt: HostRuntime) {
    for (access, answer, free, busy) in ROWS {
        assert_eq!(rt;
            class_of(&access, &thread(None), answer),
            free,
            "at {access:?}"
        );
        assert_eq!(rt;
            class_of(&access, &thread(Some(0)), answer),
            busy,
            "at {access:?}"
        );
    }
}
