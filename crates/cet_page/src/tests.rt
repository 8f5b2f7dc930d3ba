//! The page check by the codes of the manual; what a row keeps.

use crate::{
    Cursor, Kind, Mark, Suspended, Vals, Who, check, frame_ssp, frame_word, index_of,
    is_frame_word, is_previous_token, previous_ssp, previous_token, restore_token,
    restore_token_at, saved_at,
};
use cet_isa::{Fault, FaultName};
use cet_words::Access;
use std::test::Fail;

const KINDS: [Kind; 5] = [
    Kind::Fetch,
    Kind::Load,
    Kind::Store,
    Kind::ShadowLoad,
    Kind::ShadowStore,
];

const NO_EXECUTE: u64 = 1 << 63;

/// What passes the page check.
const PASSES: u32 = 999;

/// The codes of the page faults of the five kinds of access, for an absent page and for each entry that
/// a present page may have. They follow the bits of the manual: P 1, W 2, U 4, I 16, SS 64.
const CODES: [(u64, Who, [u32; 5]); 14] = [
    (0, Who::User, [20, 4, 6, 68, 70]),
    (0x25, Who::User, [PASSES, PASSES, 7, 69, 71]),
    (NO_EXECUTE | 0x25, Who::User, [21, PASSES, 7, 69, 71]),
    (NO_EXECUTE | 0x67, Who::User, [21, PASSES, PASSES, 69, 71]),
    (
        NO_EXECUTE | 0x65,
        Who::User,
        [21, PASSES, 7, PASSES, PASSES],
    ),
    (NO_EXECUTE | 0x63, Who::User, [21, 5, 7, 69, 71]),
    (NO_EXECUTE | 0x61, Who::User, [21, 5, 7, 69, 71]),
    (0, Who::Supervisor, [16, 0, 2, 64, 66]),
    (0x25, Who::Supervisor, [17, 1, 3, 65, 67]),
    (NO_EXECUTE | 0x25, Who::Supervisor, [17, 1, 3, 65, 67]),
    (NO_EXECUTE | 0x67, Who::Supervisor, [17, 1, 3, 65, 67]),
    (NO_EXECUTE | 0x65, Who::Supervisor, [17, 1, 3, 65, 67]),
    (
        NO_EXECUTE | 0x63,
        Who::Supervisor,
        [17, PASSES, PASSES, 65, 67],
    ),
    (
        NO_EXECUTE | 0x61,
        Who::Supervisor,
        [17, PASSES, 3, PASSES, PASSES],
    ),
];

#[test]
fn page_checks(rt: HostRuntime) -> Result<(), Fail> {
    for (entry, who, codes) in CODES {
        for (kind, code) in KINDS.into_iter().zip(codes) {
            match check(entry, kind, who, 0x40_1008) {
                Ok(()) => assert_eq!(rt; code, PASSES, "{entry:x} {kind:?} {who:?}"),
                Err(fault) => {
                    assert_eq!(rt; fault.code, code, "{entry:x} {kind:?} {who:?}");
                    assert_eq!(rt; fault.name, FaultName::Pf);
                    assert_eq!(rt; (fault.a, fault.b), (0x40_1008, entry));
                }
            }
        }
    }
    Ok(())
}

#[test]
fn indices_and_values(rt: HostRuntime) {
    assert_eq!(rt; index_of(0x40_1fff), 1);
    assert_eq!(rt; index_of(0xffff_ffff_ffff_ffff), 511);

    let mut vals = Vals::new();
    vals.add(Access::Load(7), 40);
    vals.add(Access::Store(7, 41), 0);
    vals.add(Access::Look(1), 42);
    assert_eq!(rt; (vals.done(), vals.count()), (3, 2));
    assert_eq!(rt; (vals.value(0), vals.value(1)), (40, 42));
}

/// After so many accesses the stores of three values want the next value, and after three they are over.
#[test]
fn stores_of_a_list(rt: HostRuntime) {
    let values = [70, 80, 90];
    let mut vals = Vals::new();
    let wanted = |word, value| Err(Suspended::Access(Access::Store(word, value), Mark::Plain));
    assert_eq!(rt; vals.start().store_each(512, &values), wanted(512, 70));
    vals.add(Access::Store(512, 70), 0);
    assert_eq!(rt; vals.start().store_each(512, &values), wanted(513, 80));
    vals.add(Access::Store(513, 80), 0);
    assert_eq!(rt; vals.start().store_each(512, &values), wanted(514, 90));
    vals.add(Access::Store(514, 90), 0);
    vals.add(Access::Load(7), 40);
    let mut at = vals.start();
    assert_eq!(rt; at.store_each(512, &values), Ok(()));
    assert_eq!(rt; at.load(7), Ok(40));
    assert_eq!(rt; at.left, 0);
}

/// By hand: 0x200008ff0 is a multiple of 8, 0x200008ffd isn't, and the others are at the ends of the range.
#[test]
fn tokens_of_any_pointer(rt: HostRuntime) {
    assert_eq!(rt; restore_token(0x2_0000_8ff0), 0x2_0000_8ff1);
    assert_eq!(rt; restore_token(0x2_0000_8ffd), 0x2_0000_8ffd);
    assert_eq!(rt; restore_token_at(0x2_0000_8fe8), 0x2_0000_8ff1);
    assert_eq!(rt; restore_token_at(0xffff_ffff_ffff_fff8), 1);
    assert_eq!(rt; previous_token(0x2_0000_8ff0), 0x2_0000_8ff3);
    assert_eq!(rt; previous_token(0x2_0000_8ffd), 0x2_0000_8fff);
    assert_eq!(rt;
        (
            is_previous_token(0x2_0000_8ff3),
            is_previous_token(0x2_0000_8ff1)
        ),
        (true, false)
    );
    assert_eq!(rt;
        (previous_ssp(0x2_0000_8ff3), previous_ssp(0x2_0000_8fff)),
        (0x2_0000_8ff0, 0x2_0000_8ffc)
    );
    assert_eq!(rt;
        (saved_at(0x2_0000_8ff0), saved_at(0x2_0000_8ffc)),
        (0x2_0000_8fe8, 0x2_0000_8ff0)
    );
    assert_eq!(rt;
        (saved_at(0), saved_at(4)),
        (0xffff_ffff_ffff_fff8, 0xffff_ffff_ffff_fff8)
    );
    assert_eq!(rt; frame_word(0x2_0000_8ff0), 0x8000_0002_0000_8ff0);
    assert_eq!(rt; frame_word(0xffff_8000_0000_0000), 0xffff_8000_0000_0000);
    assert_eq!(rt;
        (is_frame_word(1 << 63), is_frame_word((1 << 63) - 1)),
        (true, false)
    );
    assert_eq!(rt; frame_ssp(0x8000_0002_0000_8ff0), 0x2_0000_8ff0);
}

/// The place after one access that was answered so.
fn after(rest: &[u64; 1]) -> Cursor<'_> {
    Cursor { left: 1, rest }
}

fn fault<T>(name: FaultName, code: u32, a: u64, b: u64) -> Result<T, Suspended> {
    Err(Suspended::Fault(Fault { name, code, a, b }))
}

/// The last page of the first shadow stack as one, and with R/W; an address on no page is looked at without an access.
#[test]
fn looks_and_tests(rt: HostRuntime) {
    let top = 0x2_0000_8ff8;
    let nowhere = 0x7000_0000_0000;
    let entry = [0x8000_0000_0094_8065];
    let writable = [0x8000_0000_0094_8067];
    let (kind, who) = (Kind::ShadowStore, Who::User);
    let vals = Vals::new();
    let mut before = vals.start();
    let wanted = Suspended::Access(Access::Look(2120), Mark::Plain);
    assert_eq!(rt; before.probe(kind, who, top), Err(wanted));
    assert_eq!(rt; before.look_as(kind, who, top), Err(wanted));
    assert_eq!(rt; before.probe(kind, who, nowhere), Ok(None));
    assert_eq!(rt; after(&entry).probe(kind, who, top), Ok(Some(2120)));
    assert_eq!(rt; after(&entry).look_as(kind, who, top), Ok(2120));
    assert_eq!(rt; after(&writable).probe(kind, who, top), Ok(None));
    assert_eq!(rt;
        after(&writable).look_as(kind, who, top),
        fault(FaultName::Pf, 71, top, writable[0])
    );

    assert_eq!(rt; before.check_address(top, 8), Ok(()));
    assert_eq!(rt;
        before.check_address(top + 4, 8),
        fault(FaultName::Ac, 0, top + 4, 0)
    );
    assert_eq!(rt; before.check_address_gp(top, 8), Ok(()));
    assert_eq!(rt;
        before.check_address_gp(top + 4, 8),
        fault(FaultName::Gp, 0, 0, 0)
    );
    assert_eq!(rt;
        before.check_address_gp(0x8000_0000_0000, 8),
        fault(FaultName::Gp, 0, 0, 0)
    );

    let wanted = Suspended::Access(Access::FetchOr(1_605_664, 1), Mark::Plain);
    assert_eq!(rt; before.fetch_or(1_605_664, 1), Err(wanted));
    assert_eq!(rt; after(&[6]).fetch_or(1_605_664, 1), Ok(6));
    let wanted = Suspended::Access(Access::FetchAnd(1_605_664, 5), Mark::Plain);
    assert_eq!(rt; before.fetch_and(1_605_664, 5), Err(wanted));
    assert_eq!(rt; after(&[6]).fetch_and(1_605_664, 5), Ok(6));
}

fn is_sent<T: Send>() {}

#[test]
fn goes_to_other_threads() {
    is_sent::<Vals>();
}
