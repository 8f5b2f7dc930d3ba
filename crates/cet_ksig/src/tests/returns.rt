//! The accesses of rt_sigreturn by their numbers, written out.

ghost use Rattle.std.specs.Prelude.{◌<◌, ◌-◌, ◌^◌};

use super::*;
use cet_page::{Cursor, Leaving};
use std::test::Fail;

/// rt_sigreturn from a frame at 0x7fffef88.
fn sigreturn() -> [Made; 23] {
    [
        (Access::Look(1086), STACK),
        (Access::Look(1087), MORE_STACK),
        (Access::Look(2120), SHADOW),
        (Access::Load(1_085_441), 0x8000_0002_0000_8010),
        (Access::Load(556_530), 0x20),
        (Access::Load(556_531), 0x21),
        (Access::Load(556_532), 0x22),
        (Access::Load(556_533), 0x23),
        (Access::Load(556_534), 0x7fff_f0d8),
        (Access::Load(556_535), 0x25),
        (Access::Load(556_536), 0x26),
        (Access::Load(556_537), 0x27),
        (Access::Load(556_538), 0x28),
        (Access::Load(556_539), 0x29),
        (Access::Load(556_540), 0x2a),
        (Access::Load(556_541), 0x2b),
        (Access::Load(556_542), 0x2c),
        (Access::Load(556_543), 0x2d),
        (Access::Load(556_544), 0x2e),
        (Access::Load(556_545), 0x2f),
        (Access::Load(556_546), 0x8000_0000_0040_1003),
        (Access::Load(556_547), u64::MAX),
        (Access::Load(556_548), u64::MAX),
    ]
}

/// Its kills: RSP, SSP, and the accesses before the kill.
fn forged() -> [(u64, u64, &'static [Made]); 9] {
    [
        (0x7fff_ef94, 0x2_0000_8008, &[]),
        (0x8000_0000_0000_0008, 0x2_0000_8008, &[]),
        (0x10, 0x2_0000_8008, &[]),
        (
            0x7fff_ff90,
            0x2_0000_8008,
            &[(Access::Look(1087), MORE_STACK)],
        ),
        (0x7fff_ef90, 0x2_0000_8008, &[(Access::Look(1086), 0)]),
        (
            0x7fff_ef90,
            0x2_0000_8008,
            &[(Access::Look(1086), STACK), (Access::Look(1087), 0)],
        ),
        (
            0x7fff_ef90,
            0x2_0000_8008,
            &[
                (Access::Look(1086), STACK),
                (Access::Look(1087), MORE_STACK),
                (Access::Look(2120), MORE_STACK),
            ],
        ),
        (
            0x7fff_ef90,
            0x8000,
            &[
                (Access::Look(1086), STACK),
                (Access::Look(1087), MORE_STACK),
            ],
        ),
        (
            0x7fff_ef90,
            0x2_0000_8008,
            &[
                (Access::Look(1086), STACK),
                (Access::Look(1087), MORE_STACK),
                (Access::Look(2120), SHADOW),
                (Access::Load(1_085_441), 0x7fff_ffff_ffff_ffff),
            ],
        ),
    ]
}

fn returning(rsp: u64, ssp: u64) -> Arch
    ensures { result.count < 2 ^ 32 - 1 }
{
    let mut arch = thread(rsp, ssp, None);
    arch.regs[0] = 15;
    arch
}

#[test]
fn sigreturns(rt: HostRuntime) -> Result<(), Fail> {
    let image = image(rt.alloc())?;
    let job = Job {
        image: &image,
        procs: 1,
        limit: 10,
        signals: &[],
    };
    let arch = returning(0x7fff_ef90, 0x2_0000_8008);
    let told = (What::SigReturn, 0x8000_0000_0040_1003, 0x2_0000_8010);
    let after = expect_work(&rt, &job, &arch, Work::Service, &sigreturn(), told);
    assert_eq!(rt;
        after.regs,
        [
            0x20,
            0x21,
            0x22,
            0x23,
            0x7fff_f0d8,
            0x25,
            0x26,
            0x27,
            0x28,
            0x29,
            0x2a,
            0x2b,
            0x2c,
            0x2d,
            0x2e,
            0x2f,
        ]
    );
    assert_eq!(rt; (after.rip, after.flags), (0x8000_0000_0040_1003, 0x8c7));
    assert_eq!(rt;
        (after.ssp, after.mask),
        (0x2_0000_8010, 0xffff_ffff_fffb_feff)
    );
    let answers = [
        STACK,
        MORE_STACK,
        SHADOW,
        1 << 63,
        0,
        0,
        0,
        0,
        0,
        0,
        0,
        0,
        0,
        0,
        0,
        0,
        0,
        0,
        0,
        0,
        0,
        0,
        0,
    ];
    let mut place = Cursor {
        left: 23,
        rest: &answers,
    };
    let (after, _, ends) = follow(&job, &arch, &mut place).expect(&rt, "it goes on");
    assert_eq!(rt; (after.flags, after.ssp, ends), (2, 0, Leaving::Popped));
    for (rsp, ssp, accesses) in forged() {
        let arch = returning(rsp, ssp);
        expect_kill(&rt, &job, &arch, Work::Service, [accesses, &[]]);
    }
    Ok(())
}
