//! The accesses of the gate's two ways, written out, and the user's two instructions.

ghost use Rattle.std.specs.Prelude.{◌<◌, ◌-◌, ◌^◌};

use super::*;
use cet_isa::{Arch, Fault, FaultName, Record, What};
use cet_page::{Next, Vals};
use cet_words::{Access, Bytes, Image, Job, NoMemory, Segment, Segments};
use std::alloc::Global;
use std::process::Abort;
use std::test::Fail;

/// Thread 5, whose supervisor stack of four is number 1.
fn thread() -> Arch
    ensures { result.count < 2 ^ 32 - 1 }
{
    Arch {
        regs: [0; 16],
        rip: 0x40_1000,
        flags: 2,
        ssp: 0x2_0000_9000,
        mask: 0,
        count: 7,
        posted: 0,
        number: 5,
        made: 0x2_0000_1000,
        due: None,
        held: None,
    }
}

fn image(alloc: Global) -> Result<Image, NoMemory> {
    let mut segments = Segments::new(alloc);
    segments.push(
        alloc,
        Segment {
            start: 0x40_1000,
            bytes: Bytes::new(alloc),
            size: 16,
            write: false,
            exec: true,
        },
    )?;
    Ok(Image {
        entry: 0x40_1000,
        marked: true,
        tracked: false,
        segments,
    })
}

/// Supervisor stack 1 is kernel page 4, which is page 3,140 of all, and its token is that page's last word.
const TOKEN: u64 = 0xffff_8000_0000_4ff8;

/// The accesses of a part with the answers that they get, and then what it comes to.
fn expect_part(
    rt: &impl Abort,
    job: &Job,
    part: Part,
    rows: &[(Access, u64)],
    done: Option<Record>,
) {
    let arch = thread();
    let mut vals = Vals::new();
    for (access, answer) in rows {
        assert_eq!(rt;
            next(job, &arch, &vals, &part),
            Next::Access(*access),
            "{part:?}"
        );
        assert!(rt; vals.count() < 32 && vals.done() < 4096);
        vals.add(*access, *answer);
    }
    let mut after = arch;
    if done.is_some() {
        after.count = 8;
    }
    assert_eq!(rt;
        next(job, &arch, &vals, &part),
        Next::Done(after, done),
        "{part:?}"
    );
}

#[test]
fn ways_in_and_out(rt: HostRuntime) -> Result<(), Fail> {
    let image = image(rt.alloc())?;
    let job = Job {
        image: &image,
        procs: 4,
        limit: 10,
        signals: &[],
    };
    let look = Access::Look(3140);
    let take = Access::CompareExchange(1_608_191, TOKEN, TOKEN + 1);
    let store = Access::Store(1_608_190, 0xffff_8000_0010_0000);
    expect_part(
        &rt,
        &job,
        Part::In,
        &[(look, 0), (take, TOKEN), (store, 0)],
        None,
    );
    let busy = Record {
        rip: 0x40_1000,
        what: What::Busy,
        code: 0,
        a: TOKEN,
        b: TOKEN + 1,
    };
    expect_part(
        &rt,
        &job,
        Part::In,
        &[(look, 0), (take, TOKEN + 1)],
        Some(busy),
    );
    let read = Access::Load(1_608_190);
    let give = Access::CompareExchange(1_608_191, TOKEN + 1, TOKEN);
    expect_part(&rt, &job, Part::Out, &[(read, 9), (give, 9)], None);
    let fault = Fault {
        name: FaultName::Gp,
        code: 0,
        a: 0,
        b: 0,
    };
    for part in [Part::Setssbsy, Part::Clrssbsy] {
        assert_eq!(&rt;
            next(&job, &thread(), &Vals::new(), &part),
            Next::Fault(fault)
        );
    }
    Ok(())
}
