//! The parts of the machine at supervisor stacks, each by what it does next.

ghost use Rattle.std.specs.Prelude.{◌≡◌, ◌-◌, ◌^◌, ◌<◌};
ghost use Rattle.cet_page.specs.Plays.{NextInRange, next_after};
ghost use Rattle.cet_busy.specs.Parts.{come_in, come_out, next_part};

use crate::gates::{busy_record, gate_in, gate_out, stack_of};
use cet_isa::Arch;
use cet_page::{Leaving, Next, Suspended, Vals, counted, general_protection};
use cet_words::Job;

/// A part of the machine at supervisor stacks.
#[derive(Clone, Copy, Debug, PartialEq, Eq)]
pub enum Part {
    /// The user's SETSSBSY.
    Setssbsy,
    /// The user's CLRSSBSY.
    Clrssbsy,
    /// The gate's way in.
    In,
    /// The gate's way out.
    Out,
}

/// The state after the way in, with a record where the stack is busy.
fn come_in(arch: &Arch, k: u8, found: Option<u64>) -> (Arch, Option<cet_isa::Record>)
    requires stack { k < 8 }
    requires count { arch.now.count < 2 ^ 32 - 1 }
    ensures { result ≡ come_in arch.now k found }
{
    match found {
        None => (*arch, None),
        Some(found) => (counted(arch), Some(busy_record(arch, k, found))),
    }
}

fn after_in(arch: &Arch, k: u8, reached: Result<Option<u64>, Suspended>) -> Next
    requires stack { k < 8 }
    requires count { arch.now.count < 2 ^ 32 - 1 }
    ensures { result ≡ next_after (come_in arch.now k) reached }
{
    match reached {
        Ok(found) => Next::of(Ok(come_in(arch, k, found))),
        Err(stop) => Next::of(Err(stop)),
    }
}

fn after_out(arch: &Arch, reached: Result<(), Suspended>) -> Next
    ensures { result ≡ next_after (come_out arch.now) reached }
{
    match reached {
        Ok(()) => Next::of(Ok((*arch, None))),
        Err(stop) => Next::of(Err(stop)),
    }
}

/// What a part does next, after the accesses that were made of it and the values kept of them: its next
/// access, its fault, or its end. Of the way in there is a record where another word than the free token
/// was found, and none where the service or delivery follows; of the way out there is none.
#[tactic(auto, using(cet_page::proofs::PlayLaws::next_by_is, cet_page::proofs::PlayLaws::next_by_ranges))]
pub fn next(job: &Job, arch: &Arch, vals: &Vals, part: &Part) -> Next
    requires { arch.now.count < 2 ^ 32 - 1 }
    ensures next { result ≡ next_part job.now arch.now part.now vals.now.accesses vals.now.values }
    ensures range { NextInRange result }
{
    let k = stack_of(job, arch);
    match *part {
        Part::Setssbsy | Part::Clrssbsy => Next::of(Err(general_protection())),
        Part::In => after_in(arch, k, gate_in(k, &mut vals.start())),
        Part::Out => after_out(arch, gate_out(k, Leaving::Back, &mut vals.start())),
    }
}
