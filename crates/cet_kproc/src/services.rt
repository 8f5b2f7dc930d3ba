//! The services, by their numbers.

ghost use Rattle.std.specs.Prelude.{◌≡◌, ◌-◌, ◌^◌, ◌<◌};
ghost use Rattle.cet_page.specs.Finish.{IsMade};
ghost use Rattle.cet_page.specs.Script.{play};
ghost use Rattle.cet_page.specs.Plays.{Refines, NextInRange, next_by, with_leaving};
ghost use Rattle.cet_page.specs.Processes.{is_process_service, process_service};

use crate::clones::{clone, thread_id};
use crate::exits::{exit, exit_group};
use crate::features::arch_prctl;
use crate::writes::write;
use cet_isa::{Arch, RAX, Record};
use cet_page::{Cursor, Errno, Leaving, Next, Suspended, Vals, failed, serve};
use cet_words::Job;

const WRITE: u64 = 1;

const SCHED_YIELD: u64 = 24;

const CLONE: u64 = 56;

const EXIT: u64 = 60;

const ARCH_PRCTL: u64 = 158;

const GETTID: u64 = 186;

const EXIT_GROUP: u64 = 231;

/// Whether the service of this number is one of this crate.
pub fn serves(number: u64) -> bool
    ensures { result ≡ is_process_service number }
{
    matches!(
        number,
        WRITE | SCHED_YIELD | CLONE | EXIT | ARCH_PRCTL | GETTID | EXIT_GROUP
    )
}

/// The service whose number is in RAX, as far as the cursor's accesses lead. Every number of another crate
/// is no call.
pub fn follow(arch: &Arch, at: &mut Cursor) -> Result<(Arch, Record, Leaving), Suspended>
    requires count { arch.now.count < 2 ^ 32 - 1 }
    requires made { IsMade arch.now.made }
    ensures { Refines (play (process_service arch.now) at.old.left at.old.rest.now) result at.new.left at.new.rest.now }
{
    match arch.regs[RAX] {
        WRITE => write(arch, at),
        SCHED_YIELD => Ok(serve(arch, 0)),
        CLONE => clone(arch, at),
        EXIT => exit(arch, at),
        ARCH_PRCTL => arch_prctl(arch, at),
        GETTID => Ok(serve(arch, thread_id(u64::from(arch.number)))),
        EXIT_GROUP => exit_group(arch, at),
        _ => Ok(failed(arch, Errno::NoSys)),
    }
}

/// What the service whose number is in RAX does next, after the accesses that were made since the kernel's
/// way in and the values kept of them: its next access, or the state and record with which the way out
/// follows.
#[tactic(auto, using(cet_page::proofs::PlayLaws::next_by_is, cet_page::proofs::PlayLaws::next_by_ranges))]
pub fn next(_job: &Job, arch: &Arch, vals: &Vals) -> Next
    requires count { arch.now.count < 2 ^ 32 - 1 }
    requires made { IsMade arch.now.made }
    ensures next { result ≡ next_by with_leaving (play (process_service arch.now) vals.now.accesses vals.now.values) }
    ensures range { NextInRange result }
{
    Next::leaving(follow(arch, &mut vals.start()))
}
