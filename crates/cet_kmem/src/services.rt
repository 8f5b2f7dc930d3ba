//! The services, by their numbers.

ghost use Rattle.std.specs.Prelude.{◌≡◌, ◌-◌, ◌^◌, ◌<◌};
ghost use Rattle.cet_page.specs.Script.{play};
ghost use Rattle.cet_page.specs.Plays.{Refines, NextInRange, next_by, with_leaving};
ghost use Rattle.cet_page.specs.MemoryServices.{memory_service};

use crate::mappings::{mmap, munmap};
use crate::shadow_stacks::map_shadow_stack;
use cet_isa::{Arch, RAX, Record};
use cet_page::{Cursor, Errno, Leaving, Next, Suspended, Vals, failed};
use cet_words::Job;

/// The number of mmap.
const MMAP: u64 = 9;

/// The number of munmap.
const MUNMAP: u64 = 11;

/// The number of map_shadow_stack.
const MAP_SHADOW_STACK: u64 = 453;

/// The service whose number is in RAX, as far as the cursor's accesses lead. Every number of another crate
/// is no call.
pub fn follow(arch: &Arch, at: &mut Cursor) -> Result<(Arch, Record, Leaving), Suspended>
    requires { arch.now.count < 2 ^ 32 - 1 }
    ensures { Refines (play (memory_service arch.now) at.old.left at.old.rest.now) result at.new.left at.new.rest.now }
{
    match arch.regs[RAX] {
        MMAP => mmap(arch, at),
        MUNMAP => munmap(arch, at),
        MAP_SHADOW_STACK => map_shadow_stack(arch, at),
        _ => Ok(failed(arch, Errno::NoSys)),
    }
}

/// What the service whose number is in RAX does next, after the accesses that were made since the kernel's
/// way in and the values kept of them: its next access, or the state and record with which the way out
/// follows.
#[tactic(auto, using(cet_page::proofs::PlayLaws::next_by_is, cet_page::proofs::PlayLaws::next_by_ranges))]
pub fn next(_job: &Job, arch: &Arch, vals: &Vals) -> Next
    requires { arch.now.count < 2 ^ 32 - 1 }
    ensures next { result ≡ next_by with_leaving (play (memory_service arch.now) vals.now.accesses vals.now.values) }
    ensures range { NextInRange result }
{
    Next::leaving(follow(arch, &mut vals.start()))
}
