//! The instructions on shadow stacks, by what they are.

ghost use Rattle.std.specs.Prelude.{◌≡◌, ◌-◌, ◌^◌, ◌<◌, [], All};
ghost use Rattle.cet_isa.specs.declared.threads.Fault.{Fault};
ghost use Rattle.cet_page.specs.Script.{play};
ghost use Rattle.cet_page.specs.Trail.{trail};
ghost use Rattle.cet_page.specs.Plays.{Follows, NextInRange, next_of};
ghost use Rattle.cet_page.specs.Faults.{KeepsWords};
ghost use Rattle.cet_page.specs.Row.{next_address};
ghost use Rattle.cet_page.specs.ShadowStacks.{shadow_stacks};

use crate::increments::incsspq;
use crate::restores::rstorssp;
use crate::saves::saveprevssp;
use cet_decode::instruction_length;
use cet_isa::{Arch, Instr, Record};
use cet_page::{
    Cursor, Next, Suspended, Vals, assign, effective, general_protection, invalid_opcode,
    next_address, register,
};
use cet_words::Job;

/// What an instruction on shadow stacks comes to over the accesses that were made: its record, with the
/// state changed in its place, or an access that it wants or a fault, with the state as it was. `next` is
/// the address of the next instruction. WRSSQ is never enabled, so it is an invalid opcode as every other
/// instruction is, and WRUSSQ is the supervisor's, #GP(0).
pub fn follow(
    arch: &mut Arch,
    instr: &Instr,
    next: u64,
    at: &mut Cursor,
) -> Result<Record, Suspended>
    requires { arch.old.count < 2 ^ 32 - 1 }
    ensures { Follows (play (shadow_stacks arch.old instr.now next) at.old.left at.old.rest.now) arch.old arch.new result at.new.left at.new.rest.now }
{
    match *instr {
        Instr::Incsspq { reg } => {
            let count = (register(arch, reg) % 256) as u8;
            incsspq(arch, count, next, at)
        }
        Instr::Rdsspq { reg } => {
            let ssp = arch.ssp;
            Ok(assign(arch, reg, ssp, next))
        }
        Instr::Rstorssp { mem } => {
            let addr = effective(arch, mem, next);
            rstorssp(arch, addr, next, at)
        }
        Instr::Saveprevssp => saveprevssp(arch, next, at),
        Instr::Wrussq { .. } => Err(general_protection()),
        _ => Err(invalid_opcode()),
    }
}

/// What an instruction on shadow stacks does next, after the accesses that were made and the values kept
/// of them: its next access, its result with the record, or its fault. The address of the next
/// instruction is that after the instruction at RIP.
#[tactic(auto, using(cet_page::proofs::PlayLaws::next_is, cet_page::proofs::PlayLaws::next_ranges, cet_page::proofs::FaultLaws::shadow_stacks_clean))]
pub fn next(job: &Job, arch: &Arch, vals: &Vals, instr: &Instr) -> Next
    requires { arch.now.count < 2 ^ 32 - 1 }
    ensures next { result ≡ next_of (play (shadow_stacks arch.now instr.now (next_address job.now arch.now)) vals.now.accesses vals.now.values) }
    ensures range { NextInRange result }

    // An instruction that faults has changed no word.
    ensures fault { (e : Fault) → result ≡ Next.Fault e → All KeepsWords (trail vals.now.accesses (shadow_stacks arch.now instr.now (next_address job.now arch.now)) vals.now.values []) }
{
    let next = next_address(job, arch, |bytes| instruction_length(bytes));
    let mut after = *arch;
    let reached = follow(&mut after, instr, next, &mut vals.start());
    Next::noted(&after, reached)
}
