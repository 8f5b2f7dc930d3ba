//! The instructions of control flow and of the program stack, by what they are.

ghost use Rattle.std.specs.Prelude.{◌≡◌, ◌-◌, ◌^◌, ◌<◌, [], All};
ghost use Rattle.cet_isa.specs.declared.threads.Fault.{Fault};
ghost use Rattle.cet_page.specs.Script.{play};
ghost use Rattle.cet_page.specs.Trail.{trail};
ghost use Rattle.cet_page.specs.Plays.{Follows, NextInRange, next_of};
ghost use Rattle.cet_page.specs.Faults.{KeepsWords};
ghost use Rattle.cet_page.specs.Row.{next_address};
ghost use Rattle.cet_page.specs.Flow.{flow};

use crate::calls::{call_indirect, call_relative};
use crate::jumps::{end_jump, jump_if, jump_indirect, relative};
use crate::returns::ret;
use crate::stacks::{leave, pop, push};
use cet_decode::instruction_length;
use cet_isa::{Arch, Instr, Record};
use cet_page::{Cursor, Next, Suspended, Vals, invalid_opcode, next_address};
use cet_words::Job;

/// What a call, return, push, pop or jump comes to over the accesses that were made: its record, with the
/// state changed in its place, or an access that it wants or a fault, with the state as it was. `next` is
/// the address of the next instruction. Every other instruction is an invalid opcode.
pub fn follow(
    arch: &mut Arch,
    instr: &Instr,
    next: u64,
    at: &mut Cursor,
) -> Result<Record, Suspended>
    requires { arch.old.count < 2 ^ 32 - 1 }
    ensures { Follows (play (flow arch.old instr.now next) at.old.left at.old.rest.now) arch.old arch.new result at.new.left at.new.rest.now }
{
    match *instr {
        Instr::CallRel { disp } => call_relative(arch, disp, next, at),
        Instr::CallInd { target, .. } => call_indirect(arch, target, next, at),
        Instr::Ret => ret(arch, 0, at),
        Instr::RetImm { bytes } => ret(arch, bytes, at),
        Instr::Push { src } => push(arch, src, next, at),
        Instr::Pop { dst } => pop(arch, dst, next, at),
        Instr::Leave => leave(arch, next, at),
        Instr::JmpRel { disp } => Ok(end_jump(arch, relative(next, disp))),
        Instr::JmpInd { target, .. } => jump_indirect(arch, target, next, at),
        Instr::Jcc { cond, disp } => Ok(jump_if(arch, cond, disp, next)),
        _ => Err(invalid_opcode()),
    }
}

/// What a call, return, push, pop or jump does next, after the accesses that were made and the values
/// kept of them: its next access, its result with the record, or its fault. The address of the next
/// instruction is that after the instruction at RIP.
#[tactic(auto, using(cet_page::proofs::PlayLaws::next_is, cet_page::proofs::PlayLaws::next_ranges, cet_page::proofs::FaultLaws::flow_clean))]
pub fn next(job: &Job, arch: &Arch, vals: &Vals, instr: &Instr) -> Next
    requires { arch.now.count < 2 ^ 32 - 1 }
    ensures next { result ≡ next_of (play (flow arch.now instr.now (next_address job.now arch.now)) vals.now.accesses vals.now.values) }
    ensures range { NextInRange result }

    // An instruction that faults has changed no word.
    ensures fault { (e : Fault) → result ≡ Next.Fault e → All KeepsWords (trail vals.now.accesses (flow arch.now instr.now (next_address job.now arch.now)) vals.now.values []) }
{
    let next = next_address(job, arch, |bytes| instruction_length(bytes));
    let mut after = *arch;
    let reached = follow(&mut after, instr, next, &mut vals.start());
    Next::noted(&after, reached)
}
