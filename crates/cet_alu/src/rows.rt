//! The instructions by their names.

ghost use Rattle.std.specs.Prelude.{◌≡◌, ◌-◌, ◌^◌, ◌<◌, [], All};
ghost use Rattle.cet_isa.specs.declared.threads.Fault.{Fault};
ghost use Rattle.cet_page.specs.Script.{play};
ghost use Rattle.cet_page.specs.Trail.{trail};
ghost use Rattle.cet_page.specs.Plays.{Follows, NextInRange, next_of};
ghost use Rattle.cet_page.specs.Faults.{KeepsWords};
ghost use Rattle.cet_page.specs.Row.{next_address};
ghost use Rattle.cet_page.specs.Arithmetic.{arithmetic};

use crate::locked::{lock_cmpxchg, lock_xadd, xchg};
use crate::moves::{cmov, lea, mov, movsxd, movzx};
use crate::operations::{alu, dec, imul, inc, neg, not, sar, set_carry, shl, shr, test};
use cet_decode::instruction_length;
use cet_isa::{Arch, Instr, Record};
use cet_page::{Cursor, Next, Suspended, Vals, assign, invalid_opcode, next_address, step};
use cet_words::Job;

/// What an instruction of this crate comes to over the accesses that were made: its record, with the
/// state changed in its place, or an access that it wants or a fault, with the state as it was. `next` is
/// the address of the next instruction. Every other instruction is an invalid opcode.
pub fn follow(
    arch: &mut Arch,
    instr: &Instr,
    next: u64,
    at: &mut Cursor,
) -> Result<Record, Suspended>
    requires { arch.old.count < 2 ^ 32 - 1 }
    ensures { Follows (play (arithmetic arch.old instr.now next) at.old.left at.old.rest.now) arch.old arch.new result at.new.left at.new.rest.now }
{
    match *instr {
        Instr::Alu { op, size, dst, src } => alu(arch, op, size, dst, src, next, at),
        Instr::Test { size, dst, src } => test(arch, size, dst, src, next, at),
        Instr::Mov { size, dst, src } => mov(arch, size, dst, src, next, at),
        Instr::MovWide { dst, value } => Ok(assign(arch, dst, value, next)),
        Instr::MovZero8 { dst, src } => movzx(arch, dst, src, next, at),
        Instr::MovSign32 { dst, src } => movsxd(arch, dst, src, next, at),
        Instr::Lea { size, dst, src } => Ok(lea(arch, size, dst, src, next)),
        Instr::Xchg { dst, reg } => xchg(arch, dst, reg, next, at),
        Instr::LockXadd { mem, reg } => lock_xadd(arch, mem, reg, next, at),
        Instr::LockCmpxchg { mem, reg } => lock_cmpxchg(arch, mem, reg, next, at),
        Instr::Inc { size, reg } => Ok(inc(arch, size, reg, next)),
        Instr::Dec { size, reg } => Ok(dec(arch, size, reg, next)),
        Instr::Not { size, reg } => Ok(not(arch, size, reg, next)),
        Instr::Neg { size, reg } => Ok(neg(arch, size, reg, next)),
        Instr::Imul { size, dst, src } => imul(arch, size, dst, src, next, at),
        Instr::Shl { size, reg, count } => Ok(shl(arch, size, reg, count, next)),
        Instr::Shr { size, reg, count } => Ok(shr(arch, size, reg, count, next)),
        Instr::Sar { size, reg, count } => Ok(sar(arch, size, reg, count, next)),
        Instr::Cmov {
            cond,
            size,
            dst,
            src,
        } => cmov(arch, cond, size, dst, src, next, at),
        Instr::Nop | Instr::Pause | Instr::Endbr64 => Ok(step(arch, next, 0)),
        Instr::Stc => Ok(set_carry(arch, true, next)),
        Instr::Clc => Ok(set_carry(arch, false, next)),
        _ => Err(invalid_opcode()),
    }
}

/// What an instruction of this crate does next, after the accesses that were made and the values kept of
/// them: its next access, its result with the record, or its fault. The address of the next instruction
/// is that after the instruction at RIP.
#[tactic(auto, using(cet_page::proofs::PlayLaws::next_is, cet_page::proofs::PlayLaws::next_ranges, cet_page::proofs::FaultLaws::arithmetic_clean))]
pub fn next(job: &Job, arch: &Arch, vals: &Vals, instr: &Instr) -> Next
    requires { arch.now.count < 2 ^ 32 - 1 }
    ensures next { result ≡ next_of (play (arithmetic arch.now instr.now (next_address job.now arch.now)) vals.now.accesses vals.now.values) }
    ensures range { NextInRange result }

    // An instruction that faults has changed no word.
    ensures fault { (e : Fault) → result ≡ Next.Fault e → All KeepsWords (trail vals.now.accesses (arithmetic arch.now instr.now (next_address job.now arch.now)) vals.now.values []) }
{
    let next = next_address(job, arch, |bytes| instruction_length(bytes));
    let mut after = *arch;
    let reached = follow(&mut after, instr, next, &mut vals.start());
    Next::noted(&after, reached)
}
