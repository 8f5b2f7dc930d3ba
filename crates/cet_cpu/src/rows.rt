//! The row of a thread, from a boundary or a due fault to its next record.

ghost use Rattle.std.specs.Prelude.{◌≡◌, ◌+◌, ◌-◌, ◌^◌, ◌<◌, ◌≤◌, IfSome};
ghost use Rattle.cet_isa.specs.Reading.{decoded};
ghost use Rattle.cet_words.specs.Layout.{thread_limit};
ghost use Rattle.cet_page.specs.Script.{play};
ghost use Rattle.cet_page.specs.Plays.{RefinesBy};
ghost use Rattle.cet_page.specs.Finish.{IsMade};
ghost use Rattle.cet_page.specs.Posting.{due_signal, pending_signal, posting};
ghost use Rattle.cet_page.specs.Row.{row, after_signals, between, boundary, instruction, fetched, instruction_bytes, execute};
ghost use Rattle.cet_cpu.specs.Changes.{finish_with, Stays};
ghost use Rattle.cet_cpu.specs.Code.{IsCode};
ghost use Rattle.cet_cpu.specs.Due.{IsDue};

use crate::fetches::{Code, code_at};
use crate::kernel::{RowEnd, deliver_fault, deliver_pending, syscall};
use crate::signals::{due_signal, pending_signal};
use cet_decode::Decoded;
use cet_isa::{Arch, Instr, is_canonical};
use cet_ksig::signal_bit;
use cet_page::{Cursor, Family, Suspended, family_of, general_protection, invalid_opcode, missing};
use cet_words::{EXIT_WORD, Job, pend_word};

/// An instruction, with the address of the next one. Where it is over, the state is changed in its place.
#[tactic(auto, using(cet_page::proofs::ScriptLaws::play_bind))]
fn execute(
    job: &Job,
    arch: &mut Arch,
    instr: &Instr,
    next: u64,
    at: &mut Cursor,
) -> Result<RowEnd, Suspended>
    requires count { arch.old.count < 2 ^ 32 - 1 }
    requires made { IsMade arch.old.made }
    ensures comes { RefinesBy (finish_with arch.new) (play (execute job.now arch.old instr.now next) at.old.left at.old.rest.now) result at.new.left at.new.rest.now }
    ensures stays { Stays arch.old arch.new result }
{
    match family_of(instr) {
        Family::Arithmetic => Ok(RowEnd::Noted(cet_alu::follow(arch, instr, next, at)?)),
        Family::Flow => Ok(RowEnd::Noted(cet_flow::follow(arch, instr, next, at)?)),
        Family::ShadowStacks => Ok(RowEnd::Noted(cet_shstk::follow(arch, instr, next, at)?)),
        Family::SystemCall => syscall(job, arch, at),
        Family::Supervisor => Err(general_protection()),
    }
}

/// The instruction that the code at RIP is.
fn decoded(job: &Job, arch: &mut Arch, code: &Code, at: &mut Cursor) -> Result<RowEnd, Suspended>
    requires count { arch.old.count < 2 ^ 32 - 1 }
    requires made { IsMade arch.old.made }
    requires code { IsCode job.now.image.segments arch.old.rip code.now }
    ensures comes { RefinesBy (finish_with arch.new) (play (fetched job.now arch.old (instruction_bytes job.now arch.old) (decoded (instruction_bytes job.now arch.old))) at.old.left at.old.rest.now) result at.new.left at.new.rest.now }
    ensures stays { Stays arch.old arch.new result }
{
    match &code.decoded {
        Decoded::Ok { instr, len } => {
            let next = arch.rip.wrapping_add(u64::from(*len));
            execute(job, arch, instr, next, at)
        }
        Decoded::Short => Err(missing(arch.rip + u64::from(code.fetched), at)),
        Decoded::Unknown => Err(invalid_opcode()),
    }
}

/// The instruction at RIP. Its code is read where it isn't there yet.
#[tactic(auto, unfolding(cet_page::specs::Row::instruction))]
fn instruction(
    job: &Job,
    arch: &mut Arch,
    code: &mut Option<Code>,
    at: &mut Cursor,
) -> Result<RowEnd, Suspended>
    requires count { arch.old.count < 2 ^ 32 - 1 }
    requires made { IsMade arch.old.made }
    requires code { IfSome code.old (IsCode job.now.image.segments arch.old.rip) }
    ensures comes { RefinesBy (finish_with arch.new) (play (instruction job.now arch.old) at.old.left at.old.rest.now) result at.new.left at.new.rest.now }
    ensures stays { Stays arch.old arch.new result }
    ensures code { IfSome code.new (IsCode job.now.image.segments arch.old.rip) }
{
    if !is_canonical(arch.rip) {
        return Err(general_protection());
    }
    if code.is_none() {
        *code = Some(code_at(job.image, arch.rip));
    }
    match code {
        Some(here) => decoded(job, arch, here, at),
        None => unreachable!(),
    }
}

/// By what is pending: the delivery of a signal comes in place of the instruction.
fn after_signals(
    job: &Job,
    arch: &mut Arch,
    code: &mut Option<Code>,
    pending: u64,
    at: &mut Cursor,
) -> Result<RowEnd, Suspended>
    requires count { arch.old.count < 2 ^ 32 - 1 }
    requires made { IsMade arch.old.made }
    requires code { IfSome code.old (IsCode job.now.image.segments arch.old.rip) }
    ensures comes { RefinesBy (finish_with arch.new) (play (after_signals job.now arch.old (pending_signal pending arch.old.mask)) at.old.left at.old.rest.now) result at.new.left at.new.rest.now }
    ensures stays { Stays arch.old arch.new result }
    ensures code { IfSome code.new (IsCode job.now.image.segments arch.old.rip) }
{
    match pending_signal(pending, arch.mask) {
        Some(signal) => deliver_pending(job, arch, signal, at),
        None => instruction(job, arch, code, at),
    }
}

/// What a thread does between instructions, and then the instruction.
#[tactic(auto, using(cet_page::proofs::ScriptLaws::play_bind), unfolding(cet_page::specs::Row::boundary))]
fn boundary(
    job: &Job,
    arch: &mut Arch,
    code: &mut Option<Code>,
    at: &mut Cursor,
) -> Result<RowEnd, Suspended>
    requires count { arch.old.count < 2 ^ 32 - 1 }
    requires made { IsMade arch.old.made }
    requires number { arch.old.number < thread_limit }
    requires code { IfSome code.old (IsCode job.now.image.segments arch.old.rip) }
    ensures comes { RefinesBy (finish_with arch.new) (play (boundary job.now arch.old) at.old.left at.old.rest.now) result at.new.left at.new.rest.now }
    ensures stays { Stays arch.old arch.new result }
    ensures code { IfSome code.new (IsCode job.now.image.segments arch.old.rip) }
{
    let ending = at.load(EXIT_WORD)?;
    if ending != 0 {
        return Ok(RowEnd::Stopped);
    }
    let pending = at.load(pend_word(arch.number))?;
    after_signals(job, arch, code, pending, at)
}

/// The posting of a listed signal, 1 to 31, which gives no record.
#[tactic(auto, using(cet_page::proofs::ScriptLaws::play_bind), unfolding(cet_page::specs::Posting::posting))]
fn posting(arch: &mut Arch, signal: u8, at: &mut Cursor) -> Result<RowEnd, Suspended>
    requires number { arch.old.number < thread_limit }
    requires due { IsDue arch.old signal }
    ensures comes { RefinesBy (finish_with arch.new) (play (posting arch.old signal) at.old.left at.old.rest.now) result at.new.left at.new.rest.now }
    ensures stays { Stays arch.old arch.new result }
{
    at.fetch_or(pend_word(arch.number), signal_bit(signal))?;
    arch.posted += 1;
    Ok(RowEnd::Posted)
}

/// A listed signal that is due is posted first.
#[tactic(auto, unfolding(cet_page::specs::Row::between))]
fn between(
    job: &Job,
    arch: &mut Arch,
    code: &mut Option<Code>,
    at: &mut Cursor,
) -> Result<RowEnd, Suspended>
    requires count { arch.old.count < 2 ^ 32 - 1 }
    requires made { IsMade arch.old.made }
    requires number { arch.old.number < thread_limit }
    requires code { IfSome code.old (IsCode job.now.image.segments arch.old.rip) }
    ensures comes { RefinesBy (finish_with arch.new) (play (between job.now arch.old (due_signal job.now arch.old)) at.old.left at.old.rest.now) result at.new.left at.new.rest.now }
    ensures stays { Stays arch.old arch.new result }
    ensures code { IfSome code.new (IsCode job.now.image.segments arch.old.rip) }
{
    match due_signal(job, arch) {
        Some(signal) => posting(arch, signal, at),
        None => boundary(job, arch, code, at),
    }
}

/// The row of a thread in this state, as far as the cursor's accesses lead. It keeps the code at RIP,
/// once that is read.
pub fn row(
    job: &Job,
    arch: &mut Arch,
    code: &mut Option<Code>,
    at: &mut Cursor,
) -> Result<RowEnd, Suspended>
    requires count { arch.old.count < 2 ^ 32 - 1 }
    requires made { IsMade arch.old.made }
    requires number { arch.old.number < thread_limit }
    requires code { IfSome code.old (IsCode job.now.image.segments arch.old.rip) }
    ensures comes { RefinesBy (finish_with arch.new) (play (row job.now arch.old) at.old.left at.old.rest.now) result at.new.left at.new.rest.now }
    ensures stays { Stays arch.old arch.new result }
    ensures code { IfSome code.new (IsCode job.now.image.segments arch.old.rip) }
{
    match arch.due {
        Some(fault) => deliver_fault(job, arch, &fault, at),
        None => between(job, arch, code, at),
    }
}
