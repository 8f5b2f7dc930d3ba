//! Fixups: instructions with the addresses of their labels.

ghost use Rattle.std.specs.Prelude.{◌≡◌, ◌<◌, ◌^◌, IfSome};
ghost use Rattle.cet_asm.specs.Layout.{operand_memory, operand_immediate, with_memory, with_immediate, with_target, distance, placed_mem};
ghost use Rattle.cet_asm.specs.Filling.{on_address, AreSmall, filled_at};

use cet_isa::{Base, Instr, Mem, Operand};

/// The addresses of an instruction's fixups: as displacement, as immediate, and as target of a relative jump of four bytes.
#[derive(Clone, Copy)]
pub(crate) struct ResolvedFixups {
    pub displacement: Option<u64>,
    pub immediate: Option<u64>,
    pub target: Option<u64>,
}

/// From the next instruction to an address.
pub(crate) fn distance(next: u64, address: u64) -> i32
    requires next { next < 2 ^ 31 }
    requires address { address < 2 ^ 31 }
    ensures { result ≡ distance next address }
{
    address as i32 - next as i32
}

/// The next instruction, and the address of a label.
#[derive(Clone, Copy)]
struct Aim {
    next: u64,
    address: u64,
    ghost next_small: { next < 2 ^ 31 },
    ghost address_small: { address < 2 ^ 31 },
}

fn place_mem(aim: Aim, mem: &mut Mem)
    ensures { mem.new ≡ placed_mem aim.next aim.address mem.old }
{
    mem.disp = match mem.base {
        Base::Rip => distance(aim.next, aim.address),
        _ => aim.address as i32,
    };
}

fn place_operand(aim: Aim, operand: &mut Operand)
    ensures { operand.new ≡ operand_memory (placed_mem aim.next aim.address) operand.old }
{
    if let Operand::Mem(mem) = operand {
        place_mem(aim, mem);
    }
}

#[tactic(auto, unfolding(crate::specs::Layout::with_memory))]
fn with_memory(aim: Aim, mut instr: Instr) -> Instr
    ensures { result ≡ with_memory (placed_mem aim.next aim.address) instr }
{
    match &mut instr {
        Instr::Alu { dst, src, .. } => {
            place_operand(aim, dst);
            place_operand(aim, src);
        }
        Instr::Mov { dst, src, .. } => {
            place_operand(aim, dst);
            place_operand(aim, src);
        }
        Instr::Test { dst, .. } => place_operand(aim, dst),
        Instr::MovSign32 { src, .. } => place_operand(aim, src),
        Instr::Xchg { dst, .. } => place_operand(aim, dst),
        Instr::Imul { src, .. } => place_operand(aim, src),
        Instr::Cmov { src, .. } => place_operand(aim, src),
        Instr::Push { src } => place_operand(aim, src),
        Instr::CallInd { target, .. } => place_operand(aim, target),
        Instr::JmpInd { target, .. } => place_operand(aim, target),
        Instr::MovZero8 { src, .. } => place_mem(aim, src),
        Instr::Lea { src, .. } => place_mem(aim, src),
        Instr::LockXadd { mem, .. } => place_mem(aim, mem),
        Instr::LockCmpxchg { mem, .. } => place_mem(aim, mem),
        Instr::Rstorssp { mem } => place_mem(aim, mem),
        Instr::Clrssbsy { mem } => place_mem(aim, mem),
        Instr::Wrssq { mem, .. } => place_mem(aim, mem),
        Instr::Wrussq { mem, .. } => place_mem(aim, mem),
        _ => {}
    }
    instr
}

fn place_immediate(address: u64, operand: &mut Operand)
    requires { address < 2 ^ 31 }
    ensures { operand.new ≡ operand_immediate address operand.old }
{
    if let Operand::Imm(number) = operand {
        *number = address as i32;
    }
}

#[tactic(auto, unfolding(crate::specs::Layout::with_immediate))]
fn with_immediate(address: u64, mut instr: Instr) -> Instr
    requires { address < 2 ^ 31 }
    ensures { result ≡ with_immediate address instr }
{
    match &mut instr {
        Instr::Alu { src, .. } => place_immediate(address, src),
        Instr::Test { src, .. } => place_immediate(address, src),
        Instr::Mov { src, .. } => place_immediate(address, src),
        Instr::Push { src } => place_immediate(address, src),
        Instr::MovWide { value, .. } => *value = address,
        _ => {}
    }
    instr
}

#[tactic(auto, unfolding(crate::specs::Layout::with_target))]
fn with_target(aim: Aim, instr: Instr) -> Instr
    ensures { result ≡ with_target (distance aim.next aim.address) instr }
{
    let disp = distance(aim.next, aim.address);
    match instr {
        Instr::CallRel { .. } => Instr::CallRel { disp },
        Instr::JmpRel { .. } => Instr::JmpRel { disp },
        Instr::Jcc { cond, .. } => Instr::Jcc { cond, disp },
        other => other,
    }
}

fn on_displacement(next: u64, address: Option<u64>, instr: Instr) -> Instr
    requires next { next < 2 ^ 31 }
    requires address { IfSome address (λ a. a < 2 ^ 31) }
    ensures { result ≡ on_address address (λ a. with_memory (placed_mem next a)) instr }
{
    match address {
        Some(address) => with_memory(Aim { next, address }, instr),
        None => instr,
    }
}

fn on_immediate(address: Option<u64>, instr: Instr) -> Instr
    requires { IfSome address (λ a. a < 2 ^ 31) }
    ensures { result ≡ on_address address with_immediate instr }
{
    match address {
        Some(address) => with_immediate(address, instr),
        None => instr,
    }
}

fn on_target(next: u64, address: Option<u64>, instr: Instr) -> Instr
    requires next { next < 2 ^ 31 }
    requires address { IfSome address (λ a. a < 2 ^ 31) }
    ensures { result ≡ on_address address (λ a. with_target (distance next a)) instr }
{
    match address {
        Some(address) => with_target(Aim { next, address }, instr),
        None => instr,
    }
}

/// The instruction with these addresses, the next one standing at `next`.
pub(crate) fn filled(next: u64, resolved: ResolvedFixups, instr: Instr) -> Instr
    requires next { next < 2 ^ 31 }
    requires resolved { AreSmall resolved }
    ensures { result ≡ filled_at next resolved instr }
{
    let placed = on_displacement(next, resolved.displacement, instr);
    on_target(
        next,
        resolved.target,
        on_immediate(resolved.immediate, placed),
    )
}
