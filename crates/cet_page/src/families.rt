//! The parts of the machine that carry instructions.

ghost use Rattle.std.specs.Prelude.{◌≡◌};
ghost use Rattle.cet_page.specs.Family.{family_of};

use cet_isa::Instr;

/// Which part of the machine carries an instruction.
#[derive(Clone, Copy, Debug, PartialEq, Eq)]
pub enum Family {
    /// Moves, arithmetic, tests, shifts and locked operations.
    Arithmetic,
    /// Calls, returns, pushes, pops and jumps.
    Flow,
    /// What the user does with shadow stacks.
    ShadowStacks,
    /// SYSCALL.
    SystemCall,
    /// SETSSBSY and CLRSSBSY, which are the supervisor's.
    Supervisor,
}

/// The part of the machine that carries an instruction.
pub fn family_of(instr: &Instr) -> Family
    ensures { result ≡ family_of instr.now }
{
    match *instr {
        Instr::CallRel { .. }
        | Instr::CallInd { .. }
        | Instr::Ret
        | Instr::RetImm { .. }
        | Instr::Push { .. }
        | Instr::Pop { .. }
        | Instr::Leave
        | Instr::JmpRel { .. }
        | Instr::JmpInd { .. }
        | Instr::Jcc { .. } => Family::Flow,
        Instr::Syscall => Family::SystemCall,
        Instr::Incsspq { .. }
        | Instr::Rdsspq { .. }
        | Instr::Rstorssp { .. }
        | Instr::Saveprevssp
        | Instr::Wrssq { .. }
        | Instr::Wrussq { .. } => Family::ShadowStacks,
        Instr::Setssbsy | Instr::Clrssbsy { .. } => Family::Supervisor,
        _ => Family::Arithmetic,
    }
}
