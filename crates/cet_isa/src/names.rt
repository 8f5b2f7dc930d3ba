//! The names of registers, conditions and operations, and what a name names.

ghost use Rattle.std.specs.Prelude.{◌≡◌};
ghost use Rattle.cet_isa.specs.Names.{register_name, condition_name, operation_name, register_named, condition_named, operation_named};

use crate::instructions::{AluOp, Cond, Reg, Size};

impl Reg {
    /// The name of the register, or of its lower half.
    #[tactic(auto, unfolding(crate::specs::Names::register_name))]
    pub fn name(self, size: Size) -> &'static [u8]
        ensures { result.now ≡ register_name size self }
    {
        match (size, self) {
            (Size::Qword, Reg::Rax) => b"rax",
            (Size::Qword, Reg::Rcx) => b"rcx",
            (Size::Qword, Reg::Rdx) => b"rdx",
            (Size::Qword, Reg::Rbx) => b"rbx",
            (Size::Qword, Reg::Rsp) => b"rsp",
            (Size::Qword, Reg::Rbp) => b"rbp",
            (Size::Qword, Reg::Rsi) => b"rsi",
            (Size::Qword, Reg::Rdi) => b"rdi",
            (Size::Qword, Reg::R8) => b"r8",
            (Size::Qword, Reg::R9) => b"r9",
            (Size::Qword, Reg::R10) => b"r10",
            (Size::Qword, Reg::R11) => b"r11",
            (Size::Qword, Reg::R12) => b"r12",
            (Size::Qword, Reg::R13) => b"r13",
            (Size::Qword, Reg::R14) => b"r14",
            (Size::Qword, Reg::R15) => b"r15",
            (Size::Dword, Reg::Rax) => b"eax",
            (Size::Dword, Reg::Rcx) => b"ecx",
            (Size::Dword, Reg::Rdx) => b"edx",
            (Size::Dword, Reg::Rbx) => b"ebx",
            (Size::Dword, Reg::Rsp) => b"esp",
            (Size::Dword, Reg::Rbp) => b"ebp",
            (Size::Dword, Reg::Rsi) => b"esi",
            (Size::Dword, Reg::Rdi) => b"edi",
            (Size::Dword, Reg::R8) => b"r8d",
            (Size::Dword, Reg::R9) => b"r9d",
            (Size::Dword, Reg::R10) => b"r10d",
            (Size::Dword, Reg::R11) => b"r11d",
            (Size::Dword, Reg::R12) => b"r12d",
            (Size::Dword, Reg::R13) => b"r13d",
            (Size::Dword, Reg::R14) => b"r14d",
            (Size::Dword, Reg::R15) => b"r15d",
        }
    }

    /// The register that has the name at this size.
    #[tactic(auto, unfolding(crate::specs::Names::register_named))]
    pub fn named(size: Size, word: &[u8]) -> Option<Reg>
        ensures { result ≡ register_named size word.now }
    {
        Reg::ALL.iter().copied().find(|reg| word == reg.name(size))
    }
}

impl Cond {
    /// The letters of the condition at the end of a mnemonic.
    #[tactic(auto, unfolding(crate::specs::Names::condition_name))]
    pub fn name(self) -> &'static [u8]
        ensures { result.now ≡ condition_name self }
    {
        match self {
            Cond::O => b"o",
            Cond::No => b"no",
            Cond::B => b"b",
            Cond::Ae => b"ae",
            Cond::E => b"e",
            Cond::Ne => b"ne",
            Cond::Be => b"be",
            Cond::A => b"a",
            Cond::S => b"s",
            Cond::Ns => b"ns",
            Cond::P => b"p",
            Cond::Np => b"np",
            Cond::L => b"l",
            Cond::Ge => b"ge",
            Cond::Le => b"le",
            Cond::G => b"g",
        }
    }

    /// The condition that has these letters.
    #[tactic(auto, unfolding(crate::specs::Names::condition_named))]
    pub fn named(word: &[u8]) -> Option<Cond>
        ensures { result ≡ condition_named word.now }
    {
        Cond::ALL.iter().copied().find(|cond| word == cond.name())
    }
}

impl AluOp {
    /// The mnemonic of the operation.
    #[tactic(auto, unfolding(crate::specs::Names::operation_name))]
    pub fn name(self) -> &'static [u8]
        ensures { result.now ≡ operation_name self }
    {
        match self {
            AluOp::Add => b"add",
            AluOp::Or => b"or",
            AluOp::Adc => b"adc",
            AluOp::Sbb => b"sbb",
            AluOp::And => b"and",
            AluOp::Sub => b"sub",
            AluOp::Xor => b"xor",
            AluOp::Cmp => b"cmp",
        }
    }

    /// The operation that has this mnemonic.
    #[tactic(auto, unfolding(crate::specs::Names::operation_named))]
    pub fn named(word: &[u8]) -> Option<AluOp>
        ensures { result ≡ operation_named word.now }
    {
        AluOp::ALL.iter().copied().find(|op| word == op.name())
    }
}
