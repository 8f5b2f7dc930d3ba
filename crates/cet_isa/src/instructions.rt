//! The instructions of the machine, as the Intel SDM names them (volume 2).

ghost use Rattle.std.specs.Prelude.{◌≡◌, ◌<◌};

/// A general register, in encoding order.
#[derive(Clone, Copy, Debug, PartialEq, Eq)]
pub enum Reg {
    Rax,
    Rcx,
    Rdx,
    Rbx,
    Rsp,
    Rbp,
    Rsi,
    Rdi,
    R8,
    R9,
    R10,
    R11,
    R12,
    R13,
    R14,
    R15,
}

impl Reg {
    ghost use Rattle.cet_isa.specs.Code.{reg_number, reg_at};

    /// All registers by their numbers.
    pub(crate) const ALL: [Reg; 16] = [
        Reg::Rax,
        Reg::Rcx,
        Reg::Rdx,
        Reg::Rbx,
        Reg::Rsp,
        Reg::Rbp,
        Reg::Rsi,
        Reg::Rdi,
        Reg::R8,
        Reg::R9,
        Reg::R10,
        Reg::R11,
        Reg::R12,
        Reg::R13,
        Reg::R14,
        Reg::R15,
    ];

    /// The number by which an encoding names the register.
    pub fn number(self) -> u8
        ensures value { result ≡ reg_number self }
        ensures small { result < 16 }
    {
        self as u8
    }

    /// The register of this number.
    pub fn of(number: u8) -> Reg
        requires { number < 16 }
        ensures { result ≡ reg_at number }
    {
        Reg::ALL[number as usize]
    }
}

/// A condition of a jump or a move, in encoding order.
#[derive(Clone, Copy, Debug, PartialEq, Eq)]
pub enum Cond {
    O,
    No,
    B,
    Ae,
    E,
    Ne,
    Be,
    A,
    S,
    Ns,
    P,
    Np,
    L,
    Ge,
    Le,
    G,
}

impl Cond {
    ghost use Rattle.cet_isa.specs.Code.{cond_number, cond_at};

    /// All conditions by their numbers.
    pub(crate) const ALL: [Cond; 16] = [
        Cond::O,
        Cond::No,
        Cond::B,
        Cond::Ae,
        Cond::E,
        Cond::Ne,
        Cond::Be,
        Cond::A,
        Cond::S,
        Cond::Ns,
        Cond::P,
        Cond::Np,
        Cond::L,
        Cond::Ge,
        Cond::Le,
        Cond::G,
    ];

    /// The number by which an encoding names the condition.
    pub fn number(self) -> u8
        ensures value { result ≡ cond_number self }
        ensures small { result < 16 }
    {
        self as u8
    }

    /// The condition of this number.
    pub fn of(number: u8) -> Cond
        requires { number < 16 }
        ensures { result ≡ cond_at number }
    {
        Cond::ALL[number as usize]
    }
}

/// The operand size, of 32 or 64 bits.
#[derive(Clone, Copy, Debug, PartialEq, Eq)]
pub enum Size {
    Dword,
    Qword,
}

/// What a memory operand starts from. `Rip` is the address of the next instruction.
#[derive(Clone, Copy, Debug, PartialEq, Eq)]
pub enum Base {
    None,
    Rip,
    Reg(Reg),
}

/// A memory operand: base, index times scale, and displacement. The scale is 1, 2, 4 or 8, and 1 where
/// there is no index.
#[derive(Clone, Copy, Debug, PartialEq, Eq)]
pub struct Mem {
    pub base: Base,
    pub index: Option<Reg>,
    pub scale: u8,
    pub disp: i32,
}

/// An operand. An immediate is its field as a signed number.
#[derive(Clone, Copy, Debug, PartialEq, Eq)]
pub enum Operand {
    Reg(Reg),
    Mem(Mem),
    Imm(i32),
}

/// An operation of two operands, in encoding order.
#[derive(Clone, Copy, Debug, PartialEq, Eq)]
pub enum AluOp {
    Add,
    Or,
    Adc,
    Sbb,
    And,
    Sub,
    Xor,
    Cmp,
}

impl AluOp {
    ghost use Rattle.cet_isa.specs.Code.{op_number, alu_at};

    /// All operations by their numbers.
    pub(crate) const ALL: [AluOp; 8] = [
        AluOp::Add,
        AluOp::Or,
        AluOp::Adc,
        AluOp::Sbb,
        AluOp::And,
        AluOp::Sub,
        AluOp::Xor,
        AluOp::Cmp,
    ];

    /// The number by which an encoding names the operation.
    pub fn number(self) -> u8
        ensures value { result ≡ op_number self }
        ensures small { result < 8 }
    {
        self as u8
    }

    /// The operation of this number.
    pub fn of(number: u8) -> AluOp
        requires { number < 8 }
        ensures { result ≡ alu_at number }
    {
        AluOp::ALL[number as usize]
    }
}

/// By how many places a shift goes: a number of the instruction, or CL.
#[derive(Clone, Copy, Debug, PartialEq, Eq)]
pub enum Count {
    Number(u8),
    Cl,
}

/// An instruction. A relative displacement counts from the next instruction.
#[derive(Clone, Copy, Debug, PartialEq, Eq)]
pub enum Instr {
    Alu {
        op: AluOp,
        size: Size,
        dst: Operand,
        src: Operand,
    },
    Test {
        size: Size,
        dst: Operand,
        src: Operand,
    },
    Mov {
        size: Size,
        dst: Operand,
        src: Operand,
    },
    /// MOV of a 64-bit immediate.
    MovWide {
        dst: Reg,
        value: u64,
    },
    /// MOVZX from a byte of memory.
    MovZero8 {
        dst: Reg,
        src: Mem,
    },
    /// MOVSXD from 32 bits.
    MovSign32 {
        dst: Reg,
        src: Operand,
    },
    Lea {
        size: Size,
        dst: Reg,
        src: Mem,
    },
    Xchg {
        dst: Operand,
        reg: Reg,
    },
    LockXadd {
        mem: Mem,
        reg: Reg,
    },
    LockCmpxchg {
        mem: Mem,
        reg: Reg,
    },
    Inc {
        size: Size,
        reg: Reg,
    },
    Dec {
        size: Size,
        reg: Reg,
    },
    Not {
        size: Size,
        reg: Reg,
    },
    Neg {
        size: Size,
        reg: Reg,
    },
    Imul {
        size: Size,
        dst: Reg,
        src: Operand,
    },
    Shl {
        size: Size,
        reg: Reg,
        count: Count,
    },
    Shr {
        size: Size,
        reg: Reg,
        count: Count,
    },
    Sar {
        size: Size,
        reg: Reg,
        count: Count,
    },
    Cmov {
        cond: Cond,
        size: Size,
        dst: Reg,
        src: Operand,
    },
    Push {
        src: Operand,
    },
    Pop {
        dst: Reg,
    },
    Leave,
    CallRel {
        disp: i32,
    },
    CallInd {
        target: Operand,
        notrack: bool,
    },
    JmpRel {
        disp: i32,
    },
    JmpInd {
        target: Operand,
        notrack: bool,
    },
    Jcc {
        cond: Cond,
        disp: i32,
    },
    Ret,
    /// RET that also takes this many bytes off the stack.
    RetImm {
        bytes: u16,
    },
    Nop,
    Pause,
    Endbr64,
    Ud2,
    Syscall,
    Stc,
    Clc,
    Incsspq {
        reg: Reg,
    },
    Rdsspq {
        reg: Reg,
    },
    Rstorssp {
        mem: Mem,
    },
    Saveprevssp,
    Setssbsy,
    Clrssbsy {
        mem: Mem,
    },
    Wrssq {
        mem: Mem,
        reg: Reg,
    },
    Wrussq {
        mem: Mem,
        reg: Reg,
    },
}
