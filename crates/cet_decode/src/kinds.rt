//! Kinds of rows, in groups.

/// Where a shift takes its count from: the immediate, the number 1, the register CL.
#[derive(Clone, Copy)]
pub enum Amount {
    Given,
    One,
    InCl,
}

/// Operations of two operands, by where the operands stand.
#[derive(Clone, Copy)]
pub enum Arith {
    AluRmReg,
    AluRegRm,
    AluRmImm,
    AluRaxImm,
    TestRmReg,
    TestRmImm,
    TestRaxImm,
    Imul,
}

/// Operations of one register.
#[derive(Clone, Copy)]
pub enum Unary {
    Inc,
    Dec,
    Not,
    Neg,
    Shl(Amount),
    Shr(Amount),
    Sar(Amount),
}

/// Moves and exchanges.
#[derive(Clone, Copy)]
pub enum Move {
    MovRmReg,
    MovRegRm,
    MovRegImm,
    MovRmImm,
    MovWide,
    MovZero8,
    MovSign32,
    Lea,
    Xchg,
    LockXadd,
    LockCmpxchg,
    Cmov,
}

/// The stack, calls, jumps and returns. A `bool` is true with the prefix NOTRACK.
#[derive(Clone, Copy)]
pub enum Flow {
    PushReg,
    PushImm,
    PushMem,
    Pop,
    CallRel,
    CallInd(bool),
    JmpRel,
    JmpInd(bool),
    Jcc,
    RetImm,
}

/// Instructions of the shadow stack with an operand.
#[derive(Clone, Copy)]
pub enum Shadow {
    Incsspq,
    Rdsspq,
    Rstorssp,
    Clrssbsy,
    Wrssq,
    Wrussq,
}
