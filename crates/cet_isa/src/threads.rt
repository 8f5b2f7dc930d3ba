//! The state of a thread, and what it notes.

/// The name of a fault (Intel SDM volume 3A, the chapter on interrupts and exceptions).
#[derive(Clone, Copy, Debug, PartialEq, Eq)]
pub enum FaultName {
    /// #UD, invalid opcode.
    Ud,
    /// #GP, general protection.
    Gp,
    /// #PF, page fault.
    Pf,
    /// #AC, alignment check.
    Ac,
    /// #CP, control protection.
    Cp,
}

/// A fault with its error code. For #PF `a` is the address and `b` the entry seen. For #AC `a` is the
/// address. For #CP of a near return `a` is the word of the program stack and `b` that of the shadow
/// stack; for #CP of RSTORSSP `a` is the token's address and `b` the word found. Else they are 0.
#[derive(Clone, Copy, Debug, PartialEq, Eq)]
pub struct Fault {
    pub name: FaultName,
    pub code: u32,
    pub a: u64,
    pub b: u64,
}

/// What a record tells of.
#[derive(Clone, Copy, Debug, PartialEq, Eq)]
pub enum What {
    /// An instruction with no record of its own kind: `a` is the value written, `b` RFLAGS after.
    Step,
    /// A near call: `a` is the target, `b` SSP after.
    Call,
    /// A near return: `a` is the target, `b` SSP after.
    Ret,
    /// INCSSPQ: `a` is SSP after, `b` the count.
    Raise,
    /// RSTORSSP: `a` is SSP after, `b` SSP before.
    Take,
    /// SAVEPREVSSP: `a` is the address of the token stored, `b` SSP after.
    Save,
    /// A busy supervisor stack: `a` is the token's address, `b` the word found.
    Busy,
    /// A kernel call: `a` is its number, `b` its result; of an exit, the status modulo 256.
    Sys,
    /// map_shadow_stack: `a` is the start, `b` the size asked.
    Claim,
    /// clone: `a` is the child's number, `b` its SSP.
    Born,
    /// write: `a` is the number of bytes, 1 to 8, and `b` the bytes, the first lowest.
    Wrote,
    /// The delivery of a signal: `a` is the signal, `b` SSP after.
    Signal,
    /// An ignored signal: `a` is the signal.
    Ignore,
    /// rt_sigreturn: `a` is RIP after, `b` SSP after.
    SigReturn,
    /// A fault with its code, `a` and `b`.
    Fault(FaultName),
    /// A kill: `a` is the signal, `b` the EXIT word before.
    Kill,
}

/// A record of a thread's trace. `rip` is the address of the instruction, or the interrupted RIP of a
/// delivery. `code` is a fault's error code, else 0.
#[derive(Clone, Copy, Debug, PartialEq, Eq)]
pub struct Record {
    pub rip: u64,
    pub what: What,
    pub code: u32,
    pub a: u64,
    pub b: u64,
}

/// How a thread ended.
#[derive(Clone, Copy, Debug, PartialEq, Eq)]
pub enum End {
    /// By the service exit, with the status modulo 256.
    Exit(u8),
    /// With its process.
    Group,
    /// At the limit of its records.
    Limit,
}

/// RAX's place among the registers of `Arch`, which are in encoding order.
pub const RAX: usize = 0;

/// RCX's place.
pub const RCX: usize = 1;

/// RDX's place.
pub const RDX: usize = 2;

/// RSP's place.
pub const RSP: usize = 4;

/// RBP's place.
pub const RBP: usize = 5;

/// RSI's place.
pub const RSI: usize = 6;

/// RDI's place.
pub const RDI: usize = 7;

/// R10's place.
pub const R10: usize = 10;

/// R11's place.
pub const R11: usize = 11;

/// The state of a thread.
#[derive(Clone, Copy, Debug, PartialEq, Eq)]
pub struct Arch {
    /// The general registers, in encoding order.
    pub regs: [u64; 16],
    pub rip: u64,
    /// RFLAGS.
    pub flags: u64,
    /// The shadow stack pointer.
    pub ssp: u64,
    /// The signal mask; bit s - 1 is signal s.
    pub mask: u64,
    /// The number of records.
    pub count: u32,
    /// How many of its listed signals it has posted.
    pub posted: u32,
    /// The thread's number, 0 to 31.
    pub number: u8,
    /// The start of the shadow stack that the kernel made for it.
    pub made: u64,
    /// The fault that goes to the kernel next.
    pub due: Option<Fault>,
    /// The supervisor stack that it holds, 0 to 7.
    pub held: Option<u8>,
}
