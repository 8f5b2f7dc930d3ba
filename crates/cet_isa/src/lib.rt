//! Instructions, faults, records and the state of a thread, as data.
#![tactic(auto)]

mod addresses;
mod bits;
mod fields;
mod instructions;
mod names;
mod spelled;
#[cfg(test)]
mod tests;
mod threads;

pub use addresses::is_canonical;
pub use bits::{PageEntry, Rflags};
pub use fields::fits_byte;
pub use instructions::{AluOp, Base, Cond, Count, Instr, Mem, Operand, Reg, Size};
pub use spelled::is_spelled;
pub use threads::{
    Arch, End, Fault, FaultName, R10, R11, RAX, RBP, RCX, RDI, RDX, RSI, RSP, Record, What,
};
