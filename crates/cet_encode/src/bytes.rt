//! An encoding round its operand: prefixes, REX, escape bytes and opcode.

ghost use Rattle.std.specs.Prelude.{◌≡◌, ◌++◌, ◌+◌, ◌<◌, OnOk};
ghost use Rattle.cet_isa.specs.Canonical.{w_bit};
ghost use Rattle.cet_encode.specs.Bytes.{rex_part, opening, rm_bytes, reg_bytes};

use crate::coding::{extend, high, low, mode, put_address};
use cet_isa::{Operand, Reg, Size};
use cet_words::{Bytes, NoMemory};
use std::alloc::Global;

/// The bytes round an opcode: prefixes before REX, escape bytes after it.
#[derive(Clone, Copy)]
pub(crate) struct Opcode {
    pub prefixes: &'static [u8],
    pub escapes: &'static [u8],
    pub byte: u8,
}

macro_rules! opcode {
    ([$($prefix:literal)*] [$($escape:literal)*] $byte:expr) => {
        Opcode { prefixes: &[$($prefix),*], escapes: &[$($escape),*], byte: $byte }
    };
}

pub(crate) use opcode;

// An encoding with ModRM: prefixes, escape bytes and opcode; size, number in the reg field, operand.
macro_rules! put_row {
    ($alloc:ident $out:ident $prefixes:tt $escapes:tt $byte:expr; $size:expr, $reg:expr, $rm:expr) => {
        put_rm($alloc, $out, opcode!($prefixes $escapes $byte), $size, $reg, $rm)
    };
}

pub(crate) use put_row;

/// REX.W for a size.
fn w_bit(size: Size) -> u8
    ensures value { result ≡ w_bit size }
    ensures small { result < 9 }
{
    match size {
        Size::Dword => 0,
        Size::Qword => 8,
    }
}

fn put_rex(alloc: Global, out: &mut Bytes, bits: u8) -> Result<(), NoMemory>
    requires { bits < 16 }
    ensures { OnOk result (out.new ≡ out.old ++ rex_part bits) }
{
    if bits == 0 {
        Ok(())
    } else {
        out.extend(alloc, &[0x40 + bits])
    }
}

fn put_opening(alloc: Global, out: &mut Bytes, opcode: Opcode, rex: u8) -> Result<(), NoMemory>
    requires { rex < 16 }
    ensures { OnOk result (out.new ≡ out.old ++ opening opcode.prefixes.now rex opcode.escapes.now opcode.byte) }
{
    out.extend(alloc, opcode.prefixes)?;
    put_rex(alloc, out, rex)?;
    out.extend(alloc, opcode.escapes)?;
    out.extend(alloc, &[opcode.byte])
}

/// Appends an encoding with ModRM: the number in the reg field, and the operand that mod and rm name.
pub(crate) fn put_rm(
    alloc: Global,
    out: &mut Bytes,
    opcode: Opcode,
    size: Size,
    reg: u8,
    rm: Operand,
) -> Result<(), NoMemory>
    requires { reg < 16 }
    ensures { OnOk result (out.new ≡ out.old ++ rm_bytes opcode.prefixes.now opcode.escapes.now size opcode.byte reg rm) }
{
    put_opening(alloc, out, opcode, w_bit(size) + 4 * (reg / 8) + extend(rm))?;
    out.extend(alloc, &[mode(rm) + 8 * (reg % 8)])?;
    put_address(alloc, out, rm)
}

/// Appends an encoding with a register in its opcode.
pub(crate) fn put_reg(
    alloc: Global,
    out: &mut Bytes,
    opcode: u8,
    size: Size,
    reg: Reg,
) -> Result<(), NoMemory>
    requires { opcode + 7 < 256 }
    ensures { OnOk result (out.new ≡ out.old ++ reg_bytes size opcode reg) }
{
    put_rex(alloc, out, w_bit(size) + high(reg))?;
    out.extend(alloc, &[opcode + low(reg)])
}
