//! The text of operands.

ghost use Rattle.std.specs.Prelude.{◌≡◌, [], ◌∷◌, OnOk};
ghost use Rattle.cet_encode.specs.Text.{onto, number, signed, register, base_part, scaled, front, is_alone, displacement, memory, operand};

use cet_base::{put_decimal, put_hex};
use cet_isa::{Base, Mem, Operand, Reg, Size};
use cet_words::{Bytes, NoMemory};
use std::alloc::Global;

pub(crate) fn put_number(alloc: Global, out: &mut Bytes, value: u64) -> Result<(), NoMemory>
    ensures { OnOk result (out.new ≡ onto out.old (number value ∷ [])) }
{
    out.extend(alloc, b"0x")?;
    put_hex(alloc, out, value)
}

pub(crate) fn put_signed(alloc: Global, out: &mut Bytes, value: i32) -> Result<(), NoMemory>
    ensures { OnOk result (out.new ≡ onto out.old (signed value)) }
{
    if value < 0 {
        out.extend(alloc, b"-")?;
    }
    put_number(alloc, out, u64::from(value.unsigned_abs()))
}

pub(crate) fn put_register(
    alloc: Global,
    out: &mut Bytes,
    size: Size,
    reg: Reg,
) -> Result<(), NoMemory>
    ensures { OnOk result (out.new ≡ onto out.old (register size reg ∷ [])) }
{
    out.extend(alloc, reg.name(size))
}

fn put_base(alloc: Global, out: &mut Bytes, base: Base) -> Result<(), NoMemory>
    ensures { OnOk result (out.new ≡ onto out.old (base_part base)) }
{
    match base {
        Base::None => Ok(()),
        Base::Rip => out.extend(alloc, b"rip"),
        Base::Reg(reg) => put_register(alloc, out, Size::Qword, reg),
    }
}

/// Appends an index and its scale.
fn put_scaled(alloc: Global, out: &mut Bytes, index: Reg, scale: u8) -> Result<(), NoMemory>
    ensures { OnOk result (out.new ≡ onto out.old (scaled index scale)) }
{
    put_register(alloc, out, Size::Qword, index)?;
    out.extend(alloc, b"*")?;
    put_decimal(alloc, out, u64::from(scale))
}

/// Appends base and index.
fn put_front(alloc: Global, out: &mut Bytes, mem: Mem) -> Result<(), NoMemory>
    ensures { OnOk result (out.new ≡ onto out.old (front mem.base mem.index mem.scale)) }
{
    match (mem.base, mem.index) {
        (base, None) => put_base(alloc, out, base),
        (Base::None, Some(index)) => put_scaled(alloc, out, index, mem.scale),
        (base, Some(index)) => {
            put_base(alloc, out, base)?;
            out.extend(alloc, b"+")?;
            put_scaled(alloc, out, index, mem.scale)
        }
    }
}

/// Whether a displacement stands without base and index.
fn is_alone(mem: Mem) -> bool
    ensures { result ≡ is_alone mem.base mem.index }
{
    matches!((mem.base, mem.index), (Base::None, None))
}

fn put_displacement(alloc: Global, out: &mut Bytes, alone: bool, disp: i32) -> Result<(), NoMemory>
    ensures { OnOk result (out.new ≡ onto out.old (displacement alone disp)) }
{
    if alone || disp < 0 {
        put_signed(alloc, out, disp)
    } else if disp == 0 {
        Ok(())
    } else {
        out.extend(alloc, b"+")?;
        put_number(alloc, out, u64::from(disp.unsigned_abs()))
    }
}

/// Appends a memory operand.
#[tactic(auto, unfolding(crate::specs::Text::memory))]
pub(crate) fn put_memory(alloc: Global, out: &mut Bytes, mem: Mem) -> Result<(), NoMemory>
    ensures { OnOk result (out.new ≡ onto out.old (memory mem)) }
{
    out.extend(alloc, b"[")?;
    put_front(alloc, out, mem)?;
    put_displacement(alloc, out, is_alone(mem), mem.disp)?;
    out.extend(alloc, b"]")
}

pub(crate) fn put_operand(
    alloc: Global,
    out: &mut Bytes,
    size: Size,
    src: Operand,
) -> Result<(), NoMemory>
    ensures { OnOk result (out.new ≡ onto out.old (operand size src)) }
{
    match src {
        Operand::Reg(reg) => put_register(alloc, out, size, reg),
        Operand::Mem(mem) => put_memory(alloc, out, mem),
        Operand::Imm(value) => put_signed(alloc, out, value),
    }
}
