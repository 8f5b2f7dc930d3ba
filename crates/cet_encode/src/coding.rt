//! The operand that mod and rm name, in its canonical bytes (Intel SDM volume 2, chapter 2).

ghost use Rattle.std.specs.Prelude.{◌≡◌, ◌++◌, ◌<◌, [], ◌∷◌, OnOk, IsTrue};
ghost use Rattle.cet_isa.specs.Code.{reg_number, op_number, cond_number};
ghost use Rattle.cet_isa.specs.Canonical.{
  is_zero,
  low,
  high,
  scale_bits,
  needs_no_disp,
  mod_bits,
  disp_bytes,
  sib_of,
  coded,
  coded_mem,
  one_byte,
  four_bytes,
};

use cet_isa::{Base, Mem, Operand, Reg, fits_byte};
use cet_words::{Bytes, NoMemory};
use std::alloc::Global;

/// The three bits of a register that its field has.
pub(crate) fn low(reg: Reg) -> u8
    ensures value { result ≡ low reg }
    ensures small { result < 8 }
{
    reg.number() % 8
}

/// The bit of a register that REX has.
pub(crate) fn high(reg: Reg) -> u8
    ensures value { result ≡ high reg }
    ensures small { result < 2 }
{
    reg.number() / 8
}

/// Whether no displacement is written: it is 0, and mod 0 is free for the base.
fn needs_no_disp(base: Reg, disp: i32) -> bool
    ensures { result ≡ needs_no_disp base disp }
{
    disp == 0 && low(base) != 5
}

fn mod_bits(base: Reg, disp: i32) -> u8
    ensures value { result ≡ mod_bits base disp }
    ensures small { result < 129 }
{
    if needs_no_disp(base, disp) {
        0
    } else if fits_byte(disp) {
        64
    } else {
        128
    }
}

fn scale_bits(scale: u8) -> u8
    ensures value { result ≡ scale_bits scale }
    ensures small { result < 4 }
{
    match scale {
        8 => 3,
        4 => 2,
        2 => 1,
        _ => 0,
    }
}

fn sib_of(index: Reg, scale: u8, base: u8) -> u8
    requires { base < 8 }
    ensures { result ≡ sib_of index scale base }
{
    64 * scale_bits(scale) + 8 * low(index) + base
}

fn mem_mode(mem: Mem) -> u8
    ensures value { result ≡ (coded_mem mem.base mem.index mem.scale mem.disp).mode }
    ensures small { result < 136 }
{
    match (mem.base, mem.index) {
        (Base::Rip, _) => 5,
        (Base::None, _) => 4,
        (Base::Reg(base), Some(_)) => mod_bits(base, mem.disp) + 4,
        (Base::Reg(base), None) => mod_bits(base, mem.disp) + low(base),
    }
}

/// The bits of ModRM for mod and rm.
pub(crate) fn mode(operand: Operand) -> u8
    ensures value { result ≡ (coded operand).mode }
    ensures small { result < 200 }
{
    match operand {
        Operand::Reg(reg) => 192 + low(reg),
        Operand::Mem(mem) => mem_mode(mem),
        Operand::Imm(_) => 0,
    }
}

/// The bits X (2) and B (1) of REX.
pub(crate) fn extend(operand: Operand) -> u8
    ensures value { result ≡ (coded operand).extend }
    ensures small { result < 4 }
{
    match operand {
        Operand::Reg(reg) => high(reg),
        Operand::Mem(mem) => mem_extend(mem),
        Operand::Imm(_) => 0,
    }
}

fn mem_extend(mem: Mem) -> u8
    ensures value { result ≡ (coded_mem mem.base mem.index mem.scale mem.disp).extend }
    ensures small { result < 4 }
{
    match (mem.base, mem.index) {
        (Base::Rip, _) | (Base::None, None) => 0,
        (Base::None, Some(index)) => 2 * high(index),
        (Base::Reg(base), None) => high(base),
        (Base::Reg(base), Some(index)) => 2 * high(index) + high(base),
    }
}

fn put_sib(alloc: Global, out: &mut Bytes, mem: Mem) -> Result<(), NoMemory>
    ensures { OnOk result (out.new ≡ out.old ++ (coded_mem mem.base mem.index mem.scale mem.disp).sib) }
{
    match (mem.base, mem.index) {
        (Base::Rip, _) => Ok(()),
        (Base::None, None) => out.extend(alloc, &[0x25]),
        (Base::None, Some(index)) => out.extend(alloc, &[sib_of(index, mem.scale, 5)]),
        (Base::Reg(base), None) if low(base) == 4 => out.extend(alloc, &[0x24]),
        (Base::Reg(_), None) => Ok(()),
        (Base::Reg(base), Some(index)) => {
            out.extend(alloc, &[sib_of(index, mem.scale, low(base))])
        }
    }
}

pub(crate) fn put_four(alloc: Global, out: &mut Bytes, value: i32) -> Result<(), NoMemory>
    ensures { OnOk result (out.new ≡ out.old ++ four_bytes value) }
{
    out.extend(alloc, &value.to_le_bytes())
}

fn put_base_disp(alloc: Global, out: &mut Bytes, base: Reg, disp: i32) -> Result<(), NoMemory>
    ensures { OnOk result (out.new ≡ out.old ++ disp_bytes base disp) }
{
    if needs_no_disp(base, disp) {
        return Ok(());
    }
    match i8::try_from(disp) {
        Ok(byte) => out.extend(alloc, &byte.to_le_bytes()),
        Err(_) => put_four(alloc, out, disp),
    }
}

fn put_disp(alloc: Global, out: &mut Bytes, mem: Mem) -> Result<(), NoMemory>
    ensures { OnOk result (out.new ≡ out.old ++ (coded_mem mem.base mem.index mem.scale mem.disp).disp) }
{
    match mem.base {
        Base::Reg(base) => put_base_disp(alloc, out, base, mem.disp),
        _ => put_four(alloc, out, mem.disp),
    }
}

/// Appends SIB and displacement.
pub(crate) fn put_address(alloc: Global, out: &mut Bytes, operand: Operand) -> Result<(), NoMemory>
    ensures { OnOk result (out.new ≡ out.old ++ ((coded operand).sib ++ (coded operand).disp)) }
{
    match operand {
        Operand::Mem(mem) => {
            put_sib(alloc, out, mem)?;
            put_disp(alloc, out, mem)
        }
        _ => Ok(()),
    }
}
