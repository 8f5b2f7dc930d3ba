//! ModRM, SIB and displacement (Intel SDM volume 2, chapter 2).

ghost use Rattle.std.specs.Prelude.{◌≡◌, ◌<◌};
ghost use Rattle.cet_isa.specs.Meaning.{sib_len, base_field, lacks_base, disp_len, base_of, mem_of, operand_of};

use cet_isa::{Base, Mem, Operand, Reg};

/// How many bytes of SIB follow this ModRM.
pub fn sib_count(modrm: u8) -> usize
    ensures { result ≡ sib_len modrm }
{
    if modrm < 192 && modrm % 8 == 4 { 1 } else { 0 }
}

fn base_bits(modrm: u8, sib: u8) -> u8
    ensures value { result ≡ base_field modrm sib }
    ensures small { result < 8 }
{
    if modrm % 8 == 4 { sib % 8 } else { modrm % 8 }
}

fn has_no_base(modrm: u8, sib: u8) -> bool
    ensures { result ≡ lacks_base modrm sib }
{
    modrm < 64 && base_bits(modrm, sib) == 5
}

/// How many bytes of displacement follow.
pub fn disp_count(modrm: u8, sib: u8) -> usize
    ensures { result ≡ disp_len modrm sib }
{
    if modrm >= 192 {
        0
    } else if modrm >= 128 {
        4
    } else if modrm >= 64 {
        1
    } else if has_no_base(modrm, sib) {
        4
    } else {
        0
    }
}

#[inline(always)]
fn base(rex: u8, modrm: u8, sib: u8) -> Base
    ensures { result ≡ base_of rex modrm sib }
{
    if !has_no_base(modrm, sib) {
        Base::Reg(Reg::of(base_bits(modrm, sib) + 8 * (rex % 2)))
    } else if modrm % 8 == 4 {
        Base::None
    } else {
        Base::Rip
    }
}

#[inline(always)]
fn mem(rex: u8, modrm: u8, sib: u8, disp: i32) -> Mem
    ensures { result ≡ mem_of rex modrm sib disp }
{
    let base = base(rex, modrm, sib);
    let number = sib / 8 % 8 + 8 * (rex / 2 % 2);
    if modrm % 8 == 4 && number != 4 {
        let index = Some(Reg::of(number));
        Mem {
            base,
            index,
            scale: 1 << (sib / 64),
            disp,
        }
    } else {
        Mem {
            base,
            index: None,
            scale: 1,
            disp,
        }
    }
}

/// What mod and rm name.
#[inline(always)]
pub fn operand(rex: u8, modrm: u8, sib: u8, disp: i32) -> Operand
    ensures { result ≡ operand_of rex modrm sib disp }
{
    if modrm < 192 {
        Operand::Mem(mem(rex, modrm, sib, disp))
    } else {
        Operand::Reg(Reg::of(modrm % 8 + 8 * (rex % 2)))
    }
}
