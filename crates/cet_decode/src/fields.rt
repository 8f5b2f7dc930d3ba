//! The fields of an encoding.

ghost use Rattle.std.specs.Prelude.{◌≡◌, [], slice_index};
ghost use Rattle.std.specs.Int.{from_le_bytes, w16, w64};
ghost use Rattle.cet_isa.specs.Meaning.{signed_of, size_in, reg_in, opcode_reg, opcode_op, digit_op, opcode_cond, reg_of, mem_in, count_of};
ghost use Rattle.cet_decode.specs.Views.{amount_view, fields_view};

use crate::addressing::operand;
use crate::kinds::Amount;
use cet_isa::{AluOp, Base, Cond, Count, Mem, Operand, Reg, Size};

/// The fields before the immediate: REX, opcode, ModRM, SIB and displacement, 0 where there is none. They fit in a
/// register; what mod and rm name is made of them only where it is wanted.
#[derive(Clone, Copy)]
pub struct Parts {
    pub rex: u8,
    pub opcode: u8,
    pub modrm: u8,
    pub sib: u8,
    pub disp: i32,
}

/// What mod and rm name.
#[inline(always)]
pub fn rm(x: Parts) -> Operand
    ensures { result ≡ (fields_view x []).rm }
{
    operand(x.rex, x.modrm, x.sib, x.disp)
}

/// The byte at `at`, 0 past the end.
pub fn byte(bytes: &[u8], at: usize) -> u8
    ensures { result ≡ slice_index bytes.now at }
{
    bytes.get(at).copied().unwrap_or(0)
}

/// A signed number of one or four bytes, the lowest first; 0 at another length.
pub fn signed(bytes: &[u8]) -> i32
    ensures { result ≡ signed_of bytes.now }
{
    match bytes {
        [a] => i32::from(i8::from_le_bytes([*a])),
        [a, b, c, d] => i32::from_le_bytes([*a, *b, *c, *d]),
        _ => 0,
    }
}

/// The number of the first two bytes, the lowest first.
pub fn word(bytes: &[u8]) -> u16
    ensures { result ≡ from_le_bytes w16 bytes.now }
{
    u16::from_le_bytes([byte(bytes, 0), byte(bytes, 1)])
}

/// The number of the first eight bytes, the lowest first.
pub fn wide(bytes: &[u8]) -> u64
    ensures { result ≡ from_le_bytes w64 bytes.now }
{
    u64::from_le_bytes([
        byte(bytes, 0),
        byte(bytes, 1),
        byte(bytes, 2),
        byte(bytes, 3),
        byte(bytes, 4),
        byte(bytes, 5),
        byte(bytes, 6),
        byte(bytes, 7),
    ])
}

/// The operand size by REX.W.
pub fn size(x: Parts) -> Size
    ensures { result ≡ size_in (fields_view x []) }
{
    if x.rex / 8 % 2 == 1 {
        Size::Qword
    } else {
        Size::Dword
    }
}

/// The register of ModRM's reg field.
pub fn reg_in_field(x: Parts) -> Reg
    ensures { result ≡ reg_in (fields_view x []) }
{
    Reg::of(x.modrm / 8 % 8 + 8 * (x.rex / 4 % 2))
}

/// The register in the opcode.
pub fn reg_in_opcode(x: Parts) -> Reg
    ensures { result ≡ opcode_reg (fields_view x []) }
{
    Reg::of(x.opcode % 8 + 8 * (x.rex % 2))
}

/// The operation in the opcode.
pub fn op_in_opcode(x: Parts) -> AluOp
    ensures { result ≡ opcode_op (fields_view x []) }
{
    AluOp::of(x.opcode / 8 % 8)
}

/// The operation in ModRM's reg field.
pub fn op_in_digit(x: Parts) -> AluOp
    ensures { result ≡ digit_op (fields_view x []) }
{
    AluOp::of(x.modrm / 8 % 8)
}

/// The condition in the opcode.
pub fn cond_in_opcode(x: Parts) -> Cond
    ensures { result ≡ opcode_cond (fields_view x []) }
{
    Cond::of(x.opcode % 16)
}

/// The register that an operand is, rax for any other operand.
pub fn reg_operand(x: Operand) -> Reg
    ensures { result ≡ reg_of x }
{
    match x {
        Operand::Reg(reg) => reg,
        _ => Reg::Rax,
    }
}

/// The memory that an operand is, no place for any other operand.
pub fn mem_operand(x: Operand) -> Mem
    ensures { result ≡ mem_in x }
{
    match x {
        Operand::Mem(mem) => mem,
        _ => Mem {
            base: Base::None,
            index: None,
            scale: 1,
            disp: 0,
        },
    }
}

/// The immediate as an operand.
pub fn imm_operand(imm: &[u8]) -> Operand
    ensures { result ≡ Operand.Imm (signed_of imm.now) }
{
    Operand::Imm(signed(imm))
}

/// The count of a shift.
pub fn count(amount: Amount, imm: &[u8]) -> Count
    ensures { result ≡ count_of (amount_view amount) imm.now }
{
    match amount {
        Amount::Given => Count::Number(byte(imm, 0)),
        Amount::One => Count::Number(1),
        Amount::InCl => Count::Cl,
    }
}
