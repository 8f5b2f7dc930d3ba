//! The bytes of instructions with several forms: by their operands, or by the size of a number.

ghost use Rattle.std.specs.Prelude.{◌≡◌, ◌++◌, ◌<◌, [], ◌∷◌, OnOk, OnErr, if◌then◌else◌};
ghost use Rattle.cet_isa.specs.Canonical.{four_bytes, alu_spelling, test_spelling, mov_spelling, shift_spelling, push_spelling, canonical_spelling};
ghost use Rattle.cet_encode.specs.Bytes.{rm_bytes, alu_number_bytes, shift_bytes};
ghost use Rattle.cet_isa.specs.Code.{reg_number, op_number, cond_number};

use crate::bytes::{Opcode, opcode, put_reg, put_rm, put_row};
use crate::coding::put_four;
use cet_isa::{AluOp, Cond, Count, Instr, Mem, Operand, Reg, Size};
use cet_words::{Bytes, NoMemory};
use std::alloc::Global;

/// Appends a row with an immediate, of one byte where that holds it. `digit` stands in the reg field.
fn put_alu_number(
    alloc: Global,
    out: &mut Bytes,
    digit: u8,
    size: Size,
    dst: Operand,
    value: i32,
) -> Result<(), NoMemory>
    requires { digit < 8 }
    ensures { OnOk result (out.new ≡ out.old ++ alu_number_bytes digit size dst value) }
{
    match i8::try_from(value) {
        Ok(byte) => {
            put_rm(alloc, out, opcode!([] [] 0x83), size, digit, dst)?;
            out.extend(alloc, &byte.to_le_bytes())
        }
        Err(_) => {
            put_rm(alloc, out, opcode!([] [] 0x81), size, digit, dst)?;
            put_four(alloc, out, value)
        }
    }
}

/// Appends a comparison of memory with a number: no other operation has that form.
#[tactic(auto, using(crate::proofs::RowLemmas::cmp_number))]
fn put_cmp_number(
    alloc: Global,
    out: &mut Bytes,
    op: AluOp,
    size: Size,
    mem: Mem,
    value: i32,
) -> Result<(), NoMemory>
    ensures { OnOk result (out.new ≡ out.old ++ alu_spelling op size (Operand.Mem mem) (Operand.Imm value)) }
{
    put_alu_number(alloc, out, 7, size, Operand::Mem(mem), value)
}

pub(crate) fn put_alu(
    alloc: Global,
    out: &mut Bytes,
    op: AluOp,
    size: Size,
    dst: Operand,
    src: Operand,
) -> Result<(), NoMemory>
    ensures { OnOk result (out.new ≡ out.old ++ alu_spelling op size dst src) }
{
    use Operand::{Imm, Mem, Reg};

    let number = op.number();
    match (dst, src) {
        (Reg(_), Reg(reg)) => put_row!(alloc out [] [] 0x01 + 8 * number; size, reg.number(), dst),
        (Mem(_), Reg(reg)) => put_row!(alloc out [] [] 0x39; size, reg.number(), dst),
        (Reg(reg), Mem(_)) => put_row!(alloc out [] [] 0x03 + 8 * number; size, reg.number(), src),
        (Reg(_), Imm(value)) => put_alu_number(alloc, out, number, size, dst, value),
        (Mem(mem), Imm(value)) => put_cmp_number(alloc, out, op, size, mem, value),
        (Mem(_), Mem(_)) | (Imm(_), _) => Ok(()),
    }
}

pub(crate) fn put_test(
    alloc: Global,
    out: &mut Bytes,
    size: Size,
    dst: Operand,
    src: Operand,
) -> Result<(), NoMemory>
    ensures { OnOk result (out.new ≡ out.old ++ test_spelling size dst src) }
{
    match src {
        Operand::Reg(reg) => put_rm(alloc, out, opcode!([] [] 0x85), size, reg.number(), dst),
        Operand::Imm(value) => {
            put_rm(alloc, out, opcode!([] [] 0xf7), size, 0, dst)?;
            put_four(alloc, out, value)
        }
        Operand::Mem(_) => Ok(()),
    }
}

/// Appends an encoding with ModRM and an immediate of four bytes.
fn put_rm_four(
    alloc: Global,
    out: &mut Bytes,
    opcode: u8,
    size: Size,
    digit: u8,
    dst: Operand,
    value: i32,
) -> Result<(), NoMemory>
    requires { digit < 8 }
    ensures { OnOk result (out.new ≡ out.old ++ (rm_bytes [] [] size opcode digit dst ++ four_bytes value)) }
{
    put_rm(alloc, out, opcode!([] [] opcode), size, digit, dst)?;
    put_four(alloc, out, value)
}

#[tactic(auto, using(crate::proofs::RowLemmas::mov_number))]
fn put_qword_number(
    alloc: Global,
    out: &mut Bytes,
    dst: Operand,
    value: i32,
) -> Result<(), NoMemory>
    ensures { OnOk result (out.new ≡ out.old ++ mov_spelling Size.Qword dst (Operand.Imm value)) }
{
    put_rm_four(alloc, out, 0xc7, Size::Qword, 0, dst, value)
}

fn put_mov_number(
    alloc: Global,
    out: &mut Bytes,
    size: Size,
    dst: Operand,
    value: i32,
) -> Result<(), NoMemory>
    ensures { OnOk result (out.new ≡ out.old ++ mov_spelling size dst (Operand.Imm value)) }
{
    match (size, dst) {
        (Size::Dword, Operand::Reg(reg)) => {
            put_reg(alloc, out, 0xb8, size, reg)?;
            put_four(alloc, out, value)
        }
        (Size::Dword, _) => Ok(()),
        (Size::Qword, _) => put_qword_number(alloc, out, dst, value),
    }
}

pub(crate) fn put_mov(
    alloc: Global,
    out: &mut Bytes,
    size: Size,
    dst: Operand,
    src: Operand,
) -> Result<(), NoMemory>
    ensures { OnOk result (out.new ≡ out.old ++ mov_spelling size dst src) }
{
    match (dst, src) {
        (_, Operand::Imm(value)) => put_mov_number(alloc, out, size, dst, value),
        (Operand::Reg(_), Operand::Reg(reg)) => {
            put_rm(alloc, out, opcode!([] [] 0x89), size, reg.number(), dst)
        }
        (Operand::Mem(_), Operand::Reg(reg)) => {
            put_rm(
                alloc,
                out,
                opcode!([] [] 0x89),
                Size::Qword,
                reg.number(),
                dst,
            )
        }
        (Operand::Reg(reg), Operand::Mem(_)) => {
            put_rm(alloc, out, opcode!([] [] 0x8b), size, reg.number(), src)
        }
        (Operand::Mem(_), Operand::Mem(_)) | (Operand::Imm(_), _) => Ok(()),
    }
}

pub(crate) fn put_shift(
    alloc: Global,
    out: &mut Bytes,
    digit: u8,
    size: Size,
    reg: Reg,
    count: Count,
) -> Result<(), NoMemory>
    requires { digit < 8 }
    ensures { OnOk result (out.new ≡ out.old ++ shift_bytes digit size reg count) }
{
    match count {
        Count::Number(places) => {
            put_rm(
                alloc,
                out,
                opcode!([] [] 0xc1),
                size,
                digit,
                Operand::Reg(reg),
            )?;
            out.extend(alloc, &[places])
        }
        Count::Cl => put_rm(
            alloc,
            out,
            opcode!([] [] 0xd3),
            size,
            digit,
            Operand::Reg(reg),
        ),
    }
}

pub(crate) fn put_push(alloc: Global, out: &mut Bytes, src: Operand) -> Result<(), NoMemory>
    ensures { OnOk result (out.new ≡ out.old ++ push_spelling src) }
{
    match src {
        Operand::Reg(reg) => put_reg(alloc, out, 0x50, Size::Dword, reg),
        Operand::Imm(value) => put_push_number(alloc, out, value),
        Operand::Mem(_) => put_rm(alloc, out, opcode!([] [] 0xff), Size::Dword, 6, src),
    }
}

fn put_push_number(alloc: Global, out: &mut Bytes, value: i32) -> Result<(), NoMemory>
    ensures { OnOk result (out.new ≡ out.old ++ push_spelling (Operand.Imm value)) }
{
    match i8::try_from(value) {
        Ok(byte) => {
            out.extend(alloc, &[0x6a])?;
            out.extend(alloc, &byte.to_le_bytes())
        }
        Err(_) => {
            out.extend(alloc, &[0x68])?;
            put_four(alloc, out, value)
        }
    }
}

/// Appends an opcode and a displacement of four bytes.
pub(crate) fn put_relative(
    alloc: Global,
    out: &mut Bytes,
    opcode: &[u8],
    disp: i32,
) -> Result<(), NoMemory>
    ensures { OnOk result (out.new ≡ out.old ++ (opcode.now ++ four_bytes disp)) }
{
    out.extend(alloc, opcode)?;
    put_four(alloc, out, disp)
}

pub(crate) fn put_indirect(
    alloc: Global,
    out: &mut Bytes,
    digit: u8,
    target: Operand,
    notrack: bool,
) -> Result<(), NoMemory>
    requires { digit < 8 }
    ensures { OnOk result (out.new ≡ out.old ++ rm_bytes (if notrack then 0x3e ∷ [] else []) [] Size.Dword 0xff digit target) }
{
    if notrack {
        put_rm(
            alloc,
            out,
            opcode!([0x3e] [] 0xff),
            Size::Dword,
            digit,
            target,
        )
    } else {
        put_rm(alloc, out, opcode!([] [] 0xff), Size::Dword, digit, target)
    }
}

pub(crate) fn put_wide_move(
    alloc: Global,
    out: &mut Bytes,
    dst: Reg,
    value: u64,
) -> Result<(), NoMemory>
    ensures { OnOk result (out.new ≡ out.old ++ canonical_spelling (Instr.MovWide dst value)) }
{
    put_reg(alloc, out, 0xb8, Size::Qword, dst)?;
    out.extend(alloc, &value.to_le_bytes())
}

pub(crate) fn put_return(alloc: Global, out: &mut Bytes, bytes: u16) -> Result<(), NoMemory>
    ensures { OnOk result (out.new ≡ out.old ++ canonical_spelling (Instr.RetImm bytes)) }
{
    out.extend(alloc, &[0xc2])?;
    out.extend(alloc, &bytes.to_le_bytes())
}
