//! From an instruction to its text.

ghost use Rattle.std.specs.Prelude.{◌≡◌, ℕ, [], ◌∷◌, ◌++◌, OnOk, OnErr, codes};
ghost use Rattle.cet_encode.specs.Groups.{IsFixed, IsMoving, IsShadow};
ghost use Rattle.cet_isa.specs.Names.{condition_name, operation_name};
ghost use Rattle.cet_encode.specs.Text.{Word, Sign, Space, onto, named, pair, register, operand, size_word, amount, one, two, locked, shift, relative, indirect, pieces, text_of};

use crate::operands::{put_memory, put_number, put_operand, put_register, put_signed};
use cet_isa::{Cond, Count, Instr, Mem, Operand, Reg, Size};
use cet_words::{Bytes, NoMemory};
use std::alloc::Global;

/// Appends a word and a space.
fn put_name(alloc: Global, out: &mut Bytes, name: &[u8]) -> Result<(), NoMemory>
    ensures { OnOk result (out.new ≡ onto out.old (Word name.now ∷ Space ∷ [])) }
{
    out.extend(alloc, name)?;
    out.extend(alloc, b" ")
}

fn put_comma(alloc: Global, out: &mut Bytes) -> Result<(), NoMemory>
    ensures { OnOk result (out.new ≡ onto out.old (Sign 44 ∷ Space ∷ [])) }
{
    out.extend(alloc, b",")?;
    out.extend(alloc, b" ")
}

/// Appends an instruction of one operand.
fn put_one(
    alloc: Global,
    out: &mut Bytes,
    name: &[u8],
    size: Size,
    src: Operand,
) -> Result<(), NoMemory>
    ensures { OnOk result (out.new ≡ onto out.old (one name.now size src)) }
{
    put_name(alloc, out, name)?;
    put_operand(alloc, out, size, src)
}

/// Appends the word for a size of 32 bits, where no register tells it.
fn put_size(
    alloc: Global,
    out: &mut Bytes,
    size: Size,
    dst: Operand,
    src: Operand,
) -> Result<(), NoMemory>
    ensures { OnOk result (out.new ≡ onto out.old (size_word size dst src)) }
{
    match (size, dst, src) {
        (Size::Dword, Operand::Mem(_), Operand::Imm(_)) => put_name(alloc, out, b"dword"),
        _ => Ok(()),
    }
}

/// Appends two operands.
#[tactic(auto, using(crate::proofs::PieceLemmas::onto_append))]
fn put_pair(
    alloc: Global,
    out: &mut Bytes,
    size: Size,
    dst: Operand,
    src: Operand,
) -> Result<(), NoMemory>
    ensures { OnOk result (out.new ≡ onto out.old (pair (operand size dst) (operand size src))) }
{
    put_operand(alloc, out, size, dst)?;
    put_comma(alloc, out)?;
    put_operand(alloc, out, size, src)
}

/// Appends an instruction of two operands.
fn put_two(
    alloc: Global,
    out: &mut Bytes,
    name: &[u8],
    size: Size,
    dst: Operand,
    src: Operand,
) -> Result<(), NoMemory>
    ensures { OnOk result (out.new ≡ onto out.old (two name.now size dst src)) }
{
    put_name(alloc, out, name)?;
    put_size(alloc, out, size, dst, src)?;
    put_pair(alloc, out, size, dst, src)
}

/// Appends a name, a register, and the comma before the second operand.
fn put_first(
    alloc: Global,
    out: &mut Bytes,
    name: &[u8],
    size: Size,
    reg: Reg,
) -> Result<(), NoMemory>
    ensures { OnOk result (out.new ≡ onto out.old (named name.now (register size reg ∷ Sign 44 ∷ Space ∷ []))) }
{
    put_name(alloc, out, name)?;
    put_register(alloc, out, size, reg)?;
    put_comma(alloc, out)
}

fn put_amount(alloc: Global, out: &mut Bytes, count: Count) -> Result<(), NoMemory>
    ensures { OnOk result (out.new ≡ onto out.old (amount count ∷ [])) }
{
    match count {
        Count::Number(places) => put_number(alloc, out, u64::from(places)),
        Count::Cl => out.extend(alloc, b"cl"),
    }
}

fn put_shift(
    alloc: Global,
    out: &mut Bytes,
    name: &[u8],
    size: Size,
    reg: Reg,
    count: Count,
) -> Result<(), NoMemory>
    ensures { OnOk result (out.new ≡ onto out.old (shift name.now size reg count)) }
{
    put_first(alloc, out, name, size, reg)?;
    put_amount(alloc, out, count)
}

#[tactic(auto, unfolding(crate::specs::Text::pieces))]
fn put_wide_move(alloc: Global, out: &mut Bytes, dst: Reg, value: u64) -> Result<(), NoMemory>
    ensures { OnOk result (out.new ≡ onto out.old (pieces (Instr.MovWide dst value))) }
{
    put_first(alloc, out, b"movabs", Size::Qword, dst)?;
    put_number(alloc, out, value)
}

#[tactic(auto, unfolding(crate::specs::Text::pieces))]
fn put_byte_move(alloc: Global, out: &mut Bytes, dst: Reg, src: Mem) -> Result<(), NoMemory>
    ensures { OnOk result (out.new ≡ onto out.old (pieces (Instr.MovZero8 dst src))) }
{
    put_first(alloc, out, b"movzx", Size::Qword, dst)?;
    put_name(alloc, out, b"byte")?;
    put_memory(alloc, out, src)
}

#[tactic(auto, unfolding(crate::specs::Text::pieces))]
fn put_sign_move(alloc: Global, out: &mut Bytes, dst: Reg, src: Operand) -> Result<(), NoMemory>
    ensures { OnOk result (out.new ≡ onto out.old (pieces (Instr.MovSign32 dst src))) }
{
    put_first(alloc, out, b"movsxd", Size::Qword, dst)?;
    put_operand(alloc, out, Size::Dword, src)
}

fn put_locked(
    alloc: Global,
    out: &mut Bytes,
    name: &[u8],
    mem: Mem,
    reg: Reg,
) -> Result<(), NoMemory>
    ensures { OnOk result (out.new ≡ onto out.old (locked name.now mem reg)) }
{
    put_name(alloc, out, b"lock")?;
    put_two(
        alloc,
        out,
        name,
        Size::Qword,
        Operand::Mem(mem),
        Operand::Reg(reg),
    )
}

fn put_conditional_move(
    alloc: Global,
    out: &mut Bytes,
    cond: Cond,
    size: Size,
    dst: Reg,
    src: Operand,
) -> Result<(), NoMemory>
    ensures { OnOk result (out.new ≡ onto out.old (two (codes "cmov" ++ condition_name cond) size (Operand.Reg dst) src)) }
{
    out.extend(alloc, b"cmov")?;
    put_two(alloc, out, cond.name(), size, Operand::Reg(dst), src)
}

fn put_relative(alloc: Global, out: &mut Bytes, name: &[u8], disp: i32) -> Result<(), NoMemory>
    ensures { OnOk result (out.new ≡ onto out.old (relative name.now disp)) }
{
    put_name(alloc, out, name)?;
    put_name(alloc, out, b"rel")?;
    put_signed(alloc, out, disp)
}

fn put_conditional_jump(
    alloc: Global,
    out: &mut Bytes,
    cond: Cond,
    disp: i32,
) -> Result<(), NoMemory>
    ensures { OnOk result (out.new ≡ onto out.old (relative (codes "j" ++ condition_name cond) disp)) }
{
    out.extend(alloc, b"j")?;
    put_relative(alloc, out, cond.name(), disp)
}

fn put_indirect(
    alloc: Global,
    out: &mut Bytes,
    name: &[u8],
    target: Operand,
    notrack: bool,
) -> Result<(), NoMemory>
    ensures { OnOk result (out.new ≡ onto out.old (indirect name.now target notrack)) }
{
    if notrack {
        put_name(alloc, out, b"notrack")?;
    }
    put_one(alloc, out, name, Size::Qword, target)
}

#[tactic(auto, unfolding(crate::specs::Text::pieces))]
fn put_return(alloc: Global, out: &mut Bytes, bytes: u16) -> Result<(), NoMemory>
    ensures { OnOk result (out.new ≡ onto out.old (pieces (Instr.RetImm bytes))) }
{
    put_name(alloc, out, b"ret")?;
    put_number(alloc, out, u64::from(bytes))
}

/// The text of an instruction without operands.
#[tactic(auto, unfolding(crate::specs::Text::pieces))]
fn fixed_name(instr: Instr) -> &'static [u8]
    requires { IsFixed instr }
    ensures { pieces instr ≡ Word result.now ∷ [] }
{
    match instr {
        Instr::Leave => b"leave",
        Instr::Ret => b"ret",
        Instr::Nop => b"nop",
        Instr::Pause => b"pause",
        Instr::Endbr64 => b"endbr64",
        Instr::Ud2 => b"ud2",
        Instr::Syscall => b"syscall",
        Instr::Stc => b"stc",
        Instr::Clc => b"clc",
        Instr::Saveprevssp => b"saveprevssp",
        Instr::Setssbsy => b"setssbsy",
        _ => unreachable!(),
    }
}

/// Appends an instruction that has a register and an operand.
#[tactic(auto, unfolding(crate::specs::Text::pieces))]
fn put_moving(alloc: Global, out: &mut Bytes, instr: Instr) -> Result<(), NoMemory>
    requires { IsMoving instr }
    ensures { OnOk result (out.new ≡ onto out.old (pieces instr)) }
{
    use Operand::Mem;
    use Size::Qword;

    match instr {
        Instr::MovZero8 { dst, src } => put_byte_move(alloc, out, dst, src),
        Instr::MovSign32 { dst, src } => put_sign_move(alloc, out, dst, src),
        Instr::Lea { size, dst, src } => {
            put_two(alloc, out, b"lea", size, Operand::Reg(dst), Mem(src))
        }
        Instr::Xchg { dst, reg } => put_two(alloc, out, b"xchg", Qword, dst, Operand::Reg(reg)),
        Instr::LockXadd { mem, reg } => put_locked(alloc, out, b"xadd", mem, reg),
        Instr::LockCmpxchg { mem, reg } => put_locked(alloc, out, b"cmpxchg", mem, reg),
        Instr::Imul { size, dst, src } => {
            put_two(alloc, out, b"imul", size, Operand::Reg(dst), src)
        }
        Instr::Cmov {
            cond,
            size,
            dst,
            src,
        } => { put_conditional_move(alloc, out, cond, size, dst, src) }
        _ => unreachable!(),
    }
}

/// Appends an instruction of shadow stacks that has an operand.
#[tactic(auto, unfolding(crate::specs::Text::pieces))]
fn put_shadow(alloc: Global, out: &mut Bytes, instr: Instr) -> Result<(), NoMemory>
    requires { IsShadow instr }
    ensures { OnOk result (out.new ≡ onto out.old (pieces instr)) }
{
    use Operand::{Mem, Reg};
    use Size::Qword;

    match instr {
        Instr::Incsspq { reg } => put_one(alloc, out, b"incsspq", Qword, Reg(reg)),
        Instr::Rdsspq { reg } => put_one(alloc, out, b"rdsspq", Qword, Reg(reg)),
        Instr::Rstorssp { mem } => put_one(alloc, out, b"rstorssp", Qword, Mem(mem)),
        Instr::Clrssbsy { mem } => put_one(alloc, out, b"clrssbsy", Qword, Mem(mem)),
        Instr::Wrssq { mem, reg } => put_two(alloc, out, b"wrssq", Qword, Mem(mem), Reg(reg)),
        Instr::Wrussq { mem, reg } => put_two(alloc, out, b"wrussq", Qword, Mem(mem), Reg(reg)),
        _ => unreachable!(),
    }
}

#[tactic(auto, unfolding(crate::specs::Text::pieces))]
fn put_instr(alloc: Global, out: &mut Bytes, instr: Instr) -> Result<(), NoMemory>
    ensures { OnOk result (out.new ≡ onto out.old (pieces instr)) }
{
    use Size::Qword;

    match instr {
        Instr::Alu { op, size, dst, src } => { put_two(alloc, out, op.name(), size, dst, src) }
        Instr::Test { size, dst, src } => put_two(alloc, out, b"test", size, dst, src),
        Instr::Mov { size, dst, src } => put_two(alloc, out, b"mov", size, dst, src),
        Instr::MovWide { dst, value } => put_wide_move(alloc, out, dst, value),
        Instr::Inc { size, reg } => put_one(alloc, out, b"inc", size, Operand::Reg(reg)),
        Instr::Dec { size, reg } => put_one(alloc, out, b"dec", size, Operand::Reg(reg)),
        Instr::Not { size, reg } => put_one(alloc, out, b"not", size, Operand::Reg(reg)),
        Instr::Neg { size, reg } => put_one(alloc, out, b"neg", size, Operand::Reg(reg)),
        Instr::Shl { size, reg, count } => put_shift(alloc, out, b"shl", size, reg, count),
        Instr::Shr { size, reg, count } => put_shift(alloc, out, b"shr", size, reg, count),
        Instr::Sar { size, reg, count } => put_shift(alloc, out, b"sar", size, reg, count),
        Instr::Push { src } => put_one(alloc, out, b"push", Qword, src),
        Instr::Pop { dst } => put_one(alloc, out, b"pop", Qword, Operand::Reg(dst)),
        Instr::CallRel { disp } => put_relative(alloc, out, b"call", disp),
        Instr::CallInd { target, notrack } => put_indirect(alloc, out, b"call", target, notrack),
        Instr::JmpRel { disp } => put_relative(alloc, out, b"jmp", disp),
        Instr::JmpInd { target, notrack } => put_indirect(alloc, out, b"jmp", target, notrack),
        Instr::Jcc { cond, disp } => put_conditional_jump(alloc, out, cond, disp),
        Instr::RetImm { bytes } => put_return(alloc, out, bytes),
        Instr::MovZero8 { .. }
        | Instr::MovSign32 { .. }
        | Instr::Lea { .. }
        | Instr::Xchg { .. }
        | Instr::LockXadd { .. }
        | Instr::LockCmpxchg { .. }
        | Instr::Imul { .. }
        | Instr::Cmov { .. } => put_moving(alloc, out, instr),
        Instr::Incsspq { .. }
        | Instr::Rdsspq { .. }
        | Instr::Rstorssp { .. }
        | Instr::Clrssbsy { .. }
        | Instr::Wrssq { .. }
        | Instr::Wrussq { .. } => put_shadow(alloc, out, instr),
        _ => out.extend(alloc, fixed_name(instr)),
    }
}

/// Appends the text of an instruction in Intel syntax. Where no memory is left `out` stays as it is.
pub fn text(alloc: Global, instr: &Instr, out: &mut Bytes) -> Result<(), NoMemory>
    ensures ok { OnOk result (out.new ≡ out.old ++ text_of instr.now) }
    ensures err { OnErr result (out.new ≡ out.old) }
{
    let mut line = Bytes::new(alloc);
    put_instr(alloc, &mut line, *instr)?;
    out.extend(alloc, line.as_slice())
}
