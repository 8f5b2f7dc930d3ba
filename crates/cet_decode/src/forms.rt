//! The table of instructions: a row for each form of encoding.

use crate::kinds::{Amount, Arith, Flow, Move, Shadow, Unary};
use cet_isa::Instr;

/// A set of bytes: those below `below` that agree with `value` in the bits of `mask`.
#[derive(Clone, Copy)]
pub struct Pattern {
    pub mask: u8,
    pub value: u8,
    pub below: u16,
}

/// What a row asks of a REX prefix and its bit W.
#[derive(Clone, Copy)]
pub enum Wide {
    /// W set means 64 bits; W clear or no REX means 32.
    Sized,
    /// A REX with W set.
    Set,
    /// No REX, or one with W clear.
    Clear,
    /// Any REX or none.
    Ignored,
    /// No REX.
    Never,
}

/// The REX prefix that stands there: none, one with W clear, one with W set.
#[derive(Clone, Copy)]
pub enum Rex {
    Absent,
    Clear,
    Set,
}

/// The immediate or relative displacement at the end, by its size.
#[derive(Clone, Copy)]
pub enum Imm {
    Absent,
    Byte,
    Word,
    Dword,
    Qword,
}

/// Which instruction a row spells, and from which fields: Rm is what mod and rm name, Reg the register of
/// the reg field or of the opcode, Imm the immediate. `Plain` has no fields.
#[derive(Clone, Copy)]
pub enum Kind {
    Arith(Arith),
    Unary(Unary),
    Move(Move),
    Flow(Flow),
    Shadow(Shadow),
    Plain(Instr),
}

/// A row: up to three prefixes, REX, up to two bytes before the opcode, the opcode, ModRM, immediate.
#[derive(Clone, Copy)]
pub struct Form {
    pub first: Option<Pattern>,
    pub second: Option<Pattern>,
    pub third: Option<Pattern>,
    pub wide: Wide,
    pub escape: Option<Pattern>,
    pub escape2: Option<Pattern>,
    pub opcode: Pattern,
    pub modrm: Option<Pattern>,
    pub imm: Imm,
    pub kind: Kind,
}

macro_rules! set {
    (plus_reg $b:literal) => { Pattern { mask: 0xf8, value: $b, below: 256 } };
    (plus_op $b:literal) => { Pattern { mask: 0xc7, value: $b, below: 256 } };
    (plus_cond $b:literal) => { Pattern { mask: 0xf0, value: $b, below: 256 } };
    (reg) => { Pattern { mask: 0xc0, value: 0xc0, below: 256 } };
    (mem) => { Pattern { mask: 0, value: 0, below: 192 } };
    (any) => { Pattern { mask: 0, value: 0, below: 256 } };
    (reg / $n:literal) => { Pattern { mask: 0xf8, value: 0xc0 + 8 * $n, below: 256 } };
    (mem / $n:literal) => { Pattern { mask: 0x38, value: 8 * $n, below: 192 } };
    (any / $n:literal) => { Pattern { mask: 0x38, value: 8 * $n, below: 256 } };
    ($b:literal) => { Pattern { mask: 0xff, value: $b, below: 256 } };
}

macro_rules! place {
    ([]) => { None };
    ([$($set:tt)+]) => { Some(set!($($set)+)) };
}

// Prefixes, REX, bytes before the opcode, opcode, ModRM, immediate, kind.
macro_rules! form {
    ($a:tt $b:tt $c:tt $wide:ident $d:tt $e:tt [$($opcode:tt)+] $modrm:tt $imm:ident $kind:expr) => {
        Form {
            first: place!($a),
            second: place!($b),
            third: place!($c),
            wide: Wide::$wide,
            escape: place!($d),
            escape2: place!($e),
            opcode: set!($($opcode)+),
            modrm: place!($modrm),
            imm: Imm::$imm,
            kind: $kind,
        }
    };
}

/// The table, in the order of `forms` of the definitions. Behind each row stand its bytes in the manual's
/// notation, without a REX prefix that may be missing, and what they spell: `+r`, `+op` and `+cc` are a
/// register, an operation or a condition in the opcode, `/r` is ModRM, `/5` ModRM with 5 in its reg field,
/// and `ib`, `iw`, `id` and `iq` are immediates of 1, 2, 4 and 8 bytes.
pub const FORMS: [Form; 76] = [
    form!([] [] [] Sized [] [] [plus_op 0x01] [reg] Absent Kind::Arith(Arith::AluRmReg)), // 01+op /r  op r, r
    form!([] [] [] Sized [] [] [0x39] [mem] Absent Kind::Arith(Arith::AluRmReg)), // 39 /r  cmp m, r
    form!([] [] [] Sized [] [] [plus_op 0x03] [any] Absent Kind::Arith(Arith::AluRegRm)), // 03+op /r  op r, rm
    form!([] [] [] Sized [] [] [0x83] [reg] Byte Kind::Arith(Arith::AluRmImm)), // 83 /r ib  op r, i8
    form!([] [] [] Sized [] [] [0x81] [reg] Dword Kind::Arith(Arith::AluRmImm)), // 81 /r id  op r, i32
    form!([] [] [] Sized [] [] [plus_op 0x05] [] Dword Kind::Arith(Arith::AluRaxImm)), // 05+op id  op rax, i32
    form!([] [] [] Sized [] [] [0x83] [mem / 7] Byte Kind::Arith(Arith::AluRmImm)), // 83 /7 ib  cmp m, i8
    form!([] [] [] Sized [] [] [0x81] [mem / 7] Dword Kind::Arith(Arith::AluRmImm)), // 81 /7 id  cmp m, i32
    form!([] [] [] Sized [] [] [0x85] [any] Absent Kind::Arith(Arith::TestRmReg)), // 85 /r  test rm, r
    form!([] [] [] Sized [] [] [0xf7] [any / 0] Dword Kind::Arith(Arith::TestRmImm)), // F7 /0 id  test rm, i32
    form!([] [] [] Sized [] [] [0xa9] [] Dword Kind::Arith(Arith::TestRaxImm)), // A9 id  test rax, i32
    form!([] [] [] Sized [] [] [0x89] [reg] Absent Kind::Move(Move::MovRmReg)), // 89 /r  mov r, r
    form!([] [] [] Set [] [] [0x89] [mem] Absent Kind::Move(Move::MovRmReg)), // REX.W 89 /r  mov m, r64
    form!([] [] [] Sized [] [] [0x8b] [any] Absent Kind::Move(Move::MovRegRm)), // 8B /r  mov r, rm
    form!([] [] [] Clear [] [] [plus_reg 0xb8] [] Dword Kind::Move(Move::MovRegImm)), // B8+r id  mov r32, i32
    form!([] [] [] Clear [] [] [0xc7] [reg / 0] Dword Kind::Move(Move::MovRmImm)), // C7 /0 id  mov r32, i32
    form!([] [] [] Set [] [] [0xc7] [any / 0] Dword Kind::Move(Move::MovRmImm)), // REX.W C7 /0 id  mov rm, i32
    form!([] [] [] Set [] [] [plus_reg 0xb8] [] Qword Kind::Move(Move::MovWide)), // REX.W B8+r iq  mov r64, u64
    form!([] [] [] Ignored [0x0f] [] [0xb6] [mem] Absent Kind::Move(Move::MovZero8)), // 0F B6 /r  movzx r64, byte m
    form!([] [] [] Set [] [] [0x63] [any] Absent Kind::Move(Move::MovSign32)), // REX.W 63 /r  movsxd r64, rm32
    form!([] [] [] Sized [] [] [0x8d] [mem] Absent Kind::Move(Move::Lea)), // 8D /r  lea r, m
    form!([] [] [] Set [] [] [0x87] [any] Absent Kind::Move(Move::Xchg)), // REX.W 87 /r  xchg rm, r64
    form!([0xf0] [] [] Set [0x0f] [] [0xc1] [mem] Absent Kind::Move(Move::LockXadd)), // F0 REX.W 0F C1 /r  lock xadd m, r64
    form!([0xf0] [] [] Set [0x0f] [] [0xb1] [mem] Absent Kind::Move(Move::LockCmpxchg)), // F0 REX.W 0F B1 /r  lock cmpxchg m, r64
    form!([] [] [] Sized [] [] [0xff] [reg / 0] Absent Kind::Unary(Unary::Inc)), // FF /0  inc r
    form!([] [] [] Sized [] [] [0xff] [reg / 1] Absent Kind::Unary(Unary::Dec)), // FF /1  dec r
    form!([] [] [] Sized [] [] [0xf7] [reg / 2] Absent Kind::Unary(Unary::Not)), // F7 /2  not r
    form!([] [] [] Sized [] [] [0xf7] [reg / 3] Absent Kind::Unary(Unary::Neg)), // F7 /3  neg r
    form!([] [] [] Sized [0x0f] [] [0xaf] [any] Absent Kind::Arith(Arith::Imul)), // 0F AF /r  imul r, rm
    form!([] [] [] Sized [] [] [0xc1] [reg / 4] Byte Kind::Unary(Unary::Shl(Amount::Given))), // C1 /4 ib  shl r, u8
    form!([] [] [] Sized [] [] [0xc1] [reg / 5] Byte Kind::Unary(Unary::Shr(Amount::Given))), // C1 /5 ib  shr r, u8
    form!([] [] [] Sized [] [] [0xc1] [reg / 7] Byte Kind::Unary(Unary::Sar(Amount::Given))), // C1 /7 ib  sar r, u8
    form!([] [] [] Sized [] [] [0xd1] [reg / 4] Absent Kind::Unary(Unary::Shl(Amount::One))), // D1 /4  shl r, 1
    form!([] [] [] Sized [] [] [0xd1] [reg / 5] Absent Kind::Unary(Unary::Shr(Amount::One))), // D1 /5  shr r, 1
    form!([] [] [] Sized [] [] [0xd1] [reg / 7] Absent Kind::Unary(Unary::Sar(Amount::One))), // D1 /7  sar r, 1
    form!([] [] [] Sized [] [] [0xd3] [reg / 4] Absent Kind::Unary(Unary::Shl(Amount::InCl))), // D3 /4  shl r, cl
    form!([] [] [] Sized [] [] [0xd3] [reg / 5] Absent Kind::Unary(Unary::Shr(Amount::InCl))), // D3 /5  shr r, cl
    form!([] [] [] Sized [] [] [0xd3] [reg / 7] Absent Kind::Unary(Unary::Sar(Amount::InCl))), // D3 /7  sar r, cl
    form!([] [] [] Sized [0x0f] [] [plus_cond 0x40] [any] Absent Kind::Move(Move::Cmov)), // 0F 40+cc /r  cmovcc r, rm
    form!([] [] [] Ignored [] [] [plus_reg 0x50] [] Absent Kind::Flow(Flow::PushReg)), // 50+r  push r64
    form!([] [] [] Never [] [] [0x6a] [] Byte Kind::Flow(Flow::PushImm)), // 6A ib  push i8
    form!([] [] [] Never [] [] [0x68] [] Dword Kind::Flow(Flow::PushImm)), // 68 id  push i32
    form!([] [] [] Ignored [] [] [0xff] [mem / 6] Absent Kind::Flow(Flow::PushMem)), // FF /6  push m
    form!([] [] [] Ignored [] [] [plus_reg 0x58] [] Absent Kind::Flow(Flow::Pop)), // 58+r  pop r64
    form!([] [] [] Never [] [] [0xc9] [] Absent Kind::Plain(Instr::Leave)), // C9  leave
    form!([] [] [] Never [] [] [0xe8] [] Dword Kind::Flow(Flow::CallRel)), // E8 id  call d32
    form!([] [] [] Ignored [] [] [0xff] [any / 2] Absent Kind::Flow(Flow::CallInd(false))), // FF /2  call rm
    form!([0x3e] [] [] Ignored [] [] [0xff] [any / 2] Absent Kind::Flow(Flow::CallInd(true))), // 3E FF /2  notrack call rm
    form!([] [] [] Never [] [] [0xe9] [] Dword Kind::Flow(Flow::JmpRel)), // E9 id  jmp d32
    form!([] [] [] Never [] [] [0xeb] [] Byte Kind::Flow(Flow::JmpRel)), // EB ib  jmp d8
    form!([] [] [] Ignored [] [] [0xff] [any / 4] Absent Kind::Flow(Flow::JmpInd(false))), // FF /4  jmp rm
    form!([0x3e] [] [] Ignored [] [] [0xff] [any / 4] Absent Kind::Flow(Flow::JmpInd(true))), // 3E FF /4  notrack jmp rm
    form!([] [] [] Never [0x0f] [] [plus_cond 0x80] [] Dword Kind::Flow(Flow::Jcc)), // 0F 80+cc id  jcc d32
    form!([] [] [] Never [] [] [plus_cond 0x70] [] Byte Kind::Flow(Flow::Jcc)), // 70+cc ib  jcc d8
    form!([] [] [] Never [] [] [0xc3] [] Absent Kind::Plain(Instr::Ret)), // C3  ret
    form!([] [] [] Never [] [] [0xc2] [] Word Kind::Flow(Flow::RetImm)), // C2 iw  ret u16
    form!([] [] [] Never [] [] [0x90] [] Absent Kind::Plain(Instr::Nop)), // 90  nop
    form!([0x66] [] [] Never [] [] [0x90] [] Absent Kind::Plain(Instr::Nop)), // 66 90  nop
    form!([] [] [] Never [0x0f] [] [0x1f] [any / 0] Absent Kind::Plain(Instr::Nop)), // 0F 1F /0  nop rm
    form!([0x66] [] [] Never [0x0f] [] [0x1f] [any / 0] Absent Kind::Plain(Instr::Nop)), // 66 0F 1F /0  nop rm
    form!([0x66] [0x2e] [] Never [0x0f] [] [0x1f] [any / 0] Absent Kind::Plain(Instr::Nop)), // 66 2E 0F 1F /0  nop rm
    form!([0x66] [0x66] [0x2e] Never [0x0f] [] [0x1f] [any / 0] Absent Kind::Plain(Instr::Nop)), // 66 66 2E 0F 1F /0  nop rm
    form!([0xf3] [] [] Never [] [] [0x90] [] Absent Kind::Plain(Instr::Pause)), // F3 90  pause
    form!([0xf3] [] [] Never [0x0f] [0x1e] [0xfa] [] Absent Kind::Plain(Instr::Endbr64)), // F3 0F 1E FA  endbr64
    form!([] [] [] Never [0x0f] [] [0x0b] [] Absent Kind::Plain(Instr::Ud2)), // 0F 0B  ud2
    form!([] [] [] Never [0x0f] [] [0x05] [] Absent Kind::Plain(Instr::Syscall)), // 0F 05  syscall
    form!([] [] [] Never [] [] [0xf9] [] Absent Kind::Plain(Instr::Stc)), // F9  stc
    form!([] [] [] Never [] [] [0xf8] [] Absent Kind::Plain(Instr::Clc)), // F8  clc
    form!([0xf3] [] [] Set [0x0f] [] [0xae] [reg / 5] Absent Kind::Shadow(Shadow::Incsspq)), // F3 REX.W 0F AE /5  incsspq r64
    form!([0xf3] [] [] Set [0x0f] [] [0x1e] [reg / 1] Absent Kind::Shadow(Shadow::Rdsspq)), // F3 REX.W 0F 1E /1  rdsspq r64
    form!([0xf3] [] [] Ignored [0x0f] [] [0x01] [mem / 5] Absent Kind::Shadow(Shadow::Rstorssp)), // F3 0F 01 /5  rstorssp m
    form!([0xf3] [] [] Never [0x0f] [0x01] [0xea] [] Absent Kind::Plain(Instr::Saveprevssp)), // F3 0F 01 EA  saveprevssp
    form!([0xf3] [] [] Never [0x0f] [0x01] [0xe8] [] Absent Kind::Plain(Instr::Setssbsy)), // F3 0F 01 E8  setssbsy
    form!([0xf3] [] [] Ignored [0x0f] [] [0xae] [mem / 6] Absent Kind::Shadow(Shadow::Clrssbsy)), // F3 0F AE /6  clrssbsy m
    form!([] [] [] Set [0x0f] [0x38] [0xf6] [mem] Absent Kind::Shadow(Shadow::Wrssq)), // REX.W 0F 38 F6 /r  wrssq m, r64
    form!([0x66] [] [] Set [0x0f] [0x38] [0xf5] [mem] Absent Kind::Shadow(Shadow::Wrussq)), // 66 REX.W 0F 38 F5 /r  wrussq m, r64
];
