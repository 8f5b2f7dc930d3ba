//! The words that begin an instruction.

ghost use Rattle.std.specs.Prelude.{◌≡◌, codes, map};
ghost use Rattle.std.specs.List.{find};
ghost use Rattle.std.specs.Str.{bytes_eq};
ghost use Rattle.cet_syntax.specs.Views.{named_view};
ghost use Rattle.cet_syntax.specs.Mnemonics.{
  mnemonic_in,
  plain_mnemonic,
  condition_after,
  mnemonic_of,
  locked_mnemonic,
  untracked_mnemonic,
};

use crate::names::is_word;
use cet_isa::{AluOp, Cond, Instr};

/// What the word at the front of an instruction names. `Alone` takes no operands. `Xadd` and `Cmpxchg` stand
/// after `lock`, `UntrackedCall` and `UntrackedJmp` after `notrack`.
#[derive(Clone, Copy)]
pub enum Mnemonic {
    Alone(Instr),
    Alu(AluOp),
    Test,
    Mov,
    Movabs,
    Movzx,
    Movsxd,
    Lea,
    Xchg,
    Imul,
    Cmov(Cond),
    Xadd,
    Cmpxchg,
    Wrssq,
    Wrussq,
    Inc,
    Dec,
    Not,
    Neg,
    Shl,
    Shr,
    Sar,
    Push,
    Pop,
    Incsspq,
    Rdsspq,
    Rstorssp,
    Clrssbsy,
    Call,
    Jmp,
    UntrackedCall,
    UntrackedJmp,
    Jump(Cond),
    Ret,
}

/// A word, and what it names.
struct Named {
    name: &'static [u8],
    mnemonic: Mnemonic,
}

macro_rules! named {
    ($($name:literal $mnemonic:expr;)*) => {
        [$(Named { name: $name, mnemonic: $mnemonic }),*]
    };
}

const NAMED: [Named; 36] = named! {
    b"test" Mnemonic::Test;
    b"mov" Mnemonic::Mov;
    b"movabs" Mnemonic::Movabs;
    b"movzx" Mnemonic::Movzx;
    b"movsxd" Mnemonic::Movsxd;
    b"lea" Mnemonic::Lea;
    b"xchg" Mnemonic::Xchg;
    b"imul" Mnemonic::Imul;
    b"inc" Mnemonic::Inc;
    b"dec" Mnemonic::Dec;
    b"not" Mnemonic::Not;
    b"neg" Mnemonic::Neg;
    b"shl" Mnemonic::Shl;
    b"shr" Mnemonic::Shr;
    b"sar" Mnemonic::Sar;
    b"push" Mnemonic::Push;
    b"pop" Mnemonic::Pop;
    b"call" Mnemonic::Call;
    b"jmp" Mnemonic::Jmp;
    b"ret" Mnemonic::Ret;
    b"incsspq" Mnemonic::Incsspq;
    b"rdsspq" Mnemonic::Rdsspq;
    b"rstorssp" Mnemonic::Rstorssp;
    b"clrssbsy" Mnemonic::Clrssbsy;
    b"wrssq" Mnemonic::Wrssq;
    b"wrussq" Mnemonic::Wrussq;
    b"leave" Mnemonic::Alone(Instr::Leave);
    b"nop" Mnemonic::Alone(Instr::Nop);
    b"pause" Mnemonic::Alone(Instr::Pause);
    b"endbr64" Mnemonic::Alone(Instr::Endbr64);
    b"ud2" Mnemonic::Alone(Instr::Ud2);
    b"syscall" Mnemonic::Alone(Instr::Syscall);
    b"stc" Mnemonic::Alone(Instr::Stc);
    b"clc" Mnemonic::Alone(Instr::Clc);
    b"saveprevssp" Mnemonic::Alone(Instr::Saveprevssp);
    b"setssbsy" Mnemonic::Alone(Instr::Setssbsy);
};

/// What the first of these rows with the word says.
fn find_mnemonic(rows: &[Named], word: &[u8]) -> Option<Mnemonic>
    ensures { result ≡ mnemonic_in (find (λ n. bytes_eq word.now n.name) (map named_view rows.now)) }
{
    for row in rows {
        if is_word(word, row.name) {
            return Some(row.mnemonic);
        }
    }
    None
}

#[tactic(auto, unfolding(crate::specs::Mnemonics::plain_mnemonic))]
fn plain_mnemonic(word: &[u8]) -> Option<Mnemonic>
    ensures { result ≡ plain_mnemonic word.now }
{
    find_mnemonic(&NAMED, word)
}

fn conditional_move(word: &[u8]) -> Option<Cond>
    ensures { result ≡ condition_after (codes "cmov") word.now }
{
    match word {
        [b'c', b'm', b'o', b'v', condition @ ..] => Cond::named(condition),
        _ => None,
    }
}

fn conditional_jump(word: &[u8]) -> Option<Cond>
    ensures { result ≡ condition_after (codes "j") word.now }
{
    match word {
        [b'j', condition @ ..] => Cond::named(condition),
        _ => None,
    }
}

/// What a word at the front of an instruction names.
#[tactic(auto, unfolding(crate::specs::Mnemonics::mnemonic_of))]
pub(crate) fn mnemonic_of(word: &[u8]) -> Option<Mnemonic>
    ensures { result ≡ mnemonic_of word.now }
{
    if let Some(mnemonic) = plain_mnemonic(word) {
        return Some(mnemonic);
    }
    if let Some(op) = AluOp::named(word) {
        return Some(Mnemonic::Alu(op));
    }
    if let Some(cond) = conditional_move(word) {
        return Some(Mnemonic::Cmov(cond));
    }
    match conditional_jump(word) {
        Some(cond) => Some(Mnemonic::Jump(cond)),
        None => None,
    }
}

/// What a word after `lock` names.
#[tactic(auto, unfolding(crate::specs::Mnemonics::locked_mnemonic))]
pub(crate) fn locked_mnemonic(word: &[u8]) -> Option<Mnemonic>
    ensures { result ≡ locked_mnemonic word.now }
{
    if is_word(word, b"xadd") {
        Some(Mnemonic::Xadd)
    } else if is_word(word, b"cmpxchg") {
        Some(Mnemonic::Cmpxchg)
    } else {
        None
    }
}

/// What a word after `notrack` names.
#[tactic(auto, unfolding(crate::specs::Mnemonics::untracked_mnemonic))]
pub(crate) fn untracked_mnemonic(word: &[u8]) -> Option<Mnemonic>
    ensures { result ≡ untracked_mnemonic word.now }
{
    if is_word(word, b"call") {
        Some(Mnemonic::UntrackedCall)
    } else if is_word(word, b"jmp") {
        Some(Mnemonic::UntrackedJmp)
    } else {
        None
    }
}
