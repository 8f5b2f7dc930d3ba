//! The instruction that a mnemonic and its operands make.

ghost use Rattle.std.specs.Prelude.{◌≡◌, ◌^◌};
ghost use Rattle.cet_isa.specs.Spelled.{has_spelling, InstrFits};
ghost use Rattle.cet_syntax.specs.Instructions.{
  no_fixups,
  number_field,
  value_field,
  place_field,
  disp_field,
  mem_of,
  memory_argument,
  register_argument,
  value_argument,
  argument,
  same_size,
  common_size,
  plain,
  with_argument,
  pair_instr,
  both,
  pair,
  wide_number,
  wide_built,
  wide_move,
  is_wide,
  any_move,
  zero_move,
  sign_move,
  shift_instr,
  small_number,
  with_fit,
  shift,
  two_operands,
  indirect_instr,
  qword_instr,
  register_instr,
  memory_instr,
  relative_instr,
  short_instr,
  with_fixups,
  with_field,
  label_target,
  value_built,
  one_operand,
  alone,
  built,
};
ghost use Rattle.cet_syntax.specs.Views.{
  name_view,
  place_view,
  disp_view,
  address_view,
  parsed_view,
  operands_view,
  fixups_view,
  field_view,
  argument_view,
  argument_option_view,
  built_view,
  built_option_view,
};

use crate::addresses::Address;
use crate::mnemonics::Mnemonic;
use crate::operands::{Operands, ParsedOperand};
use crate::places::{Place, byte_number, immediate_field, quad_field, word_number};
use cet_isa::{Count, Instr, Mem, Operand, Reg, Size};

/// The labels whose addresses belong into an instruction: as displacement, which counts from the next instruction
/// where RIP is the base; as immediate; as target of a relative jump of four bytes, and of one byte.
#[derive(Clone, Copy)]
pub struct Fixups<'a> {
    pub displacement: Option<&'a [u8]>,
    pub immediate: Option<&'a [u8]>,
    pub target: Option<&'a [u8]>,
    pub short: Option<&'a [u8]>,
}

/// An instruction with 0 in place of labels, whether its numbers fit, and its labels.
#[derive(Clone, Copy)]
pub(crate) struct Built<'a> {
    pub instr: Instr,
    pub fits: bool,
    pub fixups: Fixups<'a>,
}

/// A number of a field, 0 for a label and for one that doesn't fit.
#[derive(Clone, Copy)]
struct Field<'a> {
    value: i32,
    fits: bool,
    label: Option<&'a [u8]>,
}

/// An operand, whether its number fits, and its labels.
#[derive(Clone, Copy)]
struct Argument<'a> {
    operand: Operand,
    fits: bool,
    displacement: Option<&'a [u8]>,
    immediate: Option<&'a [u8]>,
}

fn no_fixups() -> Fixups<'static>
    ensures { fixups_view result ≡ no_fixups }
{
    Fixups {
        displacement: None,
        immediate: None,
        target: None,
        short: None,
    }
}

fn number_field(number: Option<i32>) -> Field<'static>
    ensures { field_view result ≡ number_field number }
{
    match number {
        None => Field {
            value: 0,
            fits: false,
            label: None,
        },
        Some(value) => Field {
            value,
            fits: true,
            label: None,
        },
    }
}

/// The field of a number that may be ill-formed.
fn value_field(size: Size, value: Option<i128>) -> Field<'static>
    ensures { field_view result ≡ value_field size value }
{
    match value {
        None => number_field(None),
        Some(value) => number_field(immediate_field(size, value)),
    }
}

fn place_field(size: Size, place: Place) -> Field
    ensures { field_view result ≡ place_field size (place_view place.entry) }
{
    match place {
        Place::Label(name) => Field {
            value: 0,
            fits: true,
            label: Some(name),
        },
        Place::Number(value) => value_field(size, value),
    }
}

fn disp_field(disp: Option<Place>) -> Field
    ensures { field_view result ≡ disp_field (disp_view disp.entry) }
{
    match disp {
        None => number_field(Some(0)),
        Some(place) => place_field(Size::Qword, place),
    }
}

fn mem_of(address: Address, disp: i32) -> Mem
    ensures { result ≡ mem_of (address_view address.entry) disp }
{
    Mem {
        base: address.base,
        index: address.index,
        scale: address.scale,
        disp,
    }
}

fn memory_argument(address: Address) -> Argument
    ensures { argument_view result ≡ memory_argument (address_view address.entry) }
{
    let field = disp_field(address.disp);
    Argument {
        operand: Operand::Mem(mem_of(address, field.value)),
        fits: field.fits,
        displacement: field.label,
        immediate: None,
    }
}

fn register_argument(reg: Reg) -> Argument<'static>
    ensures { argument_view result ≡ register_argument reg }
{
    Argument {
        operand: Operand::Reg(reg),
        fits: true,
        displacement: None,
        immediate: None,
    }
}

fn value_argument(size: Size, place: Place) -> Argument
    ensures { argument_view result ≡ value_argument size (place_view place.entry) }
{
    let field = place_field(size, place);
    Argument {
        operand: Operand::Imm(field.value),
        fits: field.fits,
        displacement: None,
        immediate: field.label,
    }
}

/// A register, memory or a number.
fn make_argument(size: Size, parsed: ParsedOperand) -> Option<Argument>
    ensures { argument_option_view result ≡ argument size (parsed_view parsed.entry) }
{
    match parsed {
        ParsedOperand::Register(_, reg) => Some(register_argument(reg)),
        ParsedOperand::Memory(address) => Some(memory_argument(address)),
        ParsedOperand::Dword(address) => Some(memory_argument(address)),
        ParsedOperand::Value(place) => Some(value_argument(size, place)),
        _ => None,
    }
}

fn same_size(first: Size, second: Size) -> bool
    ensures { result ≡ same_size first second }
{
    matches!(
        (first, second),
        (Size::Dword, Size::Dword) | (Size::Qword, Size::Qword)
    )
}

/// The size of two operands: that of the registers, else 32 bits after `dword`, else 64 bits.
#[tactic(auto, unfolding(crate::specs::Instructions::common_size))]
fn common_size(first: ParsedOperand, second: ParsedOperand) -> Option<Size>
    ensures { result ≡ common_size (parsed_view first.entry) (parsed_view second.entry) }
{
    match (first, second) {
        (ParsedOperand::Register(size, _), ParsedOperand::Register(other, _)) => {
            if same_size(size, other) {
                Some(size)
            } else {
                None
            }
        }
        (ParsedOperand::Register(size, _), ParsedOperand::Memory(_) | ParsedOperand::Value(_)) =>
            Some(size),
        (ParsedOperand::Memory(_), ParsedOperand::Register(size, _)) => Some(size),
        (ParsedOperand::Memory(_), ParsedOperand::Value(_)) => Some(Size::Qword),
        (ParsedOperand::Dword(_), ParsedOperand::Value(_)) => Some(Size::Dword),
        _ => None,
    }
}

fn plain(instr: Option<Instr>) -> Option<Built<'static>>
    ensures { built_option_view result ≡ plain instr }
{
    Some(Built {
        instr: instr?,
        fits: true,
        fixups: no_fixups(),
    })
}

fn with_argument(argument: Argument, instr: Option<Instr>) -> Option<Built>
    ensures { built_option_view result ≡ with_argument (argument_view argument.entry) instr }
{
    Some(Built {
        instr: instr?,
        fits: argument.fits,
        fixups: Fixups {
            displacement: argument.displacement,
            immediate: argument.immediate,
            ..no_fixups()
        },
    })
}

/// Two operands of one size.
#[tactic(auto, unfolding(crate::specs::Instructions::pair_instr))]
fn pair_instr(mnemonic: Mnemonic, size: Size, dst: Operand, src: Operand) -> Option<Instr>
    ensures { result ≡ pair_instr mnemonic size dst src }
{
    Some(match (mnemonic, size, dst, src) {
        (Mnemonic::Alu(op), _, _, _) => Instr::Alu { op, size, dst, src },
        (Mnemonic::Test, _, _, _) => Instr::Test { size, dst, src },
        (Mnemonic::Mov, _, _, _) => Instr::Mov { size, dst, src },
        (Mnemonic::Imul, _, Operand::Reg(dst), _) => Instr::Imul { size, dst, src },
        (Mnemonic::Cmov(cond), _, Operand::Reg(dst), _) => Instr::Cmov {
            cond,
            size,
            dst,
            src,
        },
        (Mnemonic::Lea, _, Operand::Reg(dst), Operand::Mem(src)) => Instr::Lea { size, dst, src },
        (Mnemonic::Xchg, Size::Qword, _, Operand::Reg(reg)) => Instr::Xchg { dst, reg },
        (Mnemonic::Xadd, Size::Qword, Operand::Mem(mem), Operand::Reg(reg)) => {
            Instr::LockXadd { mem, reg }
        }
        (Mnemonic::Cmpxchg, Size::Qword, Operand::Mem(mem), Operand::Reg(reg)) => {
            Instr::LockCmpxchg { mem, reg }
        }
        (Mnemonic::Wrssq, Size::Qword, Operand::Mem(mem), Operand::Reg(reg)) => {
            Instr::Wrssq { mem, reg }
        }
        (Mnemonic::Wrussq, Size::Qword, Operand::Mem(mem), Operand::Reg(reg)) => {
            Instr::Wrussq { mem, reg }
        }
        _ => return None,
    })
}

fn both<'a>(first: Argument<'a>, second: Argument<'a>) -> Argument<'a>
    ensures { argument_view result ≡ both (argument_view first.entry) (argument_view second.entry) }
{
    Argument {
        operand: second.operand,
        fits: first.fits && second.fits,
        displacement: first.displacement.or(second.displacement),
        immediate: second.immediate,
    }
}

#[tactic(auto, unfolding(crate::specs::Instructions::pair))]
fn pair<'a>(
    mnemonic: Mnemonic,
    first: ParsedOperand<'a>,
    second: ParsedOperand<'a>,
) -> Option<Built<'a>>
    ensures { built_option_view result ≡ pair mnemonic (parsed_view first.entry) (parsed_view second.entry) }
{
    let size = common_size(first, second)?;
    let dst = make_argument(size, first)?;
    let src = make_argument(size, second)?;
    let instr = pair_instr(mnemonic, size, dst.operand, src.operand);
    with_argument(both(dst, src), instr)
}

fn wide_number(dst: Reg, number: Option<u64>) -> Built<'static>
    ensures { built_view result ≡ wide_number dst number }
{
    Built {
        instr: Instr::MovWide {
            dst,
            value: number.unwrap_or(0),
        },
        fits: number.is_some(),
        fixups: no_fixups(),
    }
}

/// A move of a number of 64 bits.
fn wide_built(dst: Reg, place: Place) -> Built
    ensures { built_view result ≡ wide_built dst (place_view place.entry) }
{
    match place {
        Place::Number(None) => wide_number(dst, None),
        Place::Number(Some(value)) => wide_number(dst, quad_field(value)),
        Place::Label(name) => Built {
            instr: Instr::MovWide { dst, value: 0 },
            fits: true,
            fixups: Fixups {
                immediate: Some(name),
                ..no_fixups()
            },
        },
    }
}

#[tactic(auto, unfolding(crate::specs::Instructions::wide_move))]
fn wide_move<'a>(first: ParsedOperand<'a>, second: ParsedOperand<'a>) -> Option<Built<'a>>
    ensures { built_option_view result ≡ wide_move (parsed_view first.entry) (parsed_view second.entry) }
{
    match (first, second) {
        (ParsedOperand::Register(Size::Qword, reg), ParsedOperand::Value(place)) => Some(wide_built(
            reg, place,
        )),
        _ => None,
    }
}

/// Whether a number to a 64-bit register is longer than 32 bits.
fn is_wide(first: ParsedOperand, second: ParsedOperand) -> bool
    ensures { result ≡ is_wide (parsed_view first.entry) (parsed_view second.entry) }
{
    match (first, second) {
        (
            ParsedOperand::Register(Size::Qword, _),
            ParsedOperand::Value(Place::Number(Some(value))),
        ) => { i32::try_from(value).is_err() }
        _ => false,
    }
}

#[tactic(auto, unfolding(crate::specs::Instructions::any_move))]
fn any_move<'a>(first: ParsedOperand<'a>, second: ParsedOperand<'a>) -> Option<Built<'a>>
    ensures { built_option_view result ≡ any_move (parsed_view first.entry) (parsed_view second.entry) }
{
    if is_wide(first, second) {
        wide_move(first, second)
    } else {
        pair(Mnemonic::Mov, first, second)
    }
}

#[tactic(auto, unfolding(crate::specs::Instructions::zero_move))]
fn zero_move<'a>(first: ParsedOperand<'a>, second: ParsedOperand<'a>) -> Option<Built<'a>>
    ensures { built_option_view result ≡ zero_move (parsed_view first.entry) (parsed_view second.entry) }
{
    match (first, second) {
        (ParsedOperand::Register(_, dst), ParsedOperand::Byte(address)) => {
            let src = mem_of(address, disp_field(address.disp).value);
            with_argument(memory_argument(address), Some(Instr::MovZero8 { dst, src }))
        }
        _ => None,
    }
}

#[tactic(auto, unfolding(crate::specs::Instructions::sign_move))]
fn sign_move<'a>(first: ParsedOperand<'a>, second: ParsedOperand<'a>) -> Option<Built<'a>>
    ensures { built_option_view result ≡ sign_move (parsed_view first.entry) (parsed_view second.entry) }
{
    match (first, second) {
        (ParsedOperand::Register(Size::Qword, dst), ParsedOperand::Register(Size::Dword, src)) => {
            plain(Some(Instr::MovSign32 {
                dst,
                src: Operand::Reg(src),
            }))
        }
        (ParsedOperand::Register(Size::Qword, dst), ParsedOperand::Memory(address)) => {
            let argument = memory_argument(address);
            let src = argument.operand;
            with_argument(argument, Some(Instr::MovSign32 { dst, src }))
        }
        _ => None,
    }
}

fn shift_instr(mnemonic: Mnemonic, size: Size, reg: Reg, count: Count) -> Option<Instr>
    ensures { result ≡ shift_instr mnemonic size reg count }
{
    match mnemonic {
        Mnemonic::Shl => Some(Instr::Shl { size, reg, count }),
        Mnemonic::Shr => Some(Instr::Shr { size, reg, count }),
        Mnemonic::Sar => Some(Instr::Sar { size, reg, count }),
        _ => None,
    }
}

/// The number of a shift. A label doesn't fit.
fn shift_number(place: Place) -> Option<u8>
    ensures { result ≡ small_number (2 ^ 8) (place_view place.entry) }
{
    match place {
        Place::Number(Some(value)) => byte_number(value),
        _ => None,
    }
}

fn with_fit(fits: bool, instr: Option<Instr>) -> Option<Built<'static>>
    ensures { built_option_view result ≡ with_fit fits instr }
{
    Some(Built {
        instr: instr?,
        fits,
        fixups: no_fixups(),
    })
}

#[tactic(auto, unfolding(crate::specs::Instructions::shift))]
fn shift<'a>(
    mnemonic: Mnemonic,
    first: ParsedOperand<'a>,
    second: ParsedOperand<'a>,
) -> Option<Built<'a>>
    ensures { built_option_view result ≡ shift mnemonic (parsed_view first.entry) (parsed_view second.entry) }
{
    match (first, second) {
        (ParsedOperand::Register(size, reg), ParsedOperand::Counter) => {
            plain(shift_instr(mnemonic, size, reg, Count::Cl))
        }
        (ParsedOperand::Register(size, reg), ParsedOperand::Value(place)) => {
            let number = shift_number(place);
            let count = Count::Number(number.unwrap_or(0));
            with_fit(number.is_some(), shift_instr(mnemonic, size, reg, count))
        }
        _ => None,
    }
}

#[tactic(auto, unfolding(crate::specs::Instructions::two_operands))]
fn two_operands<'a>(
    mnemonic: Mnemonic,
    first: ParsedOperand<'a>,
    second: ParsedOperand<'a>,
) -> Option<Built<'a>>
    ensures { built_option_view result ≡ two_operands mnemonic (parsed_view first.entry) (parsed_view second.entry) }
{
    match mnemonic {
        Mnemonic::Mov => any_move(first, second),
        Mnemonic::Movabs => wide_move(first, second),
        Mnemonic::Movzx => zero_move(first, second),
        Mnemonic::Movsxd => sign_move(first, second),
        Mnemonic::Shl | Mnemonic::Shr | Mnemonic::Sar => shift(mnemonic, first, second),
        _ => pair(mnemonic, first, second),
    }
}

/// One register.
#[tactic(auto, unfolding(crate::specs::Instructions::register_instr))]
fn register_instr(mnemonic: Mnemonic, size: Size, reg: Reg) -> Option<Instr>
    ensures { result ≡ register_instr mnemonic size reg }
{
    match (mnemonic, size) {
        (Mnemonic::Inc, _) => Some(Instr::Inc { size, reg }),
        (Mnemonic::Dec, _) => Some(Instr::Dec { size, reg }),
        (Mnemonic::Not, _) => Some(Instr::Not { size, reg }),
        (Mnemonic::Neg, _) => Some(Instr::Neg { size, reg }),
        (_, Size::Qword) => qword_instr(mnemonic, reg),
        _ => None,
    }
}

/// One register of 64 bits.
fn qword_instr(mnemonic: Mnemonic, reg: Reg) -> Option<Instr>
    ensures { result ≡ qword_instr mnemonic reg }
{
    let place = Operand::Reg(reg);
    match mnemonic {
        Mnemonic::Push => Some(Instr::Push { src: place }),
        Mnemonic::Pop => Some(Instr::Pop { dst: reg }),
        Mnemonic::Incsspq => Some(Instr::Incsspq { reg }),
        Mnemonic::Rdsspq => Some(Instr::Rdsspq { reg }),
        _ => indirect_instr(mnemonic, place),
    }
}

/// Memory alone.
#[tactic(auto, unfolding(crate::specs::Instructions::memory_instr))]
fn memory_instr(mnemonic: Mnemonic, mem: Mem) -> Option<Instr>
    ensures { result ≡ memory_instr mnemonic mem }
{
    let place = Operand::Mem(mem);
    match mnemonic {
        Mnemonic::Push => Some(Instr::Push { src: place }),
        Mnemonic::Rstorssp => Some(Instr::Rstorssp { mem }),
        Mnemonic::Clrssbsy => Some(Instr::Clrssbsy { mem }),
        _ => indirect_instr(mnemonic, place),
    }
}

/// A call or jump by way of a register or memory.
fn indirect_instr(mnemonic: Mnemonic, target: Operand) -> Option<Instr>
    ensures { result ≡ indirect_instr mnemonic target }
{
    match mnemonic {
        Mnemonic::Call => Some(Instr::CallInd {
            target,
            notrack: false,
        }),
        Mnemonic::Jmp => Some(Instr::JmpInd {
            target,
            notrack: false,
        }),
        Mnemonic::UntrackedCall => Some(Instr::CallInd {
            target,
            notrack: true,
        }),
        Mnemonic::UntrackedJmp => Some(Instr::JmpInd {
            target,
            notrack: true,
        }),
        _ => None,
    }
}

/// A relative target of four bytes.
#[tactic(auto, unfolding(crate::specs::Instructions::relative_instr))]
fn relative_instr(mnemonic: Mnemonic, disp: i32) -> Option<Instr>
    ensures { result ≡ relative_instr mnemonic disp }
{
    match mnemonic {
        Mnemonic::Call => Some(Instr::CallRel { disp }),
        Mnemonic::Jmp => Some(Instr::JmpRel { disp }),
        Mnemonic::Jump(cond) => Some(Instr::Jcc { cond, disp }),
        _ => None,
    }
}

/// A jump that has a form of one byte.
#[tactic(auto, unfolding(crate::specs::Instructions::short_instr))]
fn short_instr(mnemonic: Mnemonic) -> Option<Instr>
    ensures { result ≡ short_instr mnemonic }
{
    match mnemonic {
        Mnemonic::Jmp => Some(Instr::JmpRel { disp: 0 }),
        Mnemonic::Jump(cond) => Some(Instr::Jcc { cond, disp: 0 }),
        _ => None,
    }
}

fn with_fixups(fixups: Fixups, instr: Option<Instr>) -> Option<Built>
    ensures { built_option_view result ≡ with_fixups (fixups_view fixups.entry) instr }
{
    Some(Built {
        instr: instr?,
        fits: true,
        fixups,
    })
}

fn with_field(field: Field, instr: Option<Instr>) -> Option<Built>
    ensures { built_option_view result ≡ with_field (field_view field.entry) instr }
{
    Some(Built {
        instr: instr?,
        fits: field.fits,
        fixups: Fixups {
            immediate: field.label,
            ..no_fixups()
        },
    })
}

fn label_target(mnemonic: Mnemonic, place: Place) -> Option<Built>
    ensures { built_option_view result ≡ label_target mnemonic (place_view place.entry) }
{
    match place {
        Place::Label(name) => {
            let fixups = Fixups {
                target: Some(name),
                ..no_fixups()
            };
            with_fixups(fixups, relative_instr(mnemonic, 0))
        }
        Place::Number(_) => None,
    }
}

/// The number of a return. A label doesn't fit.
fn return_number(place: Place) -> Option<u16>
    ensures { result ≡ small_number (2 ^ 16) (place_view place.entry) }
{
    match place {
        Place::Number(Some(value)) => word_number(value),
        _ => None,
    }
}

/// A number or label alone.
#[tactic(auto, unfolding(crate::specs::Instructions::value_built))]
fn value_built(mnemonic: Mnemonic, place: Place) -> Option<Built>
    ensures { built_option_view result ≡ value_built mnemonic (place_view place.entry) }
{
    match mnemonic {
        Mnemonic::Push => {
            let field = place_field(Size::Qword, place);
            let src = Operand::Imm(field.value);
            with_field(field, Some(Instr::Push { src }))
        }
        Mnemonic::Ret => {
            let number = return_number(place);
            let bytes = number.unwrap_or(0);
            with_fit(number.is_some(), Some(Instr::RetImm { bytes }))
        }
        _ => label_target(mnemonic, place),
    }
}

#[tactic(auto, unfolding(crate::specs::Instructions::one_operand))]
fn one_operand(mnemonic: Mnemonic, parsed: ParsedOperand) -> Option<Built>
    ensures { built_option_view result ≡ one_operand mnemonic (parsed_view parsed.entry) }
{
    match parsed {
        ParsedOperand::Register(size, reg) => plain(register_instr(mnemonic, size, reg)),
        ParsedOperand::Memory(address) => {
            let mem = mem_of(address, disp_field(address.disp).value);
            with_argument(memory_argument(address), memory_instr(mnemonic, mem))
        }
        ParsedOperand::Value(place) => value_built(mnemonic, place),
        ParsedOperand::Relative(value) => {
            let field = value_field(Size::Qword, value);
            with_field(field, relative_instr(mnemonic, field.value))
        }
        ParsedOperand::Short(name) => {
            let fixups = Fixups {
                short: Some(name),
                ..no_fixups()
            };
            with_fixups(fixups, short_instr(mnemonic))
        }
        _ => None,
    }
}

fn alone(mnemonic: Mnemonic) -> Option<Instr>
    ensures { result ≡ alone mnemonic }
{
    match mnemonic {
        Mnemonic::Alone(instr) => Some(instr),
        Mnemonic::Ret => Some(Instr::Ret),
        _ => None,
    }
}

/// The instruction of a mnemonic with these operands. `None` for operands that it doesn't have.
#[tactic(auto, unfolding(crate::specs::Instructions::built))]
pub(crate) fn build(mnemonic: Mnemonic, operands: Operands) -> Option<Built>
    ensures { built_option_view result ≡ built mnemonic (operands_view operands.entry) }
{
    match operands {
        Operands::Absent => plain(alone(mnemonic)),
        Operands::One(parsed) => one_operand(mnemonic, parsed),
        Operands::Two(first, second) => two_operands(mnemonic, first, second),
    }
}
