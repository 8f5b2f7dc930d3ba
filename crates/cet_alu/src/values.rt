//! What the operations compute: a value and the status flags (Intel SDM volume 1, EFLAGS register,
//! and the pages of volume 2).

ghost use Rattle.std.specs.Prelude.{◌≡◌, ◌+◌, ◌-◌, ◌*◌, ◌/◌, ◌%◌, ◌^◌, ◌<◌, ◌==◌, not, nat_le, nat_lt, pos, ◌+ℤ◌, ◌-ℤ◌, ◌*ℤ◌, FitsSigned};
ghost use Rattle.std.specs.Int.{w64, cast_unsigned, int_shr};
ghost use Rattle.cet_page.specs.Flags.{bit};
ghost use Rattle.cet_page.specs.Values.{bits, width, limit, top_bit, signed, in_signed_range, computed, sum, difference, logical, product, operation, keeping, ones_complement, shifted_left, shifted_right, shifted_arithmetic};

use cet_isa::{AluOp, Size};
use cet_page::{Computed, StatusFlags, truncated};

/// The number of bits of the size.
pub fn bits(size: Size) -> u32
    ensures value { result ≡ bits size }
    ensures range { 0 < result }
{
    match size {
        Size::Dword => 32,
        Size::Qword => 64,
    }
}

fn top_bit(size: Size, value: u64) -> bool
    ensures { result ≡ top_bit size value }
{
    match size {
        Size::Dword => value >= 1 << 31,
        Size::Qword => value >= 1 << 63,
    }
}

/// The number that the low bits mean in two's complement.
fn signed(size: Size, value: u64) -> i128
    requires { value < limit size }
    ensures value { result ≡ signed size value }
    ensures range { FitsSigned w64 result }
{
    match size {
        Size::Dword => i128::from((value as u32).cast_signed()),
        Size::Qword => i128::from(value.cast_signed()),
    }
}

/// Whether a number lies outside the signed range of the size.
fn overflows(size: Size, value: i128) -> bool
    ensures { result ≡ not (in_signed_range size value) }
{
    match size {
        Size::Dword => i32::try_from(value).is_err(),
        Size::Qword => i64::try_from(value).is_err(),
    }
}

/// A value with the status flags of a result.
fn computed(size: Size, value: u64, carry: bool, overflow: bool) -> Computed
    ensures { result ≡ computed size value carry overflow }
{
    let low = (value % 256) as u8;
    Computed {
        value,
        flags: StatusFlags {
            cf: carry,
            pf: low.count_ones() % 2 == 0,
            zf: value == 0,
            sf: top_bit(size, value),
            of: overflow,
        },
    }
}

/// The low bits of a sum with a carry in, and the carry out.
fn carrying_sum(size: Size, x: u64, y: u64, carry: bool) -> (u64, bool)
    requires left { x < limit size }
    requires right { y < limit size }
    ensures value { result.0 ≡ (x + y + bit carry) % limit size }
    ensures carry { result.1 ≡ nat_le (limit size) (x + y + bit carry) }
{
    let (total, carried) = x.carrying_add(y, carry);
    match size {
        Size::Dword => (truncated(size, total), total >= 1 << 32),
        Size::Qword => (total, carried),
    }
}

#[tactic(auto, using(crate::proofs::Wide::wide_sum, crate::proofs::Wide::from_bool_is_bit))]
fn sum_overflows(size: Size, x: u64, y: u64, carry: bool) -> bool
    requires left { x < limit size }
    requires right { y < limit size }
    ensures { result ≡ not (in_signed_range size (signed size x +ℤ signed size y +ℤ pos (bit carry))) }
{
    let exact = signed(size, x) + signed(size, y) + i128::from(u8::from(carry));
    overflows(size, exact)
}

/// A sum with a carry in.
pub fn sum(size: Size, x: u64, y: u64, carry: bool) -> Computed
    requires left { x < limit size }
    requires right { y < limit size }
    ensures { result ≡ sum size x y (bit carry) }
{
    let (value, carried) = carrying_sum(size, x, y, carry);
    computed(size, value, carried, sum_overflows(size, x, y, carry))
}

/// The low bits of a difference with a borrow in, and the borrow out.
fn borrowing_difference(size: Size, x: u64, y: u64, borrow: bool) -> (u64, bool)
    requires left { x < limit size }
    requires right { y < limit size }
    ensures value { result.0 ≡ (x + limit size - (y + bit borrow)) % limit size }
    ensures borrow { result.1 ≡ nat_lt x (y + bit borrow) }
{
    let (rest, borrowed) = x.borrowing_sub(y, borrow);
    (truncated(size, rest), borrowed)
}

#[tactic(auto, using(crate::proofs::Wide::wide_difference, crate::proofs::Wide::from_bool_is_bit))]
fn difference_overflows(size: Size, x: u64, y: u64, borrow: bool) -> bool
    requires left { x < limit size }
    requires right { y < limit size }
    ensures { result ≡ not (in_signed_range size (signed size x -ℤ signed size y -ℤ pos (bit borrow))) }
{
    let exact = signed(size, x) - signed(size, y) - i128::from(u8::from(borrow));
    overflows(size, exact)
}

/// A difference with a borrow in.
pub fn difference(size: Size, x: u64, y: u64, borrow: bool) -> Computed
    requires left { x < limit size }
    requires right { y < limit size }
    ensures { result ≡ difference size x y (bit borrow) }
{
    let (value, borrowed) = borrowing_difference(size, x, y, borrow);
    computed(
        size,
        value,
        borrowed,
        difference_overflows(size, x, y, borrow),
    )
}

/// The result of a bitwise operation, which clears CF and OF.
pub fn logical(size: Size, value: u64) -> Computed
    ensures { result ≡ logical size value }
{
    computed(size, value, false, false)
}

#[tactic(auto, using(crate::proofs::Wide::wide_product))]
fn product_overflows(size: Size, x: u64, y: u64) -> bool
    requires left { x < limit size }
    requires right { y < limit size }
    ensures { result ≡ not (in_signed_range size (signed size x *ℤ signed size y)) }
{
    let exact = signed(size, x) * signed(size, y);
    overflows(size, exact)
}

/// The low half of a signed product. CF and OF tell that this isn't the whole product.
pub fn product(size: Size, x: u64, y: u64) -> Computed
    requires left { x < limit size }
    requires right { y < limit size }
    ensures { result ≡ product size x y }
{
    let overflow = product_overflows(size, x, y);
    Computed {
        value: truncated(size, x.wrapping_mul(y)),
        flags: StatusFlags {
            cf: overflow,
            pf: false,
            zf: false,
            sf: false,
            of: overflow,
        },
    }
}

/// An operation of two operands; ADC and SBB alone read the carry.
pub fn operation(op: AluOp, size: Size, x: u64, y: u64, carry: bool) -> Computed
    requires left { x < limit size }
    requires right { y < limit size }
    ensures { result ≡ operation op size x y (bit carry) }
{
    match op {
        AluOp::Add => sum(size, x, y, false),
        AluOp::Or => logical(size, x | y),
        AluOp::Adc => sum(size, x, y, carry),
        AluOp::Sbb => difference(size, x, y, carry),
        AluOp::And => logical(size, x & y),
        AluOp::Xor => logical(size, x ^ y),
        AluOp::Sub | AluOp::Cmp => difference(size, x, y, false),
    }
}

/// What was computed, but with this carry.
pub fn keeping(carry: bool, of: Computed) -> Computed
    ensures { result ≡ keeping carry of }
{
    let mut kept = of;
    kept.flags.cf = carry;
    kept
}

/// Each bit the other way.
pub fn ones_complement(size: Size, value: u64) -> u64
    requires { value < limit size }
    ensures { result ≡ ones_complement size value }
{
    match size {
        Size::Dword => u64::from(!(value as u32)),
        Size::Qword => !value,
    }
}

/// The last bit that a shift to the left moves out.
#[tactic(auto, using(crate::proofs::Shifts::left_bit))]
fn left_carry(size: Size, x: u64, count: u32) -> bool
    requires left { x < limit size }
    requires low { 0 < count }
    requires high { count < bits size }
    ensures { result ≡ (x * 2 ^ count / limit size % 2 == 1) }
{
    (x >> (bits(size) - count)) % 2 == 1
}

/// The last bit that a shift to the right moves out.
fn right_carry(x: u64, count: u32) -> bool
    requires low { 0 < count }
    requires high { count < 64 }
    ensures { result ≡ (x / 2 ^ (count - 1) % 2 == 1) }
{
    (x >> (count - 1)) % 2 == 1
}

fn left_value(size: Size, x: u64, count: u32) -> u64
    requires { count < 64 }
    ensures { result ≡ x * 2 ^ count % limit size }
{
    truncated(size, x << count)
}

fn signed_value(size: Size, x: u64, count: u32) -> u64
    requires left { x < limit size }
    requires high { count < bits size }
    ensures { result ≡ cast_unsigned (width size) (int_shr (signed size x) count) }
{
    match size {
        Size::Dword => u64::from(((x as u32).cast_signed() >> count).cast_unsigned()),
        Size::Qword => (x.cast_signed() >> count).cast_unsigned(),
    }
}

/// A shift to the left. CF is the last bit that it moves out, and a shift by 1 tells in OF whether the
/// top bit changed.
pub fn shifted_left(size: Size, x: u64, count: u32) -> Computed
    requires left { x < limit size }
    requires low { 0 < count }
    requires high { count < bits size }
    ensures { result ≡ shifted_left size x count }
{
    let value = left_value(size, x, count);
    let carry = left_carry(size, x, count);
    let overflow = count == 1 && top_bit(size, value) != carry;
    computed(size, value, carry, overflow)
}

/// A shift to the right that brings in zeros. CF is the last bit that it moves out, and a shift by 1
/// tells in OF the top bit before it.
pub fn shifted_right(size: Size, x: u64, count: u32) -> Computed
    requires left { x < limit size }
    requires low { 0 < count }
    requires high { count < bits size }
    ensures { result ≡ shifted_right size x count }
{
    let overflow = count == 1 && top_bit(size, x);
    computed(size, x >> count, right_carry(x, count), overflow)
}

/// A shift to the right that brings in copies of the top bit. CF is the last bit that it moves out.
pub fn shifted_arithmetic(size: Size, x: u64, count: u32) -> Computed
    requires left { x < limit size }
    requires low { 0 < count }
    requires high { count < bits size }
    ensures { result ≡ shifted_arithmetic size x count }
{
    computed(
        size,
        signed_value(size, x, count),
        right_carry(x, count),
        false,
    )
}
