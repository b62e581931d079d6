//! Arithmetic of 64-bit integers.

ghost use Rattle.std.specs.Prelude.{◌≡◌, ◌<◌, ◌&&◌, ◌||◌, false, true};
ghost use Rattle.codegen_operation.specs.Numbers.{at_width, computed, computed_at, condition_holds, divided, divided_at, division_traps, extended};
ghost use Rattle.codegen_operation.specs.Numbers.{is_negative, least, magnitude, shifted, shifted_at, signed_rank, widened, with_sign};
ghost use Rattle.codegen.specs.Run.Runs.{arguments_of};

use codegen_operation::{Condition, DivisionPart, Operator, ShiftOperator, Width};

/// A number's lower 32 bits.
fn lower_half(number: u64) -> u64
    ensures { result ≡ at_width Width.Half number }
{
    number % (1 << 32)
}

/// The bits of a number that an operation of a width reads.
fn at_width(width: Width, number: u64) -> u64
    ensures { result ≡ at_width width number }
{
    match width {
        Width::Full => number,
        Width::Half => lower_half(number),
    }
}

/// Returns the bits of `number` at a width, sign-extended to 64.
pub fn widened(width: Width, number: u64) -> u64
    ensures { result ≡ widened width number }
{
    match width {
        Width::Full => number,
        Width::Half => {
            let low = number % (1 << 32);
            if low < 1 << 31 {
                low
            } else {
                low + 0xffff_ffff_0000_0000
            }
        }
    }
}

/// The result of an operator, at a width.
pub fn compute_at(width: Width, operator: Operator, left: u64, right: u64) -> u64
    ensures { result ≡ computed_at width operator left right }
{
    at_width(width, compute(operator, left, right))
}

/// The result of an operator.
fn compute(operator: Operator, left: u64, right: u64) -> u64
    ensures { result ≡ computed operator left right }
{
    match operator {
        Operator::Add => left.wrapping_add(right),
        Operator::Sub => left.wrapping_sub(right),
        Operator::Mul => left.wrapping_mul(right),
        Operator::And => left & right,
        Operator::Or => left | right,
        Operator::Xor => left ^ right,
    }
}

/// A number shifted by a count, modulo the width.
pub fn shift_at(width: Width, operator: ShiftOperator, number: u64, count: u64) -> u64
    ensures { result ≡ shifted_at width operator number count }
{
    match (width, operator) {
        (Width::Full, _) => shift(operator, number, count),
        (Width::Half, ShiftOperator::Left) => lower_half(shift(operator, number, count % 32)),
        (Width::Half, ShiftOperator::Right) => shift(operator, lower_half(number), count % 32),
        (Width::Half, ShiftOperator::SignedRight) => {
            lower_half(shift(operator, widened(width, number), count % 32))
        }
    }
}

/// A number shifted by a count, modulo 64.
fn shift(operator: ShiftOperator, number: u64, count: u64) -> u64
    ensures { result ≡ shifted operator number count }
{
    let places = (count % 64) as u32;
    match operator {
        ShiftOperator::Left => number << places,
        ShiftOperator::Right => number >> places,
        ShiftOperator::SignedRight if number < 1 << 63 => number >> places,
        ShiftOperator::SignedRight => !(!number >> places),
    }
}

/// A number's rank in the signed order: numbers from 2^63 on come first.
fn signed_rank(number: u64) -> u64
    ensures { result ≡ signed_rank number }
{
    number.wrapping_add(1 << 63)
}

/// Whether a number is negative in two's complement.
fn is_negative(number: u64) -> bool
    ensures { result ≡ is_negative number }
{
    1 << 63 <= number
}

/// The absolute value of a number in two's complement.
fn magnitude(number: u64) -> u64
    ensures value { result ≡ magnitude number }
    ensures some { 0 < number → 0 < result }
{
    if is_negative(number) {
        u64::MAX - number + 1
    } else {
        number
    }
}

/// The number with that absolute value, negative or not.
fn with_sign(is_negative: bool, number: u64) -> u64
    ensures { result ≡ with_sign is_negative number }
{
    if is_negative {
        0u64.wrapping_sub(number)
    } else {
        number
    }
}

/// The quotient or remainder of a signed division.
fn signed_divided(part: DivisionPart, left: u64, right: u64) -> u64
    requires { 0 < right }
    ensures { result ≡ divided part true left right }
{
    let (first, second) = (magnitude(left), magnitude(right));
    match part {
        DivisionPart::Quotient if is_negative(left) => {
            with_sign(!is_negative(right), first / second)
        }
        DivisionPart::Quotient => with_sign(is_negative(right), first / second),
        DivisionPart::Remainder => with_sign(is_negative(left), first % second),
    }
}

/// The quotient or remainder of a division, at a width.
pub fn divided_at(width: Width, part: DivisionPart, is_signed: bool, left: u64, right: u64) -> u64
    requires { 0 < at_width width right }
    ensures { result ≡ divided_at width part is_signed left right }
{
    match width {
        Width::Full => divided(part, is_signed, left, right),
        Width::Half if is_signed => {
            let (left, right) = (widened(width, left), widened(width, right));
            lower_half(signed_divided(part, left, right))
        }
        Width::Half => divided(part, false, lower_half(left), lower_half(right)),
    }
}

/// The quotient or remainder of a division.
fn divided(part: DivisionPart, is_signed: bool, left: u64, right: u64) -> u64
    requires { 0 < right }
    ensures { result ≡ divided part is_signed left right }
{
    match part {
        _ if is_signed => signed_divided(part, left, right),
        DivisionPart::Quotient => left / right,
        DivisionPart::Remainder => left % right,
    }
}

/// The least signed number of a width, sign-extended.
fn least(width: Width) -> u64
    ensures { result ≡ least width }
{
    match width {
        Width::Full => 1 << 63,
        Width::Half => 0xffff_ffff_8000_0000,
    }
}

/// Whether a division traps.
pub fn does_trap(width: Width, is_signed: bool, left: u64, right: u64) -> bool
    ensures value { result ≡ division_traps width is_signed left right }
    ensures some { result ≡ false → 0 < at_width width right }
{
    let is_least = widened(width, left) == least(width);
    at_width(width, right) == 0 || (is_signed && is_least && widened(width, right) == u64::MAX)
}

/// The upper half of a number extended to twice its width: zeros, or copies of its highest bit.
pub fn extended(width: Width, is_signed: bool, number: u64) -> u64
    ensures { result ≡ extended width is_signed number }
{
    if is_signed && is_negative(widened(width, number)) {
        at_width(width, u64::MAX)
    } else {
        0
    }
}

/// Whether a condition holds.
pub fn does_hold(condition: Condition, left: u64, right: u64) -> bool
    ensures { result ≡ condition_holds condition left right }
{
    match condition {
        Condition::Equal => left == right,
        Condition::NotEqual => left != right,
        Condition::Less => left < right,
        Condition::LessOrEqual => left <= right,
        Condition::Greater => left > right,
        Condition::GreaterOrEqual => left >= right,
        Condition::SignedLess => signed_rank(left) < signed_rank(right),
        Condition::SignedLessOrEqual => signed_rank(left) <= signed_rank(right),
        Condition::SignedGreater => signed_rank(left) > signed_rank(right),
        Condition::SignedGreaterOrEqual => signed_rank(left) >= signed_rank(right),
    }
}

/// An argument; arguments past the given ones are 0.
pub fn argument(arguments: &[u64], index: u32) -> u64
    ensures { result ≡ arguments_of arguments.now index }
{
    arguments.get(index as usize).copied().unwrap_or(0)
}
