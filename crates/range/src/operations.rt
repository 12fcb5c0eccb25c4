//! Computes the ranges of the results of operations with two operands.

ghost use Rattle.std.specs.Prelude.{◌≡◌, ◌<◌, ◌^◌, ℕ};
ghost use Rattle.word.specs.Arithmetic.{bits_of, arithmetic};
ghost use Rattle.range.specs.Interval.{IsIn};
ghost use Rattle.range.specs.Table.{table, row};

use crate::range::Range;
use crate::width::used;
use crate::{bit_operations, quotients, shifts, sums};
use word::arithmetic::{alu32, alu64};
use word::{Operation, Width};

/// Returns a range that contains the operation's results for all numbers of `a` and `b`. If each of these has only
/// one number, it contains only their result. The function is not inlined, because its code is long.
#[inline(never)]
pub fn operate(width: Width, operation: Operation, a: Range, b: Range) -> Range
    ensures exact { result ≡ table width operation a.0 a.1 b.0 b.1 }
    ensures holds { (x y : ℕ) → IsIn a.0 a.1 x → IsIn b.0 b.1 y
        → IsIn result.0 result.1 (arithmetic width operation x y) }
    ensures below { result.1 < 2 ^ bits_of width }
{
    let a = used(width, a);
    let b = used(width, b);
    if a.is_single() && b.is_single() {
        return Range::exactly(computed(width, operation, a.lo, b.lo));
    }
    by_row(width, operation, a, b)
}

/// Returns the result of an operation on two words, or on their low 32 bits.
fn computed(width: Width, operation: Operation, a: u64, b: u64) -> u64
    ensures exact { result ≡ arithmetic width operation a b }
    ensures below { result < 2 ^ bits_of width }
{
    match width {
        Width::W64 => alu64(operation, a, b),
        Width::W32 => alu32(operation, a, b),
    }
}

/// Returns a range that contains the operation's results for all numbers of `a` and `b`. No number may exceed the
/// width.
fn by_row(width: Width, operation: Operation, a: Range, b: Range) -> Range
    requires left { a.1 < 2 ^ bits_of width }
    requires right { b.1 < 2 ^ bits_of width }
    ensures exact { result ≡ row width operation a.0 a.1 b.0 b.1 }
    ensures below { result.1 < 2 ^ bits_of width }
{
    match operation {
        Operation::Add => sums::add(width, a, b),
        Operation::Sub => sums::subtract(width, a, b),
        Operation::Mul => sums::multiply(width, a, b),
        Operation::Div => quotients::divide(width, a, b),
        Operation::SignedDiv => quotients::divide_signed(width, a, b),
        Operation::Or => bit_operations::or(a, b),
        Operation::And => bit_operations::and(a, b),
        Operation::ShiftLeft => shifts::shift_left(width, a, b),
        Operation::ShiftRight => shifts::shift_right(width, a, b),
        Operation::Mod => quotients::remain(width, a, b),
        Operation::SignedMod => quotients::remain_signed(width, a, b),
        Operation::Xor => bit_operations::xor(a, b),
        Operation::Move => b,
        Operation::ArithmeticShiftRight => shifts::shift_signed(width, a, b),
    }
}
