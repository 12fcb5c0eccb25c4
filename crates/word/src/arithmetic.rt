//! Computes the arithmetic instructions on words: operations on two words, negation and sign extension.

ghost use Rattle.std.specs.Prelude.{◌≡◌, ◌<◌, ◌^◌, ◌%◌, ℤ};
ghost use Rattle.std.specs.Int.{cast_signed, cast_unsigned, w32, w64, int_shr};
ghost use Rattle.word.specs.Arithmetic.{arithmetic, operated, negated, sign_extended, signed_part};

use crate::low_bits::{low_byte, low_half, low_word};
use crate::{Narrow, Operation, Width};

/// Returns the 64-bit result of an operation on two words, wrapped if needed. Shift counts are taken modulo 64. A
/// quotient by 0 is 0, and a remainder by 0 is `a`.
pub fn alu64(operation: Operation, a: u64, b: u64) -> u64
    ensures { result ≡ arithmetic Width.W64 operation a b }
{
    match operation {
        Operation::Add => a.wrapping_add(b),
        Operation::Sub => a.wrapping_sub(b),
        Operation::Mul => a.wrapping_mul(b),
        Operation::Div => a.checked_div(b).unwrap_or(0),
        Operation::SignedDiv => signed_quotient64(a, b),
        Operation::Or => a | b,
        Operation::And => a & b,
        Operation::ShiftLeft => a << (b % 64),
        Operation::ShiftRight => a >> (b % 64),
        Operation::Mod => a.checked_rem(b).unwrap_or(a),
        Operation::SignedMod => signed_remainder64(a, b),
        Operation::Xor => a ^ b,
        Operation::Move => b,
        Operation::ArithmeticShiftRight => shifted_signed64(a, b),
    }
}

/// Returns the signed quotient of two words, truncated towards zero. If the divisor is 0, the quotient is 0.
fn signed_quotient64(a: u64, b: u64) -> u64
    ensures { result ≡ operated Width.W64 Operation.SignedDiv a b }
{
    if b == 0 {
        return 0;
    }
    a.cast_signed()
        .wrapping_div(b.cast_signed())
        .cast_unsigned()
}

/// Returns the remainder of the signed division of two words, with the sign of `a`. If the divisor is 0, the remainder
/// is `a`.
fn signed_remainder64(a: u64, b: u64) -> u64
    ensures { result ≡ operated Width.W64 Operation.SignedMod a b }
{
    if b == 0 {
        return a;
    }
    a.cast_signed()
        .wrapping_rem(b.cast_signed())
        .cast_unsigned()
}

/// Returns `a` shifted right by `b` modulo 64 bits, with copies of its sign bit shifted in.
fn shifted_signed64(a: u64, b: u64) -> u64
    ensures { result ≡ operated Width.W64 Operation.ArithmeticShiftRight a b }
{
    (a.cast_signed() >> (b % 64)).cast_unsigned()
}

/// Returns the result of an operation on the low 32 bits of two words. The result is below 2^32. Shift counts are
/// taken modulo 32. A quotient by 0 is 0, and a remainder by 0 is the low 32 bits of `a`.
pub fn alu32(operation: Operation, a: u64, b: u64) -> u64
    ensures exact { result ≡ arithmetic Width.W32 operation a b }
    ensures below { result < 2 ^ 32 }
{
    u64::from(operated32(operation, low_word(a), low_word(b)))
}

/// Returns the result of an operation on two 32-bit numbers, wrapped if needed. Shift counts are taken modulo 32. A
/// quotient by 0 is 0, and a remainder by 0 is `a`.
fn operated32(operation: Operation, a: u32, b: u32) -> u32
    ensures { result ≡ operated Width.W32 operation a b }
{
    match operation {
        Operation::Add => a.wrapping_add(b),
        Operation::Sub => a.wrapping_sub(b),
        Operation::Mul => a.wrapping_mul(b),
        Operation::Div => a.checked_div(b).unwrap_or(0),
        Operation::SignedDiv => signed_quotient32(a, b),
        Operation::Or => a | b,
        Operation::And => a & b,
        Operation::ShiftLeft => a << (b % 32),
        Operation::ShiftRight => a >> (b % 32),
        Operation::Mod => a.checked_rem(b).unwrap_or(a),
        Operation::SignedMod => signed_remainder32(a, b),
        Operation::Xor => a ^ b,
        Operation::Move => b,
        Operation::ArithmeticShiftRight => shifted_signed32(a, b),
    }
}

/// Returns the signed quotient of two 32-bit numbers, truncated towards zero. If the divisor is 0, the quotient is 0.
fn signed_quotient32(a: u32, b: u32) -> u32
    ensures { result ≡ operated Width.W32 Operation.SignedDiv a b }
{
    if b == 0 {
        return 0;
    }
    a.cast_signed()
        .wrapping_div(b.cast_signed())
        .cast_unsigned()
}

/// Returns the remainder of the signed division of two 32-bit numbers, with the sign of `a`. If the divisor is 0, the
/// remainder is `a`.
fn signed_remainder32(a: u32, b: u32) -> u32
    ensures { result ≡ operated Width.W32 Operation.SignedMod a b }
{
    if b == 0 {
        return a;
    }
    a.cast_signed()
        .wrapping_rem(b.cast_signed())
        .cast_unsigned()
}

/// Returns `a` shifted right by `b` modulo 32 bits, with copies of its sign bit shifted in.
fn shifted_signed32(a: u32, b: u32) -> u32
    ensures { result ≡ operated Width.W32 Operation.ArithmeticShiftRight a b }
{
    (a.cast_signed() >> (b % 32)).cast_unsigned()
}

/// Returns the negated word, wrapped at the width. At 32 bits, only the low 32 bits are negated, and the upper half
/// of the result is zero.
pub fn negate(width: Width, a: u64) -> u64
    ensures { result ≡ negated width a }
{
    match width {
        Width::W64 => 0u64.wrapping_sub(a),
        Width::W32 => u64::from(0u32.wrapping_sub(low_word(a))),
    }
}

/// Returns the low 8, 16 or 32 bits of a word, sign-extended to the width. At 32 bits, the upper half of the result
/// is zero.
pub fn sign_extend(width: Width, part: Narrow, a: u64) -> u64
    ensures { result ≡ sign_extended width part a }
{
    match width {
        Width::W64 => i64::from(signed_low(part, a)).cast_unsigned(),
        Width::W32 => u64::from(signed_low(part, a).cast_unsigned()),
    }
}

/// Returns the low 8, 16 or 32 bits of a word, read as a signed number.
fn signed_low(part: Narrow, a: u64) -> i32
    ensures { result ≡ signed_part part a }
{
    match part {
        Narrow::Byte => i32::from(low_byte(a).cast_signed()),
        Narrow::Half => i32::from(low_half(a).cast_signed()),
        Narrow::Word => low_word(a).cast_signed(),
    }
}
