//! Computes the known bits of the results of operations.

ghost use Rattle.std.specs.Prelude.{◌≡◌, ◌<◌, ◌^◌, ℕ};
ghost use Rattle.word.specs.Arithmetic.{taken, bits_of, arithmetic};
ghost use Rattle.bits.specs.Known.{HasBits, used, common, either, differing, row, table};

use crate::bits::Bits;
use word::{Operation, Width};

/// Returns the known bits of an operation's results for all words of `a` and `b`. AND, OR, XOR and MOV are computed
/// bit by bit. For any other operation all bits of the width are unknown.
pub fn operate(width: Width, operation: Operation, a: Bits, b: Bits) -> Bits
    ensures exact { result ≡ table width operation a b }
    ensures holds { (x y : ℕ) → HasBits a x → HasBits b y
        → arithmetic width operation x y < 2 ^ bits_of width → HasBits result (arithmetic width operation x y) }
{
    let _unknown = (a.mask, b.mask);
    let a = used(width, a);
    let b = used(width, b);
    by_row(width, operation, a, b)
}

/// Returns the known bits of an operation's results for words of `a` and `b` that have no bits above the width.
fn by_row(width: Width, operation: Operation, a: Bits, b: Bits) -> Bits
    ensures exact { result ≡ row width operation a b }
{
    match operation {
        Operation::And => and(a, b),
        Operation::Or => or(a, b),
        Operation::Xor => xor(a, b),
        Operation::Move => b,
        Operation::Add => Bits::unknown(width),
        Operation::Sub => Bits::unknown(width),
        Operation::Mul => Bits::unknown(width),
        Operation::Div => Bits::unknown(width),
        Operation::SignedDiv => Bits::unknown(width),
        Operation::ShiftLeft => Bits::unknown(width),
        Operation::ShiftRight => Bits::unknown(width),
        Operation::Mod => Bits::unknown(width),
        Operation::SignedMod => Bits::unknown(width),
        Operation::ArithmeticShiftRight => Bits::unknown(width),
    }
}

/// Returns the known bits of the low 32 or 64 bits, which operations of this width use, of all words of `a`.
pub fn used(width: Width, a: Bits) -> Bits
    ensures exact { result ≡ used width a }
    ensures holds { (x : ℕ) → HasBits a x → HasBits result (taken width x) }
{
    match width {
        Width::W64 => a,
        Width::W32 => low_word(a),
    }
}

/// Returns the known bits of the low 32 bits of all words of `a`.
fn low_word(a: Bits) -> Bits
    ensures exact { result ≡ used Width.W32 a }
    ensures holds { (x : ℕ) → HasBits a x → HasBits result (taken Width.W32 x) }
{
    Bits {
        mask: a.mask % 0x1_0000_0000,
        value: a.value % 0x1_0000_0000,
    }
}

/// Returns the known bits of `x & y` for all words `x` of `a` and `y` of `b`.
fn and(a: Bits, b: Bits) -> Bits
    ensures exact { result ≡ common a b }
{
    let value = a.value & b.value;
    let possible = (a.value | a.mask) & (b.value | b.mask);
    Bits {
        mask: possible & !value,
        value,
    }
}

/// Returns the known bits of `x | y` for all words `x` of `a` and `y` of `b`.
fn or(a: Bits, b: Bits) -> Bits
    ensures exact { result ≡ either a b }
{
    let value = a.value | b.value;
    Bits {
        mask: (a.mask | b.mask) & !value,
        value,
    }
}

/// Returns the known bits of `x ^ y` for all words `x` of `a` and `y` of `b`.
fn xor(a: Bits, b: Bits) -> Bits
    ensures exact { result ≡ differing a b }
{
    let mask = a.mask | b.mask;
    Bits {
        mask,
        value: (a.value ^ b.value) & !mask,
    }
}
