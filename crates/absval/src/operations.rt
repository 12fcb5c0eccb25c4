//! Operations on abstract values, which say what is known of a result: arithmetic on numbers and pointers, negation,
//! sign extension and byte swaps.
ghost use Rattle.std.specs.Prelude.{◌≡◌, ◌≢◌, ◌≤ℤ◌, ℕ, ℤ, IfSome};
ghost use Rattle.word.specs.Arithmetic.{negated, sign_extended, swapped};
ghost use Rattle.semantics.specs.declared.value.Value.{Value};
ghost use Rattle.semantics.specs.Step.{result_of, mapped};
ghost use Rattle.absval.specs.NumberSets.{Has};
ghost use Rattle.absval.specs.Contains.{Contains, Gives};
ghost use Rattle.absval.specs.Table.{computed as known, moved as known_moved, combined as known_combined, shifted as known_shifted, negated_known, extended_known, swapped_known};

use crate::number_set::NumberSet;
use crate::pointer::{as_signed, lowered, raised};
use crate::value::{AbsVal, Offsets};
use semantics::Region;
use word::{ByteOrder, Narrow, Operation, SwapSize, Width};

/// Returns what is known of an operation's result, from what is known of its operands. Returns `None` if an operand may
/// be unset, or if the operation must not be used on a pointer.
#[inline(always)]
pub fn arithmetic(width: Width, operation: Operation, a: AbsVal, b: AbsVal) -> Option<AbsVal>
    ensures holds { IfSome result (λ r. (x y : Value) → Contains a x → Contains b y →
        Gives r (result_of width operation x y)) }
    ensures exact { result ≡ known width operation a b }
{
    if let Operation::Move = operation {
        return moved(width, b);
    }
    combined(width, operation, a, b)
}

/// Returns what is known of a move's result, from what is known of the moved value. Returns `None` if the value may be
/// unset, or is a pointer and the move has 32 bits.
#[inline(always)]
fn moved(width: Width, b: AbsVal) -> Option<AbsVal>
    ensures holds { IfSome result (λ r. (x y : Value) → Contains b y → Gives r (result_of width Operation.Move x y)) }
    ensures exact { result ≡ known_moved width b }
{
    match b {
        AbsVal::Unset => None,
        AbsVal::Number(n) => Some(AbsVal::Number(n.low_bits(width))),
        AbsVal::Pointer(..) => match width {
            Width::W64 => Some(b),
            Width::W32 => None,
        },
    }
}

/// Returns what is known of the result of an operation other than a move. Returns `None` if an operand may be unset, or
/// if the operation must not be used on a pointer.
#[inline(always)]
fn combined(width: Width, operation: Operation, a: AbsVal, b: AbsVal) -> Option<AbsVal>
    requires { operation ≢ Operation.Move }
    ensures holds { IfSome result (λ r. (x y : Value) → Contains a x → Contains b y →
        Gives r (result_of width operation x y)) }
    ensures exact { result ≡ known_combined width operation a b }
{
    let AbsVal::Number(n) = b else {
        return None;
    };
    match a {
        AbsVal::Unset => None,
        AbsVal::Number(m) => { Some(AbsVal::Number(NumberSet::operate(width, operation, m, n))) }
        AbsVal::Pointer(region, offsets) => shifted(width, operation, region, offsets, n),
    }
}

/// Returns what is known of a pointer after a number is added or subtracted. Returns `None` for any other operation and
/// for 32 bits, if the number may be above or below 0, or if the pointer may lead too far.
fn shifted(
    width: Width,
    operation: Operation,
    region: Region,
    offsets: Offsets,
    n: NumberSet,
) -> Option<AbsVal>
    requires { operation ≢ Operation.Move }
    ensures holds { IfSome result (λ r. (o : ℤ) (y : ℕ) → offsets.0 ≤ℤ o → o ≤ℤ offsets.1 → Has n y →
        Gives r (result_of width operation (Value.Pointer region o) (Value.Number y))) }
    ensures exact { result ≡ known_shifted width operation region offsets n }
{
    let Width::W64 = width else {
        return None;
    };
    let by = as_signed(n.range())?;
    match operation {
        Operation::Add => Some(AbsVal::Pointer(region, raised(offsets, by)?)),
        Operation::Sub => Some(AbsVal::Pointer(region, lowered(offsets, by)?)),
        _ => None,
    }
}

/// Returns what is known of a value's negation, or `None` if the value may not be a number.
pub fn negate(width: Width, a: AbsVal) -> Option<AbsVal>
    ensures holds { IfSome result (λ r. (x : Value) → Contains a x → Gives r (mapped (negated width) x)) }
    ensures exact { result ≡ negated_known width a }
{
    match a {
        AbsVal::Number(n) => Some(AbsVal::Number(n.negate(width))),
        AbsVal::Unset | AbsVal::Pointer(..) => None,
    }
}

/// Returns what is known of a value after its low bits are sign-extended, or `None` if the value may not be a number.
pub fn sign_extend(width: Width, part: Narrow, a: AbsVal) -> Option<AbsVal>
    ensures holds { IfSome result (λ r. (x : Value) → Contains a x → Gives r (mapped (sign_extended width part) x)) }
    ensures exact { result ≡ extended_known width part a }
{
    match a {
        AbsVal::Number(n) => Some(AbsVal::Number(n.sign_extend(width, part))),
        AbsVal::Unset | AbsVal::Pointer(..) => None,
    }
}

/// Returns what is known of a value after its low bytes are put in this order, or `None` if the value may not be a
/// number.
pub fn swap(order: ByteOrder, size: SwapSize, a: AbsVal) -> Option<AbsVal>
    ensures holds { IfSome result (λ r. (x : Value) → Contains a x → Gives r (mapped (swapped order size) x)) }
    ensures exact { result ≡ swapped_known order size a }
{
    match a {
        AbsVal::Number(n) => Some(AbsVal::Number(n.swap(order, size))),
        AbsVal::Unset | AbsVal::Pointer(..) => None,
    }
}
