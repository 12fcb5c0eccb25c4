//! Finds what is wrong with a rejected sum or difference of a pointer and a number.
ghost use Rattle.std.specs.Prelude.{◌≡◌, ◌+ℤ◌, ◌-ℤ◌};
ghost use Rattle.absval.specs.Table.{in_a_row};
ghost use Rattle.explain.specs.Shortfalls.{lowers, clamped, moved, either_sign, far, sum_misuse};

use crate::sentence::{RegisterMisuse, Sentence};
use crate::values::{NumberSpan, between};
use absval::{AbsVal, NumberSet, Offsets};
use helper::reads::of_operand;
use insn::{Operand, Reg};
use semantics::Region;
use word::{Operation, Width};

/// Returns whether the operation lowers a pointer: false for a 64-bit sum, true for a 64-bit difference. Returns `None`
/// for any other operation, which must not be used on pointers.
fn lowers(width: Width, operation: Operation) -> Option<bool>
    ensures { result ≡ lowers width operation }
{
    match (width, operation) {
        (Width::W64, Operation::Add) => Some(false),
        (Width::W64, Operation::Sub) => Some(true),
        _ => None,
    }
}

/// Returns the signed 64-bit number that is nearest to `z`.
fn clamped(z: i128) -> i64
    ensures { result ≡ clamped z }
{
    if z > i128::from(i64::MAX) {
        i64::MAX
    } else if z < i128::from(i64::MIN) {
        i64::MIN
    } else {
        z as i64
    }
}

/// Returns `offset` + `by`, or the nearest signed 64-bit number.
fn raised(offset: i32, by: i64) -> i64
    ensures { result ≡ clamped (offset +ℤ by) }
{
    clamped(i128::from(offset) + i128::from(by))
}

/// Returns `offset` - `by`, or the nearest signed 64-bit number.
fn lowered(offset: i32, by: i64) -> i64
    ensures { result ≡ clamped (offset -ℤ by) }
{
    clamped(i128::from(offset) - i128::from(by))
}

/// Returns the least and the greatest offset after a pointer with these offsets is moved by a number from `least` to
/// `greatest`. `down` says that the number is subtracted.
fn moved(down: bool, offsets: Offsets, least: i64, greatest: i64) -> NumberSpan
    ensures { result ≡ moved down offsets (least, greatest) }
{
    if down {
        let low = lowered(offsets.low, greatest);
        between(low, lowered(offsets.high, least))
    } else {
        let low = raised(offsets.low, least);
        between(low, raised(offsets.high, greatest))
    }
}

/// Returns the sentence that says that a pointer cannot be moved by a number that may be above or below 0. Returns
/// `None` if the number is not in a register.
fn either_sign(register: Option<Reg>, numbers: NumberSet) -> Option<Sentence>
    ensures { result ≡ either_sign register numbers }
{
    let r = register?;
    Some(Sentence::Register(RegisterMisuse::EitherSign(r, AbsVal::Number(numbers))))
}

/// A pointer in register `dst`, and whether a number is subtracted from it (`down`) or added.
#[derive(Clone, Copy)]
struct Start {
    down: bool,
    dst: Reg,
    region: Region,
    offsets: Offsets,
}

/// Returns the sentence that says that a pointer cannot be moved by a number: the number may be above or below 0, or
/// the pointer would point too far. Returns `None` if the number may be above or below 0 and is not in a register.
fn far(pointer: Start, operand: Operand, numbers: NumberSet) -> Option<Sentence>
    ensures { result ≡ far pointer.down pointer.dst pointer.region pointer.offsets operand numbers
        (in_a_row numbers.range) }
{
    let Some((least, greatest)) = numbers.as_signed() else {
        return either_sign(of_operand(operand), numbers);
    };
    let span = moved(pointer.down, pointer.offsets, least, greatest);
    Some(Sentence::Register(RegisterMisuse::Far(pointer.dst, pointer.region, span)))
}

/// Returns the sentence that says that a sum or difference of a pointer and a number is rejected. It is not checked
/// that it is. Returns `None` if the operation is not one, if its operands are not a pointer and then a number, or if
/// the number may be above or below 0 and is not in a register.
pub(crate) fn sum_misuse(
    how: (Width, Operation),
    dst: Reg,
    operand: Operand,
    first: AbsVal,
    second: AbsVal,
) -> Option<Sentence>
    ensures { result ≡ sum_misuse (lowers how.0 how.1) dst operand first second }
{
    let down = lowers(how.0, how.1)?;
    let AbsVal::Pointer(region, offsets) = first else {
        return None;
    };
    let AbsVal::Number(numbers) = second else {
        return None;
    };
    let pointer = Start {
        down,
        dst,
        region,
        offsets,
    };
    far(pointer, operand, numbers)
}
