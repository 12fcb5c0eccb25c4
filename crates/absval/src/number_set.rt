//! Sets of numbers, which say what is known of a number: the range that contains it, and some of its bits.
ghost use Rattle.std.specs.Prelude.{◌≡◌, ◌≤◌, ◌<◌, ◌^◌, ℕ, IsTrue, IsSomeAnd, false};
ghost use Rattle.word.specs.Arithmetic.{arithmetic, bits_of, taken, negated, sign_extended, swapped, compared};
ghost use Rattle.range.specs.Interval.{IsIn};
ghost use Rattle.bits.specs.Known.{HasBits, row, unknown};
ghost use Rattle.absval.specs.NumberSets.{Has, HaveBoth, single, within, any, greatest, is_one, joined, copies, reduced, settled, table, negations, extensions, swaps, refined};
ghost use Rattle.absval.specs.Table.{in_a_row};

use crate::pointer;
use bits::{Bits, operations as bitwise};
use range::{Range, edges, operations as ranges, unary_operations, width as widths};
use std::marker::Model;
use word::{ByteOrder, Condition, Narrow, Operation, SwapSize, Width};

/// A set of numbers: those in a range that have certain known bits.
#[derive(Clone, Copy)]
pub struct NumberSet {
    range: Range,
    bits: Bits,
}

impl Model for NumberSet {
    ghost use Rattle.absval.specs.Numbers.{Numbers};

    ghost Value = { Numbers };

    ghost view = { λ n. record { range = n.range; bits = n.bits } };

    ghost inverse = { λ v. record { range = v.range; bits = v.bits } };
}

impl NumberSet {
    /// Returns the set that contains only `n`.
    pub fn exactly(n: u64) -> NumberSet
        ensures exact { result ≡ single n }
        ensures holds { Has result n }
    {
        NumberSet {
            range: Range::exactly(n),
            bits: Bits::exactly(n),
        }
    }

    /// Returns the set that contains all numbers of `range`. None of their bits is known.
    pub fn within(range: Range) -> NumberSet
        ensures exact { result ≡ within range }
        ensures holds { (x : ℕ) → IsIn range.0 range.1 x → Has result x }
    {
        let _greatest = range.hi;
        NumberSet {
            range,
            bits: Bits::unknown(Width::W64),
        }
    }

    /// Returns the set of all 64-bit numbers.
    pub fn any() -> NumberSet
        ensures exact { result ≡ any }
        ensures holds { (x : ℕ) → x < 2 ^ 64 → Has result x }
    {
        NumberSet {
            range: Range::full(),
            bits: Bits::unknown(Width::W64),
        }
    }

    /// Returns the range of the set, which contains all its numbers.
    pub fn range(self) -> Range
        ensures exact { result ≡ self.range }
        ensures holds { (x : ℕ) → Has self x → IsIn result.0 result.1 x }
    {
        self.range
    }

    /// Returns the bits that are known of all numbers in the set.
    pub fn bits(self) -> Bits
        ensures exact { result ≡ self.bits }
        ensures holds { (x : ℕ) → Has self x → HasBits result x }
    {
        self.bits
    }

    /// Returns the greatest number of the range.
    pub fn greatest(self) -> u64
        ensures exact { result ≡ greatest self }
        ensures holds { (x : ℕ) → Has self x → x ≤ result }
    {
        self.range.hi
    }

    /// Checks whether the set's range has only one number.
    pub fn is_one(self) -> bool
        ensures exact { result ≡ is_one self }
        ensures holds { (x : ℕ) → IsTrue result → Has self x → x ≡ greatest self }
    {
        self.range.is_single()
    }

    /// Returns the ends of the set's range as signed numbers. Returns `None` if the range contains both 2^63 - 1 and
    /// 2^63, at which the sign changes.
    pub fn as_signed(self) -> Option<(i64, i64)>
        ensures { result ≡ in_a_row self.range }
    {
        let row = pointer::as_signed(self.range)?;
        Some((row.low, row.high))
    }

    /// Joins two sets: returns one that contains all numbers of both. Range and known bits are joined separately, so
    /// the result may contain other numbers too.
    pub fn join(self, other: NumberSet) -> NumberSet
        ensures exact { result ≡ joined self other }
        ensures left { (x : ℕ) → Has self x → Has result x }
        ensures right { (x : ℕ) → Has other x → Has result x }
    {
        NumberSet {
            range: self.range.join(other.range),
            bits: self.bits.join(other.bits),
        }
    }

    /// Returns a set that contains all results of an operation on a number of `a` and a number of `b`.
    #[inline(always)]
    pub fn operate(width: Width, operation: Operation, a: NumberSet, b: NumberSet) -> NumberSet
        ensures exact { result ≡ table width operation a b }
        ensures holds { (x y : ℕ) → Has a x → Has b y → Has result (arithmetic width operation x y) }
    {
        let range = ranges::operate(width, operation, a.range, b.range);
        if !goes_bit_by_bit(operation) {
            return whatever_bits(width, range);
        }
        let bits = bitwise::operate(width, operation, a.bits, b.bits);
        settle(range, bits)
    }

    /// Returns a set that contains the low bits of all numbers of this set: 32 or 64, as the width says.
    pub fn low_bits(self, width: Width) -> NumberSet
        ensures exact { result ≡ copies width self }
        ensures holds { (x : ℕ) → Has self x → Has result (taken width x) }
    {
        settle(
            widths::used(width, self.range),
            bitwise::used(width, self.bits),
        )
    }

    /// Returns a set that contains the negations of all numbers of this set.
    pub fn negate(self, width: Width) -> NumberSet
        ensures exact { result ≡ negations width self }
        ensures holds { (x : ℕ) → Has self x → Has result (negated width x) }
    {
        let range = unary_operations::negate(width, self.range);
        whatever_bits(width, range)
    }

    /// Returns a set that contains all numbers of this set after their low 8, 16 or 32 bits are sign-extended to the
    /// width.
    pub fn sign_extend(self, width: Width, part: Narrow) -> NumberSet
        ensures exact { result ≡ extensions width part self }
        ensures holds { (x : ℕ) → Has self x → Has result (sign_extended width part x) }
    {
        let range = unary_operations::sign_extend(width, part, self.range);
        whatever_bits(width, range)
    }

    /// Returns a set that contains all numbers of this set after their low 2, 4 or 8 bytes are put in this order.
    pub fn swap(self, order: ByteOrder, size: SwapSize) -> NumberSet
        ensures exact { result ≡ swaps order size self }
        ensures holds { (x : ℕ) → Has self x → Has result (swapped order size x) }
    {
        let range = unary_operations::swap(order, size, self.range);
        whatever_bits(Width::W64, range)
    }

    /// Narrows two sets of compared numbers to the case that the condition holds (`taken`) or does not hold. Every pair
    /// of numbers in this case stays in the results. `None` means that there is no such pair.
    #[inline(always)]
    pub fn refine(
        width: Width,
        condition: Condition,
        taken: bool,
        a: NumberSet,
        b: NumberSet,
    ) -> Option<(NumberSet, NumberSet)>
        ensures exact { result ≡ refined width condition taken a b }
        ensures holds { (x y : ℕ) → Has a x → Has b y → compared width condition x y ≡ taken → HaveBoth result x y }
    {
        if !edges::tells(width, condition, a.range, b.range) {
            return Some((a, b));
        }
        let (first, second) = edges::refine(width, condition, taken, a.range, b.range)?;
        let first = reduce(first, a.bits)?;
        let second = reduce(second, b.bits)?;
        Some((first, second))
    }
}

/// Returns the set of the numbers in `range` with the known bits `bits`, with one narrowed by the other. If the range
/// has one number, all its bits are known. Otherwise the range is cut to the least and the greatest number with these
/// bits. Returns `None` if the two contradict each other.
#[inline(always)]
fn reduce(range: Range, bits: Bits) -> Option<NumberSet>
    ensures exact { result ≡ reduced range bits }
    ensures holds { (x : ℕ) → IsIn range.0 range.1 x → HasBits bits x → IsSomeAnd result (λ n. Has n x) }
{
    if range.is_single() {
        return single_with(range, bits);
    }
    let lo = range.lo.max(bits.least());
    let hi = range.hi.min(bits.greatest());
    if hi < lo {
        return None;
    }
    Some(NumberSet {
        range: Range { lo, hi },
        bits,
    })
}

/// Returns the set of the only number in `range`, or `None` if it does not have the known bits `bits`.
#[inline(always)]
fn single_with(range: Range, bits: Bits) -> Option<NumberSet>
    requires { range.0 ≡ range.1 }
    ensures exact { result ≡ reduced range bits }
    ensures holds { (x : ℕ) → IsIn range.0 range.1 x → HasBits bits x → IsSomeAnd result (λ n. Has n x) }
{
    if !bits.contains(range.lo) {
        return None;
    }
    Some(NumberSet {
        range,
        bits: Bits::exactly(range.lo),
    })
}

/// Checks whether bits of an operation's result are computed from those of its operands. For other operations, no bit
/// of the result is known.
#[inline(always)]
fn goes_bit_by_bit(operation: Operation) -> bool
    ensures { result ≡ false → (w : Width) (a b : ℕ × ℕ) → row w operation a b ≡ unknown w }
{
    match operation {
        Operation::And | Operation::Or | Operation::Xor | Operation::Move => true,
        Operation::Add | Operation::Sub | Operation::Mul => false,
        Operation::Div | Operation::SignedDiv | Operation::Mod | Operation::SignedMod => false,
        Operation::ShiftLeft | Operation::ShiftRight | Operation::ArithmeticShiftRight => false,
    }
}

/// Returns the set of the numbers in `range`, none of which may exceed the width. If there are several, no bit within
/// the width is known.
#[inline(always)]
fn whatever_bits(width: Width, range: Range) -> NumberSet
    requires { range.1 < 2 ^ bits_of width }
    ensures exact { result ≡ settled range (unknown width) }
    ensures holds { (x : ℕ) → IsIn range.0 range.1 x → Has result x }
{
    if range.is_single() {
        return NumberSet::exactly(range.lo);
    }
    NumberSet {
        range,
        bits: Bits::unknown(width),
    }
}

/// Returns the set of the numbers in `range` with the known bits `bits`. If the two contradict each other, only the
/// range is used.
fn settle(range: Range, bits: Bits) -> NumberSet
    ensures exact { result ≡ settled range bits }
    ensures holds { (x : ℕ) → IsIn range.0 range.1 x → HasBits bits x → Has result x }
{
    let Some(numbers) = reduce(range, bits) else {
        return NumberSet::within(range);
    };
    numbers
}
