//! Returns what is known of immediate numbers and of loaded numbers, and joins what is known on two paths.
ghost use Rattle.std.specs.Prelude.{◌≡◌, ◌≤◌, ◌<◌, ◌^◌, ◌-◌, ◌≤ℤ◌, ℕ};
ghost use Rattle.std.specs.Int.{w64, cast_unsigned};
ghost use Rattle.insn.specs.Insn.{bytes_of};
ghost use Rattle.semantics.specs.declared.value.Value.{Value};
ghost use Rattle.absval.specs.Contains.{Contains, IsNumberOf, IsPointerIn};
ghost use Rattle.absval.specs.Table.{immediate_known, loaded_known, joined as known_joined, joined_offsets};

use crate::number_set::NumberSet;
use crate::value::{AbsVal, Offsets};
use insn::Size;
use range::Range;
use semantics::Region;

/// Returns what is known of an immediate number, sign-extended to 64 bits: it is exactly one number.
pub fn immediate(n: i32) -> AbsVal
    ensures holds { Contains result (Value.Number (cast_unsigned w64 n)) }
    ensures exact { result ≡ immediate_known n }
{
    AbsVal::Number(NumberSet::exactly(i64::from(n).cast_unsigned()))
}

/// Returns what is known of a number loaded from 1, 2, 4 or 8 bytes: it is any number of this size.
pub fn loaded(size: Size) -> AbsVal
    ensures holds { (n : ℕ) → n < 256 ^ bytes_of size → Contains result (Value.Number n) }
    ensures exact { result ≡ loaded_known size }
{
    AbsVal::Number(NumberSet::within(numbers_of(size)))
}

/// Returns the range of the unsigned numbers of 1, 2, 4 or 8 bytes, such as 0 to 255.
fn numbers_of(size: Size) -> Range
    ensures high { (n : ℕ) → n < 256 ^ bytes_of size → n ≤ result.1 }
    ensures low { result.0 ≡ 0 }
    ensures exact { result.1 ≡ 256 ^ bytes_of size - 1 }
{
    let hi = match size {
        Size::Byte => 0xff,
        Size::Half => 0xffff,
        Size::Word => 0xffff_ffff,
        Size::Double => u64::MAX,
    };
    Range { lo: 0, hi }
}

/// Joins what is known of a value on two paths: the result contains every value that `a` or `b` contains.
pub fn join(a: AbsVal, b: AbsVal) -> AbsVal
    ensures left { (v : Value) → Contains a v → Contains result v }
    ensures right { (v : Value) → Contains b v → Contains result v }
    ensures exact { result ≡ known_joined a b }
{
    match a {
        AbsVal::Unset => AbsVal::Unset,
        AbsVal::Number(m) => join_number(m, b),
        AbsVal::Pointer(region, m) => join_pointer(region, m, b),
    }
}

/// Joins a set of numbers with an abstract value. Returns `Unset`, which says nothing, if `b` is not a set of numbers.
fn join_number(m: NumberSet, b: AbsVal) -> AbsVal
    ensures left { (v : Value) → IsNumberOf m v → Contains result v }
    ensures right { (v : Value) → Contains b v → Contains result v }
    ensures exact { result ≡ known_joined (AbsVal.Number m) b }
{
    match b {
        AbsVal::Number(n) => AbsVal::Number(m.join(n)),
        AbsVal::Unset | AbsVal::Pointer(..) => AbsVal::Unset,
    }
}

/// Joins a pointer into a region with an abstract value. Returns `Unset`, which says nothing, if `b` is not a pointer
/// into the same region.
fn join_pointer(region: Region, m: Offsets, b: AbsVal) -> AbsVal
    ensures left { (v : Value) → IsPointerIn region m.0 m.1 v → Contains result v }
    ensures right { (v : Value) → Contains b v → Contains result v }
    ensures exact { result ≡ known_joined (AbsVal.Pointer region m) b }
{
    match b {
        AbsVal::Pointer(other, n) => match (region, other) {
            (Region::Stack, Region::Stack) => AbsVal::Pointer(region, joined(m, n)),
            (Region::Context, Region::Context) => AbsVal::Pointer(region, joined(m, n)),
            _ => AbsVal::Unset,
        },
        AbsVal::Unset | AbsVal::Number(_) => AbsVal::Unset,
    }
}

/// Returns the smallest range of offsets that contains both ranges.
fn joined(m: Offsets, n: Offsets) -> Offsets
    ensures low_left { result.0 ≤ℤ m.0 }
    ensures low_right { result.0 ≤ℤ n.0 }
    ensures high_left { m.1 ≤ℤ result.1 }
    ensures high_right { n.1 ≤ℤ result.1 }
    ensures exact { result ≡ joined_offsets m n }
{
    Offsets {
        low: m.low.min(n.low),
        high: m.high.max(n.high),
    }
}
