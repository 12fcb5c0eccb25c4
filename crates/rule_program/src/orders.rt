//! Lists of the orders 0 and 1, by number.
ghost use Rattle.std.specs.Prelude.{◌≡◌, ◌<◌, ◌≤◌, ◌^◌, length};
ghost use Rattle.label.specs.Oral.{AllBelow};
ghost use Rattle.rule_program.specs.Majorities.{binary};

use arrayvec::ArrayVec;

/// Returns the list of 0 and 1 that has this length and this binary number. The first order is the most significant
/// digit.
pub(crate) fn orders_of(number: u32, size: usize) -> ArrayVec<u32, 12>
    requires few { size ≤ 12 }
    requires digits { number < 2 ^ size }
    ensures long { length result.items ≡ size }
    ensures two { AllBelow 2 result.items }
    ensures number { binary result.items ≡ number }
{
    let mut orders = ArrayVec::new();
    for place in 0..size {
        orders.push((number >> (size - 1 - place)) % 2);
    }
    orders
}
