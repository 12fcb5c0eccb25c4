//! Inserts a general's own order among the orders that he received.
ghost use Rattle.std.specs.Prelude.{◌≡◌, ◌<◌, ◌≤◌, insert, length};

use arrayvec::ArrayVec;

/// Returns the received orders `told`, at most 12, with the general's own order inserted at the index `place`.
pub fn orders_of(told: &[u32], place: usize, own: u32) -> ArrayVec<u32, 13>
    requires place { place ≤ length told.now }
    requires few { length told.now < 13 }
    ensures { result.items ≡ insert told.now place own }
{
    let mut orders: ArrayVec<u32, 13> = ArrayVec::new();
    for x in &told[..place] {
        orders.push(*x);
    }
    orders.push(own);
    for y in &told[place..] {
        orders.push(*y);
    }
    orders
}
