//! Defines the trait of rules that combine a list of orders into one order.
ghost use Rattle.std.specs.Prelude.{◌≡◌, ◌<◌, ◌≤◌, ℕ, List, insert, length};
ghost use Rattle.combine.specs.Rule.{IsMajorityRule};

use crate::orders::orders_of;

/// A rule that combines a list of orders into one order. The result depends only on the rule and the list.
pub trait Combine {
    /// The order that results if the rule combines a list of orders.
    ghost combined: { Self → List ℕ → ℕ };

    /// Combines a list of orders into one order. Allocates no memory.
    fn combine(&self, orders: &[u32]) -> u32
        ensures { result ≡ combined self.now orders.now };

    /// Combines at most 12 received orders and the general's own order into one order. The own order is inserted at the
    /// index `place`, which is at most the number of received orders. Allocates no memory.
    fn combine_told(&self, told: &[u32], place: usize, own: u32) -> u32
        requires place { place ≤ length told.now }
        requires few { length told.now < 13 }
        ensures { result ≡ combined self.now (insert told.now place own) }
    {
        let orders = orders_of(told, place, own);
        self.combine(orders.as_slice())
    }

    /// If one order makes up more than half of a list, the rule returns this order.
    ghost most_decide: { (rule : Self) → IsMajorityRule (combined rule) };
}
