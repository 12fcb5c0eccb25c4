//! The majority rule: finds the order that makes up more than half of a list.
ghost use Rattle.std.specs.Prelude.{◌≡◌, ◌==◌, ◌<◌, ◌*◌, ℕ, count_by, find, length, ◌∷◌};
ghost use Rattle.combine.specs.Rule.{majority, is_most};
ghost use Rattle.combine.specs.Laws.{majority_is_rule};

use crate::orders::orders_of;
use crate::rule::Combine;

/// The rule that returns the order that makes up more than half of the list, or RETREAT, 0, if there is none (TOPLAS
/// 1982, section 3).
#[derive(Clone, Copy, PartialEq, Eq)]
pub struct Majority;

impl Combine for Majority {
    ghost combined = { λ _. majority };

    #[tactic(auto, unfolding(crate::specs::Rule::majority))]
    fn combine(&self, orders: &[u32]) -> u32 {
        most(orders).unwrap_or(0)
    }

    /// Combines the received orders and the general's own order by the majority rule. It builds no list if his own
    /// order has a majority, or if only one other order occurs and has a majority. Otherwise it builds the list of
    /// all orders and counts them.
    fn combine_told(&self, told: &[u32], place: usize, own: u32) -> u32 {
        if is_in_most_told(told, own, own) {
            return own;
        }
        let other = other_of_two(told, own);
        if is_in_most_told(told, own, other) {
            return other;
        }
        let orders = orders_of(told, place, own);
        self.combine(orders.as_slice())
    }

    ghost most_decide = { λ _. majority_is_rule };
}

/// Returns the order that makes up more than half of the list, or `None` if there is none.
pub(crate) fn most(orders: &[u32]) -> Option<u32>
    ensures { result ≡ find (is_most orders.now) orders.now }
{
    let candidate = candidate(orders);
    if is_in_most(orders, candidate) {
        Some(candidate)
    } else {
        None
    }
}

/// Returns the only order that can make up more than half of the list. The function removes pairs of different orders
/// (Boyer and Moore 1981). If no order makes up more than half, the result may be any order.
fn candidate(orders: &[u32]) -> u32
    ensures { (v : ℕ) → length orders.now < 2 * count_by (λ x. x == v) orders.now → result ≡ v }
{
    let mut candidate = 0;
    let mut lead: usize = 0;
    for x in orders {
        if lead == 0 {
            candidate = *x;
        }
        if *x == candidate {
            lead += 1;
        } else {
            lead -= 1;
        }
    }
    candidate
}

/// Checks whether the order makes up more than half of the list.
fn is_in_most(orders: &[u32], order: u32) -> bool
    ensures { result ≡ is_most orders.now order }
{
    let count = count(orders, order);
    count > orders.len() - count
}

/// Returns the order other than `own`, if exactly one other order occurs in `told`. Otherwise the result may be any
/// number.
fn other_of_two(told: &[u32], own: u32) -> u32 {
    let mut differences = 0;
    for x in told {
        differences |= *x ^ own;
    }
    own ^ differences
}

/// Checks whether the order makes up more than half of the received orders and the general's own order together.
fn is_in_most_told(told: &[u32], own: u32, order: u32) -> bool
    requires few { length told.now < 13 }
    ensures { result ≡ is_most (own ∷ told.now) order }
{
    let count = count(told, order) + usize::from(own == order);
    count > told.len() + 1 - count
}

/// Returns how often the order occurs in the list.
fn count(orders: &[u32], order: u32) -> usize
    ensures { result ≡ count_by (λ x. x == order) orders.now }
{
    let mut count = 0;
    for x in orders {
        count += usize::from(*x == order);
    }
    count
}
