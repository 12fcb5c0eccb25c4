//! The median rule: finds the order in the middle of the sorted list.
ghost use Rattle.std.specs.Prelude.{◌≡◌, count_by, nat_lt, nat_le, find};
ghost use Rattle.combine.specs.Rule.{median, is_middle};
ghost use Rattle.combine.specs.Laws.{median_is_rule};

use crate::rule::Combine;

/// The rule that returns the order in the middle of the sorted list. It has the index n / 2, rounded down, among n
/// orders, where indices begin at 0. The result is RETREAT, 0, if the list is empty.
#[derive(Clone, Copy, PartialEq, Eq)]
pub struct Median;

impl Combine for Median {
    ghost combined = { λ _. median };

    #[tactic(auto, unfolding(crate::specs::Rule::median))]
    fn combine(&self, orders: &[u32]) -> u32 {
        middle(orders).unwrap_or(0)
    }

    ghost most_decide = { λ _. median_is_rule };
}

/// Returns the order in the middle of the sorted list, or `None` if the list is empty.
fn middle(orders: &[u32]) -> Option<u32>
    ensures { result ≡ find (is_middle orders.now) orders.now }
{
    orders
        .iter()
        .copied()
        .find(|v| is_in_the_middle(orders, *v))
}

/// Checks whether the order is in the middle of the sorted list: at most half of the orders are less, and more than
/// half are less or equal.
#[tactic(auto, unfolding(crate::specs::Rule::is_middle))]
fn is_in_the_middle(orders: &[u32], order: u32) -> bool
    ensures { result ≡ is_middle orders.now order }
{
    let half = orders.len() / 2;
    count_less(orders, order) <= half && half < count_no_more(orders, order)
}

/// Returns how many orders of the list are less than this order.
fn count_less(orders: &[u32], order: u32) -> usize
    ensures { result ≡ count_by (λ x. nat_lt x order) orders.now }
{
    let mut count = 0;
    for x in orders {
        count += usize::from(*x < order);
    }
    count
}

/// Returns how many orders of the list are less than this order or equal to it.
fn count_no_more(orders: &[u32], order: u32) -> usize
    ensures { result ≡ count_by (λ x. nat_le x order) orders.now }
{
    let mut count = 0;
    for x in orders {
        count += usize::from(*x <= order);
    }
    count
}
