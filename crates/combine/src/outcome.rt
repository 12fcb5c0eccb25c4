//! Defines the outcome of combining a list of orders.
ghost use Rattle.std.specs.Prelude.{◌≡◌, find};
ghost use Rattle.combine.specs.Outcome.{agreed_or, outcome_order, outcome_head};
ghost use Rattle.combine.specs.Rule.{is_most};

use crate::campaign_rule::most;

/// The outcome of combining a list of orders: the order, and how the rule found it.
#[derive(Clone, Copy, Drop)]
pub enum Outcome {
    /// This order makes up more than half of the list.
    Agreed(u32),
    /// No order makes up more than half of the list, so this order is taken instead.
    Divided(u32),
    /// This order is in the middle of the sorted list.
    Middle(u32),
}

impl Outcome {
    /// Returns the order of the outcome. 0 is RETREAT.
    pub fn order(self) -> u32
        ensures { result ≡ outcome_order self }
    {
        match self {
            Outcome::Agreed(order) | Outcome::Divided(order) | Outcome::Middle(order) => order,
        }
    }

    /// Returns the words that describe the outcome and are written before its order, such as `majority `.
    pub fn head(self) -> &'static str
        ensures { result.now ≡ outcome_head self }
    {
        match self {
            Outcome::Agreed(_) => "majority ",
            Outcome::Divided(_) => "no majority, so ",
            Outcome::Middle(_) => "median ",
        }
    }
}

/// Returns the order that makes up more than half of the list, as `Agreed`. If there is none, returns `other` as
/// `Divided`.
pub(crate) fn by_most(orders: &[u32], other: u32) -> Outcome
    ensures { result ≡ agreed_or other (find (is_most orders.now) orders.now) }
{
    match most(orders) {
        Some(order) => Outcome::Agreed(order),
        None => Outcome::Divided(other),
    }
}
