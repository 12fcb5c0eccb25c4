//! A list of orders whose majority a rule program loses.
ghost use Rattle.std.specs.Prelude.{◌≡◌, ℕ, IfOk, IfSome, IfNone};
ghost use Rattle.label.specs.Oral.{AllBelow};
ghost use Rattle.rule_program.specs.Evaluation.{evaluated};
ghost use Rattle.rule_program.specs.Majorities.{IsMajorityOf, KeepsMajority, LosesMajority};

use crate::rule_program::RuleProgram;
use arrayvec::ArrayVec;
use combine::{Outcome, Rule};
use std::alloc::{AllocError, Global};

/// A list of orders for which a rule does not return the order in more than half of the places.
#[derive(Drop)]
pub struct LostMajority {
    /// The list, of orders 0 and 1.
    pub orders: ArrayVec<u32, 12>,
    /// The order in more than half of its places.
    pub majority: u32,
    /// The order that the rule returns.
    pub returned: u32,
}

/// Tries the rule on a list of 0 and 1. Returns the list if the rule loses its majority.
///
/// # Errors
///
/// Fails with `AllocError` if there is no memory for the run.
pub(crate) fn lost_on(
    alloc: Global,
    rule: &RuleProgram,
    orders: ArrayVec<u32, 12>,
) -> Result<Option<LostMajority>, AllocError>
    requires { AllBelow 2 orders.items }
    ensures kept { IfOk result (λ lost. IfNone lost (KeepsMajority (evaluated rule.now) orders.items)) }
    ensures same { IfOk result (λ lost. IfSome lost (λ found. found.orders.items ≡ orders.items)) }
    ensures lost { IfOk result (λ lost. IfSome lost
        (λ found. LosesMajority (evaluated rule.now) found.orders.items found.majority found.returned)) }
{
    let list = orders.as_slice();
    let Some(majority) = majority_of(list) else {
        return Ok(None);
    };
    let returned = rule.evaluate(alloc, list)?;
    if returned == majority {
        return Ok(None);
    }
    Ok(Some(LostMajority {
        orders,
        majority,
        returned,
    }))
}

/// Returns the order in more than half of the places, if there is one.
fn majority_of(orders: &[u32]) -> Option<u32>
    ensures some { IfSome result (IsMajorityOf orders.now) }
    ensures none { IfNone result ((v : ℕ) → ¬ IsMajorityOf orders.now v) }
{
    match Rule::Majority.outcome(orders) {
        Outcome::Agreed(order) => Some(order),
        Outcome::Divided(_) => None,
        Outcome::Middle(_) => None,
    }
}
