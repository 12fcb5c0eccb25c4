//! Tries a rule program on all lists of 0 and 1, to find out whether it keeps majorities.
ghost use Rattle.std.specs.Prelude.{◌≤◌, IfOk, IfSome, IfNone};
ghost use Rattle.rule_program.specs.Evaluation.{evaluated};
ghost use Rattle.rule_program.specs.Majorities.{KeepsMajorities, KeepsOfLength, IsFirstLost, IsFirstOfLength};

use crate::lost_majority::{LostMajority, lost_on};
use crate::orders::orders_of;
use crate::rule_program::RuleProgram;
use std::alloc::{AllocError, Global};

/// Returns the first list of 0 and 1 whose majority the rule loses, or `None` if it keeps all majorities. It tries all
/// lists of at most `most` orders, the shorter ones first, and those of one length by their binary numbers. `most` is
/// at most 12.
///
/// # Errors
///
/// Fails with `AllocError` if there is no memory for a run.
pub fn first_lost_majority(
    alloc: Global,
    rule: &RuleProgram,
    most: usize,
) -> Result<Option<LostMajority>, AllocError>
    requires { most ≤ 12 }
    ensures certified { IfOk result (λ lost. IfNone lost (KeepsMajorities most (evaluated rule.now))) }
    ensures refuted { IfOk result (λ lost. IfSome lost
        (λ found. IsFirstLost most (evaluated rule.now) found.orders.items found.majority found.returned)) }
{
    for size in 0..most + 1 {
        if let Some(lost) = first_lost_of_length(alloc, rule, size)? {
            return Ok(Some(lost));
        }
    }
    Ok(None)
}

/// Returns the first list of 0 and 1 with this length whose majority the rule loses, or `None` if it keeps all.
fn first_lost_of_length(
    alloc: Global,
    rule: &RuleProgram,
    size: usize,
) -> Result<Option<LostMajority>, AllocError>
    requires { size ≤ 12 }
    ensures kept { IfOk result (λ lost. IfNone lost (KeepsOfLength size (evaluated rule.now))) }
    ensures first { IfOk result (λ lost. IfSome lost
        (λ found. IsFirstOfLength size (evaluated rule.now) found.orders.items found.majority found.returned)) }
{
    let lists: u32 = 1 << size;
    for number in 0..lists {
        if let Some(lost) = lost_on(alloc, rule, orders_of(number, size))? {
            return Ok(Some(lost));
        }
    }
    Ok(None)
}
