//! Tries all attempts of some traitors.
ghost use Rattle.std.specs.Prelude.{◌≡◌, ◌≤◌, ◌∷◌, true, false, IfNone, IfOk, IfSome, nat_lt};
ghost use Rattle.label.specs.Labels.{others};
ghost use Rattle.lies.specs.Attempts.{attempts, attempts_on, disagreement, disobedience, NoneCheaper, Succeeds};
ghost use Rattle.book.specs.Table.{AreNumbersWithin};

use crate::aim::{Aim, Aims};
use crate::attempt::{Attempt, Success};
use crate::cost::total;
use crate::generals::{is_among, others};
use crate::plan::plan;
use crate::sender::Sender;
use arrayvec::ArrayVec;
use combine::Combine;
use std::alloc::{AllocError, Global};

/// Returns the cheapest attempt of these traitors that succeeds, or `None` if none does. It needs the fewest orders
/// other than RETREAT to loyal generals. Of several it is the first.
///
/// # Errors
///
/// Fails with `AllocError` if there is no memory for the list of attempts.
pub(crate) fn cheapest_attempt<C: Combine>(
    alloc: Global,
    rule: &C,
    generals: u8,
    bound: u8,
    commander: u8,
    traitors: &[u8],
) -> Result<Option<Success>, AllocError>
    requires { AreNumbersWithin generals bound commander }
    ensures success { IfOk result (λ found. IfSome found
        (Succeeds (C.combined rule.now) generals bound commander traitors.now)) }
    ensures least { IfOk result (λ found. NoneCheaper (C.combined rule.now) generals bound commander traitors.now
        (attempts generals commander traitors.now) found) }
{
    let attempts = attempts(alloc, generals, commander, traitors)?;
    let off = others(generals, &[commander]);
    let mut best: Option<Success> = None;
    for attempt in &attempts {
        let found = plan(
            rule,
            traitors,
            bound,
            off.as_slice(),
            attempt.sender,
            &attempt.aims,
        );
        if let Some(plan) = found {
            let attacks = total(plan.as_slice(), bound);
            if is_cheaper(attacks, best) {
                best = Some(Success {
                    attempt: *attempt,
                    attacks,
                });
            }
        }
    }
    Ok(best)
}

/// Returns whether a number of orders is less than that of the best success so far, or there is none so far.
fn is_cheaper(attacks: u32, best: Option<Success>) -> bool
    ensures none { IfNone best (result ≡ true) }
    ensures some { IfSome best (λ success. result ≡ nat_lt attacks success.attacks) }
{
    match best {
        None => true,
        Some(success) => attacks < success.attacks,
    }
}

/// Returns all attempts of these traitors under the commander.
fn attempts(
    alloc: Global,
    generals: u8,
    commander: u8,
    traitors: &[u8],
) -> Result<Vec<Attempt>, AllocError>
    requires { generals ≤ 13 }
    ensures { IfOk result (λ list. list.items ≡ attempts generals commander traitors.now) }
{
    let loyals = loyal_lieutenants(generals, commander, traitors);
    if is_among(traitors, commander) {
        disagreements(alloc, loyals.as_slice())
    } else {
        disobediences(alloc, loyals.as_slice())
    }
}

/// Returns the lieutenants who are not traitors, in ascending order. There are at most 13 generals.
fn loyal_lieutenants(generals: u8, commander: u8, traitors: &[u8]) -> ArrayVec<u8, 13>
    requires { generals ≤ 13 }
    ensures { result.items ≡ others generals (commander ∷ traitors.now) }
{
    let mut loyals = ArrayVec::new();
    for general in 0..generals {
        if general != commander && !is_among(traitors, general) {
            loyals.push(general);
        }
    }
    loyals
}

/// Returns the attempts that each lieutenant decides on 0, and each on 1.
fn disagreements(alloc: Global, loyals: &[u8]) -> Result<Vec<Attempt>, AllocError>
    ensures { IfOk result (λ list. list.items ≡ attempts_on true loyals.now) }
{
    let mut list = Vec::new(alloc);
    for first in loyals {
        for second in loyals {
            list.push(disagreement(*first, *second))?;
        }
    }
    Ok(list)
}

/// Returns the attempts that a lieutenant decides on an order other than that of the commander.
fn disobediences(alloc: Global, loyals: &[u8]) -> Result<Vec<Attempt>, AllocError>
    ensures { IfOk result (λ list. list.items ≡ attempts_on false loyals.now) }
{
    let mut list = Vec::new(alloc);
    for general in loyals {
        list.push(disobedience(*general, 0, 1))?;
        list.push(disobedience(*general, 1, 0))?;
    }
    Ok(list)
}

/// Returns the attempt that two lieutenants decide on 0 and 1 under a commander who is a traitor.
fn disagreement(first: u8, second: u8) -> Attempt
    ensures { result ≡ disagreement first second }
{
    Attempt {
        sender: Sender::Traitor,
        aims: Aims {
            first: Some(Aim {
                general: first,
                order: 0,
            }),
            second: Some(Aim {
                general: second,
                order: 1,
            }),
        },
    }
}

/// Returns the attempt that a lieutenant decides on another order than that of a loyal commander.
fn disobedience(general: u8, order: u32, other: u32) -> Attempt
    ensures { result ≡ disobedience general order other }
{
    Attempt {
        sender: Sender::Loyal(order),
        aims: Aims {
            first: Some(Aim {
                general,
                order: other,
            }),
            second: None,
        },
    }
}
