//! Selects one of the choices for each general off a label, so that the lieutenants decide as they are to.
ghost use Rattle.std.specs.Prelude.{◌≡◌, ◌≤◌, ◌+◌, ◌∷◌, ◌++◌, IfSome, filter, length, map};
ghost use Rattle.lies.specs.Limits.{AreCheap};
ghost use Rattle.lies.specs.Plans.{cheaper, cheapest, is_met, items_of, meets, selections};

use crate::aim::{Aim, Aims};
use crate::choice::Choice;
use crate::cost::total;
use arrayvec::ArrayVec;
use combine::Combine;

/// Returns the cheapest plan that meets the aims, begins with the choices `begun`, and goes on with one of the choices
/// for each of the generals `off`, in their order. Of several it returns the first, and `None` if there is none. The
/// choices are those with `relays` relays left for the label, at most 4.
#[cycle(selection)]
pub(crate) fn cheapest<C: Combine>(
    rule: &C,
    aims: &Aims,
    off: &[u8],
    choices: &[Choice],
    relays: u8,
    begun: &mut ArrayVec<Choice, 13>,
) -> Option<ArrayVec<Choice, 13>>
    requires short { relays ≤ 4 }
    requires room { length begun.old.items + length off.now ≤ 13 }
    requires cheap { AreCheap relays choices.now }
    requires cheap_so_far { AreCheap relays begun.old.items }
    ensures kept { begun.new.items ≡ begun.old.items }
    ensures plan { items_of result ≡ cheapest (filter (meets (C.combined rule.now) aims.now)
        (map (λ rest. begun.old.items ++ rest) (selections choices.now off.now))) }
    ensures cheap { IfSome result (λ p. AreCheap relays p.items) }
{
    let Some((general, rest)) = off.split_first() else {
        return if meets(rule, aims, begun.as_slice()) {
            Some(copied(begun.as_slice()))
        } else {
            None
        };
    };
    cheapest_by(rule, aims, *general, rest, choices, relays, begun)
}

/// Returns the cheapest plan that meets the aims, begins with the choices `begun`, and goes on with one of the choices
/// for `general` and then with one for each of the generals `later`. Of several it returns the first, and `None` if there
/// is none.
#[cycle(selection)]
fn cheapest_by<C: Combine>(
    rule: &C,
    aims: &Aims,
    general: u8,
    later: &[u8],
    choices: &[Choice],
    relays: u8,
    begun: &mut ArrayVec<Choice, 13>,
) -> Option<ArrayVec<Choice, 13>>
    requires short { relays ≤ 4 }
    requires room { length begun.old.items + length later.now ≤ 12 }
    requires cheap { AreCheap relays choices.now }
    requires cheap_so_far { AreCheap relays begun.old.items }
    ensures kept { begun.new.items ≡ begun.old.items }
    ensures plan { items_of result ≡ cheapest (filter (meets (C.combined rule.now) aims.now)
        (map (λ rest. begun.old.items ++ rest) (selections choices.now (general ∷ later.now)))) }
    ensures cheap { IfSome result (λ p. AreCheap relays p.items) }
{
    let mut best = None;
    for choice in choices {
        if choice.general == general {
            begun.push(*choice);
            let plan = cheapest(rule, aims, later, choices, relays, begun);
            let _ = begun.pop();
            best = cheaper(best, plan, relays);
        }
    }
    best
}

/// Returns the plan with fewer orders other than RETREAT by traitors, and the first of two with the same number.
fn cheaper(
    one: Option<ArrayVec<Choice, 13>>,
    other: Option<ArrayVec<Choice, 13>>,
    relays: u8,
) -> Option<ArrayVec<Choice, 13>>
    requires short { relays ≤ 4 }
    requires cheap { IfSome one (λ p. AreCheap relays p.items) }
    requires other_cheap { IfSome other (λ p. AreCheap relays p.items) }
    ensures plan { items_of result ≡ cheaper (items_of one) (items_of other) }
    ensures cheap { IfSome result (λ p. AreCheap relays p.items) }
{
    match (one, other) {
        (None, other) => other,
        (one, None) => one,
        (Some(one), Some(other)) => {
            if total(other.as_slice(), relays) < total(one.as_slice(), relays) {
                Some(other)
            } else {
                Some(one)
            }
        }
    }
}

/// Returns whether the votes of a plan lead to the orders of both aims by the rule.
#[tactic(auto, unfolding(crate::specs::Plans::meets))]
fn meets<C: Combine>(rule: &C, aims: &Aims, plan: &[Choice]) -> bool
    requires { length plan.now ≤ 13 }
    ensures { result ≡ meets (C.combined rule.now) aims.now plan.now }
{
    is_met(rule, aims.first, votes_for_first(plan).as_slice())
        && is_met(rule, aims.second, votes_for_second(plan).as_slice())
}

/// Returns whether the rule combines the votes to the order of the aim, if there is one.
fn is_met<C: Combine>(rule: &C, aim: Option<Aim>, votes: &[u32]) -> bool
    ensures { result ≡ is_met (C.combined rule.now) aim votes.now }
{
    match aim {
        None => true,
        Some(aim) => rule.combine(votes) == aim.order,
    }
}

/// Returns the votes in the list of the first lieutenant.
fn votes_for_first(plan: &[Choice]) -> ArrayVec<u32, 13>
    requires { length plan.now ≤ 13 }
    ensures { result.items ≡ map (λ choice. choice.vote.first) plan.now }
{
    let mut votes = ArrayVec::new();
    for choice in plan {
        votes.push(choice.vote.first);
    }
    votes
}

/// Returns the votes in the list of the second lieutenant.
fn votes_for_second(plan: &[Choice]) -> ArrayVec<u32, 13>
    requires { length plan.now ≤ 13 }
    ensures { result.items ≡ map (λ choice. choice.vote.second) plan.now }
{
    let mut votes = ArrayVec::new();
    for choice in plan {
        votes.push(choice.vote.second);
    }
    votes
}

/// Copies a list of at most 13 choices.
fn copied(plan: &[Choice]) -> ArrayVec<Choice, 13>
    requires { length plan.now ≤ 13 }
    ensures { result.items ≡ plan.now }
{
    let mut copy = ArrayVec::new();
    for choice in plan {
        copy.push(*choice);
    }
    copy
}
