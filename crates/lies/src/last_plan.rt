//! Plans for labels with no relays left, for which a lieutenant decides on the order that he takes.
ghost use Rattle.std.specs.Prelude.{◌≡◌, ◌≤◌, IfSome, length};
ghost use Rattle.lies.specs.Limits.{AreCheap};
ghost use Rattle.lies.specs.Plans.{aimed_or, is_taken, items_of, last_choice, last_plan, last_taken};

use crate::aim::{Aim, Aims};
use crate::choice::{Choice, Vote};
use crate::sender::Sender;
use arrayvec::ArrayVec;

/// Returns the plan to meet the aims about a label with no relays left, or `None` if no messages meet them. `off` are
/// the generals off the label, at most 13, and `sender` is its last general.
#[tactic(auto, unfolding(crate::specs::Plans::last_plan))]
pub(crate) fn last_plan(off: &[u8], sender: Sender, aims: &Aims) -> Option<ArrayVec<Choice, 13>>
    requires { length off.now ≤ 13 }
    ensures plan { items_of result ≡ last_plan off.now sender aims.now }
    ensures cheap { IfSome result (λ p. AreCheap 0 p.items) }
{
    if !is_taken(sender, aims, aims.first) || !is_taken(sender, aims, aims.second) {
        return None;
    }
    let mut choices = ArrayVec::new();
    for general in off {
        choices.push(last_choice(sender, aims, *general));
    }
    Some(choices)
}

/// Returns whether the lieutenant aimed at takes the order of the aim.
fn is_taken(sender: Sender, aims: &Aims, aim: Option<Aim>) -> bool
    ensures { result ≡ is_taken sender aims.now aim }
{
    match aim {
        None => true,
        Some(aim) => last_taken(sender, aims, aim.general) == aim.order,
    }
}

/// Returns the order that a general takes from the sender.
fn last_taken(sender: Sender, aims: &Aims, general: u8) -> u32
    ensures { result ≡ last_taken sender aims.now general }
{
    match sender {
        Sender::Loyal(order) => order,
        Sender::Traitor => aimed_or(aims.first, general, aimed_or(aims.second, general, 0)),
    }
}

/// Returns the order of the aim if it is at this general, and the other order if not.
fn aimed_or(aim: Option<Aim>, general: u8, other: u32) -> u32
    ensures { result ≡ aimed_or aim general other }
{
    match aim {
        Some(aim) if aim.general == general => aim.order,
        _ => other,
    }
}

/// Returns the choice for a general with no relays left. He has no vote.
fn last_choice(sender: Sender, aims: &Aims, general: u8) -> Choice
    ensures value { result ≡ last_choice sender aims.now general }
    ensures cheap { result.attacks ≤ 1 }
{
    let taken = last_taken(sender, aims, general);
    Choice {
        general,
        vote: Vote {
            taken,
            first: 0,
            second: 0,
        },
        attacks: sender.attacks(taken),
    }
}
