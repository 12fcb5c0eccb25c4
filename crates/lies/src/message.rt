//! The messages of a plan.
ghost use Rattle.std.specs.Prelude.{◌≡◌, ◌<◌, ◌≤◌, ◌==◌, ◌∷◌, find, length};
ghost use Rattle.label.specs.Labels.{on};
ghost use Rattle.lies.specs.PlannedMessages.{choice_in, message, message_of, received};
ghost use Rattle.lies.specs.Plans.{items_of};

use crate::aim::Aims;
use crate::choice::Choice;
use crate::generals::{is_among, without};
use crate::plan::plan;
use crate::sender::Sender;
use crate::votes::next_aims;
use arrayvec::ArrayVec;
use combine::Combine;

/// Returns the message that the receiver receives about a label extended by the generals `rest`, by the cheapest plan to
/// meet the aims about the label. `relays` relays are left for the label, at most 4 and at least the number of these
/// generals. `off` are the generals off the label, at most 12, and `sender` is its last general.
///
/// Each call finds the plans for the label and for each of the `rest` again.
#[cycle(message)]
pub(crate) fn message<C: Combine>(
    rule: &C,
    traitors: &[u8],
    relays: u8,
    off: &[u8],
    sender: Sender,
    aims: &Aims,
    rest: &[u8],
    receiver: u8,
) -> Option<u32>
    requires few { length off.now ≤ 12 }
    requires short { relays ≤ 4 }
    requires long { length rest.now ≤ relays }
    ensures { result ≡ message (C.combined rule.now) (on traitors.now) relays off.now sender aims.now rest.now receiver }
{
    let Some((general, later)) = rest.split_first() else {
        let plan = plan(rule, traitors, relays, off, sender, aims);
        return received(traitors, sender, &plan, receiver);
    };
    message_by(
        rule, traitors, relays, off, sender, aims, *general, later, receiver,
    )
}

/// Returns the message that the receiver receives about a label extended by `general` and then by the generals `later`.
#[cycle(message)]
fn message_by<C: Combine>(
    rule: &C,
    traitors: &[u8],
    relays: u8,
    off: &[u8],
    sender: Sender,
    aims: &Aims,
    general: u8,
    later: &[u8],
    receiver: u8,
) -> Option<u32>
    requires few { length off.now ≤ 12 }
    requires short { relays ≤ 4 }
    requires long { length later.now < relays }
    ensures { result ≡ message (C.combined rule.now) (on traitors.now) relays off.now sender aims.now
        (general ∷ later.now) receiver }
{
    let plan = plan(rule, traitors, relays, off, sender, aims);
    let Some(choice) = choice_in(&plan, general) else {
        return None;
    };
    message(
        rule,
        traitors,
        relays - 1,
        without(off, general).as_slice(),
        Sender::of(is_among(traitors, general), choice.vote.taken),
        &next_aims(aims, general, &choice.vote),
        later,
        receiver,
    )
}

/// Returns the message that a general receives from the sender of a label. A traitor sends RETREAT by sending nothing.
fn received(
    traitors: &[u8],
    sender: Sender,
    plan: &Option<ArrayVec<Choice, 13>>,
    receiver: u8,
) -> Option<u32>
    ensures { result ≡ received (on traitors.now) sender (items_of plan.now) receiver }
{
    match sender {
        Sender::Loyal(order) => Some(order),
        Sender::Traitor if is_among(traitors, receiver) => None,
        Sender::Traitor => message_of(choice_in(plan, receiver)),
    }
}

/// Returns the choice of a plan for this general, if there is a plan.
fn choice_in(plan: &Option<ArrayVec<Choice, 13>>, general: u8) -> Option<Choice>
    ensures { result ≡ choice_in (items_of plan.now) general }
{
    match plan {
        None => None,
        Some(plan) => choice_for(plan.as_slice(), general),
    }
}

/// Returns the first choice for this general.
fn choice_for(plan: &[Choice], general: u8) -> Option<Choice>
    ensures { result ≡ find (λ choice. choice.general == general) plan.now }
{
    plan.iter()
        .copied()
        .find(|choice| choice.general == general)
}

/// Returns the message by which a general takes the order of a choice, or `None` for RETREAT.
fn message_of(choice: Option<Choice>) -> Option<u32>
    ensures { result ≡ message_of choice }
{
    match choice {
        Some(choice) if choice.vote.taken != 0 => Some(choice.vote.taken),
        _ => None,
    }
}
