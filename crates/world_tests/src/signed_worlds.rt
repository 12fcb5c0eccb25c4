//! Tests the world of signed campaigns, event by event.

use crate::scenarios::joined;
use crate::texts::{PASSING, SIGNING_TWICE, THREE_SIGNED};
use round::Scenario;
use scenario::{Campaign, read_any};
use signed::{Chain, SignedChronicle, SignedWorld};
use std::alloc::Global;
use world::{Event, EventError, Verdict};

/// Returns the scenario of three generals with these traitors' tables.
pub(crate) fn three(alloc: Global, traitors: &str) -> Option<Scenario> {
    let Ok(text) = joined(alloc, THREE_SIGNED, traitors) else {
        return None;
    };
    match read_any(alloc, text.as_str()) {
        Ok(Campaign::Signed(scenario)) => Some(scenario),
        _ => None,
    }
}

/// Returns the world of a campaign of three generals with these traitors' tables, before its first event.
fn opened(alloc: Global, traitors: &str) -> Option<SignedWorld> {
    let Some(scenario) = three(alloc, traitors) else {
        return None;
    };
    match SignedWorld::open(alloc, scenario) {
        Ok(world) => Some(world),
        Err(_) => None,
    }
}

/// A step of a test: events to be applied to a world, or a check of the world.
#[derive(Clone, Copy)]
enum Step {
    /// Each of these events is accepted.
    Done(&'static [Event]),
    /// Each of these events is rejected for this reason, and the decisions stay the same.
    Refused(&'static [Event], EventError),
    /// Whether every loyal general had posted in each closed round.
    Full(bool),
    /// The lieutenants' current decisions.
    Decided(&'static [u32]),
}

/// The events of a round in which general 2 passes on a chain.
const PASSED_ON: &[Event] = &[
    Event::Post(0),
    Event::Post(1),
    Event::Tick(2),
    Event::Tick(2),
    Event::Tick(2),
    Event::Tick(2),
    Event::Close,
];

/// The events of a round in which the commander signs two orders.
const SIGNED_TWICE: &[Event] = &[
    Event::Tick(0),
    Event::Tick(0),
    Event::Tick(0),
    Event::Tick(0),
    Event::Tick(0),
    Event::Tick(0),
    Event::Tick(0),
    Event::Post(1),
    Event::Post(2),
    Event::Close,
];

/// The steps of a campaign of two rounds in which lieutenant 2 is a traitor who passes on a chain.
const BESIDE_ONE_WHO_PASSES_ON: &[Step] = &[
    Step::Decided(&[0, 0]),
    Step::Done(PASSED_ON),
    Step::Decided(&[1, 1]),
    Step::Done(PASSED_ON),
    Step::Decided(&[1, 1]),
    Step::Full(true),
];

/// The steps of a campaign of two rounds in which the commander is a traitor who signs two orders.
const UNDER_TWO_ORDERS: &[Step] = &[
    Step::Done(SIGNED_TWICE),
    Step::Done(SIGNED_TWICE),
    Step::Decided(&[0, 0]),
];

/// The steps of a campaign in which no general acts for two rounds. Events of generals who do not exist or are of the
/// wrong kind are rejected, and so are events after the last round.
const WITH_STRANGERS: &[Step] = &[
    Step::Refused(
        &[Event::Tick(0), Event::Post(2), Event::Post(3)],
        EventError::NoGeneral,
    ),
    Step::Done(&[Event::Close]),
    Step::Full(false),
    Step::Done(&[Event::Close]),
    Step::Decided(&[0, 0]),
    Step::Refused(
        &[Event::Tick(2), Event::Post(0), Event::Close],
        EventError::NotOpen,
    ),
];

/// Applies an event, and returns whether it was accepted.
fn is_done(world: &mut SignedWorld, event: Event) -> bool {
    world.apply(event).is_ok()
}

/// Applies these events, and returns whether all were accepted.
fn are_done(world: &mut SignedWorld, events: &[Event]) -> bool {
    for event in events {
        if !is_done(world, *event) {
            return false;
        }
    }
    true
}

/// Applies an event, and returns whether it was rejected for this reason.
fn is_refused(world: &mut SignedWorld, event: Event, reason: EventError) -> bool {
    match world.apply(event) {
        Ok(()) => false,
        Err(found) => found == reason,
    }
}

/// Returns whether the lieutenants' decisions are `orders`.
fn has_decided(world: &SignedWorld, orders: &[u32]) -> bool {
    world.decisions().as_slice() == orders
}

/// Applies these events, and returns whether each was rejected for this reason and the decisions stayed the same.
fn are_refused(world: &mut SignedWorld, events: &[Event], reason: EventError) -> bool {
    let before = world.decisions();
    for event in events {
        if !is_refused(world, *event, reason) || !has_decided(world, before.as_slice()) {
            return false;
        }
    }
    true
}

/// Takes a step in a world, and returns whether it went as expected.
fn goes(world: &mut SignedWorld, step: Step) -> bool {
    match step {
        Step::Done(events) => are_done(world, events),
        Step::Refused(events, reason) => are_refused(world, events, reason),
        Step::Full(full) => world.full() == full,
        Step::Decided(orders) => has_decided(world, orders),
    }
}

/// Takes all steps in a world, and returns whether each went as expected.
fn go(world: &mut SignedWorld, steps: &[Step]) -> bool {
    for step in steps {
        if !goes(world, *step) {
            return false;
        }
    }
    true
}

/// Returns whether a chain that was sent has this order, these signers and these receivers.
fn is_sent(sent: &(Chain, u16), order: u32, signers: &[u8], receivers: u16) -> bool {
    let (chain, to) = sent;
    chain.order() == order && chain.signers() == signers && *to == receivers
}

/// Checks that the commander sent one chain in the first round. Traitor 2 must have sent none in that round, and in the
/// second round passed on the commander's chain to general 1, with his own signature.
fn is_passed_on(chronicle: &SignedChronicle) -> bool {
    let [sent] = chronicle.sent(2, 2) else {
        return false;
    };
    chronicle.sent(0, 1).len() == 1
        && chronicle.sent(2, 1).is_empty()
        && is_sent(sent, 1, &[0, 2], 2)
}

/// The verdict of a campaign in which all loyal lieutenants obey the commander.
const OBEYED: Verdict = Verdict {
    alike: true,
    obeyed: Some(true),
    bound: true,
};

/// Takes all steps in the world of a campaign with these traitors, and returns its chronicle. Returns `None` if a step
/// does not go as expected.
fn led(alloc: Global, traitors: &str, steps: &[Step]) -> Option<SignedChronicle> {
    let Some(mut world) = opened(alloc, traitors) else {
        return None;
    };
    if !go(&mut world, steps) {
        return None;
    }
    world.chronicle()
}

/// Checks that three generals agree if one of them is a traitor who passes on a chain.
fn agree_beside_one_who_passes_on(alloc: Global) -> bool {
    match led(alloc, PASSING, BESIDE_ONE_WHO_PASSES_ON) {
        Some(chronicle) => is_passed_on(&chronicle) && chronicle.verdict() == OBEYED,
        None => false,
    }
}

#[test]
fn three_generals_agree_beside_one_who_passes_on(rt: HostRuntime) {
    assert!(rt; agree_beside_one_who_passes_on(rt.alloc()));
}

/// Checks that the commander sent two chains in the first round, and general 1 sent one in the second. The verdict must
/// not say whether the commander was obeyed.
fn are_sent_two_orders(chronicle: &SignedChronicle) -> bool {
    chronicle.sent(0, 1).len() == 2
        && chronicle.sent(1, 2).len() == 1
        && chronicle.verdict().obeyed.is_none()
}

/// Checks that three generals agree if the commander is a traitor who signs two orders.
fn agree_under_two_orders(alloc: Global) -> bool {
    match led(alloc, SIGNING_TWICE, UNDER_TWO_ORDERS) {
        Some(chronicle) => are_sent_two_orders(&chronicle),
        None => false,
    }
}

#[test]
fn three_generals_agree_under_a_commander_who_signs_two_orders(rt: HostRuntime) {
    assert!(rt; agree_under_two_orders(rt.alloc()));
}

/// Checks that the steps of `WITH_STRANGERS` go as expected, and that the world then has no chronicle.
fn refuses_strangers(alloc: Global) -> bool {
    let Some(mut world) = opened(alloc, PASSING) else {
        return false;
    };
    go(&mut world, WITH_STRANGERS) && world.chronicle().is_none()
}

#[test]
fn signed_events_of_nobody_are_refused(rt: HostRuntime) {
    assert!(rt; refuses_strangers(rt.alloc()));
}
