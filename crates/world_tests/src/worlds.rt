//! Tests the world of oral campaigns, event by event.

use crate::scenarios::told;
use crate::texts::{FOUR, SWAYING, TORN};
use std::alloc::Global;
use world::{Event, EventError, Verdict, World};

/// A step of a test: events to be applied to a world, or a check of the world.
#[derive(Clone, Copy)]
enum Step {
    /// Each of these events is accepted.
    Done(&'static [Event]),
    /// Each of these events is rejected for this reason, and the decisions stay the same.
    Refused(&'static [Event], EventError),
    /// Whether every loyal general had posted in each closed round.
    Full(bool),
    /// The lieutenants' current decisions.
    Decided(&'static [u32]),
}

/// The events in which loyal generals 0, 1 and 2 post, and the round is closed.
const POSTS: &[Event] = &[Event::Post(0), Event::Post(1), Event::Post(2), Event::Close];

/// The seven ticks in which general 3 runs his program of seven instructions to its end.
const TICKS: &[Event] = &[Event::Tick(3); 7];

/// Events of generals who do not exist or are of the wrong kind: a tick of a loyal general, and a post of a traitor.
const STRANGE: &[Event] = &[Event::Tick(0), Event::Post(3), Event::Post(12)];

/// Events after all rounds are closed.
const LATE: &[Event] = &[
    Event::Tick(3),
    Event::Post(0),
    Event::Close,
    Event::Post(12),
    Event::Tick(0),
];

/// The steps of a campaign of two rounds, with rejected events before, between and after them.
const WITH_STRANGERS: &[Step] = &[
    Step::Refused(STRANGE, EventError::NoGeneral),
    Step::Done(TICKS),
    Step::Done(POSTS),
    Step::Refused(STRANGE, EventError::NoGeneral),
    Step::Done(TICKS),
    Step::Done(POSTS),
    Step::Refused(LATE, EventError::NotOpen),
    Step::Decided(&[1, 1, 1]),
    Step::Full(true),
];

/// The steps of a campaign of two rounds. In the second round, no loyal general posts.
const WITH_THE_ABSENT: &[Step] = &[
    Step::Done(POSTS),
    Step::Done(TICKS),
    Step::Full(true),
    Step::Done(&[Event::Close]),
    Step::Full(false),
    Step::Decided(&[1, 0, 0]),
];

/// The steps of a campaign of two rounds. In the second round, all loyal generals post.
const WITH_ALL: &[Step] = &[
    Step::Done(POSTS),
    Step::Done(TICKS),
    Step::Done(POSTS),
    Step::Full(true),
    Step::Decided(&[1, 1, 1]),
];

/// The verdict of a campaign in which all loyal lieutenants obey the commander.
const OBEYED: Verdict = Verdict {
    alike: true,
    obeyed: Some(true),
    bound: true,
};

/// Rows for campaigns of four generals: the traitors' tables, the steps, and the verdict, which is `None` if the world
/// then has no chronicle.
const WORLDS: &[(&str, &[Step], Option<Verdict>)] = &[
    (SWAYING, WITH_STRANGERS, Some(OBEYED)),
    (TORN, WITH_THE_ABSENT, None),
    (TORN, WITH_ALL, Some(OBEYED)),
];

/// Applies an event, and returns whether it was accepted.
fn is_done(world: &mut World, event: Event) -> bool {
    world.apply(event).is_ok()
}

/// Applies these events, and returns whether all were accepted.
fn are_done(world: &mut World, events: &[Event]) -> bool {
    for event in events {
        if !is_done(world, *event) {
            return false;
        }
    }
    true
}

/// Applies an event, and returns whether it was rejected for this reason.
fn is_refused(world: &mut World, event: Event, reason: EventError) -> bool {
    match world.apply(event) {
        Ok(()) => false,
        Err(found) => found == reason,
    }
}

/// Returns whether the lieutenants' decisions are `orders`.
fn has_decided(world: &World, orders: &[u32]) -> bool {
    world.decisions().as_slice() == orders
}

/// Applies these events, and returns whether each was rejected for this reason and the decisions stayed the same.
fn are_refused(world: &mut World, events: &[Event], reason: EventError) -> bool {
    let before = world.decisions();
    for event in events {
        if !is_refused(world, *event, reason) || !has_decided(world, before.as_slice()) {
            return false;
        }
    }
    true
}

/// Takes a step in a world, and returns whether it went as expected.
fn goes(world: &mut World, step: Step) -> bool {
    match step {
        Step::Done(events) => are_done(world, events),
        Step::Refused(events, reason) => are_refused(world, events, reason),
        Step::Full(full) => world.full() == full,
        Step::Decided(orders) => has_decided(world, orders),
    }
}

/// Takes all steps in a world, and returns whether each went as expected.
fn go(world: &mut World, steps: &[Step]) -> bool {
    for step in steps {
        if !goes(world, *step) {
            return false;
        }
    }
    true
}

/// Returns the verdict of the world's chronicle, or `None` if it has no chronicle.
fn verdict_of(world: World) -> Option<Verdict> {
    match world.chronicle() {
        Some(chronicle) => Some(chronicle.verdict()),
        None => None,
    }
}

/// Takes all steps in the world of a campaign with these traitors. Returns whether each went as expected, and the
/// world's chronicle then has this verdict.
fn leads(alloc: Global, traitors: &str, steps: &[Step], verdict: Option<Verdict>) -> bool {
    let Some(scenario) = told(alloc, FOUR, traitors) else {
        return false;
    };
    let Ok(mut world) = World::open(alloc, scenario) else {
        return false;
    };
    go(&mut world, steps) && verdict_of(world) == verdict
}

#[test]
fn worlds_are_led_by_events(rt: HostRuntime) {
    let alloc = rt.alloc();
    for (row, &(traitors, steps, verdict)) in WORLDS.iter().enumerate() {
        assert!(rt; leads(alloc, traitors, steps, verdict), "row {row}");
    }
}
