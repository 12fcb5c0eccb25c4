//! Defines worlds and chronicles with oral or signed messages.
use crate::chronicles::{MessageKind, signed_text, text};
use anyhow::{Result, bail};
use arrayvec::ArrayVec;
use round::Scenario;
use signed::{SignedChronicle, SignedWorld, play_signed};
use signed_threads::muster_signed;
use std::alloc::{AllocError, Global};
use std::sync::Wait;
use std::thread::Threads;
use threads::{MusterError, Open, muster};
use world::{Chronicle, Event, EventError, Schedule, World, play};

/// A world with oral or signed messages.
#[derive(Drop)]
pub enum Led {
    Oral(World),
    Signed(SignedWorld),
}

impl Led {
    /// Opens the world of a scenario, with `World::open` or `SignedWorld::open`.
    pub fn open(
        alloc: Global,
        messages: MessageKind,
        scenario: Scenario,
    ) -> Result<Led, AllocError> {
        match messages {
            MessageKind::Oral => Ok(Led::Oral(World::open(alloc, scenario)?)),
            MessageKind::Signed => Ok(Led::Signed(SignedWorld::open(alloc, scenario)?)),
        }
    }

    /// Applies an event to the world.
    pub fn apply(&mut self, event: Event) -> Result<(), EventError> {
        match self {
            Led::Oral(world) => world.apply(event),
            Led::Signed(world) => world.apply(event),
        }
    }

    /// Returns the decision of each lieutenant.
    pub fn decisions(&self) -> ArrayVec<u32, 12> {
        match self {
            Led::Oral(world) => world.decisions(),
            Led::Signed(world) => world.decisions(),
        }
    }

    /// Returns the world's chronicle, or `None` if its campaign is not over.
    fn chronicle(self) -> Option<Made> {
        match self {
            Led::Oral(world) => oral_chronicle(world),
            Led::Signed(world) => signed_chronicle(world),
        }
    }

    /// Returns the text of the world's chronicle. Fails if the campaign is not over.
    pub fn text(self, alloc: Global) -> Result<Vec<u8>> {
        match self.chronicle() {
            Some(chronicle) => chronicle.text(alloc),
            None => bail!("the campaign is not over"),
        }
    }
}

/// Returns the chronicle of a world with oral messages, or `None` if its campaign is not over.
fn oral_chronicle(world: World) -> Option<Made> {
    match world.chronicle() {
        Some(chronicle) => Some(Made::Oral(chronicle)),
        None => None,
    }
}

/// Returns the chronicle of a world with signed messages, or `None` if its campaign is not over.
fn signed_chronicle(world: SignedWorld) -> Option<Made> {
    match world.chronicle() {
        Some(chronicle) => Some(Made::Signed(chronicle)),
        None => None,
    }
}

/// A chronicle with oral or signed messages.
#[derive(Drop)]
pub enum Made {
    Oral(Chronicle),
    Signed(SignedChronicle),
}

impl Made {
    /// Plays a scenario by a schedule, with `play` or `play_signed`.
    pub fn play(
        alloc: Global,
        messages: MessageKind,
        scenario: Scenario,
        schedule: &Schedule,
    ) -> Result<Made, AllocError> {
        match messages {
            MessageKind::Oral => Ok(Made::Oral(play(alloc, scenario, schedule)?)),
            MessageKind::Signed => Ok(Made::Signed(play_signed(alloc, scenario, schedule)?)),
        }
    }

    /// Plays a scenario with a thread for each general, with `muster` or `muster_signed`.
    pub fn muster<R: Threads + Wait + Sync + AllocGlobal>(
        rt: &R,
        messages: MessageKind,
        scenario: Scenario,
    ) -> Result<Made, MusterError> {
        match messages {
            MessageKind::Oral => Ok(Made::Oral(muster(rt, rt.alloc(), scenario, &Open)?)),
            MessageKind::Signed => {
                Ok(Made::Signed(muster_signed(rt, rt.alloc(), scenario, &Open)?))
            }
        }
    }

    /// Returns the text of the chronicle.
    pub fn text(&self, alloc: Global) -> Result<Vec<u8>> {
        match self {
            Made::Oral(chronicle) => text(alloc, chronicle),
            Made::Signed(chronicle) => signed_text(alloc, chronicle),
        }
    }
}
