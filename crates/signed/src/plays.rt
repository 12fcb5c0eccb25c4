//! Makes the worlds of signed campaigns playable, by the same functions as oral worlds.
ghost use Rattle.signed.specs.Kind.{signed_kind};

use crate::signed_world::SignedWorld;
use round::Scenario;
use std::alloc::AllocError;
use world::{PlayableWorld, Progress};

impl PlayableWorld for SignedWorld {
    ghost kind = { signed_kind };

    ghost seen = { λ w. w };

    fn campaign(&self) -> &Scenario {
        &self.scenario
    }

    fn open_parts(&self) -> &[Progress] {
        self.parts.as_slice()
    }

    fn rounds(&self) -> usize {
        self.closed.len()
    }

    fn tick(&mut self, general: u32) -> Result<(), AllocError> {
        self.turn(general)
    }

    fn run_on(&mut self, general: u32, limit: u32) -> u32 {
        self.ahead(general, limit)
    }

    fn give_post(&mut self, general: u32) {
        self.post(general);
    }

    fn close_round(&mut self) -> Result<(), AllocError> {
        self.close()
    }
}
