//! Defines what signed letters deliver: the chains that they send.
ghost use Rattle.std.specs.Prelude.{◌≡◌, ◌↔◌, ◌<◌, IsTrue};
ghost use Rattle.signed.specs.Chronicle.{signed_decisions};
ghost use Rattle.signed.specs.Kind.{signed_kind};
ghost use Rattle.signed.specs.Logs.{IsLogOf};
ghost use Rattle.signed_threads.specs.Outsets.{HasOutset};

use arrayvec::ArrayVec;
use outbox::Outbox;
use round::{Letter, Scenario};
use signed::ChainLog;
use std::alloc::{AllocError, Global};
use std::thread::Threads;
use threads::{Delivered, Task};

/// The chains that the letters of the closed rounds of a signed campaign have sent.
#[derive(Drop)]
pub struct DeliveredChains {
    pub(crate) log: ChainLog,
}

impl Delivered for DeliveredChains {
    ghost use Rattle.std.specs.Prelude.{refl};

    ghost kind = { signed_kind };

    ghost count = { λ told. told.log.rounds };

    ghost was_told = { λ s before told. IsLogOf s before told.log };

    ghost decided = { signed_decisions };

    fn begin(alloc: Global, scenario: &Scenario) -> Result<DeliveredChains, AllocError> {
        let log = ChainLog::new(alloc, scenario)?;
        Ok(DeliveredChains { log })
    }

    fn rounds(&self) -> u8 {
        self.log.rounds()
    }

    fn task(&self, alloc: Global, scenario: &Scenario, general: u8) -> Result<Task, AllocError> {
        scenario.recall();
        let rounds = self.log.rounds();
        let (context, outbox) = self.log.outset_after(alloc, scenario, general, rounds)?;
        let program = scenario.seat(general).copy()?;
        Ok(Task::given(
            program,
            context,
            u32::from(general),
            u32::from(rounds) + 1,
            scenario.patience(),
            outbox,
        ))
    }

    fn add(
        &mut self,
        alloc: Global,
        scenario: &Scenario,
        letters: &[Letter],
    ) -> Result<(), AllocError> {
        self.log.add(alloc, scenario, letters)
    }

    fn is_briefed(
        &self,
        alloc: Global,
        scenario: &Scenario,
        rounds: u8,
        general: u8,
        letter: &Letter,
    ) -> Result<bool, AllocError> {
        let (context, begun) = self.log.outset_after(alloc, scenario, general, rounds)?;
        let has = has_outset(scenario, general, letter, context.as_slice(), &begun);
        Ok(has)
    }

    fn decide<R: Threads + Sync>(
        &self,
        _rt: &R,
        _alloc: Global,
        scenario: &Scenario,
    ) -> Result<ArrayVec<u32, 12>, AllocError> {
        let decisions = self.log.decisions(scenario);
        Ok(decisions)
    }

    ghost counted = { λ s before told is. is.rounds };

    ghost shapes = { λ s before g. refl };
}

/// Returns whether the letter of a general has this context and is for the relay of `outbox`. If he is loyal, its
/// outbox must be exactly `outbox`.
fn has_outset(
    scenario: &Scenario,
    general: u8,
    letter: &Letter,
    context: &[u8],
    outbox: &Outbox,
) -> bool
    requires { general < scenario.now.generals }
    ensures { IsTrue result ↔ HasOutset scenario.now general letter.now context.now outbox.now }
{
    letter.context.as_slice() == context
        && letter.outbox.same_relay(outbox)
        && (scenario.is_traitor(general) || letter.outbox.same(outbox))
}
