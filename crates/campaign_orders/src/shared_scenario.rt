//! Defines a scenario that many states share.
ghost use Rattle.std.specs.Prelude.{◌≡◌, IfOk};
ghost use Rattle.round.specs.Scenario.{IsScenario};

use round::Scenario;
use std::alloc::{AllocError, Global};
use std::marker::Model;
use std::sync::Arc;

/// A scenario that many states share without copying it. Contracts see the scenario.
#[derive(Drop)]
pub(crate) struct SharedScenario {
    scenario: Arc<Scenario>,
}

impl Model for SharedScenario {
    ghost use Rattle.std.specs.Arc.{arc_value};
    ghost use Rattle.round.specs.Scenario.{Scenario as ScenarioSeen};

    ghost Value = { ScenarioSeen };

    ghost view = { λ s. arc_value s.scenario };
}

impl SharedScenario {
    /// Returns a copy of this scenario that can be shared. Fails with `AllocError` if it runs out of memory.
    pub(crate) fn new(alloc: Global, scenario: &Scenario) -> Result<SharedScenario, AllocError>
        ensures { IfOk result (λ shared. shared ≡ scenario.now) }
    {
        let scenario = Arc::new(alloc, scenario.copy(alloc)?)?;
        Ok(SharedScenario { scenario })
    }

    /// Returns another reference to the same scenario. Fails with `AllocError` if the reference count cannot be
    /// increased.
    pub(crate) fn share(&self) -> Result<SharedScenario, AllocError>
        ensures { IfOk result (λ shared. shared ≡ self.now) }
    {
        Ok(SharedScenario {
            scenario: self.scenario.clone()?,
        })
    }

    /// Returns the scenario.
    pub(crate) fn scenario(&self) -> &Scenario
        ensures { result.now ≡ self.now }
    {
        &self.scenario
    }

    /// Does nothing. Its contract says that the scenario's numbers are within their limits.
    pub(crate) fn recall(&self)
        ensures { IsScenario self.now }
    {
        self.scenario().recall();
    }

    /// Returns the number of generals, 2 to 13.
    pub(crate) fn generals(&self) -> u8
        ensures { result ≡ self.now.generals }
    {
        self.scenario().generals()
    }
}
