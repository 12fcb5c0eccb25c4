//! Defines what oral letters deliver: the messages in the lieutenants' trees.
ghost use Rattle.std.specs.Prelude.{◌≡◌, ◌↔◌, ◌<◌, ◌≤◌, List, length, take, IsTrue, IfOk, OnOk};
ghost use Rattle.round.specs.Contexts.{context_of, AreWords};
ghost use Rattle.round.specs.Letters.{Letter as LetterSeen, messages};
ghost use Rattle.round.specs.Told.{WasTold};
ghost use Rattle.world.specs.Chronicle.{decisions};
ghost use Rattle.world.specs.World.{oral_kind};

use crate::delivered::Delivered;
use crate::task::Task;
use arrayvec::ArrayVec;
use resolve::resolve_all;
use round::{Letter, Received, Scenario};
use std::alloc::{AllocError, Global};
use std::thread::Threads;

impl Delivered for Received {
    ghost use Rattle.std.specs.Prelude.{refl};

    ghost kind = { oral_kind };

    ghost count = { λ told. told.rounds };

    ghost was_told = { WasTold };

    ghost decided = { λ s before. decisions s (messages before) };

    fn begin(alloc: Global, scenario: &Scenario) -> Result<Received, AllocError> {
        Received::new(alloc, scenario)
    }

    fn rounds(&self) -> u8 {
        Received::rounds(self)
    }

    fn task(&self, alloc: Global, scenario: &Scenario, general: u8) -> Result<Task, AllocError> {
        Task::new(alloc, scenario, self, general)
    }

    fn add(
        &mut self,
        _alloc: Global,
        scenario: &Scenario,
        letters: &[Letter],
    ) -> Result<(), AllocError> {
        self.deliver(scenario, letters);
        Ok(())
    }

    fn is_briefed(
        &self,
        alloc: Global,
        scenario: &Scenario,
        rounds: u8,
        general: u8,
        letter: &Letter,
    ) -> Result<bool, AllocError> {
        letter.recall();
        scenario.recall();
        let has = has_context(alloc, self, scenario, rounds, general, letter)?;
        Ok(has)
    }

    fn decide<R: Threads + Sync>(
        &self,
        rt: &R,
        alloc: Global,
        scenario: &Scenario,
    ) -> Result<ArrayVec<u32, 12>, AllocError> {
        scenario.recall();
        let orders = resolve_all(rt, alloc, self.trees(), &scenario.rule())?;
        Ok(as_array(orders.as_slice()))
    }

    ghost counted = { λ s before told is. is.rounds };

    ghost shapes = { λ s before g. refl };
}

/// Returns whether the context in `letter` is the one that this general has after the first `rounds` rounds. `told`
/// contains what the lieutenants received in these rounds, and perhaps in later ones.
///
/// # Errors
///
/// `AllocError` if an allocation fails.
fn has_context(
    alloc: Global,
    told: &Received,
    scenario: &Scenario,
    rounds: u8,
    general: u8,
    letter: &Letter,
) -> Result<bool, AllocError>
    requires told { (rows : List (List LetterSeen)) × WasTold scenario.now rows told.now }
    requires passed { rounds ≤ told.now.rounds }
    requires left { rounds ≤ scenario.now.bound }
    requires general { general < scenario.now.generals }
    ensures context { IfOk result (λ b. (rows : List (List LetterSeen)) → WasTold scenario.now rows told.now
        → IsTrue b ↔ (letter.now.context ≡ context_of scenario.now (take rounds rows) general)) }
    ensures words { OnOk result ((rows : List (List LetterSeen)) → WasTold scenario.now rows told.now →
        AreWords scenario.now (take rounds rows) general) }
{
    let context = told.context_after(alloc, scenario, general, rounds)?;
    Ok(letter.context.as_slice() == context.as_slice())
}

/// Copies at most 12 orders into an array.
fn as_array(orders: &[u32]) -> ArrayVec<u32, 12>
    requires { length orders.now ≤ 12 }
    ensures { result.items ≡ orders.now }
{
    let mut list = ArrayVec::new();
    for order in orders {
        list.push(*order);
    }
    list
}
