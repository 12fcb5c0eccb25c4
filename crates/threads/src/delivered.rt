//! Defines what the letters of closed rounds have delivered, in oral or in signed campaigns.
ghost use Rattle.std.specs.Prelude.{◌≡◌, ◌↔◌, ◌<◌, ◌≤◌, ◌++◌, ◌∷◌, [], ℕ, List, suc, take, length, IsTrue, IfOk, OnOk};
ghost use Rattle.std.specs.Thread.{IsSync};
ghost use Rattle.round.specs.Letters.{Letter as LetterSeen};
ghost use Rattle.round.specs.Origin.{AreLettersOf};
ghost use Rattle.round.specs.Scenario.{Scenario as ScenarioSeen, shape_of};
ghost use Rattle.world.specs.Kind.{Kind};
ghost use Rattle.threads.specs.Duties.{duty_of};
ghost use Rattle.threads.specs.Holding.{IsOwn, IsBriefed};

use crate::task::Task;
use arrayvec::ArrayVec;
use round::{Letter, Scenario};
use std::alloc::{AllocError, Global};
use std::thread::Threads;

/// What the letters of the closed rounds have delivered to the generals of an oral or of a signed campaign. A muster
/// adds the letters of each round, and makes the generals' tasks and the lieutenants' decisions from it.
pub trait Delivered: Drop {
    /// Says whether the campaigns are oral or signed.
    ghost kind: { Kind };

    /// Returns the number of rounds whose letters were delivered.
    ghost count: { Self → ℕ };

    /// States that the letters of these rounds of the scenario's campaign have delivered this.
    ghost was_told: { ScenarioSeen → List (List LetterSeen) → Self → Type 0 };

    /// Returns the lieutenants' decisions from the letters of these rounds, ascending by lieutenant.
    ghost decided: { ScenarioSeen → List (List LetterSeen) → List ℕ };

    /// Returns what was delivered before the first round is closed, which is nothing.
    ///
    /// # Errors
    ///
    /// `AllocError` if an allocation fails.
    fn begin(alloc: Global, scenario: &Scenario) -> Result<Self, AllocError>
        ensures told { IfOk result (was_told scenario.now []) }
        ensures count { IfOk result (λ told. count told ≡ 0) };

    /// Returns the number of rounds whose letters were delivered.
    fn rounds(&self) -> u8
        ensures { result ≡ count self.now };

    /// Returns the task of a general in the next round.
    ///
    /// # Errors
    ///
    /// `AllocError` if an allocation fails.
    fn task(&self, alloc: Global, scenario: &Scenario, general: u8) -> Result<Task, AllocError>
        requires told { (before : List (List LetterSeen)) × was_told scenario.now before self.now }
        requires left { count self.now ≤ scenario.now.bound }
        requires general { general < scenario.now.generals }
        ensures duty { IfOk result (λ task. (before : List (List LetterSeen)) → was_told scenario.now before self.now →
            task ≡ duty_of kind scenario.now before general) }
        ensures general { IfOk result (λ task. task.general ≡ general) };

    /// Delivers the letters of the next round.
    ///
    /// # Errors
    ///
    /// `AllocError` if an allocation fails. Then nothing is known about what was delivered, and it should be dropped.
    fn add(
        &mut self,
        alloc: Global,
        scenario: &Scenario,
        letters: &[Letter],
    ) -> Result<(), AllocError>
        requires told { (before : List (List LetterSeen)) × was_told scenario.now before self.old }
        requires left { count self.old ≤ scenario.now.bound }
        requires letters { AreLettersOf scenario.now (suc (count self.old)) letters.now }
        ensures told { OnOk result ((before : List (List LetterSeen)) → was_told scenario.now before self.old →
            was_told scenario.now (before ++ letters.now ∷ []) self.new) }
        ensures count { OnOk result (count self.new ≡ suc (count self.old)) };

    /// Returns whether `letter` has the context and the relay with which this general begins round `rounds` + 1 and, if
    /// he is loyal, exactly what he then sends. It must be his letter of that round.
    ///
    /// # Errors
    ///
    /// `AllocError` if an allocation fails.
    fn is_briefed(
        &self,
        alloc: Global,
        scenario: &Scenario,
        rounds: u8,
        general: u8,
        letter: &Letter,
    ) -> Result<bool, AllocError>
        requires told { (before : List (List LetterSeen)) × was_told scenario.now before self.now }
        requires passed { rounds ≤ count self.now }
        requires left { rounds ≤ scenario.now.bound }
        requires general { general < scenario.now.generals }
        requires own { IsOwn scenario.now general (suc rounds) letter.now }
        ensures { IfOk result (λ b. (before : List (List LetterSeen)) → was_told scenario.now before self.now →
            IsTrue b ↔ IsBriefed kind scenario.now (take rounds before) general letter.now) };

    /// Returns the lieutenants' decisions, ascending by lieutenant, once the letters of all rounds were delivered. Its
    /// clause `shared` repeats the bound `Sync` for the proofs of impls, which do not see the bound itself.
    ///
    /// # Errors
    ///
    /// `AllocError` if an allocation fails.
    fn decide<R: Threads + Sync>(
        &self,
        rt: &R,
        alloc: Global,
        scenario: &Scenario,
    ) -> Result<ArrayVec<u32, 12>, AllocError>
        requires shared { IsSync R.row }
        requires told { (before : List (List LetterSeen)) × was_told scenario.now before self.now }
        requires all { count self.now ≡ suc scenario.now.bound }
        ensures { IfOk result (λ orders. (before : List (List LetterSeen)) → was_told scenario.now before self.now →
            orders.items ≡ decided scenario.now before) };

    /// States that what the letters of some rounds have delivered counts these rounds.
    ghost counted: { (s : ScenarioSeen) (before : List (List LetterSeen)) (told : Self) → was_told s before told →
        count told ≡ length before };

    /// States that a relay has the shape of its general and its round.
    ghost shapes: { (s : ScenarioSeen) (before : List (List LetterSeen)) (g : ℕ) →
        (kind.relay s before g).shape ≡ shape_of s g (suc (length before)) };
}
