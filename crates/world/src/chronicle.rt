//! Defines the chronicle of a finished campaign: its letters, accesses, decisions and verdict.
ghost use Rattle.std.specs.Prelude.{◌≡◌};
ghost use Rattle.world.specs.Chronicle.{chronicle_with, verdict_of};

use crate::judgement::verdict;
use crate::verdict::Verdict;
use arrayvec::ArrayVec;
use board::Access;
use round::{Round, Scenario};
use std::marker::Model;

/// The record of a finished campaign: its scenario, letters and accesses, the lieutenants' decisions and the verdict on
/// them.
#[derive(Drop)]
pub struct Chronicle {
    scenario: Scenario,
    letters: Vec<Round>,
    accesses: Vec<Access>,
    decisions: ArrayVec<u32, 12>,
    verdict: Verdict,
}

impl Model for Chronicle {
    ghost use Rattle.world.specs.Chronicle.{Chronicle as ChronicleSeen};

    ghost Value = { ChronicleSeen };

    ghost view = { λ c. record {
      scenario = c.scenario;
      letters = c.letters.items;
      accesses = c.accesses.items;
      decisions = c.decisions.items;
      verdict = c.verdict;
    } };
}

impl Chronicle {
    /// Returns the chronicle with these contents, and computes its verdict. `accesses` are in the board's order.
    /// `letters` has an element for each round, with the letters by general. `decisions` has the decision of each
    /// lieutenant, ascending by lieutenant.
    pub fn of(
        scenario: Scenario,
        accesses: Vec<Access>,
        letters: Vec<Round>,
        decisions: ArrayVec<u32, 12>,
    ) -> Chronicle
        ensures { result ≡ chronicle_with scenario letters.items accesses.items decisions.items }
    {
        let verdict = verdict(&scenario, decisions.as_slice());
        Chronicle {
            scenario,
            letters,
            accesses,
            decisions,
            verdict,
        }
    }

    /// Returns the scenario of the campaign.
    pub fn scenario(&self) -> &Scenario
        ensures { result.now ≡ self.now.scenario }
    {
        &self.scenario
    }

    /// Returns the letters by round, the first round first, and within a round by general.
    pub fn letters(&self) -> &[Round]
        ensures { result.now ≡ self.now.letters }
    {
        self.letters.as_slice()
    }

    /// Returns the accesses of all rounds, in the board's order.
    pub fn accesses(&self) -> &[Access]
        ensures { result.now ≡ self.now.accesses }
    {
        self.accesses.as_slice()
    }

    /// Returns the order on which each lieutenant decided, ascending by lieutenant.
    pub fn decisions(&self) -> &[u32]
        ensures { result.now ≡ self.now.decisions }
    {
        self.decisions.as_slice()
    }

    /// Returns the verdict on the decisions.
    pub fn verdict(&self) -> Verdict
        ensures { result ≡ self.now.verdict }
    {
        self.verdict
    }
}
