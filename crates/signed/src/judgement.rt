//! Judges a signed campaign: computes the lieutenants' decisions, the verdict on them, and the chronicle.
ghost use Rattle.std.specs.Prelude.{◌≡◌, ◌↔◌, ◌≤◌, List, suc, length, IfSome, IsSome};
ghost use Rattle.round.specs.Letters.{Letter as LetterSeen};
ghost use Rattle.signed.specs.Chronicle.{signed_chronicle_of, signed_decisions, signed_verdict_of};
ghost use Rattle.signed.specs.Promises.{AgreeUnderSignedBound};
ghost use Rattle.signed.specs.Sent.{sent_in};
ghost use Rattle.world.specs.Agreement.{IsFinished};

use crate::acceptance::{accepted, decided};
use crate::chronicle::SignedChronicle;
use crate::sent_chains::SentRound;
use crate::signed_world::SignedWorld;
use arrayvec::ArrayVec;
use round::Scenario;
use world::Verdict;
use world::judgement::{alike, loyal_decisions, obeyed, traitors};

impl SignedWorld {
    /// Returns the order on which each lieutenant decides from the chains sent so far, ascending by lieutenant. By
    /// SM(m), where m is the bound (TOPLAS 1982), he decides on the order that he accepted if there is exactly one,
    /// otherwise on RETREAT. It allocates no memory.
    ///
    /// Suppose the world is finished, and there are at least m + 2 generals and at most m traitors. Then all loyal
    /// lieutenants decide on the same order, and on the commander's order if he is loyal.
    pub fn decisions(&self) -> ArrayVec<u32, 12>
        ensures values { result.items ≡ signed_decisions self.now.scenario self.now.closed }
        ensures agree { IsFinished self.now → AgreeUnderSignedBound self.now.scenario result.items }
    {
        self.scenario.recall();
        decisions_of(&self.scenario, self.sent.as_slice())
    }

    /// Returns the chronicle of the world's campaign. Returns `None` if a round is open, or if a loyal general had not
    /// posted in some closed round. It allocates no memory.
    pub fn chronicle(self) -> Option<SignedChronicle>
        ensures finished { IsSome result ↔ IsFinished self }
        ensures told { IfSome result (λ chronicle. chronicle ≡ signed_chronicle_of self) }
    {
        if self.closed.len() <= usize::from(self.scenario.bound()) || !self.full {
            return None;
        }
        let decisions = self.decisions();
        let verdict = verdict(&self.scenario, decisions.as_slice());
        let SignedWorld {
            scenario,
            closed,
            board,
            sent,
            ..
        } = self;
        Some(SignedChronicle {
            scenario,
            letters: closed,
            accesses: board.into_ledger(),
            decisions,
            verdict,
            sent,
        })
    }
}

/// Returns the lieutenants' decisions, ascending by lieutenant, from the chains in `sent`. They must be the chains that
/// the letters of some rounds have sent. It allocates no memory.
pub(crate) fn decisions_of(scenario: &Scenario, sent: &[SentRound]) -> ArrayVec<u32, 12>
    requires sent { (closed : List (List LetterSeen)) × (sent.now ≡ sent_in scenario.now closed) }
    requires few { length sent.now ≤ suc scenario.now.bound }
    ensures { (closed : List (List LetterSeen)) → sent.now ≡ sent_in scenario.now closed →
        result.items ≡ signed_decisions scenario.now closed }
{
    let rounds = sent.len();
    let mut decisions = ArrayVec::new();
    for general in 0..scenario.generals() {
        if general != scenario.commander() {
            let orders = accepted(sent, rounds, general);
            decisions.push(decided(orders.as_slice()));
        }
    }
    decisions
}

/// Returns the verdict on the lieutenants' decisions, which are given ascending by lieutenant.
pub(crate) fn verdict(scenario: &Scenario, decisions: &[u32]) -> Verdict
    ensures { result ≡ signed_verdict_of scenario.now decisions.now }
{
    let loyal = loyal_decisions(scenario, decisions);
    Verdict {
        alike: alike(loyal.as_slice()),
        obeyed: obeyed(scenario, loyal.as_slice()),
        bound: traitors(scenario) <= scenario.bound(),
    }
}
