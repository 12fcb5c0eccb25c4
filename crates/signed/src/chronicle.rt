//! Defines the chronicle of a finished signed campaign: its letters, chains, accesses, decisions and verdict.
ghost use Rattle.std.specs.Prelude.{◌≡◌, ◌≤◌, ◌<◌, map};
ghost use Rattle.signed.specs.Chronicle.{signed_chronicle_with};
ghost use Rattle.signed.specs.Logs.{IsLogOf};
ghost use Rattle.signed.specs.Sending.{dispatch_of};
ghost use Rattle.signed.specs.Sent.{sent_by, sent_in};

use crate::chain::Chain;
use crate::chain_log::ChainLog;
use crate::judgement::verdict;
use crate::sent_chains::SentRound;
use arrayvec::ArrayVec;
use board::Access;
use round::{Round, Scenario};
use std::marker::Model;
use world::Verdict;

/// The record of a finished signed campaign: its letters and the chains sent with them, its accesses, the lieutenants'
/// decisions, and the verdict on these.
#[derive(Drop)]
pub struct SignedChronicle {
    pub(crate) scenario: Scenario,
    pub(crate) letters: Vec<Round>,
    pub(crate) accesses: Vec<Access>,
    pub(crate) decisions: ArrayVec<u32, 12>,
    pub(crate) verdict: Verdict,
    pub(crate) sent: Vec<SentRound>,
}

impl Model for SignedChronicle {
    ghost use Rattle.std.specs.Prelude.{◌≡◌};
    ghost use Rattle.signed.specs.Sent.{sent_in};
    ghost use Rattle.world.specs.Chronicle.{Chronicle};

    ghost Value = { Chronicle };

    ghost view = { λ c. record {
      scenario = c.scenario;
      letters = c.letters.items;
      accesses = c.accesses.items;
      decisions = c.decisions.items;
      verdict = c.verdict;
    } };

    ghost invariant = { λ c. c.sent.items ≡ sent_in c.scenario c.letters.items };
}

impl SignedChronicle {
    /// Returns the chronicle of a campaign. `accesses` are in the board's order, `letters` has the letters by round and
    /// within a round by general, and `decisions` are ascending by lieutenant. `log` must be the log of these letters.
    /// The verdict is computed from the scenario and the decisions.
    pub fn of(
        scenario: Scenario,
        accesses: Vec<Access>,
        letters: Vec<Round>,
        decisions: ArrayVec<u32, 12>,
        log: ChainLog,
    ) -> SignedChronicle
        requires { IsLogOf scenario letters.items log }
        ensures { result ≡ signed_chronicle_with scenario letters.items accesses.items decisions.items }
    {
        let verdict = verdict(&scenario, decisions.as_slice());
        let ChainLog { sent, .. } = log;
        SignedChronicle {
            scenario,
            letters,
            accesses,
            decisions,
            verdict,
            sent,
        }
    }

    /// Returns the scenario of the campaign.
    pub fn scenario(&self) -> &Scenario
        ensures { result.now ≡ self.now.scenario }
    {
        &self.scenario
    }

    /// Returns the letters by round, the first round first, and within a round by general.
    pub fn letters(&self) -> &[Round]
        ensures { result.now ≡ self.now.letters }
    {
        self.letters.as_slice()
    }

    /// Returns the accesses of all rounds, in the board's order.
    pub fn accesses(&self) -> &[Access]
        ensures { result.now ≡ self.now.accesses }
    {
        self.accesses.as_slice()
    }

    /// Returns the order on which each lieutenant decided, ascending by lieutenant.
    pub fn decisions(&self) -> &[u32]
        ensures { result.now ≡ self.now.decisions }
    {
        self.decisions.as_slice()
    }

    /// Returns the verdict on the decisions.
    pub fn verdict(&self) -> Verdict
        ensures { result ≡ self.now.verdict }
    {
        self.verdict
    }

    /// Returns the chains that a general sent in a round, counted from 1, each with its receivers. Bit g of the
    /// receivers means general g. The result is empty if there is no such round or general.
    pub fn sent(&self, general: u8, round: usize) -> &[(Chain, u16)]
        ensures { map dispatch_of result.now ≡ sent_by (sent_in self.now.scenario self.now.letters) round general }
    {
        if round == 0 {
            return &[];
        }
        match self.sent.get(round - 1) {
            None => &[],
            Some(round) => match round.sendings().get(usize::from(general)) {
                None => &[],
                Some(sending) => sending.chains(),
            },
        }
    }
}
