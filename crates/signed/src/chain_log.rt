//! Defines the log of a signed campaign: the chains that the letters of its closed rounds have sent.
ghost use Rattle.std.specs.Prelude.{◌≡◌, ◌≤◌, ◌<◌, ◌++◌, ◌∷◌, [], suc, List, take, length, IfOk, OnOk};
ghost use Rattle.round.specs.Letters.{Letter as LetterSeen};
ghost use Rattle.round.specs.Scenario.{program_of};
ghost use Rattle.signed.specs.Chronicle.{signed_decisions};
ghost use Rattle.signed.specs.Kind.{signed_context, signed_relay};
ghost use Rattle.signed.specs.Logs.{begun_entries, IsLogOf};

use crate::judgement::decisions_of;
use crate::letter_sendings::{recall_few, round_sendings};
use crate::outset::outset;
use crate::sent_chains::SentRound;
use crate::signed_world::signers;
use crate::signer::Signer;
use arrayvec::ArrayVec;
use outbox::Outbox;
use round::{Letter, Scenario};
use std::alloc::{AllocError, Global};
use std::marker::Model;

/// The chains that the letters of the closed rounds have sent, and the generals' signers. The letters need not be those
/// of a world: a log has the chains that its letters send, whoever has written these, each signed by its sender.
#[derive(Drop)]
pub struct ChainLog {
    /// The number of closed rounds.
    rounds: u8,
    pub(crate) sent: Vec<SentRound>,
    /// The generals' signers, by general. Each general has only one.
    signers: Vec<Signer>,
}

impl Model for ChainLog {
    ghost use Rattle.signed.specs.Logs.{LogSeen};

    ghost Value = { LogSeen };

    ghost view = { λ l. record { rounds = l.rounds; sent = l.sent.items; signers = l.signers.items } };
}

impl ChainLog {
    /// Returns the log of a campaign in which no round is closed.
    ///
    /// # Errors
    ///
    /// Fails with `AllocError` if there is no memory for the signers.
    pub fn new(alloc: Global, scenario: &Scenario) -> Result<ChainLog, AllocError>
        ensures { IfOk result (IsLogOf scenario.now []) }
    {
        scenario.recall();
        let signers = signers(alloc, scenario.generals(), scenario.commander())?;
        Ok(ChainLog {
            rounds: 0,
            sent: Vec::new(alloc),
            signers,
        })
    }

    /// Returns the number of closed rounds.
    pub fn rounds(&self) -> u8
        ensures { result ≡ self.now.rounds }
    {
        self.rounds
    }

    /// Adds the chains that the letters of the next round send. Of several letters of one general, the first counts.
    ///
    /// # Errors
    ///
    /// Fails with `AllocError` if there is no memory for the chains. Then nothing is known about the log, and it should
    /// be dropped.
    pub fn add(
        &mut self,
        alloc: Global,
        scenario: &Scenario,
        letters: &[Letter],
    ) -> Result<(), AllocError>
        requires told { (before : List (List LetterSeen)) × IsLogOf scenario.now before self.old }
        requires left { self.old.rounds ≤ scenario.now.bound }
        ensures told { OnOk result ((before : List (List LetterSeen)) → IsLogOf scenario.now before self.old →
            IsLogOf scenario.now (before ++ letters.now ∷ []) self.new) }
        ensures rounds { OnOk result (self.new.rounds ≡ suc self.old.rounds) }
    {
        scenario.recall();
        recall_few(letters);
        let sendings = round_sendings(
            alloc,
            scenario,
            self.sent.as_slice(),
            self.signers.as_slice(),
            letters,
        )?;
        self.sent.push(sendings)?;
        self.rounds += 1;
        Ok(())
    }

    /// Returns the context and the outbox with which a general begins the round after the first `rounds` rounds. A
    /// loyal general's outbox has the chains that SM(m) has him sign, and a traitor's is empty.
    ///
    /// # Errors
    ///
    /// Fails with `AllocError` if there is no memory for the context or the outbox.
    pub fn outset_after(
        &self,
        alloc: Global,
        scenario: &Scenario,
        general: u8,
        rounds: u8,
    ) -> Result<(Vec<u8>, Outbox), AllocError>
        requires told { (before : List (List LetterSeen)) × IsLogOf scenario.now before self.now }
        requires passed { rounds ≤ self.now.rounds }
        requires left { rounds ≤ scenario.now.bound }
        requires general { general < scenario.now.generals }
        ensures context { IfOk result (λ r. (before : List (List LetterSeen)) → IsLogOf scenario.now before self.now →
            r.0.items ≡ signed_context scenario.now (take rounds before) general) }
        ensures relay { IfOk result (λ r. (before : List (List LetterSeen)) → IsLogOf scenario.now before self.now →
            r.1.relay ≡ signed_relay scenario.now (take rounds before) general) }
        ensures rows { IfOk result (λ r. r.1.rows ≡ []) }
        ensures entries { IfOk result (λ r. (before : List (List LetterSeen)) → IsLogOf scenario.now before self.now →
            r.1.entries ≡ begun_entries scenario.now (take rounds before) general (program_of scenario.now general)) }
    {
        let (sent, _later) = self.sent.as_slice().split_at(usize::from(rounds));
        let (context, outbox) = outset(alloc, scenario, sent, general)?;
        Ok((context, outbox))
    }

    /// Returns the lieutenants' decisions, ascending by lieutenant, from the chains sent so far. It allocates no
    /// memory.
    pub fn decisions(&self, scenario: &Scenario) -> ArrayVec<u32, 12>
        requires told { (before : List (List LetterSeen)) × IsLogOf scenario.now before self.now }
        requires few { self.now.rounds ≤ suc scenario.now.bound }
        ensures { (before : List (List LetterSeen)) → IsLogOf scenario.now before self.now →
            result.items ≡ signed_decisions scenario.now before }
    {
        decisions_of(scenario, self.sent.as_slice())
    }
}
