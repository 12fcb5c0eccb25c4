//! Defines the world of a signed campaign: its state, how it opens, and what an event does to it.
ghost use Rattle.std.specs.Prelude.{◌≡◌, ◌≤◌, ◌<◌, suc, length, IfOk, OnOk, OnErr, IfErr, None, slice_get, replicate};
ghost use Rattle.signed.specs.Kind.{signed_kind};
ghost use Rattle.signed.specs.Sending.{signatures};
ghost use Rattle.world.specs.declared.event.Event.TheVariants.{Tick, Post, Close};
ghost use Rattle.world.specs.KindHeld.{AheadTo, AsksNext, IsAnswer};
ghost use Rattle.world.specs.Kind.{opening, happen, refusal, run};

use crate::opening::beginnings;
use crate::round_drafts::{drafts, sendings};
use crate::sent_chains::SentRound;
use crate::signer::Signer;
use board::Board;
use round::{Round, Scenario};
use std::alloc::{AllocError, Global};
use std::marker::Model;
use world::letters::{is_full, letters, since};
use world::{Event, EventError, Progress, parts};

/// The state of a scenario's signed campaign after some events.
#[derive(Drop)]
pub struct SignedWorld {
    /// The allocator of the world's lists.
    pub(crate) alloc: Global,
    pub(crate) scenario: Scenario,
    /// The letters of the closed rounds.
    pub(crate) closed: Vec<Round>,
    /// The board with its words and its ledger.
    pub(crate) board: Board,
    /// The index in the ledger of the open round's first access.
    pub(crate) opened: usize,
    /// What each general does in the open round, ascending by general. It is empty if all rounds are closed.
    pub(crate) parts: Vec<Progress>,
    /// Whether every loyal general had posted when each of the closed rounds was closed.
    pub(crate) full: bool,
    /// The chains sent in each of the closed rounds.
    pub(crate) sent: Vec<SentRound>,
    /// The signer of each general, ascending by general.
    pub(crate) signers: Vec<Signer>,
}

impl Model for SignedWorld {
    ghost use Rattle.world.specs.Kind.{World};
    ghost use Rattle.world.specs.Reached.{world_of};
    ghost use Rattle.signed.specs.Sending.{IsSignedHeld};

    ghost Value = { World };

    ghost view = { λ w. world_of w.scenario w.closed.items w.board w.opened w.parts.items w.full };

    ghost invariant = { λ w. IsSignedHeld w.scenario w.closed.items w.board w.opened w.parts.items w.full w.sent.items
        w.signers.items };
}

impl SignedWorld {
    /// Returns the world of the scenario's signed campaign before any event. Its first round is open.
    ///
    /// # Errors
    ///
    /// Fails with `AllocError` if it runs out of memory.
    pub fn open(alloc: Global, scenario: Scenario) -> Result<SignedWorld, AllocError>
        ensures { IfOk result (λ world. world ≡ opening signed_kind scenario) }
    {
        let parts = beginnings(alloc, &scenario, &[])?;
        let signers = signers(alloc, scenario.generals(), scenario.commander())?;
        let board = Board::new(alloc, *scenario.board());
        Ok(SignedWorld {
            alloc,
            scenario,
            closed: Vec::new(alloc),
            board,
            opened: 0,
            parts,
            full: true,
            sent: Vec::new(alloc),
            signers,
        })
    }

    /// Applies an event to the world, unless the event is rejected.
    ///
    /// # Errors
    ///
    /// Fails with `NotOpen` if all rounds are closed. Fails with `NoGeneral` if the event's general does not exist or
    /// is of the wrong kind: a tick needs a traitor, and a post needs a loyal general. Fails with `Memory` if there is
    /// no memory for a close, or for the access of a tick that makes a request. After any error the world is unchanged.
    pub fn apply(&mut self, event: Event) -> Result<(), EventError>
        ensures done { OnOk result (self.new ≡ happen signed_kind self.old event) }
        ensures undone { OnErr result (self.new ≡ self.old) }
        ensures fit { OnOk result (refusal self.old event ≡ None) }
        ensures refused { IfErr result (λ e. IsAnswer self.old.parts event e (refusal self.old event)) }
    {
        if self.closed.len() > usize::from(self.scenario.bound()) {
            return Err(EventError::NotOpen);
        }
        if parts::is_unfit(self.parts.as_slice(), event) {
            return Err(EventError::NoGeneral);
        }
        match event {
            Event::Tick(general) => Ok(self.turn(general)?),
            Event::Post(general) => {
                self.post(general);
                Ok(())
            }
            Event::Close => Ok(self.close()?),
        }
    }

    /// Returns the scenario of the campaign.
    pub fn scenario(&self) -> &Scenario
        ensures { result.now ≡ self.now.scenario }
    {
        &self.scenario
    }

    /// Returns what each general does in the open round, ascending by general. It is empty if all rounds are closed.
    pub fn parts(&self) -> &[Progress]
        ensures { result.now ≡ self.now.parts }
    {
        self.parts.as_slice()
    }

    /// Returns the number of the open round, counted from 1. If all rounds are closed, it is one more than the number
    /// of the last.
    fn round(&self) -> u32
        ensures { result ≡ suc (length self.now.closed) }
    {
        self.scenario.recall();
        self.closed.len() as u32 + 1
    }

    /// Returns whether every loyal general had posted when each of the closed rounds was closed.
    pub fn full(&self) -> bool
        ensures { result ≡ self.now.full }
    {
        self.full
    }

    /// Takes one tick of a traitor's activation: a step of his program, or a request that the board answers. For any
    /// other general it does nothing. Fails with `AllocError` if the tick makes a request and there is no memory for
    /// the access. Then the world is unchanged.
    pub(crate) fn turn(&mut self, general: u32) -> Result<(), AllocError>
        ensures done { OnOk result (self.new ≡ happen signed_kind self.old (Tick general)) }
        ensures undone { OnErr result (self.new ≡ self.old) }
        ensures asking { OnErr result (AsksNext (slice_get self.old.parts general)) }
    {
        let round = self.round();
        parts::turn(&mut self.parts, &mut self.board, general, round)
    }

    /// Takes ticks of the traitor `general` until his next tick would be a request to the board, his activation has
    /// ended, or it has taken at least `limit` steps since it began. Returns the number of ticks taken, which is 0 if
    /// the general is not a traitor with a running activation.
    pub(crate) fn ahead(&mut self, general: u32, limit: u32) -> u32
        ensures same { self.new ≡ run signed_kind self.old (replicate result (Tick general)) }
        ensures far { AheadTo limit result self.old.parts general (slice_get self.old.parts general) self.new.parts }
    {
        parts::ahead(&mut self.parts, general, limit)
    }

    /// Marks a loyal general as having posted his letter of the open round. It does nothing if he has already posted or
    /// is not a loyal general.
    pub(crate) fn post(&mut self, general: u32)
        ensures { self.new ≡ happen signed_kind self.old (Post general) }
    {
        parts::mark_posted(&mut self.parts, general);
    }

    /// Closes the open round: sends the chains of its letters, and begins the next round if there is one.
    ///
    /// All memory is allocated before anything changes: for the letters and their drafts, for the chains, and for the
    /// next round. After that, nothing can fail. Fails with `AllocError` if there is no memory for the letters, the
    /// chains or the next round. Then the world is unchanged.
    pub(crate) fn close(&mut self) -> Result<(), AllocError>
        requires { length self.old.closed ≤ self.old.scenario.bound }
        ensures done { OnOk result (self.new ≡ happen signed_kind self.old Close) }
        ensures undone { OnErr result (self.new ≡ self.old) }
    {
        self.scenario.recall();
        let alloc = self.alloc;
        let round = self.round();
        let generals = self.scenario.generals();
        let accesses = since(self.board.ledger(), self.opened);
        let sent = self.sent.as_slice();
        let drafts = drafts(alloc, &self.scenario, sent, accesses, self.parts.as_slice())?;
        let sendings = sendings(
            alloc,
            &self.scenario,
            sent,
            self.signers.as_slice(),
            drafts.as_slice(),
            self.parts.as_slice(),
        )?;
        let list = Vec::with_capacity(alloc, usize::from(generals))?;
        self.closed.reserve(1)?;
        self.sent.push(sendings)?;
        let parts = match beginnings(alloc, &self.scenario, self.sent.as_slice()) {
            Ok(parts) => parts,
            Err(error) => {
                let _taken_back = self.sent.pop();
                return Err(error);
            }
        };
        let full = is_full(self.full, self.parts.as_slice());
        let letters = letters(list, drafts, &mut self.parts, generals, round);
        self.closed.push_reserved(Round { letters });
        self.opened = self.board.ledger().len();
        self.full = full;
        self.parts = parts;
        Ok(())
    }
}

/// Returns the signers of all generals, ascending. Fails with `AllocError` if it runs out of memory.
pub(crate) fn signers(alloc: Global, generals: u8, commander: u8) -> Result<Vec<Signer>, AllocError>
    requires size { generals ≤ 13 }
    requires commander { commander < 13 }
    ensures { IfOk result (λ signers. signers.items ≡ signatures generals commander) }
{
    let mut signers = Vec::with_capacity(alloc, usize::from(generals))?;
    for general in 0..generals {
        signers.push(Signer::of(general, commander))?;
    }
    Ok(signers)
}
