//! Defines letters. A letter records what a general received and did in one round, and the orders that he sent.
ghost use Rattle.std.specs.Prelude.{◌≡◌, ◌↔◌, IfOk, IsTrue};

use crate::accesses::{copied, same_accesses};
use crate::seat::Player;
use board::Access;
use outbox::Outbox;
use std::alloc::{AllocError, Global};
use std::marker::Model;

/// A letter: what a general received and did in a round, and the orders that he sent.
///
/// A traitor's outbox is what his program wrote in `steps` steps, run on this context with the replies of this
/// transcript. In a signed campaign it also has the orders that the program signed or passed on. A loyal general's
/// outbox sends each receiver the orders in his context. The context also says for which labels and receivers the
/// outbox has orders, and whether orders are signed.
#[derive(Drop)]
pub struct Letter {
    /// The general who sends the letter.
    pub general: u32,
    /// The round, counted from 1.
    pub round: u32,
    /// The context that the general received, 4,096 bytes.
    pub context: Vec<u8>,
    /// The general's program. A loyal general has none.
    pub program: Player,
    /// The accesses that his program made in this round, in order.
    pub transcript: Vec<Access>,
    /// How many steps his program took. It is 0 for a loyal general.
    pub steps: u32,
    /// The orders that he sent, by label and receiver.
    pub outbox: Outbox,
    /// Whether his program has exited, rather than used up its patience. It is true for a loyal general.
    pub exited: bool,
}

impl Model for Letter {
    ghost use Rattle.round.specs.Letters.{Letter as LetterSeen};
    ghost use Rattle.round.specs.Runs.{IsLetter};

    ghost Value = { LetterSeen };

    ghost view = { λ l. record {
      general = l.general;
      round = l.round;
      context = l.context.items;
      program = l.program;
      transcript = l.transcript.items;
      steps = l.steps;
      outbox = l.outbox;
      exited = l.exited;
    } };

    ghost invariant = { λ l. IsLetter (record {
      general = l.general;
      round = l.round;
      context = l.context.items;
      program = l.program;
      transcript = l.transcript.items;
      steps = l.steps;
      outbox = l.outbox;
      exited = l.exited;
    }) };
}

impl Letter {
    /// Returns a copy of the letter.
    ///
    /// # Errors
    ///
    /// Fails with `AllocError` if there is no memory for the copy.
    pub fn copy(&self, alloc: Global) -> Result<Letter, AllocError>
        ensures { IfOk result (λ letter. letter ≡ self.now) }
    {
        Ok(Letter {
            general: self.general,
            round: self.round,
            context: Vec::from_slice(alloc, self.context.as_slice())?,
            program: self.program.copy()?,
            transcript: copied(alloc, self.transcript.as_slice())?,
            steps: self.steps,
            outbox: self.outbox.copy(alloc)?,
            exited: self.exited,
        })
    }

    /// Returns whether both letters are the same.
    pub fn same(&self, other: &Letter) -> bool
        ensures { IsTrue result ↔ (self.now ≡ other.now) }
    {
        self.general == other.general
            && self.round == other.round
            && self.context.as_slice() == other.context.as_slice()
            && self.program.same(&other.program)
            && same_accesses(self.transcript.as_slice(), other.transcript.as_slice())
            && self.steps == other.steps
            && self.outbox.same(&other.outbox)
            && self.exited == other.exited
    }
}
