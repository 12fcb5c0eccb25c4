//! Defines an activation: a traitor's program while it runs, with its context and state.
ghost use Rattle.std.specs.Prelude.{◌≡◌, ◌<◌, ◌≤◌, ◌↔◌, IfOk, IsTrue, List, [], length};
ghost use Rattle.std.specs.Arc.{arc_value};
ghost use Rattle.semantics.specs.Outbox.{empty_outbox};
ghost use Rattle.semantics.specs.Relay.{IsContext};
ghost use Rattle.round.specs.Activation.{started, has_ended, is_reached};
ghost use Rattle.round.specs.Letters.{Letter as Written};
ghost use Rattle.round.specs.Contexts.{context_of};
ghost use Rattle.round.specs.Told.{WasTold};
ghost use Rattle.round.specs.Runs.{IsWithin, IsLetter};
ghost use Rattle.round.specs.Running.{letter_left};

use crate::code::same_code;
use crate::letter::Letter;
use crate::scenario::Scenario;
use crate::seat::Player;
use crate::told_trees::Received;
use board::Access;
use machine::Machine;
use mem::Context;
use outbox::Outbox;
use std::alloc::{AllocError, Global};
use std::marker::Model;
use std::sync::Arc;
use verify::Verified;

/// An activation: a traitor's program while it runs, with its context, the patience, the machine's state, and whether
/// the program has exited.
///
/// The machine takes 3 KB, so it is kept in a box. A list element that may or may not be an activation is then small.
#[derive(Drop)]
pub struct Running {
    pub(crate) program: Arc<Verified>,
    pub(crate) context: Vec<u8>,
    pub(crate) patience: Option<u32>,
    pub(crate) activation: Box<Machine>,
    pub(crate) over: bool,
}

impl Model for Running {
    ghost use Rattle.std.specs.Arc.{arc_value};
    ghost use Rattle.round.specs.Activation.{Activation as Activated};

    ghost Value = { Activated };

    ghost use Rattle.round.specs.Running.{IsLive};

    ghost view = { λ r. record {
      program = arc_value r.program;
      context = r.context.items;
      relay = r.activation.value.relay;
      patience = r.patience;
      state = r.activation.value.state;
      over = r.over;
    } };

    ghost invariant = { λ r. IsLive (record {
      program = arc_value r.program;
      context = r.context.items;
      relay = r.activation.value.relay;
      patience = r.patience;
      state = r.activation.value.state;
      over = r.over;
    }) };
}

impl Running {
    /// Returns an activation of `program` at its start. It may take `patience` steps, or any number if `patience` is
    /// `None`. The outbox must be empty.
    ///
    /// # Errors
    ///
    /// Fails with `AllocError` if there is no memory for the activation.
    pub fn start(
        alloc: Global,
        program: Arc<Verified>,
        context: Vec<u8>,
        patience: Option<u32>,
        outbox: Outbox,
    ) -> Result<Running, AllocError>
        requires context { length context.items ≡ 4096 }
        requires empty { outbox.rows ≡ empty_outbox outbox.relay }
        requires unentered { outbox.entries ≡ [] }
        ensures { IfOk result (λ running. running ≡ started patience (arc_value program) context.items outbox.relay) }
    {
        let told = Context::new(context.as_slice());
        let activation = boxed(alloc, Machine::start(&program, &told, outbox))?;
        Ok(Running {
            program,
            context,
            patience,
            activation,
            over: false,
        })
    }

    /// Returns an independent copy of the activation.
    ///
    /// # Errors
    ///
    /// Fails with `AllocError` if there is no memory for its context or its outbox, or if the program's reference count
    /// cannot be increased.
    pub fn copy(&self, alloc: Global) -> Result<Running, AllocError>
        ensures { IfOk result (λ running. running ≡ self.now) }
    {
        Ok(Running {
            program: self.program.clone()?,
            context: Vec::from_slice(alloc, self.context.as_slice())?,
            patience: self.patience,
            activation: boxed(alloc, self.activation.twin(alloc)?)?,
            over: self.over,
        })
    }

    /// Returns whether both activations run the same program with the same context and patience, and are in the same
    /// state.
    pub fn same(&self, other: &Running) -> bool
        ensures { IsTrue result ↔ (self.now ≡ other.now) }
    {
        self.over == other.over
            && same_patience(self.patience, other.patience)
            && self.activation.same(&other.activation)
            && self.context.as_slice() == other.context.as_slice()
            && same_code(
                self.program.program().instructions(),
                other.program.program().instructions(),
            )
    }

    /// Replaces the context of an activation that has not taken a step. The new one is the general's context at the
    /// start of the round after those delivered to `told`. It allocates no memory.
    pub fn brief(&mut self, told: &Received, scenario: &Scenario, general: u8)
        requires start { self.old ≡ started self.old.patience self.old.program self.old.context self.old.relay }
        requires told { (before : List (List Written)) × WasTold scenario.now before told.now }
        requires left { told.now.rounds ≤ scenario.now.bound }
        requires general { general < scenario.now.generals }
        ensures { (before : List (List Written)) → WasTold scenario.now before told.now
            → self.new ≡ started self.old.patience self.old.program
            (context_of scenario.now before general) self.old.relay }
    {
        told.write_context_after(scenario, general, told.rounds(), &mut self.context);
    }

    /// Returns the general's letter of this round, made from the activation in its current state and his accesses in
    /// `transcript`. The program, the context and the outbox are moved into the letter.
    pub fn into_letter(self, general: u32, round: u32, transcript: Vec<Access>) -> Letter
        requires { IsLetter (letter_left general round transcript.items self) }
        ensures { result ≡ letter_left general round transcript.items self }
    {
        let Running {
            program,
            context,
            activation,
            over,
            ..
        } = self;
        let activation = Box::into_inner(activation);
        let steps = activation.steps();
        Letter {
            general,
            round,
            context,
            program: Player::new(Some(program)),
            transcript,
            steps,
            outbox: activation.into_outbox(),
            exited: over,
        }
    }

    /// Returns the program that the activation runs.
    pub fn program(&self) -> &Arc<Verified>
        ensures { arc_value result.now ≡ self.now.program }
    {
        &self.program
    }

    /// Returns the context with which the program runs: 4,096 bytes.
    pub fn context(&self) -> &[u8]
        ensures { result.now ≡ self.now.context }
    {
        self.context.as_slice()
    }

    /// Returns the machine in its current state.
    pub fn activation(&self) -> &Machine
        ensures relay { result.now.relay ≡ self.now.relay }
        ensures state { result.now.state ≡ self.now.state }
    {
        &self.activation
    }

    /// Returns how many steps the activation has taken.
    pub fn steps(&self) -> u32
        ensures { result ≡ self.now.state.steps }
    {
        self.activation.steps()
    }

    /// Returns whether the activation has ended: its program has exited, or its patience is used up.
    pub fn has_ended(&self) -> bool
        ensures ended { result ≡ has_ended self.now }
        ensures within { IsWithin self.now.patience self.now.state.steps }
        ensures whole { IsContext self.now.context }
    {
        self.over || is_reached(self.patience, self.activation.steps())
    }

    /// Returns whether the program has exited.
    pub fn has_exited(&self) -> bool
        ensures { result ≡ self.now.over }
    {
        self.over
    }

    /// Returns the outbox that the program has filled so far. In a signed campaign it includes the orders that the
    /// program signed or passed on.
    pub fn outbox(&self) -> &Outbox
        ensures relay { result.now.relay ≡ self.now.relay }
        ensures rows { result.now.rows ≡ self.now.state.outbox }
        ensures entries { result.now.entries ≡ self.now.state.entries }
    {
        self.activation.outbox()
    }
}

/// Moves a machine into a box. Fails with `AllocError` if there is no memory for the box.
fn boxed(alloc: Global, activation: Machine) -> Result<Box<Machine>, AllocError>
    ensures { IfOk result (λ own. own.value ≡ activation) }
{
    Ok(Box::new(alloc, activation)?)
}

/// Returns whether this number of steps uses up the patience. It is false if there is no patience.
pub(crate) fn is_reached(patience: Option<u32>, steps: u32) -> bool
    ensures { result ≡ is_reached patience steps }
{
    match patience {
        Some(most) => most <= steps,
        None => false,
    }
}

/// Returns whether both patiences are the same number, or both are `None`.
fn same_patience(patience: Option<u32>, other: Option<u32>) -> bool
    ensures { IsTrue result ↔ (patience ≡ other) }
{
    match (patience, other) {
        (None, None) => true,
        (Some(most), Some(second)) => most == second,
        _ => false,
    }
}
