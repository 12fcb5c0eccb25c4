//! Defines the task of a general in a round, and makes his letter for that round.
ghost use Rattle.std.specs.Prelude.{◌≡◌, ◌<◌, ◌≤◌, ◌++◌, List, length, None, Some, IfOk};
ghost use Rattle.std.specs.Arc.{arc_value};
ghost use Rattle.label.specs.Relay.{IsShape};
ghost use Rattle.round.specs.Contexts.{IsToldTo, faithful_letter_with, shape_told};
ghost use Rattle.round.specs.Letters.{Letter as LetterSeen};
ghost use Rattle.round.specs.Running.{IsLivedIn};
ghost use Rattle.round.specs.Told.{WasTold};
ghost use Rattle.world.specs.World.{oral_kind};
ghost use Rattle.threads.specs.Duties.{duty_of, outbox_by, IsDone, IsOutset, IsOutsetIf};

use outbox::Outbox;
use round::{
    Letter, Player, Received, Scenario, Server, live, live_in, loyal_letter, loyal_letter_with,
};
use std::alloc::{AllocError, Global};
use std::marker::Model;
use std::sync::Arc;
use verify::Verified;

/// The task of a general in a round: a traitor runs his program, and a loyal general relays what he received. Contracts
/// see it as a `Duty`.
#[derive(Drop)]
pub struct Task {
    program: Player,
    context: Vec<u8>,
    general: u32,
    round: u32,
    patience: Option<u32>,
    /// The outbox with which he begins, or `None` if it follows from his context, as in an oral campaign.
    outbox: Option<Outbox>,
}

impl Model for Task {
    ghost use Rattle.std.specs.Prelude.{◌≡◌, length};
    ghost use Rattle.label.specs.Relay.{IsShape};
    ghost use Rattle.round.specs.Contexts.{IsToldTo, shape_told};
    ghost use Rattle.threads.specs.Duties.{Duty, IsOutsetIf, outbox_by};

    ghost Value = { Duty };

    ghost view = { λ t. record {
      general = t.general;
      round = t.round;
      context = t.context.items;
      program = t.program;
      patience = t.patience;
      outbox = outbox_by t.general t.round t.context.items t.program t.outbox;
    } };

    ghost invariant = { λ t. (length t.context.items ≡ 4096) × IsToldTo t.general t.round t.context.items
        × IsShape (shape_told t.general t.round t.context.items)
        × IsOutsetIf t.general t.round t.context.items t.program t.outbox };
}

impl Task {
    /// Returns this general's task in the next round of an oral campaign. `told` is what the lieutenants received in
    /// the earlier rounds.
    ///
    /// # Errors
    ///
    /// `AllocError` if an allocation fails.
    pub(crate) fn new(
        alloc: Global,
        scenario: &Scenario,
        told: &Received,
        general: u8,
    ) -> Result<Task, AllocError>
        requires told { (before : List (List LetterSeen)) × WasTold scenario.now before told.now }
        requires left { told.now.rounds ≤ scenario.now.bound }
        requires general { general < scenario.now.generals }
        ensures duty { IfOk result (λ task. (before : List (List LetterSeen)) → WasTold scenario.now before told.now →
            task ≡ duty_of oral_kind scenario.now before general) }
        ensures general { IfOk result (λ task. task.general ≡ general) }
    {
        scenario.recall();
        let context = told.context(alloc, scenario, general)?;
        let program = scenario.seat(general).copy()?;
        Ok(Task {
            program,
            context,
            general: u32::from(general),
            round: u32::from(told.rounds()) + 1,
            patience: scenario.patience(),
            outbox: None,
        })
    }

    /// Returns the task of a general who begins a round in this context and with this outbox.
    pub fn given(
        program: Player,
        context: Vec<u8>,
        general: u32,
        round: u32,
        patience: Option<u32>,
        outbox: Outbox,
    ) -> Task
        requires context { length context.items ≡ 4096 }
        requires own { IsToldTo general round context.items }
        requires shape { IsShape (shape_told general round context.items) }
        requires outset { IsOutset general round context.items program outbox }
        ensures { result ≡ record {
          general = general;
          round = round;
          context = context.items;
          program = program;
          patience = patience;
          outbox = outbox;
        } }
    {
        Task {
            program,
            context,
            general,
            round,
            patience,
            outbox: Some(outbox),
        }
    }

    /// Returns the general who must do this task.
    pub(crate) fn general(&self) -> u32
        ensures { result ≡ self.now.general }
    {
        self.general
    }

    /// Makes the general's letter for this task. `server` serves the requests of his program, and the letter's
    /// transcript lists exactly the accesses that it has served.
    ///
    /// # Errors
    ///
    /// `AllocError` if an allocation fails.
    pub(crate) fn letter<S: Server>(
        self,
        alloc: Global,
        server: &mut S,
    ) -> Result<Letter, AllocError>
        ensures done { IfOk result (IsDone self) }
        ensures general { IfOk result (λ letter. letter.general ≡ self.general) }
        ensures served { IfOk result (λ letter. S.served server.new ≡ S.served server.old ++ letter.transcript) }
    {
        let Task {
            program,
            context,
            general,
            round,
            patience,
            outbox,
        } = self;
        match program.program() {
            Some(program) => run(
                alloc,
                server,
                general,
                round,
                program.clone()?,
                context,
                patience,
                outbox,
            ),
            None => write(alloc, general, round, context, outbox),
        }
    }
}

/// Runs a traitor's program with the given outbox or, if there is none, with an empty one for oral orders.
///
/// # Errors
///
/// `AllocError` if an allocation fails.
fn run<S: Server>(
    alloc: Global,
    server: &mut S,
    general: u32,
    round: u32,
    program: Arc<Verified>,
    context: Vec<u8>,
    patience: Option<u32>,
    outbox: Option<Outbox>,
) -> Result<Letter, AllocError>
    requires context { length context.items ≡ 4096 }
    requires own { IsToldTo general round context.items }
    requires shape { IsShape (shape_told general round context.items) }
    requires outset { IsOutsetIf general round context.items (Some (arc_value program)) outbox }
    ensures lived { IfOk result
        (IsLivedIn general round (arc_value program) context.items
        (outbox_by general round context.items (Some (arc_value program)) outbox).relay patience) }
    ensures served { IfOk result (λ letter. S.served server.new ≡ S.served server.old ++ letter.transcript) }
{
    match outbox {
        Some(outbox) => live_in(
            alloc, server, general, round, program, context, patience, outbox,
        ),
        None => live(alloc, server, general, round, program, context, patience),
    }
}

/// Returns a loyal general's letter. He sends what the given outbox contains or, if there is none, the orders in his
/// context.
///
/// # Errors
///
/// `AllocError` if an allocation fails.
fn write(
    alloc: Global,
    general: u32,
    round: u32,
    context: Vec<u8>,
    outbox: Option<Outbox>,
) -> Result<Letter, AllocError>
    requires context { length context.items ≡ 4096 }
    requires own { IsToldTo general round context.items }
    requires shape { IsShape (shape_told general round context.items) }
    requires outset { IsOutsetIf general round context.items None outbox }
    ensures { IfOk result (λ letter. letter
        ≡ faithful_letter_with general round context.items (outbox_by general round context.items None outbox)) }
{
    match outbox {
        Some(outbox) => Ok(loyal_letter_with(alloc, general, round, context, outbox)),
        None => loyal_letter(alloc, general, round, context),
    }
}
