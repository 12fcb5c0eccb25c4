//! Runs a traitor's program for one round, from its start to its end, and returns the letter.
ghost use Rattle.std.specs.Prelude.{◌≡◌, ◌<◌, ◌≤◌, ◌+◌, ◌++◌, ◌∷◌, [], true, false, ℕ, List, length, option_to_list, IfOk, IfSome, OnOk, OnErr};
ghost use Rattle.std.specs.Arc.{arc_value};
ghost use Rattle.insn.specs.declared.insn.Insn.{Insn};
ghost use Rattle.label.specs.Relay.{IsShape};
ghost use Rattle.semantics.specs.Call.{fits, resumed};
ghost use Rattle.semantics.specs.Outbox.{empty_outbox};
ghost use Rattle.semantics.specs.Relay.{Oral};
ghost use Rattle.machine.specs.Standing.{HasAsked, before};
ghost use Rattle.machine.specs.Advance.{IsOfRun, IsAskOfRun};
ghost use Rattle.round.specs.Activation.{Activation as Activated, started, turn, has_ended};
ghost use Rattle.round.specs.Runs.{Runs, AreFitting};
ghost use Rattle.round.specs.Contexts.{IsToldTo, shape_told, tells_oral};
ghost use Rattle.board.specs.Board.{Access as Entry};
ghost use Rattle.round.specs.Running.{TakesTurn, IsSameRun, IsWayServed, IsGivenUp, IsGivenUpIn, IsLived, IsLivedIn};

use crate::letter::Letter;
use crate::loyalty::shape_told;
use crate::run::Running;
use crate::server::Server;
use crate::turns::one;
use board::Access;
use machine::{Machine, StopReason};
use outbox::Outbox;
use semantics::Request;
use std::alloc::{AllocError, Global};
use std::sync::Arc;
use verify::Verified;

/// Runs a general's program in its context until it exits or has taken as many steps as the patience allows, and
/// returns his letter of this round. If the last of these steps is a request, it is still served. The letter's
/// transcript lists exactly the accesses that the server has served in this call.
///
/// # Errors
///
/// Fails with `AllocError` if there is no memory for the outbox, an access or the transcript. The server has then
/// served what the program had requested before.
pub fn live<S: Server>(
    alloc: Global,
    server: &mut S,
    general: u32,
    round: u32,
    program: Arc<Verified>,
    context: Vec<u8>,
    patience: Option<u32>,
) -> Result<Letter, AllocError>
    requires context { length context.items ≡ 4096 }
    requires own { IsToldTo general round context.items }
    requires shape { IsShape (shape_told general round context.items) }
    ensures lived { IfOk result (IsLived general round (arc_value program) context.items patience) }
    ensures served { IfOk result (λ letter. S.served server.new ≡ S.served server.old ++ letter.transcript) }
    ensures given_up { OnErr result
        (IsGivenUp general round (arc_value program) context.items patience (S.served server.old)
        (S.served server.new)) }
{
    let shape = shape_told(general, round, context.as_slice());
    let outbox = Outbox::new(alloc, shape)?;
    live_in(
        alloc, server, general, round, program, context, patience, outbox,
    )
}

/// Runs a general's program as `live` does, for oral or signed orders, and with `outbox`. This must be empty, and for
/// the relay that the context describes.
///
/// # Errors
///
/// The errors are those of `live`.
pub fn live_in<S: Server>(
    alloc: Global,
    server: &mut S,
    general: u32,
    round: u32,
    program: Arc<Verified>,
    context: Vec<u8>,
    patience: Option<u32>,
    outbox: Outbox,
) -> Result<Letter, AllocError>
    requires context { length context.items ≡ 4096 }
    requires own { IsToldTo general round context.items }
    requires shape { outbox.relay.shape ≡ shape_told general round context.items }
    requires kind { tells_oral context.items → outbox.relay.kind ≡ Oral }
    requires empty { outbox.rows ≡ empty_outbox outbox.relay }
    requires unentered { outbox.entries ≡ [] }
    ensures lived { IfOk result
        (IsLivedIn general round (arc_value program) context.items outbox.relay patience) }
    ensures served { IfOk result (λ letter. S.served server.new ≡ S.served server.old ++ letter.transcript) }
    ensures given_up { OnErr result
        (IsGivenUpIn general round (arc_value program) context.items outbox.relay patience (S.served server.old)
        (S.served server.new)) }
{
    let mut running = Running::start(alloc, program, context, patience, outbox)?;
    let mut transcript = Vec::new(alloc);
    while !running.has_ended() {
        go_on(&mut running, &mut transcript, server, general, round)?;
    }
    Ok(running.into_letter(general, round, transcript))
}

/// Takes one step of the program, which may be a request, and then further steps until just before its next request or
/// its end. Appends the access, if one was made, to `transcript`. Fails with `AllocError` if there is no memory for the
/// access or the transcript.
fn go_on<S: Server>(
    running: &mut Running,
    transcript: &mut Vec<Access>,
    server: &mut S,
    general: u32,
    round: u32,
) -> Result<(), AllocError>
    requires { has_ended running.old ≡ false }
    ensures way { OnOk result ((start : Activated) (before : List Entry) →
        IsWayServed general round start running.old before transcript.old.items (S.served server.old) →
        IsWayServed general round start running.new before transcript.new.items (S.served server.new)) }
    ensures given_up { OnErr result ((start : Activated) (before : List Entry) →
        IsWayServed general round start running.old before transcript.old.items (S.served server.old) →
        (a : Activated) × (made : List Entry) × IsWayServed general round start a before made (S.served server.new)) }
    ensures later { OnOk result (running.old.state.steps < running.new.state.steps) }
    ensures few { OnOk result (running.old.state.steps < 4096) }
{
    let Some(access) = running.next(server, general, round)? else {
        running.ahead(u32::MAX);
        return Ok(());
    };
    transcript.push(access)?;
    running.ahead(u32::MAX);
    Ok(())
}

impl Running {
    /// Takes one step of the program. If the step is a request, the server answers it. Returns the access, or `None` if
    /// the step was not a request.
    ///
    /// # Errors
    ///
    /// Fails with `AllocError` if there is no memory for the access. Then nothing has changed.
    fn next<S: Server>(
        &mut self,
        server: &mut S,
        general: u32,
        round: u32,
    ) -> Result<Option<Access>, AllocError>
        requires { has_ended self.old ≡ false }
        ensures turn { IfOk result (λ access. TakesTurn (turn self.old) access self.new) }
        ensures own { IfOk result (λ access. IfSome access (λ a. (a.general ≡ general) × (a.round ≡ round))) }
        ensures fits { IfOk result (λ access. IfSome access (λ a. fits a.request a.reply ≡ true)) }
        ensures same { IsSameRun self.old self.new }
        ensures one { OnOk result (self.new.state.steps ≡ self.old.state.steps + 1) }
        ensures few { OnOk result (self.new.state.steps ≤ 4096) }
        ensures served { IfOk result (λ access. S.served server.new ≡ S.served server.old ++ option_to_list access) }
        ensures undone { OnErr result (self.new ≡ self.old) }
        ensures unserved { OnErr result (S.served server.new ≡ S.served server.old) }
    {
        match one(&mut self.activation, &self.program, self.context.as_slice()) {
            StopReason::Limit => Ok(None),
            StopReason::Exited(_) => {
                self.over = true;
                Ok(None)
            }
            StopReason::Asked(request) => {
                let access = answered(&mut self.activation, server, general, round, request)?;
                Ok(Some(access))
            }
        }
    }
}

/// Lets the server answer a request, and resumes the activation with the reply. Returns the access.
///
/// # Errors
///
/// Fails with `AllocError` if there is no memory for the access. Then nothing was served, and the activation is in the
/// state before the request.
fn answered<S: Server>(
    activation: &mut Machine,
    server: &mut S,
    general: u32,
    round: u32,
    request: Request,
) -> Result<Access, AllocError>
    requires { HasAsked activation.old.state }
    ensures relay { activation.new.relay ≡ activation.old.relay }
    ensures own { IfOk result (λ a. (a.general ≡ general) × (a.round ≡ round) × (a.request ≡ request)) }
    ensures fits { IfOk result (λ a. fits request a.reply ≡ true) }
    ensures state { IfOk result (λ a. activation.new.state ≡ resumed request a.reply activation.old.state) }
    ensures steps { OnOk result (activation.new.state.steps ≡ activation.old.state.steps) }
    ensures entered { IfOk result (λ a. S.served server.new ≡ S.served server.old ++ a ∷ []) }
    ensures undone { OnErr result (activation.new.state ≡ before activation.old.state) }
    ensures unserved { OnErr result (S.served server.new ≡ S.served server.old) }
    ensures of_run { (code : List Insn) (context : List ℕ) →
        IsAskOfRun code context request activation.old → IsOfRun code context activation.new }
{
    match server.serve(general, round, request) {
        Ok(reply) => {
            activation.resume(&request, &reply);
            Ok(Access {
                general,
                round,
                request,
                reply,
            })
        }
        Err(error) => {
            activation.withdraw();
            Err(error)
        }
    }
}
