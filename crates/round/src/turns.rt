//! Takes steps of an activation, one by one or up to its next request to the board.
ghost use Rattle.std.specs.Prelude.{◌≡◌, ◌≤◌, ◌+◌, false, ℕ, None, List, OnOk, OnErr};
ghost use Rattle.insn.specs.declared.insn.Insn.{Insn};
ghost use Rattle.semantics.specs.Call.{resumed};
ghost use Rattle.semantics.specs.Execution.{step};
ghost use Rattle.semantics.specs.Relay.{IsContext};
ghost use Rattle.board.specs.Board.{reply};
ghost use Rattle.machine.specs.Standing.{HasAsked, before};
ghost use Rattle.machine.specs.Advance.{IsOfRun, IsAskOfRun, IsStopOfRun, IsCounted};
ghost use Rattle.round.specs.Activation.{MakesRequest, turn};
ghost use Rattle.round.specs.Running.{Stopped, IsBack, access_entered, moved, activation_of, Silently, Pauses, IsSameRun, lesser};

use crate::run::Running;
use board::Board;
use machine::{Machine, StopReason};
use mem::Context;
use semantics::Request;
use std::alloc::AllocError;
use verify::Verified;

impl Running {
    /// Takes one step of the activation, unless it has ended. If the step is a request, the board answers it, and
    /// records the access for this general and round.
    ///
    /// # Errors
    ///
    /// Fails with `AllocError` if the step is a request and there is no memory for the access. Then nothing has
    /// changed.
    pub fn turn(&mut self, board: &mut Board, general: u32, round: u32) -> Result<(), AllocError>
        ensures done { OnOk result ((self.new, board.new) ≡ moved general round self.old board.old (turn self.old)) }
        ensures undone { OnErr result ((self.new ≡ self.old) × (board.new ≡ board.old)) }
        ensures asking { OnErr result (MakesRequest (turn self.old)) }
    {
        if self.has_ended() {
            return Ok(());
        }
        match one(&mut self.activation, &self.program, self.context.as_slice()) {
            StopReason::Limit => Ok(()),
            StopReason::Exited(_) => {
                self.over = true;
                Ok(())
            }
            StopReason::Asked(request) => serve(
                &mut self.activation,
                board,
                general,
                round,
                request,
            ),
        }
    }

    /// Takes steps until the next step would be a request to the board, the activation has ended, or it has taken at
    /// least `limit` steps since it began. It does not use the board.
    pub fn ahead(&mut self, limit: u32)
        ensures went { Silently self.old self.new }
        ensures pauses { Pauses limit self.new (turn self.new) }
        ensures same { IsSameRun self.old self.new }
        ensures within { (m : ℕ) → self.old.state.steps ≤ m → limit ≤ m → self.new.state.steps ≤ m }
    {
        if self.has_ended() {
            return;
        }
        let most = lesser(self.patience, limit);
        self.over = many(
            &mut self.activation,
            &self.program,
            self.context.as_slice(),
            most,
        );
    }
}

/// Takes steps of the machine until the next step would be a request to the board, the program has exited, or the
/// activation has taken at least `limit` steps since it began. Returns whether the program has exited.
fn many(activation: &mut Machine, verified: &Verified, bytes: &[u8], limit: u32) -> bool
    requires context { IsContext bytes.now }
    requires of_run { IsOfRun verified.now bytes.now activation.old }
    ensures relay { activation.new.relay ≡ activation.old.relay }
    ensures went { Silently (activation_of None verified.now bytes.now activation.old false)
        (activation_of None verified.now bytes.now activation.new result) }
    ensures pauses { Pauses limit (activation_of None verified.now bytes.now activation.new result)
        (turn (activation_of None verified.now bytes.now activation.new result)) }
    ensures of_run { result ≡ false → IsOfRun verified.now bytes.now activation.new }
    ensures within { (m : ℕ) → activation.old.state.steps ≤ m → limit ≤ m → activation.new.state.steps ≤ m }
{
    let context = Context::new(bytes);
    match activation.run(verified, &context, limit) {
        StopReason::Exited(_) => true,
        StopReason::Limit => false,
        StopReason::Asked(_) => {
            activation.withdraw();
            false
        }
    }
}

/// Takes one step of the machine, and returns why it stopped: the step was taken (`Limit`), the program exited, or it
/// makes a request.
pub(crate) fn one(activation: &mut Machine, verified: &Verified, bytes: &[u8]) -> StopReason
    requires context { IsContext bytes.now }
    requires of_run { IsOfRun verified.now bytes.now activation.old }
    ensures relay { activation.new.relay ≡ activation.old.relay }
    ensures stops { Stopped (step verified.now bytes.now activation.old.relay activation.old.state) result
        activation.new.state }
    ensures back { IsBack result activation.old.state activation.new.state }
    ensures counted { IsCounted result activation.new.state }
    ensures one { activation.new.state.steps ≡ activation.old.state.steps + 1 }
    ensures few { activation.new.state.steps ≤ 4096 }
    ensures of_run { IsStopOfRun verified.now bytes.now result activation.new }
{
    let context = Context::new(bytes);
    let _most = verified.program().len();
    let limit = activation.steps() + 1;
    activation.run(verified, &context, limit)
}

/// Lets the board answer a request, and resumes the activation with the reply.
///
/// # Errors
///
/// Fails with `AllocError` if there is no memory for the access. Then the board is unchanged, and the activation is in
/// the state before the request.
fn serve(
    activation: &mut Machine,
    board: &mut Board,
    general: u32,
    round: u32,
    request: Request,
) -> Result<(), AllocError>
    requires { HasAsked activation.old.state }
    ensures relay { activation.new.relay ≡ activation.old.relay }
    ensures done { OnOk result
        ((activation.new.state ≡ resumed request (reply board.old.words request) activation.old.state)
        × (board.new ≡ access_entered general round request board.old)) }
    ensures steps { OnOk result (activation.new.state.steps ≡ activation.old.state.steps) }
    ensures undone { OnErr result ((activation.new.state ≡ before activation.old.state) × (board.new ≡ board.old)) }
    ensures of_run { (program : List Insn) (context : List ℕ) →
        IsAskOfRun program context request activation.old → IsOfRun program context activation.new }
{
    match board.apply(general, round, request) {
        Ok(reply) => {
            activation.resume(&request, &reply);
            Ok(())
        }
        Err(error) => {
            activation.withdraw();
            Err(error)
        }
    }
}

/// Returns the lesser of `limit` and the patience, or `limit` if there is no patience.
fn lesser(patience: Option<u32>, limit: u32) -> u32
    ensures { result ≡ lesser patience limit }
{
    match patience {
        Some(most) => most.min(limit),
        None => limit,
    }
}
