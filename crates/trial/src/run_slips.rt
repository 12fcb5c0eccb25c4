//! Lists the slips of a trial: its calls that should send orders, but have no effect.
ghost use Rattle.std.specs.Prelude.{◌≡◌, ℕ, List, IfOk, OnOk};
ghost use Rattle.insn.specs.declared.insn.Insn.{Insn};
ghost use Rattle.label.specs.Relay.{IsShape};
ghost use Rattle.semantics.specs.Relay.{oral};
ghost use Rattle.semantics.specs.Call.{resumed};
ghost use Rattle.board.specs.Board.{reply, next};
ghost use Rattle.machine.specs.Advance.{IsAskOfRun, IsOfRun};
ghost use Rattle.trial.specs.Slips.{slips_on};

use crate::helper_call::HelperCall;
use crate::noted_step::step_noted;
use crate::turn::Turn;
use board::Board;
use label::Shape;
use machine::Machine;
use mem::Context;
use outbox::Outbox;
use semantics::Request;
use std::alloc::{AllocError, Global};
use verify::Verified;

/// Runs a program until it exits, and returns its slips in order: the calls that should send orders, but have no
/// effect. `shape` gives the number of generals, the commander, the program's general and the round, and `words` are
/// the board's words at the start. Messages are oral.
///
/// # Errors
///
/// Fails with `AllocError` if there is no memory for the outbox, an access or the calls.
pub fn slips(
    alloc: Global,
    verified: &Verified,
    context: &Context,
    shape: Shape,
    words: [u64; 64],
) -> Result<Vec<HelperCall>, AllocError>
    requires { IsShape shape }
    ensures { IfOk result (λ calls. calls.items ≡ slips_on words verified.now context.now (oral shape)) }
{
    let mut calls = Vec::new(alloc);
    let mut board = Board::new(alloc, words);
    let mut activation = Machine::start(verified, context, Outbox::new(alloc, shape)?);
    loop {
        match step_noted(&mut calls, verified, context, &mut activation)? {
            Turn::Onward => {}
            Turn::Asked(request) => answer(shape, request, &mut activation, &mut board)?,
            Turn::Ended => return Ok(calls),
        }
    }
}

/// Lets the board answer a request, and resumes the activation with the answer.
fn answer(
    shape: Shape,
    request: Request,
    activation: &mut Machine,
    board: &mut Board,
) -> Result<(), AllocError>
    ensures relay { activation.new.relay ≡ activation.old.relay }
    ensures state { OnOk result
        (activation.new.state ≡ resumed request (reply board.old.words request) activation.old.state) }
    ensures words { OnOk result (board.new.words ≡ next board.old.words request) }
    ensures of_run { OnOk result ((program : List Insn) (context : List ℕ) →
        IsAskOfRun program context request activation.old → IsOfRun program context activation.new) }
{
    let reply = board.apply(shape.general, shape.round, request)?;
    activation.resume(&request, &reply);
    Ok(())
}
