//! Runs a program and writes its trace, with a line for each step.
ghost use Rattle.std.specs.Prelude.{◌≡◌, ◌≤◌, ◌+◌, ◌++◌, ℕ, List, codes, length, string_bytes, true, false, IfOk, OnOk};
ghost use Rattle.insn.specs.declared.insn.Insn.{Insn as InsnValue};
ghost use Rattle.label.specs.Relay.{IsShape};
ghost use Rattle.semantics.specs.Relay.{oral};
ghost use Rattle.semantics.specs.Call.{resumed};
ghost use Rattle.board.specs.Board.{reply, next};
ghost use Rattle.machine.specs.Advance.{IsAskOfRun, IsOfRun};
ghost use Rattle.trial.specs.StepLines.{after_told, request_told};
ghost use Rattle.trial.specs.Trace.{Rest, told_at, trace_on};

use crate::steps::{put_after, put_before, put_request};
use board::Board;
use insn::Insn;
use label::Shape;
use machine::{Machine, StopReason};
use mem::Context;
use outbox::Outbox;
use semantics::Request;
use std::alloc::{AllocError, Global};
use verify::Verified;

/// Runs a program until it exits, and returns its trace, with a line for each step. `shape` gives the number of
/// generals, the commander, the program's general and the round, and `words` are the board's words at the start. The
/// outbox is empty at the start.
///
/// # Errors
///
/// Fails with `AllocError` if there is no memory for the outbox, an access or the lines.
pub fn traced(
    alloc: Global,
    verified: &Verified,
    context: &Context,
    shape: Shape,
    words: [u64; 64],
) -> Result<String, AllocError>
    requires { IsShape shape }
    ensures { IfOk result (λ text. string_bytes text ≡ trace_on words verified.now context.now (oral shape)) }
{
    let mut text = String::with_capacity(alloc, 32 * verified.program().len())?;
    let mut board = Board::new(alloc, words);
    let mut activation = Machine::start(verified, context, Outbox::new(alloc, shape)?);
    loop {
        if turn(
            &mut text,
            verified,
            context,
            shape,
            &mut activation,
            &mut board,
        )? {
            return Ok(text);
        }
    }
}

/// Runs one instruction and appends its line to the trace. Returns whether the run has ended.
fn turn(
    out: &mut String,
    verified: &Verified,
    context: &Context,
    shape: Shape,
    activation: &mut Machine,
    board: &mut Board,
) -> Result<bool, AllocError>
    requires of_run { IsOfRun verified.now context.now activation.old }
    requires few { length verified.now ≤ 4096 }
    ensures relay { activation.new.relay ≡ activation.old.relay }
    ensures on { IfOk result (λ ended. ended ≡ false → IsOfRun verified.now context.now activation.new) }
    ensures counted { IfOk result (λ ended. ended ≡ false →
        activation.new.state.steps ≡ activation.old.state.steps + 1) }
    ensures told { IfOk result (λ ended. ended ≡ false → (rest : Rest) →
        string_bytes out.old ++ told_at verified.now context.now activation.old.relay rest board.old.words
        activation.old.state
        ≡ string_bytes out.new ++ rest board.new.words activation.new.state) }
    ensures ended { IfOk result (λ ended. ended ≡ true → (rest : Rest) →
        string_bytes out.old ++ told_at verified.now context.now activation.old.relay rest board.old.words
        activation.old.state
        ≡ string_bytes out.new) }
{
    let Some(insn) = verified.program().at(activation.unit()) else {
        return Ok(true);
    };
    put_before(out, activation, &insn)?;
    let limit = activation.steps() + 1;
    match activation.run(verified, context, limit) {
        StopReason::Limit => {
            put_after(out, activation, &insn)?;
            out.push_str("\n")?;
            Ok(false)
        }
        StopReason::Asked(request) => {
            serve(out, shape, &insn, request, activation, board)?;
            Ok(false)
        }
        StopReason::Exited(_) => {
            out.push_str("\n")?;
            Ok(true)
        }
    }
}

/// Lets the board answer a request and resumes the activation with the answer. Appends the end of the request's line
/// in the trace.
fn serve(
    out: &mut String,
    shape: Shape,
    insn: &Insn,
    request: Request,
    activation: &mut Machine,
    board: &mut Board,
) -> Result<(), AllocError>
    ensures relay { activation.new.relay ≡ activation.old.relay }
    ensures state { OnOk result
        (activation.new.state ≡ resumed request (reply board.old.words request) activation.old.state) }
    ensures words { OnOk result (board.new.words ≡ next board.old.words request) }
    ensures of_run { OnOk result ((program : List InsnValue) (context : List ℕ) →
        IsAskOfRun program context request activation.old → IsOfRun program context activation.new) }
    ensures told { OnOk result (string_bytes out.new ≡ string_bytes out.old
        ++ after_told activation.new.state.unit activation.new.state.registers insn.now
        ++ request_told request board.old.words board.new.words ++ codes "\n") }
{
    let words = *board.words();
    let reply = board.apply(shape.general, shape.round, request)?;
    activation.resume(&request, &reply);
    put_after(out, activation, insn)?;
    put_request(out, &request, &words, board.words())?;
    out.push_str("\n")?;
    Ok(())
}
