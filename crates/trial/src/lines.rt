//! Prints the result of a trial: the program's size, its exit, its orders, and the board's words that changed.
ghost use Rattle.std.specs.Prelude.{◌≡◌, ◌<◌, ◌≤◌, ◌++◌, ℕ, List, Some, IfOk, OnOk, length, slice_get, string_bytes};
ghost use Rattle.insn.specs.Program.{slots_of};
ghost use Rattle.semantics.specs.Relay.{relayed};
ghost use Rattle.trial.specs.Lines.{first_lines, put_line, label_lines, put_lines, word_line, word_lines};
ghost use Rattle.trial.specs.Answers.{IsTried};

use crate::program_run::{Exited, run_in};
use crate::setting::Setting;
use insn::Program;
use outbox::Outbox;
use std::alloc::{AllocError, Global};
use verify::Verified;

/// Runs a program in a setting, and returns the result as lines: the program's size, its exit value and its number of
/// steps. Then follow the orders that it set, sorted by the label's rank and the receiver, and the words of the board
/// that changed.
///
/// # Errors
///
/// Fails with `AllocError` if there is no memory for the context, the outbox, an access or the lines.
pub fn tried(alloc: Global, verified: &Verified, setting: &Setting) -> Result<String, AllocError>
    ensures { IfOk result (λ text. IsTried verified.now setting.now (string_bytes text)) }
{
    let exited = run_in(alloc, verified, setting)?;
    lines(alloc, verified.program(), &setting.board(), &exited)
}

/// Returns the result of a run as lines: size, exit value, steps, orders, and the words of the board that differ from
/// `opening`.
fn lines(
    alloc: Global,
    program: &Program,
    opening: &[u64; 64],
    exited: &Exited,
) -> Result<String, AllocError>
    ensures { IfOk result (λ text. string_bytes text ≡
        first_lines (length program.now) (length (slots_of program.now)) exited.now.r0 exited.now.activation.state.steps
        ++ put_lines (record {
          relay = exited.now.activation.relay;
          rows = exited.now.activation.state.outbox;
          entries = exited.now.activation.state.entries;
        })
        ++ word_lines opening.now exited.now.board.words) }
{
    let mut text = first_lines(
        alloc,
        program.len(),
        program.units(),
        exited.r0,
        exited.activation.steps(),
    )?;
    push_orders(alloc, &mut text, exited.activation.outbox())?;
    push_words(alloc, &mut text, opening, exited.board.words())?;
    Ok(text)
}

/// Returns two lines: the size of the program in instructions and units, and its exit value and number of steps.
///
/// # Errors
///
/// Fails with `AllocError` if there is no memory for the lines.
pub fn first_lines(
    alloc: Global,
    instructions: usize,
    units: usize,
    r0: u64,
    steps: u32,
) -> Result<String, AllocError>
    ensures { IfOk result (λ text. string_bytes text ≡ first_lines instructions units r0 steps) }
{
    format!(in alloc; "accepted {instructions} instructions {units} units\nr0 {r0} steps {steps}\n")
}

/// Appends a line for each order that the program set, such as `put 0 3 1` (rank, receiver, order).
fn push_orders(alloc: Global, text: &mut String, outbox: &Outbox) -> Result<(), AllocError>
    ensures { OnOk result (string_bytes text.new ≡ string_bytes text.old ++ put_lines outbox.now) }
{
    for rank in 0..outbox.labels() {
        push_label(alloc, text, outbox, rank)?;
    }
    Ok(())
}

/// Appends a line for each order that was set for the label with rank `rank`.
fn push_label(
    alloc: Global,
    text: &mut String,
    outbox: &Outbox,
    rank: u32,
) -> Result<(), AllocError>
    requires { rank < length outbox.now.rows }
    ensures { OnOk result ((label : List ℕ) → slice_get (relayed outbox.now.relay) rank ≡ Some label →
        string_bytes text.new ≡ string_bytes text.old ++ label_lines outbox.now rank label) }
{
    let _shape = outbox.shape();
    let receivers = outbox.receivers(rank);
    for receiver in receivers.as_slice() {
        let receiver = u32::from(*receiver);
        if let Some(order) = outbox.get(rank, receiver) {
            push_order(alloc, text, rank, receiver, order)?;
        }
    }
    Ok(())
}

/// Appends the line of one order, such as `put 0 3 1` (rank, receiver, order).
fn push_order(
    alloc: Global,
    text: &mut String,
    rank: u32,
    receiver: u32,
    order: u32,
) -> Result<(), AllocError>
    ensures { OnOk result (string_bytes text.new ≡ string_bytes text.old ++ put_line rank receiver (Some order)) }
{
    let line = format!(in alloc; "put {rank} {receiver} {order}\n")?;
    text.push_str(line.as_str())
}

/// Appends a line for each word of the board that differs from its value in `opening`, such as `word 5 7`.
fn push_words(
    alloc: Global,
    text: &mut String,
    opening: &[u64; 64],
    words: &[u64],
) -> Result<(), AllocError>
    requires { length words.now ≤ 64 }
    ensures { OnOk result (string_bytes text.new ≡ string_bytes text.old ++ word_lines opening.now words.now) }
{
    for index in 0..words.len() {
        push_word(alloc, text, opening[index], index, words[index])?;
    }
    Ok(())
}

/// Appends the line of one word of the board, such as `word 5 7` (index, value). Appends nothing if it equals
/// `before`.
fn push_word(
    alloc: Global,
    text: &mut String,
    before: u64,
    index: usize,
    word: u64,
) -> Result<(), AllocError>
    ensures { OnOk result (string_bytes text.new ≡ string_bytes text.old ++ word_line before index word) }
{
    if word == before {
        return Ok(());
    }
    let line = format!(in alloc; "word {index} {word}\n")?;
    text.push_str(line.as_str())
}
