//! A verified program together with the memory for its runs, so that it can be run often.
ghost use Rattle.std.specs.Prelude.{◌≡◌, ◌≤◌, IfOk, OnErr, length};
ghost use Rattle.capi.specs.Padding.{padded};
ghost use Rattle.capi.specs.Runs.{Exits};

use crate::host::{outbox, run_begun};
use crate::outcome::RunOutcome;
use crate::padded::PaddedContext;
use machine::Machine;
use mem::Context;
use std::alloc::{AllocError, Global};
use std::marker::Model;
use verify::Verified;

/// A verified program, the activation that is restarted for each run, and a buffer for contexts shorter than 4,096
/// bytes. Contracts see this value as the program.
#[derive(Drop)]
pub struct Kept {
    verified: Verified,
    activation: Machine,
    buffer: PaddedContext,
}

impl Model for Kept {
    ghost use Rattle.std.specs.Prelude.{List};
    ghost use Rattle.insn.specs.declared.insn.Insn.{Insn};

    ghost Value = { List Insn };

    ghost view = { λ k. k.verified };
}

impl Kept {
    /// Makes the memory for runs of a verified program, and stores both.
    ///
    /// # Errors
    ///
    /// Fails with `AllocError` if memory runs out.
    pub fn new(alloc: Global, verified: Verified) -> Result<Kept, AllocError>
        ensures { IfOk result (λ k. k ≡ verified) }
    {
        let buffer = PaddedContext::new();
        let activation = Machine::start(&verified, &Context::new(buffer.bytes()), outbox(alloc)?);
        Ok(Kept {
            verified,
            activation,
            buffer,
        })
    }

    /// Runs the program to its exit. The context begins with `start`, at most 4,096 bytes, and continues with zeros up
    /// to 4,096 bytes. `words` are the words of the board: the program's requests read and change them.
    ///
    /// # Errors
    ///
    /// Fails with `AllocError` if memory runs out. The words are then unchanged.
    pub fn run(
        &mut self,
        alloc: Global,
        start: &[u8],
        words: &mut [u64; 64],
    ) -> Result<RunOutcome, AllocError>
        requires { length start.now ≤ 4096 }
        ensures kept { self.new ≡ self.old }
        ensures exits { IfOk result (λ o. Exits words.old self.old (padded start.now) o.r0 o.steps words.new) }
        ensures unrun { OnErr result (words.new ≡ words.old) }
    {
        let Kept {
            verified,
            activation,
            buffer,
        } = self;
        if start.len() == Context::BYTES {
            return run_whole(alloc, verified, start, words, activation);
        }
        run_padded(alloc, verified, start, words, activation, buffer)
    }
}

/// Runs the program in a context that the caller gives in full, with 4,096 bytes.
fn run_whole(
    alloc: Global,
    verified: &Verified,
    bytes: &[u8],
    words: &mut [u64; 64],
    activation: &mut Machine,
) -> Result<RunOutcome, AllocError>
    requires { length bytes.now ≡ 4096 }
    ensures exits { IfOk result (λ o. Exits words.old verified.now (padded bytes.now) o.r0 o.steps words.new) }
    ensures unrun { OnErr result (words.new ≡ words.old) }
{
    let context = Context::new(bytes);
    run_again(alloc, verified, &context, words, activation)
}

/// Runs the program in a context that begins with `start` and continues with zeros up to 4,096 bytes. The context is
/// put together in `buffer`.
fn run_padded(
    alloc: Global,
    verified: &Verified,
    start: &[u8],
    words: &mut [u64; 64],
    activation: &mut Machine,
    buffer: &mut PaddedContext,
) -> Result<RunOutcome, AllocError>
    requires { length start.now ≤ 4096 }
    ensures exits { IfOk result (λ o. Exits words.old verified.now (padded start.now) o.r0 o.steps words.new) }
    ensures unrun { OnErr result (words.new ≡ words.old) }
{
    buffer.fill(start);
    let context = Context::new(buffer.bytes());
    run_again(alloc, verified, &context, words, activation)
}

/// Restarts the activation in this context, and runs the program to its exit.
fn run_again(
    alloc: Global,
    verified: &Verified,
    context: &Context,
    words: &mut [u64; 64],
    activation: &mut Machine,
) -> Result<RunOutcome, AllocError>
    ensures exits { IfOk result (λ o. Exits words.old verified.now context.now o.r0 o.steps words.new) }
    ensures unrun { OnErr result (words.new ≡ words.old) }
{
    activation.restart(verified, context, outbox(alloc)?);
    run_begun(alloc, verified, context, words, activation)
}
