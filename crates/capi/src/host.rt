//! Runs an accepted program outside of any campaign, in one context or in many. It runs as general 3 of four in the
//! first round.
ghost use Rattle.std.specs.Prelude.{◌≡◌, ◌*◌, List, [], ℕ, IfOk, OnErr, length};
ghost use Rattle.codec.specs.Program.{SpellsProgram};
ghost use Rattle.semantics.specs.Outbox.{empty_outbox};
ghost use Rattle.semantics.specs.Relay.{oral};
ghost use Rattle.semantics.specs.State.{entry};
ghost use Rattle.machine.specs.Advance.{IsOfRun};
ghost use Rattle.capi.specs.Runs.{Exits, host};
ghost use Rattle.capi.specs.Many.{IsOutcome, AreRuns, AreBegun};

use crate::outcome::RunOutcome;
use crate::running::run_over;
use label::Shape;
use machine::Machine;
use mem::Context;
use outbox::Outbox;
use std::alloc::{AllocError, Global};
use verify::Verified;

/// The general as whom a program runs outside of a campaign: the last of four generals, in the first round, in which he
/// relays nothing.
const HOST: Shape = Shape {
    generals: 4,
    commander: 0,
    general: 3,
    round: 1,
};

/// Returns an empty outbox for a program that runs outside of a campaign, as general 3 of four in the first round.
#[inline(never)]
pub fn outbox(alloc: Global) -> Result<Outbox, AllocError>
    ensures relay { IfOk result (λ o. o.relay ≡ oral host) }
    ensures empty { IfOk result (λ o. o.rows ≡ empty_outbox o.relay) }
    ensures unentered { IfOk result (λ o. o.entries ≡ []) }
{
    Outbox::new(alloc, HOST)
}

/// Runs an accepted program to its exit, as general 3 of four in the first round. `words` are the words of the board:
/// the program's requests read and change them.
///
/// # Errors
///
/// Fails with `AllocError` if memory runs out. The words are then unchanged.
pub fn run_hosted(
    alloc: Global,
    verified: &Verified,
    context: &Context,
    words: &mut [u64; 64],
) -> Result<RunOutcome, AllocError>
    ensures exits { IfOk result (λ o. Exits words.old verified.now context.now o.r0 o.steps words.new) }
    ensures unrun { OnErr result (words.new ≡ words.old) }
{
    let mut activation = Machine::start(verified, context, outbox(alloc)?);
    run_begun(alloc, verified, context, words, &mut activation)
}

/// Runs an activation that has just started to its exit. `words` are the words of the board: the program's requests
/// read and change them. The function is not inlined, so that the library contains its code once.
///
/// # Errors
///
/// Fails with `AllocError` if memory runs out. The words are then unchanged.
#[inline(never)]
pub fn run_begun(
    alloc: Global,
    verified: &Verified,
    context: &Context,
    words: &mut [u64; 64],
    activation: &mut Machine,
) -> Result<RunOutcome, AllocError>
    requires relay { activation.old.relay ≡ oral host }
    requires started { activation.old.state ≡ entry (empty_outbox (oral host)) }
    requires of_run { IsOfRun verified.now context.now activation.old }
    ensures exits { IfOk result (λ o. Exits words.old verified.now context.now o.r0 o.steps words.new) }
    ensures unrun { OnErr result (words.new ≡ words.old) }
{
    let before = *words;
    let r0 = match run_over(alloc, words, verified, context, activation) {
        Ok(r0) => r0,
        Err(refused) => {
            *words = before;
            return Err(refused);
        }
    };
    Ok(RunOutcome {
        r0,
        steps: activation.steps(),
    })
}

/// Runs an activation that has just started to its exit, with a board on which all words are 0.
fn run_afresh(
    alloc: Global,
    verified: &Verified,
    context: &Context,
    activation: &mut Machine,
) -> Result<RunOutcome, AllocError>
    requires relay { activation.old.relay ≡ oral host }
    requires started { activation.old.state ≡ entry (empty_outbox (oral host)) }
    requires of_run { IsOfRun verified.now context.now activation.old }
    ensures { IfOk result (λ o. (bytes : List ℕ) → SpellsProgram bytes verified.now →
        IsOutcome bytes context.now o) }
{
    let mut words = [0; 64];
    run_begun(alloc, verified, context, &mut words, activation)
}

/// Runs a program once in each of the contexts, which follow one another in `contexts` with 4,096 bytes each. Stores
/// the outcome of the run in context i in `outcomes[i]`. Each run begins with a board on which all words are 0.
///
/// # Errors
///
/// Fails with `AllocError` if memory runs out. Each outcome is then either that of its run or unchanged.
pub fn run_each(
    alloc: Global,
    verified: &Verified,
    contexts: &[u8],
    outcomes: &mut [RunOutcome],
) -> Result<(), AllocError>
    requires whole { length contexts.now ≡ 4096 * length outcomes.old }
    ensures ran { IfOk result (λ _. (bytes : List ℕ) → SpellsProgram bytes verified.now →
        AreRuns bytes contexts.now outcomes.new) }
    ensures begun { (bytes : List ℕ) → SpellsProgram bytes verified.now →
        AreBegun bytes contexts.now outcomes.old outcomes.new }
{
    let blank = [0; Context::BYTES];
    let mut activation = Machine::start(verified, &Context::new(&blank), outbox(alloc)?);
    for index in 0..outcomes.len() {
        let context = Context::new(&contexts[4096 * index..4096 * index + 4096]);
        activation.restart(verified, &context, outbox(alloc)?);
        outcomes[index] = run_afresh(alloc, verified, &context, &mut activation)?;
    }
    Ok(())
}
