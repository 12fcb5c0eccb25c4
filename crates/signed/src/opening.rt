//! Opens a round of a signed campaign: makes the generals' parts in it, and starts the traitors' activations. A part is
//! what a general does in the round.
ghost use Rattle.std.specs.Prelude.{◌≡◌, ◌≤◌, ◌<◌, length, IfOk};
ghost use Rattle.std.specs.Arc.{arc_value};
ghost use Rattle.round.specs.Activation.{started};
ghost use Rattle.round.specs.Scenario.{program_of};
ghost use Rattle.signed.specs.Sending.{begins_behind, beginnings_behind, context_behind, relay_behind, IsSent};

use crate::briefing::{context, outbox};
use crate::held_chains::Held;
use crate::sent_chains::SentRound;
use round::{Running, Scenario};
use std::alloc::{AllocError, Global};
use std::sync::Arc;
use verify::Verified;
use world::Progress;

/// Returns each general's part at the start of the round after those in `sent`. If there is no further round, returns
/// an empty list. Fails with `AllocError` if it runs out of memory.
pub(crate) fn beginnings(
    alloc: Global,
    scenario: &Scenario,
    sent: &[SentRound],
) -> Result<Vec<Progress>, AllocError>
    requires sent { IsSent scenario.now sent.now }
    ensures { IfOk result (λ parts. parts.items ≡ beginnings_behind scenario.now sent.now) }
{
    if sent.len() > usize::from(scenario.bound()) {
        return Ok(Vec::new(alloc));
    }
    let mut parts = Vec::with_capacity(alloc, usize::from(scenario.generals()))?;
    for general in 0..scenario.generals() {
        parts.push(beginning(alloc, scenario, sent, general)?)?;
    }
    Ok(parts)
}

/// Returns one general's part at the start of the round after those in `sent`: a new activation if he is a traitor,
/// otherwise that he has not posted. Fails with `AllocError` if it runs out of memory.
fn beginning(
    alloc: Global,
    scenario: &Scenario,
    sent: &[SentRound],
    general: u8,
) -> Result<Progress, AllocError>
    requires left { length sent.now ≤ scenario.now.bound }
    requires sent { IsSent scenario.now sent.now }
    requires inside { general < scenario.now.generals }
    ensures { IfOk result (λ part. part
        ≡ begins_behind scenario.now sent.now general (program_of scenario.now general)) }
{
    match scenario.seat(general).program() {
        None => Ok(Progress::Silent),
        Some(program) => Ok(Progress::Acting(activation(alloc, scenario, sent, program, general)?)),
    }
}

/// Returns a traitor's activation at the start of the round after those in `sent`, with his context and the chains that
/// he holds. Fails with `AllocError` if it runs out of memory.
fn activation(
    alloc: Global,
    scenario: &Scenario,
    sent: &[SentRound],
    program: &Arc<Verified>,
    general: u8,
) -> Result<Running, AllocError>
    requires left { length sent.now ≤ scenario.now.bound }
    requires sent { IsSent scenario.now sent.now }
    requires inside { general < scenario.now.generals }
    ensures { IfOk result (λ running. running
        ≡ started scenario.now.patience (arc_value program.now) (context_behind scenario.now sent.now general)
        (relay_behind scenario.now sent.now general)) }
{
    scenario.recall();
    let held = Held::behind(alloc, sent, general)?;
    let context = context(alloc, scenario, sent, general, &held)?;
    let outbox = outbox(alloc, scenario, sent, general, &held)?;
    let program = program.clone()?;
    Running::start(alloc, program, context, scenario.patience(), outbox)
}
