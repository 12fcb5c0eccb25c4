//! Opens a round: makes the generals' parts in it, and gives the traitors' activations their contexts. A part is what a
//! general does in the round.
ghost use Rattle.std.specs.Prelude.{◌≡◌, ◌<◌, ◌≤◌, ◌+◌, ◌++◌, ◌∷◌, [], suc, Some, length, slice_get, slice_set, IfOk, OnOk, vec_len, vec_capacity};
ghost use Rattle.std.specs.Arc.{arc_value};
ghost use Rattle.semantics.specs.Relay.{oral};
ghost use Rattle.round.specs.Activation.{started};
ghost use Rattle.round.specs.Scenario.{program_of, shape_of};
ghost use Rattle.round.specs.Told.{WasTold};
ghost use Rattle.world.specs.Closing.{blank, blanks, zeros};
ghost use Rattle.world.specs.Held.{beginnings};
ghost use Rattle.world.specs.World.{begins};

use crate::part::Progress;
use mem::Context;
use outbox::Outbox;
use round::{Received, Round, Running, Scenario};
use std::alloc::{AllocError, Global};
use std::sync::Arc;
use verify::Verified;

/// Returns each general's part in the round after the first `before` rounds. The traitors' activations have empty
/// contexts, which `brief` will write without allocating memory. If there is no further round, returns an empty list.
/// Fails with `AllocError` if it runs out of memory.
pub(crate) fn blanks(
    alloc: Global,
    scenario: &Scenario,
    before: usize,
) -> Result<Vec<Progress>, AllocError>
    ensures { IfOk result (λ parts. parts.items ≡ blanks scenario.now before) }
{
    if before > usize::from(scenario.bound()) {
        return Ok(Vec::new(alloc));
    }
    let mut parts = Vec::with_capacity(alloc, usize::from(scenario.generals()))?;
    for general in 0..scenario.generals() {
        push_blank(&mut parts, alloc, scenario, before as u8, general)?;
    }
    Ok(parts)
}

/// Appends one general's part in the round after the first `before` rounds: a new activation if he is a traitor,
/// otherwise that he has not posted. `parts` must have room for it. Fails with `AllocError` if it runs out of memory.
fn push_blank(
    parts: &mut Vec<Progress>,
    alloc: Global,
    scenario: &Scenario,
    before: u8,
    general: u8,
) -> Result<(), AllocError>
    requires room { vec_len parts.old < vec_capacity parts.old }
    requires left { before ≤ scenario.now.bound }
    requires inside { general < scenario.now.generals }
    ensures items { OnOk result
        (parts.new.items ≡ parts.old.items
        ++ blank scenario.now before general (program_of scenario.now general) ∷ []) }
    ensures len { OnOk result (vec_len parts.new ≡ vec_len parts.old + 1) }
    ensures room { OnOk result (vec_capacity parts.new ≡ vec_capacity parts.old) }
{
    match scenario.seat(general).program() {
        None => parts.push_reserved(Progress::Silent),
        Some(program) => {
            let running = blank(alloc, scenario, program, before, general)?;
            parts.push_reserved(Progress::Acting(running));
        }
    }
    Ok(())
}

/// Returns a traitor's new activation in the round after the first `before` rounds. Its outbox is empty, and its
/// context is 4,096 zero bytes until the real one is written. Fails with `AllocError` if it runs out of memory.
fn blank(
    alloc: Global,
    scenario: &Scenario,
    program: &Arc<Verified>,
    before: u8,
    general: u8,
) -> Result<Running, AllocError>
    requires left { before ≤ scenario.now.bound }
    requires inside { general < scenario.now.generals }
    ensures { IfOk result (λ running. running
        ≡ started scenario.now.patience (arc_value program.now) zeros
        (oral (shape_of scenario.now general (suc before)))) }
{
    scenario.recall();
    let context = zeros(alloc)?;
    let outbox = Outbox::new(alloc, scenario.shape(general, before + 1))?;
    let program = program.clone()?;
    Running::start(alloc, program, context, scenario.patience(), outbox)
}

/// Returns a context of 4,096 zero bytes. Fails with `AllocError` if it runs out of memory.
fn zeros(alloc: Global) -> Result<Vec<u8>, AllocError>
    ensures same { IfOk result (λ bytes. bytes.items ≡ zeros) }
    ensures long { IfOk result (λ bytes. length bytes.items ≡ 4096) }
{
    let mut bytes = Vec::with_capacity(alloc, Context::BYTES)?;
    bytes.resize(Context::BYTES, 0)?;
    Ok(bytes)
}

/// Writes each traitor's context into his activation. `told` is what was received in the closed rounds. It allocates no
/// memory.
pub(crate) fn brief(
    parts: &mut Vec<Progress>,
    told: &Received,
    scenario: &Scenario,
    closed: &[Round],
)
    requires told { WasTold scenario.now closed.now told.now }
    requires blank { parts.old.items ≡ blanks scenario.now (length closed.now) }
    ensures { parts.new.items ≡ beginnings scenario.now closed.now }
{
    if closed.len() > usize::from(scenario.bound()) {
        return;
    }
    for general in 0..scenario.generals() {
        brief_one(parts, told, scenario, closed, general);
    }
}

/// Writes this general's context into his activation if he is a traitor. `told` is what was received in the closed
/// rounds. It allocates no memory.
fn brief_one(
    parts: &mut Vec<Progress>,
    told: &Received,
    scenario: &Scenario,
    closed: &[Round],
    general: u8,
)
    requires told { WasTold scenario.now closed.now told.now }
    requires left { length closed.now ≤ scenario.now.bound }
    requires inside { general < scenario.now.generals }
    requires blank { slice_get parts.old.items general
        ≡ Some (blank scenario.now (length closed.now) general (program_of scenario.now general)) }
    ensures { parts.new.items ≡ slice_set parts.old.items general
        (begins scenario.now closed.now general (program_of scenario.now general)) }
{
    let _ = closed;
    match &mut parts[usize::from(general)] {
        Progress::Acting(running) => running.brief(told, scenario, general),
        Progress::Silent => {}
        Progress::Posted => {}
    }
}
