//! Makes the context and the outbox with which a general begins a round of a signed campaign.
ghost use Rattle.std.specs.Prelude.{◌≡◌, ◌≤◌, ◌<◌, [], length, IfOk};
ghost use Rattle.round.specs.Scenario.{program_of};
ghost use Rattle.signed.specs.Sending.{context_behind, entries_behind, held_of, relay_behind, IsSent};

use crate::briefing::{context, outbox};
use crate::entries::enter;
use crate::held_chains::Held;
use crate::sent_chains::SentRound;
use outbox::Outbox;
use round::Scenario;
use std::alloc::{AllocError, Global};

/// Returns the context and the outbox with which a general begins the round after those in `sent`. A loyal general's
/// outbox has the chains that SM(m) has him sign, and a traitor's is empty. Fails with `AllocError` if it runs out of
/// memory.
pub(crate) fn outset(
    alloc: Global,
    scenario: &Scenario,
    sent: &[SentRound],
    general: u8,
) -> Result<(Vec<u8>, Outbox), AllocError>
    requires left { length sent.now ≤ scenario.now.bound }
    requires inside { general < scenario.now.generals }
    requires sent { IsSent scenario.now sent.now }
    ensures context { IfOk result (λ r. r.0.items ≡ context_behind scenario.now sent.now general) }
    ensures relay { IfOk result (λ r. r.1.relay ≡ relay_behind scenario.now sent.now general) }
    ensures rows { IfOk result (λ r. r.1.rows ≡ []) }
    ensures entries { IfOk result (λ r.
        r.1.entries ≡ entries_behind scenario.now sent.now general (program_of scenario.now general)) }
{
    scenario.recall();
    let held = Held::behind(alloc, sent, general)?;
    let context = context(alloc, scenario, sent, general, &held)?;
    let outbox = begun_outbox(alloc, scenario, sent, general, &held)?;
    Ok((context, outbox))
}

/// Returns the outbox with which a general begins the round after those in `sent`. Fails with `AllocError` if it runs
/// out of memory.
fn begun_outbox(
    alloc: Global,
    scenario: &Scenario,
    sent: &[SentRound],
    general: u8,
    held: &Held,
) -> Result<Outbox, AllocError>
    requires left { length sent.now ≤ scenario.now.bound }
    requires inside { general < scenario.now.generals }
    requires sent { IsSent scenario.now sent.now }
    requires held { held.now ≡ held_of general sent.now }
    ensures relay { IfOk result (λ outbox. outbox.relay ≡ relay_behind scenario.now sent.now general) }
    ensures rows { IfOk result (λ outbox. outbox.rows ≡ []) }
    ensures entries { IfOk result (λ outbox.
        outbox.entries ≡ entries_behind scenario.now sent.now general (program_of scenario.now general)) }
{
    let mut outbox = outbox(alloc, scenario, sent, general, held)?;
    match scenario.seat(general).program() {
        Some(_) => Ok(outbox),
        None => {
            enter(&mut outbox, scenario, sent, general, held);
            Ok(outbox)
        }
    }
}
