//! Makes the context and the empty outbox that a general has at the start of a round.
ghost use Rattle.std.specs.Prelude.{◌≡◌, ◌≤◌, ◌<◌, [], length, IfOk};
ghost use Rattle.signed.specs.Sending.{context_behind, held_of, relay_behind, AreRows};

use crate::held_chains::Held;
use crate::sent_chains::SentRound;
use mem::context_telling;
use outbox::Outbox;
use round::Scenario;
use std::alloc::{AllocError, Global};

/// The 32-bit number at byte 28 of a context that says that the campaign is signed.
const SIGNED: u32 = 1;

/// Returns a general's context at the start of the round after those in `sent`. It contains the chains in `held`, which
/// he received in these rounds. Fails with `AllocError` if it runs out of memory.
pub(crate) fn context(
    alloc: Global,
    scenario: &Scenario,
    sent: &[SentRound],
    general: u8,
    held: &Held,
) -> Result<Vec<u8>, AllocError>
    requires left { length sent.now ≤ scenario.now.bound }
    requires inside { general < scenario.now.generals }
    requires rows { AreRows scenario.now.generals sent.now }
    requires held { held.now ≡ held_of general sent.now }
    requires few { length held.now.chains ≤ 500 }
    ensures { IfOk result (λ bytes. bytes.items ≡ context_behind scenario.now sent.now general) }
{
    let generals = u32::from(scenario.generals());
    let header = [
        generals,
        u32::from(scenario.bound()),
        u32::from(general),
        u32::from(scenario.commander()),
        sent.len() as u32 + 1,
        held.len() as u32,
        generals - 1,
        SIGNED,
    ];
    let numbers = held.numbers(alloc)?;
    context_telling(alloc, &header, numbers.as_slice())
}

/// Returns a general's outbox at the start of the round after those in `sent`. It contains no orders, and knows the
/// signers of the chains in `held`, which he may pass on. Fails with `AllocError` if it runs out of memory.
pub(crate) fn outbox(
    alloc: Global,
    scenario: &Scenario,
    sent: &[SentRound],
    general: u8,
    held: &Held,
) -> Result<Outbox, AllocError>
    requires left { length sent.now ≤ scenario.now.bound }
    requires inside { general < scenario.now.generals }
    requires rows { AreRows scenario.now.generals sent.now }
    requires held { held.now ≡ held_of general sent.now }
    ensures relay { IfOk result (λ outbox. outbox.relay ≡ relay_behind scenario.now sent.now general) }
    ensures empty { IfOk result (λ outbox. outbox.rows ≡ []) }
    ensures unentered { IfOk result (λ outbox. outbox.entries ≡ []) }
{
    scenario.recall();
    let round = sent.len() as u8 + 1;
    let signers = held.signers(alloc)?;
    Outbox::signed(alloc, scenario.shape(general, round), signers.as_slice())
}
