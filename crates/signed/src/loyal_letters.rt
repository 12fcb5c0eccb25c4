//! Makes a loyal general's letter of a round, with the chains that SM(m) has him sign.
ghost use Rattle.std.specs.Prelude.{◌≡◌, ◌≤◌, ◌<◌, length, IfOk};
ghost use Rattle.signed.specs.Sending.{letter_behind, IsSent};

use crate::briefing::{context, outbox};
use crate::entries::enter;
use crate::held_chains::Held;
use crate::sent_chains::SentRound;
use round::{Letter, Player, Scenario};
use std::alloc::{AllocError, Global};

/// Returns a loyal general's letter in the round after those in `sent`. Its outbox has the chains that SM(m) has him
/// sign. Fails with `AllocError` if it runs out of memory.
pub(crate) fn loyal_letter(
    alloc: Global,
    scenario: &Scenario,
    sent: &[SentRound],
    general: u8,
) -> Result<Letter, AllocError>
    requires left { length sent.now ≤ scenario.now.bound }
    requires inside { general < scenario.now.generals }
    requires sent { IsSent scenario.now sent.now }
    ensures { IfOk result (λ letter. letter ≡ letter_behind scenario.now sent.now general) }
{
    scenario.recall();
    let held = Held::behind(alloc, sent, general)?;
    let context = context(alloc, scenario, sent, general, &held)?;
    let mut outbox = outbox(alloc, scenario, sent, general, &held)?;
    enter(&mut outbox, scenario, sent, general, &held);
    Ok(Letter {
        general: u32::from(general),
        round: sent.len() as u32 + 1,
        context,
        program: Player::new(None),
        transcript: Vec::new(alloc),
        steps: 0,
        outbox,
        exited: true,
    })
}
