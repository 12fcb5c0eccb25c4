//! Makes the chains that the letters of a round send.
ghost use Rattle.std.specs.Prelude.{◌≡◌, ◌≤◌, ◌<◌, All, length, IfOk};
ghost use Rattle.round.specs.Letters.{letter_of};
ghost use Rattle.signed.specs.Logs.{entries_in, HasFewEntries};
ghost use Rattle.signed.specs.Sending.{signatures, AreRows};
ghost use Rattle.signed.specs.Sent.{round_sent, sends};

use crate::dispatch::dispatched;
use crate::held_chains::Held;
use crate::sent_chains::{Sending, SentRound};
use crate::signer::Signer;
use round::{Letter, Scenario};
use semantics::Entry;
use std::alloc::{AllocError, Global};

/// Returns the chains that these letters send in the round after those in `sent`, each signed by its sender. Of several
/// letters of one general, the first counts. Fails with `AllocError` if it runs out of memory.
pub(crate) fn round_sendings(
    alloc: Global,
    scenario: &Scenario,
    sent: &[SentRound],
    signers: &[Signer],
    letters: &[Letter],
) -> Result<SentRound, AllocError>
    requires rows { AreRows scenario.now.generals sent.now }
    requires signers { signers.now ≡ signatures scenario.now.generals scenario.now.commander }
    ensures { IfOk result (λ round. round ≡ round_sent scenario.now sent.now letters.now) }
{
    let mut sendings = Vec::with_capacity(alloc, usize::from(scenario.generals()))?;
    for general in 0..scenario.generals() {
        let signer = &signers[usize::from(general)];
        sendings.push(letter_sending(alloc, scenario, sent, signer, letters, general)?)?;
    }
    Ok(SentRound { sendings })
}

/// Returns the chains that this general's letter sends in the round after those in `sent`, with his signature as the
/// last. Fails with `AllocError` if it runs out of memory.
fn letter_sending(
    alloc: Global,
    scenario: &Scenario,
    sent: &[SentRound],
    signer: &Signer,
    letters: &[Letter],
    general: u8,
) -> Result<Sending, AllocError>
    requires rows { AreRows scenario.now.generals sent.now }
    requires inside { general < scenario.now.generals }
    requires own { signer.now ≡ record { general = general; commander = scenario.now.commander } }
    ensures { IfOk result (λ sending. sending
        ≡ sends scenario.now sent.now general (letter_of letters.now general)) }
{
    scenario.recall();
    let held = Held::behind(alloc, sent, general)?;
    let entries = entries_of(letters, u32::from(general));
    dispatched(alloc, signer, scenario.generals(), &held, entries)
}

/// Returns the entries of the first letter of this general, or none if he has no letter. There are at most 8.
fn entries_of(letters: &[Letter], general: u32) -> &[Entry]
    ensures same { result.now ≡ entries_in (letter_of letters.now general) }
    ensures few { length result.now ≤ 8 }
{
    for index in 0..letters.len() {
        let letter = &letters[index];
        if letter.general == general {
            return letter.outbox.entries();
        }
    }
    &[]
}

/// Does nothing. Its contract says that each letter has at most eight entries.
pub(crate) fn recall_few(letters: &[Letter])
    ensures { All HasFewEntries letters.now }
{
    for letter in letters {
        let _few = letter.outbox.entries();
    }
}
