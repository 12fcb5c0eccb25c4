//! Reads the chronicle of a campaign from the bytes of a file, and checks that it is sound: the chronicle that the
//! campaign has with the listed accesses. Bytes that are rejected are checked for UTF-8, so that the error can say so.
ghost use Rattle.std.specs.Prelude.{◌≡◌, ◌≢◌, IfOk, IfErr, None, false};
ghost use Rattle.std.specs.Str.{IsUtf8};
ghost use Rattle.scenario.specs.declared.messages.Campaign.TheVariants.{Oral, Signed};
ghost use Rattle.trace.specs.Audit.{version_named};
ghost use Rattle.trace.specs.Laws.{IsSoundText};
ghost use Rattle.trace.specs.Names.{chronicle_told};
ghost use Rattle.trace.specs.SignedAudit.{IsSoundSignedText, is_third_version, signed_chronicle_told};
ghost use Rattle.cli_tasks.specs.declared.refusal.InputRefusal.TheVariants.{Memory, NotText};
ghost use Rattle.cli_tasks.specs.Refusals.{RefusesChronicle, RefusesText};

use crate::refusal::InputRefusal;
use crate::texts::as_text;
use round::Scenario;
use signed::SignedChronicle;
use std::alloc::Global;
use world::Chronicle;

/// Reads the chronicle of an oral campaign, and checks that it is sound: the text is the chronicle that the scenario
/// has with the accesses listed in it.
///
/// # Errors
///
/// Fails with `NotText` if the bytes are not UTF-8, with `Trace` and the line at fault if they are not a chronicle of
/// the scenario, and with `Memory` if memory runs out. Never fails with `Memory` if the first line does not name a
/// version of chronicles that fits the scenario.
pub fn sound_chronicle(
    alloc: Global,
    scenario: &Scenario,
    bytes: &[u8],
) -> Result<Chronicle, InputRefusal>
    ensures sound { IfOk result (λ _. IsSoundText scenario.now bytes.now) }
    ensures chronicle { IfOk result (λ chronicle. chronicle ≡ chronicle_told scenario.now bytes.now) }
    ensures refused { IfErr result (RefusesText (RefusesChronicle (Oral scenario.now)) bytes.now) }
    ensures none { IfErr result (λ refusal. (IsUtf8 bytes.now → ⊥) → refusal ≡ NotText) }
    ensures unnamed { IfErr result (λ refusal. version_named scenario.now.rule bytes.now ≡ None → refusal ≢ Memory) }
{
    match trace::sound_chronicle(alloc, scenario, bytes) {
        Ok(chronicle) => Ok(chronicle),
        Err(error) => {
            as_text(bytes)?;
            Err(InputRefusal::from(error))
        }
    }
}

/// Reads the chronicle of a signed campaign, and checks that it is sound: the text is the chronicle that the scenario
/// has with the accesses listed in it.
///
/// # Errors
///
/// Fails with `NotText` if the bytes are not UTF-8, with `Trace` and the line at fault if they are not a chronicle of
/// the scenario, and with `Memory` if memory runs out. Never fails with `Memory` if the first line does not name the
/// version of signed chronicles.
pub fn sound_signed_chronicle(
    alloc: Global,
    scenario: &Scenario,
    bytes: &[u8],
) -> Result<SignedChronicle, InputRefusal>
    ensures sound { IfOk result (λ _. IsSoundSignedText scenario.now bytes.now) }
    ensures chronicle { IfOk result (λ chronicle. chronicle ≡ signed_chronicle_told scenario.now bytes.now) }
    ensures refused { IfErr result (RefusesText (RefusesChronicle (Signed scenario.now)) bytes.now) }
    ensures none { IfErr result (λ refusal. (IsUtf8 bytes.now → ⊥) → refusal ≡ NotText) }
    ensures unnamed { IfErr result (λ refusal. is_third_version bytes.now ≡ false → refusal ≢ Memory) }
{
    match trace::sound_signed_chronicle(alloc, scenario, bytes) {
        Ok(chronicle) => Ok(chronicle),
        Err(error) => {
            as_text(bytes)?;
            Err(InputRefusal::from(error))
        }
    }
}
