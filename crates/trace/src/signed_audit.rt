//! Audits the text of a signed chronicle: replays its accesses, and compares the text with the chronicle of that
//! replay.
ghost use Rattle.std.specs.Prelude.{◌≡◌, ◌≢◌, IfOk, IfErr, IfSome, IfNone, false};
ghost use Rattle.trace.specs.declared.fault.TraceError.TheVariants.{Memory};
ghost use Rattle.trace.specs.Audit.{IsFirstDifference};
ghost use Rattle.trace.specs.SignedAudit.{IsSignedFaultOf, IsSoundSignedText, is_third_version, signed_chronicle_told};
ghost use Rattle.trace.specs.SignedText.{signed_text};

use crate::access_names::names;
use crate::comparison::ComparingSink;
use crate::fault::TraceError;
use crate::refusal::refusal;
use crate::signed_chronicles::put_signed;
use round::Scenario;
use signed::{SignedChronicle, replay_signed};
use std::alloc::{AllocError, Global};
use text::{FEED, piece};
use world::Verdict;

/// Returns whether the first line of a text is `chronicle 3`, the version of signed campaigns.
#[tactic(auto, unfolding(crate::specs::SignedAudit::is_third_version))]
fn is_third_version(text: &[u8]) -> bool
    ensures { result ≡ is_third_version text.now }
{
    let (line, _) = piece(FEED, text);
    line == b"chronicle 3".as_slice()
}

/// Replays the signed campaign with the accesses in the order in which the text lists them, and returns the chronicle
/// of this replay.
///
/// # Errors
///
/// `AllocError` if an allocation fails.
pub(crate) fn signed_replayed(
    alloc: Global,
    scenario: &Scenario,
    text: &[u8],
) -> Result<SignedChronicle, AllocError>
    ensures { IfOk result (λ chronicle. chronicle ≡ signed_chronicle_told scenario.now text.now) }
{
    // `names` returns a list for the lines before the first round, and then a list for each of the campaign's rounds.
    let most = scenario.bound() as usize + 2;
    let lists = names(alloc, text, most)?;
    replay_signed(alloc, scenario.copy(alloc)?, &lists[1..])
}

/// Returns the byte offset at which `text` first differs from the signed chronicle's text, or `None` if the two are
/// equal.
fn signed_difference(text: &[u8], chronicle: &SignedChronicle) -> Option<usize>
    ensures same { IfNone result (text.now ≡ signed_text chronicle.now) }
    ensures differs { IfSome result (IsFirstDifference text.now (signed_text chronicle.now)) }
{
    let mut comparison = ComparingSink::new(text);
    put_signed(&mut comparison, chronicle);
    comparison.difference()
}

/// Audits the text of a signed campaign's chronicle, and returns the verdict of the campaign.
///
/// It replays the accesses in the order in which the text lists them, and compares the text with the chronicle of this
/// replay.
///
/// # Errors
///
/// `At` with `Line` and the first line that is not a valid line of a chronicle or has no LF. Otherwise `At` with the
/// first line that differs and `Scenario` (lines 1 and 2) or `Differs` (later lines). If the first line is not
/// `chronicle 3`, line 1 is the one that differs, and nothing is allocated. `Memory` if an allocation fails.
pub fn check_signed(alloc: Global, scenario: &Scenario, text: &str) -> Result<Verdict, TraceError>
    ensures sound { IfOk result (λ v. IsSoundSignedText scenario.now text.now) }
    ensures verdict { IfOk result (λ v. v ≡ (signed_chronicle_told scenario.now text.now).verdict) }
    ensures unsound { IfErr result (λ e. e ≢ Memory → IsSoundSignedText scenario.now text.now → ⊥) }
    ensures fault { IfErr result (λ e. e ≢ Memory → IsSignedFaultOf scenario.now text.now e) }
    ensures unnamed { IfErr result (λ e. is_third_version text.now ≡ false → e ≢ Memory) }
{
    let chronicle = sound_signed_chronicle(alloc, scenario, text.as_bytes())?;
    Ok(chronicle.verdict())
}

/// Audits the text of a signed campaign's chronicle, and returns the chronicle.
///
/// # Errors
///
/// `At` with the first faulty line and its fault, as in `check_signed`. `Memory` if an allocation fails.
pub fn sound_signed_chronicle(
    alloc: Global,
    scenario: &Scenario,
    text: &[u8],
) -> Result<SignedChronicle, TraceError>
    ensures sound { IfOk result (λ _. IsSoundSignedText scenario.now text.now) }
    ensures chronicle { IfOk result (λ chronicle. chronicle ≡ signed_chronicle_told scenario.now text.now) }
    ensures unsound { IfErr result (λ e. e ≢ Memory → IsSoundSignedText scenario.now text.now → ⊥) }
    ensures fault { IfErr result (λ e. e ≢ Memory → IsSignedFaultOf scenario.now text.now e) }
    ensures unnamed { IfErr result (λ e. is_third_version text.now ≡ false → e ≢ Memory) }
{
    if !is_third_version(text) {
        return Err(refusal(text, 0));
    }
    let chronicle = signed_replayed(alloc, scenario, text)?;
    match signed_difference(text, &chronicle) {
        None => Ok(chronicle),
        Some(place) => Err(refusal(text, place)),
    }
}
