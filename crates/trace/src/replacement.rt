//! Computes the sound text of a campaign from a text that is not sound.
ghost use Rattle.std.specs.Prelude.{◌≡◌, IfOk, OnOk};
ghost use Rattle.std.specs.Io.KnownBytes.{Appends};
ghost use Rattle.trace.specs.Again.{text_again, told_again, signed_told_again};
ghost use Rattle.trace.specs.SignedText.{signed_text};

use crate::audit::{replayed, version_named};
use crate::chronicles::{write_chronicle, write_in};
use crate::signed_audit::signed_replayed;
use crate::signed_chronicles::write_signed;
use crate::sink::Latch;
use crate::version::Version;
use round::Scenario;
use signed::SignedChronicle;
use std::alloc::{AllocError, Global};
use world::Chronicle;

/// Returns the text of a chronicle in this version, or, if `version` is `None`, in the version that its campaign needs.
///
/// # Errors
///
/// `AllocError` if an allocation fails.
fn text_again(
    alloc: Global,
    version: Option<Version>,
    chronicle: &Chronicle,
) -> Result<Vec<u8>, AllocError>
    ensures { IfOk result (λ again. again.items ≡ text_again version chronicle.now) }
{
    let mut latch = Latch::new(Vec::new(alloc));
    let written = match version {
        Some(version) => write_in(version, chronicle, &mut latch),
        None => write_chronicle(chronicle, &mut latch),
    };
    match written {
        Ok(()) => Ok(latch.into_writer()),
        Err(_) => Err(AllocError),
    }
}

/// Replays the campaign with the accesses in the order in which `text` lists them, and returns the text of that
/// replay's chronicle. It is in the version that `text` names, or in the version that the campaign needs if `text`
/// names none in which the campaign may be written.
///
/// # Errors
///
/// `AllocError` if an allocation fails.
pub fn told_again(alloc: Global, scenario: &Scenario, text: &[u8]) -> Result<Vec<u8>, AllocError>
    ensures { IfOk result (λ again. again.items ≡ told_again scenario.now text.now) }
{
    let chronicle = replayed(alloc, scenario, text)?;
    text_again(alloc, version_named(scenario.rule(), text), &chronicle)
}

/// Returns the text of a signed chronicle.
///
/// # Errors
///
/// `AllocError` if an allocation fails.
fn signed_again(alloc: Global, chronicle: &SignedChronicle) -> Result<Vec<u8>, AllocError>
    ensures { IfOk result (λ again. again.items ≡ signed_text chronicle.now) }
{
    let mut latch = Latch::new(Vec::new(alloc));
    match write_signed(chronicle, &mut latch) {
        Ok(()) => Ok(latch.into_writer()),
        Err(_) => Err(AllocError),
    }
}

/// Replays the signed campaign with the accesses in the order in which the text lists them, and returns the text of
/// that replay's chronicle. Signed chronicles have only one version.
///
/// # Errors
///
/// `AllocError` if an allocation fails.
pub fn signed_told_again(
    alloc: Global,
    scenario: &Scenario,
    text: &[u8],
) -> Result<Vec<u8>, AllocError>
    ensures { IfOk result (λ again. again.items ≡ signed_told_again scenario.now text.now) }
{
    let chronicle = signed_replayed(alloc, scenario, text)?;
    signed_again(alloc, &chronicle)
}
