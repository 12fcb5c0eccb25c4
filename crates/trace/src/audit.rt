//! Audits the text of a chronicle: replays its accesses, and compares the text with the chronicle of that replay.
ghost use Rattle.std.specs.Prelude.{◌≡◌, ◌≢◌, IfOk, IfErr, IfSome, IfNone, None};
ghost use Rattle.trace.specs.declared.fault.TraceError.TheVariants.{Memory};
ghost use Rattle.trace.specs.Text.{text_in};
ghost use Rattle.trace.specs.Laws.{IsSoundText};
ghost use Rattle.trace.specs.Audit.{IsFaultOf, IsFirstDifference, first_version, line_version, version_named};
ghost use Rattle.trace.specs.Names.{chronicle_told};

use crate::access_names::names;
use crate::chronicles::put_chronicle;
use crate::comparison::ComparingSink;
use crate::fault::TraceError;
use crate::refusal::refusal;
use crate::version::Version;
use combine::Rule;
use round::Scenario;
use std::alloc::{AllocError, Global};
use text::{FEED, piece};
use world::{Chronicle, Verdict, replay};

/// Returns the first version if a campaign with this rule may be written in it, otherwise `None`. Only a campaign with
/// the default rule may, since the first version does not name the rule.
fn first_version(rule: Rule) -> Option<Version>
    ensures { result ≡ first_version rule }
{
    if rule.is_default() {
        Some(Version::First)
    } else {
        None
    }
}

/// Returns the version that `line`, the first line of a chronicle, names. Returns `None` if it names no version in
/// which a campaign with this rule may be written.
fn line_version(rule: Rule, line: &[u8]) -> Option<Version>
    ensures { result ≡ line_version rule line.now }
{
    if line == b"chronicle 2".as_slice() {
        Some(Version::Second)
    } else if line == b"chronicle 1".as_slice() {
        first_version(rule)
    } else {
        None
    }
}

/// Returns the version that the first line of a chronicle's text names. Returns `None` if it names no version in which
/// a campaign with this rule may be written.
#[tactic(auto, unfolding(crate::specs::Audit::version_named))]
pub(crate) fn version_named(rule: Rule, text: &[u8]) -> Option<Version>
    ensures { result ≡ version_named rule text.now }
{
    let (line, _) = piece(FEED, text);
    line_version(rule, line)
}

/// Replays the campaign with the accesses in the order in which the text lists them, and returns the chronicle of this
/// replay.
///
/// # Errors
///
/// `AllocError` if an allocation fails.
#[tactic(auto, unfolding(crate::specs::Names::chronicle_told, crate::specs::Names::names_of))]
pub(crate) fn replayed(
    alloc: Global,
    scenario: &Scenario,
    text: &[u8],
) -> Result<Chronicle, AllocError>
    ensures { IfOk result (λ chronicle. chronicle ≡ chronicle_told scenario.now text.now) }
{
    // `names` returns a list for the lines before the first round, and then a list for each of the campaign's rounds.
    let most = scenario.bound() as usize + 2;
    let lists = names(alloc, text, most)?;
    replay(alloc, scenario.copy(alloc)?, &lists[1..])
}

/// Returns the byte offset at which `text` first differs from the chronicle's text in this version, or `None` if the
/// two are equal.
fn difference(text: &[u8], version: Version, chronicle: &Chronicle) -> Option<usize>
    ensures same { IfNone result (text.now ≡ text_in version chronicle.now) }
    ensures differs { IfSome result (IsFirstDifference text.now (text_in version chronicle.now)) }
{
    let mut comparison = ComparingSink::new(text);
    put_chronicle(&mut comparison, version, chronicle);
    comparison.difference()
}

/// Audits the text of a chronicle, and returns the verdict of the campaign. The text is sound if it is the chronicle of
/// the replay of its own accesses, in a version in which a campaign with the scenario's rule may be written.
///
/// # Errors
///
/// `At` with `Line` and the first line that is not a valid line of a chronicle or has no LF. Otherwise `At` with the
/// first line that differs and `Scenario` (lines 1 and 2) or `Differs` (later lines). `Memory` if an allocation fails.
pub fn check(alloc: Global, scenario: &Scenario, text: &str) -> Result<Verdict, TraceError>
    ensures sound { IfOk result (λ v. IsSoundText scenario.now text.now) }
    ensures verdict { IfOk result (λ v. v ≡ (chronicle_told scenario.now text.now).verdict) }
    ensures unsound { IfErr result (λ e. e ≢ Memory → IsSoundText scenario.now text.now → ⊥) }
    ensures fault { IfErr result (λ e. e ≢ Memory → IsFaultOf scenario.now text.now e) }
    ensures unnamed { IfErr result (λ e. version_named scenario.now.rule text.now ≡ None → e ≢ Memory) }
{
    let chronicle = sound_chronicle(alloc, scenario, text.as_bytes())?;
    Ok(chronicle.verdict())
}

/// Audits the text of a chronicle, and returns the chronicle.
///
/// It replays the accesses in the order in which the text lists them, and compares the text with the chronicle of this
/// replay.
///
/// # Errors
///
/// `At` with `Line` and the first line that is not a valid line of a chronicle or has no LF. Otherwise `At` with the
/// first line that differs and `Scenario` (lines 1 and 2) or `Differs` (later lines). `Memory` if an allocation fails.
/// Nothing is allocated if the text names no version in which a campaign with the scenario's rule may be written.
pub fn sound_chronicle(
    alloc: Global,
    scenario: &Scenario,
    text: &[u8],
) -> Result<Chronicle, TraceError>
    ensures sound { IfOk result (λ _. IsSoundText scenario.now text.now) }
    ensures chronicle { IfOk result (λ chronicle. chronicle ≡ chronicle_told scenario.now text.now) }
    ensures unsound { IfErr result (λ e. e ≢ Memory → IsSoundText scenario.now text.now → ⊥) }
    ensures fault { IfErr result (λ e. e ≢ Memory → IsFaultOf scenario.now text.now e) }
    ensures unnamed { IfErr result (λ e. version_named scenario.now.rule text.now ≡ None → e ≢ Memory) }
{
    let Some(version) = version_named(scenario.rule(), text) else {
        return Err(refusal(text, 0));
    };
    let chronicle = replayed(alloc, scenario, text)?;
    match difference(text, version, &chronicle) {
        None => Ok(chronicle),
        Some(place) => Err(refusal(text, place)),
    }
}
