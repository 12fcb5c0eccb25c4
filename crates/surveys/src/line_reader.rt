//! Parses the line of a campaign in a survey.
ghost use Rattle.std.specs.Prelude.{◌≡◌, ◌^◌, ◌∷◌, ◌↔◌, ℕ, Bool, List, Option, IfOk, IfSome, IsTrue, Some};
ghost use Rattle.surveys.specs.Lines.{AreNumbers, AreWords, HasMember, answer_text, flag_text, line_text, number_told};
ghost use Rattle.surveys.specs.declared.finding.Finding.{Finding as Found};

use crate::finding::Finding;
use crate::lines::line;
use std::alloc::{AllocError, Global};
use text::{Stop, cut, decimal};
use world::Verdict;

/// Returns the word between the first colon and the next byte `end`, and the bytes from this `end` on.
fn member(end: u8, bytes: &[u8]) -> (&[u8], &[u8])
    ensures word { (w behind : List ℕ) → HasMember end bytes.now w behind → result.0.now ≡ w }
    ensures rest { (w behind : List ℕ) → HasMember end bytes.now w behind → result.1.now ≡ end ∷ behind }
{
    let (_, behind) = cut(Stop::Byte(b':'), bytes);
    match behind.split_first() {
        Some((_, behind)) => cut(Stop::Byte(end), behind),
        None => cut(Stop::Byte(end), behind),
    }
}

/// Parses `true` or `false`. Returns `None` for another word.
fn flag_told(word: &[u8]) -> Option<bool>
    ensures { (b : Bool) → word.now ≡ flag_text b → result ≡ Some b }
{
    if word == b"true".as_slice() {
        return Some(true);
    }
    if word == b"false".as_slice() {
        return Some(false);
    }
    None
}

/// Parses an answer: `true`, `false`, or `null` for no answer, which gives `Some(None)`. Returns `None` for another
/// word.
fn answer_told(word: &[u8]) -> Option<Option<bool>>
    ensures { (a : Option Bool) → word.now ≡ answer_text a → result ≡ Some a }
{
    if word == b"null".as_slice() {
        return Some(None);
    }
    Some(Some(flag_told(word)?))
}

/// Parses a decimal number below 2^64. Returns `None` for another word.
fn number_told(word: &[u8]) -> Option<u64>
    ensures { result ≡ number_told (2 ^ 64) word.now }
{
    let number = decimal(word)?;
    if number < 18_446_744_073_709_551_616 {
        Some(number as u64)
    } else {
        None
    }
}

/// Parses a decimal number below 256. Returns `None` for another word.
fn small_told(word: &[u8]) -> Option<u8>
    ensures { result ≡ number_told 256 word.now }
{
    let number = decimal(word)?;
    if number < 256 {
        Some(number as u8)
    } else {
        None
    }
}

/// Parses the values of a campaign's line, in the order of the line. Returns the campaign's result, or `None` if a
/// value is not valid.
fn found_by(
    alike: &[u8],
    bound: &[u8],
    generals: &[u8],
    kept: &[u8],
    obeyed: &[u8],
    seed: &[u8],
    traitors: &[u8],
) -> Option<Finding>
    ensures { (f : Found) → AreNumbers f
        → AreWords f alike.now bound.now generals.now kept.now obeyed.now seed.now traitors.now → result ≡ Some f }
{
    let alike = flag_told(alike)?;
    let bound = small_told(bound)?;
    let generals = small_told(generals)?;
    let kept = flag_told(kept)?;
    let obeyed = answer_told(obeyed)?;
    let seed = number_told(seed)?;
    let traitors = number_told(traitors)?;
    Some(Finding {
        seed,
        generals,
        bound,
        traitors,
        verdict: Verdict {
            alike,
            obeyed,
            bound: kept,
        },
    })
}

/// Parses the values in the line of a campaign, without a check of the text between them. Returns the campaign's
/// result, or `None` if a value is not valid.
fn line_told(bytes: &[u8]) -> Option<Finding>
    ensures { (f : Found) → AreNumbers f → bytes.now ≡ line_text f → result ≡ Some f }
{
    let (alike, behind) = member(b',', bytes);
    let (bound, behind) = member(b',', behind);
    let (generals, behind) = member(b',', behind);
    let (kept, behind) = member(b',', behind);
    let (_, behind) = member(b',', behind);
    let (obeyed, behind) = member(b',', behind);
    let (seed, behind) = member(b',', behind);
    let (traitors, _) = member(b'}', behind);
    found_by(alike, bound, generals, kept, obeyed, seed, traitors)
}

/// Checks whether the bytes are exactly the line of this campaign's result.
fn is_line(alloc: Global, finding: &Finding, bytes: &[u8]) -> Result<bool, AllocError>
    ensures { IfOk result (λ same. IsTrue same ↔ (bytes.now ≡ line_text finding.now)) }
{
    let again = line(alloc, finding)?;
    Ok(bytes == again.as_bytes())
}

/// Returns the campaign's result if the bytes are exactly its line, and otherwise `None`.
fn if_line(alloc: Global, finding: Finding, bytes: &[u8]) -> Result<Option<Finding>, AllocError>
    ensures told { IfOk result (λ told. IfSome told (λ f. bytes.now ≡ line_text f)) }
    ensures kept { bytes.now ≡ line_text finding → IfOk result (λ told. told ≡ Some finding) }
{
    let same = is_line(alloc, &finding, bytes)?;
    if same {
        return Ok(Some(finding));
    }
    Ok(None)
}

/// Returns the campaign's result that a line describes. Returns `None` if the bytes are not exactly the line of a
/// campaign.
///
/// # Errors
///
/// Fails with `AllocError` if it runs out of memory.
pub fn read_line(alloc: Global, bytes: &[u8]) -> Result<Option<Finding>, AllocError>
    ensures told { IfOk result (λ told. IfSome told (λ f. bytes.now ≡ line_text f)) }
    ensures back { (f : Found) → AreNumbers f → bytes.now ≡ line_text f → IfOk result (λ told. told ≡ Some f) }
{
    match line_told(bytes) {
        None => Ok(None),
        Some(finding) => if_line(alloc, finding, bytes),
    }
}
