//! The verdict on a campaign with oral messages, and what the algorithm promised.
ghost use Rattle.std.specs.Prelude.{◌≡◌, ◌++◌, string_bytes, OnOk};
ghost use Rattle.show_page.specs.Account.{bound_told, outcome_words, promise_words, verdict_part, verdict_told};

use html::put_paragraph;
use show_diagram::foot::bound_words;
use std::alloc::AllocError;
use world::{Chronicle, Verdict};

/// Appends the verdict on a campaign with oral messages: its outcome, and what the algorithm promises.
pub(crate) fn put_verdict(out: &mut String, chronicle: &Chronicle) -> Result<(), AllocError>
    ensures { OnOk result (string_bytes out.new ≡ string_bytes out.old ++ verdict_part chronicle.now.verdict) }
{
    let verdict = chronicle.verdict();
    put_verdict_told(out, verdict, bound_told(verdict.bound, bound_words(false)))
}

/// Appends this verdict: a paragraph on the campaign's outcome, and one with the words `bound`, on what the algorithm
/// promises.
///
/// # Errors
///
/// Fails if there is no memory for the text.
pub fn put_verdict_told(out: &mut String, verdict: Verdict, bound: &str) -> Result<(), AllocError>
    ensures { OnOk result (string_bytes out.new ≡ string_bytes out.old ++ verdict_told verdict bound.now) }
{
    put_paragraph(out, outcome_words(verdict.alike, verdict.obeyed))?;
    put_paragraph(out, bound)
}

/// Returns the words for a campaign's outcome: whether the loyal lieutenants decide alike, and whether they obey a loyal
/// commander. If `obeyed` is `None`, the commander is a traitor.
#[tactic(auto, unfolding(crate::specs::Account::outcome_words))]
fn outcome_words(alike: bool, obeyed: Option<bool>) -> &'static str
    ensures { result.now ≡ outcome_words alike obeyed }
{
    match (alike, obeyed) {
        (true, Some(true)) => "The loyal lieutenants decide alike, and obey the loyal commander.",
        (true, Some(false)) => {
            "The loyal lieutenants decide alike, but do not obey the loyal commander."
        }
        (false, Some(true)) => {
            "The loyal lieutenants do not decide alike, but obey the loyal commander."
        }
        (false, Some(false)) => {
            "The loyal lieutenants do not decide alike, and do not all obey the loyal commander."
        }
        (true, None) => {
            "The loyal lieutenants decide alike; the commander is a traitor, so nobody has to obey him."
        }
        (false, None) => {
            "The loyal lieutenants do not decide alike; the commander is a traitor, so nobody has to obey him."
        }
    }
}

/// Returns the words for what the algorithm promises (TOPLAS 1982, IC1 and IC2) if the bound holds, and otherwise
/// `without`.
pub fn bound_told(bound: bool, without: &'static str) -> &'static str
    ensures { result.now ≡ bound_told bound without.now }
{
    if bound { promise_words() } else { without }
}

/// Returns the words for what the algorithm promises if the bound holds.
#[tactic(auto, unfolding(crate::specs::Account::promise_words))]
fn promise_words() -> &'static str
    ensures { result.now ≡ promise_words }
{
    "The bound holds: there are few enough traitors, so that loyal lieutenants decide alike, and obey a loyal \
     commander, whatever the traitors do."
}
