//! The section of a signed campaign's page that says which orders each lieutenant accepted, and why he decides so.
ghost use Rattle.std.specs.Prelude.{◌≡◌, ◌<◌, ◌++◌, slice_get, string_bytes, IfOk, OnOk};
ghost use Rattle.show_diagram.specs.Foot.{place_of};
ghost use Rattle.show_page.specs.SignedAccount.{deciding_words, each_lieutenant, lieutenant_part, lieutenants_heading, lieutenants_section};

use crate::sections::{lieutenant_name, lieutenants_roomed};
use html::{Section, put_fold_end, put_fold_start, put_lines};
use show_chains::put_unaccepted;
use show_diagram::foot::place_of;
use signed::{SignedChronicle, explain_one_signed};
use std::alloc::{AllocError, Global};

/// Returns the section that says which orders each lieutenant accepted, and why he decides so.
pub(crate) fn lieutenants_section(
    alloc: Global,
    chronicle: &SignedChronicle,
) -> Result<Section, AllocError>
    ensures { IfOk result (λ section. section ≡ lieutenants_section chronicle.now) }
{
    let mut told = String::new(alloc);
    put_each_lieutenant(alloc, &mut told, chronicle)?;
    lieutenants_roomed(alloc, lieutenants_heading(), told)
}

/// Appends for each lieutenant which orders he accepted, and why he decides so.
fn put_each_lieutenant(
    alloc: Global,
    out: &mut String,
    chronicle: &SignedChronicle,
) -> Result<(), AllocError>
    ensures { OnOk result (string_bytes out.new ≡ string_bytes out.old ++ each_lieutenant chronicle.now) }
{
    for general in 0..chronicle.scenario().generals() {
        put_lieutenant_of(alloc, out, chronicle, general)?;
    }
    Ok(())
}

/// Appends which orders a general accepted and by which chains, by which chains he accepted none, and why. Appends nothing
/// for the commander.
fn put_lieutenant_of(
    alloc: Global,
    out: &mut String,
    chronicle: &SignedChronicle,
    general: u8,
) -> Result<(), AllocError>
    requires { general < chronicle.now.scenario.generals }
    ensures { OnOk result (string_bytes out.new ≡ string_bytes out.old ++ lieutenant_part chronicle.now general) }
{
    let scenario = chronicle.scenario();
    if general == scenario.commander() {
        return Ok(());
    }
    let is_traitor = scenario.is_traitor(general);
    let name = deciding_name(alloc, general, is_traitor, decision_of(chronicle, general))?;
    let mut told = explain_one_signed(alloc, chronicle, general)?;
    put_unaccepted(alloc, &mut told, chronicle, general)?;
    put_fold_start(out, name.as_str())?;
    put_lines(out, told.as_str())?;
    put_fold_end(out)
}

/// Returns the decision of a lieutenant, or `None` if the chronicle has none for him.
fn decision_of(chronicle: &SignedChronicle, general: u8) -> Option<u32>
    ensures { result ≡ slice_get chronicle.now.decisions (place_of chronicle.now.scenario.commander general) }
{
    let place = place_of(chronicle.scenario().commander(), general);
    chronicle.decisions().get(place).copied()
}

/// Returns a lieutenant's name and his decision, such as `Lieutenant 2 decides 1`. Without a decision, it is only the
/// name.
fn deciding_name(
    alloc: Global,
    general: u8,
    is_traitor: bool,
    decision: Option<u32>,
) -> Result<String, AllocError>
    ensures { IfOk result (λ name. string_bytes name ≡ deciding_words general is_traitor decision) }
{
    match decision {
        None => format!(in alloc; "Lieutenant {general}"),
        Some(order) => lieutenant_name(alloc, general, is_traitor, order),
    }
}

/// Returns the heading of the section about the lieutenants.
#[tactic(auto, unfolding(crate::specs::SignedAccount::lieutenants_heading))]
fn lieutenants_heading() -> &'static str
    ensures { result.now ≡ lieutenants_heading }
{
    "What each lieutenant accepted, and why he decides so"
}
