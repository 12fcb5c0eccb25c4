//! Draws the foot of a diagram, below its bands: the decisions, the verdict, and the legend.
ghost use Rattle.std.specs.Prelude.{◌≡◌, ◌≤◌, ◌<◌, ◌++◌, flat_map, string_bytes, OnOk, slice_get};
ghost use Rattle.std.specs.List.{range_with_len};
ghost use Rattle.show_diagram.specs.Foot.{alike_words, bound_words, decided, decided_all, decided_at, decides_words, foot, obeyed_words, place_of, verdict_lines};

use crate::layout::column;
use crate::legend::put_legend;
use crate::mark::DiagramMarks;
use crate::shapes::{
    put_group_end, put_group_start, put_line, put_mark, put_text_end, put_text_start, put_words,
    shape_of, sort_of,
};
use round::Scenario;
use std::alloc::AllocError;
use world::{Chronicle, Verdict};

/// Appends the foot of a diagram for oral messages: the decisions, the verdict and the legend of `marks`. The foot
/// begins at the y coordinate `top`, and the rule above it ends at the x coordinate `wide`.
pub(crate) fn put_foot(
    out: &mut String,
    chronicle: &Chronicle,
    marks: DiagramMarks,
    wide: u128,
    top: u128,
) -> Result<(), AllocError>
    ensures { OnOk result (string_bytes out.new ≡ string_bytes out.old ++ foot chronicle.now marks wide top) }
{
    let scenario = chronicle.scenario();
    put_group_start(out, 0, top)?;
    put_line(out, "rule", 16, 0, wide, 0)?;
    put_words(out, "round", 16, 28, "decisions")?;
    put_decisions(out, scenario, chronicle.decisions())?;
    put_verdict(out, chronicle.verdict())?;
    put_legend(out, marks)?;
    put_group_end(out)
}

/// Appends the decision of each lieutenant in his column. `decisions` has an entry for each general but the
/// commander.
///
/// # Errors
///
/// Fails if there is no memory for the text.
pub fn put_decisions(
    out: &mut String,
    scenario: &Scenario,
    decisions: &[u32],
) -> Result<(), AllocError>
    ensures { OnOk result (string_bytes out.new ≡ string_bytes out.old ++ decided_all scenario.now decisions.now) }
{
    for general in 0..scenario.generals() {
        put_decided(out, scenario, decisions, general)?;
    }
    Ok(())
}

/// Appends a lieutenant's decision in his column. Appends nothing for the commander.
fn put_decided(
    out: &mut String,
    scenario: &Scenario,
    decisions: &[u32],
    general: u8,
) -> Result<(), AllocError>
    requires { general < scenario.now.generals }
    ensures { OnOk result (string_bytes out.new ≡ string_bytes out.old ++ decided scenario.now decisions.now general) }
{
    let commander = scenario.commander();
    if general == commander {
        return Ok(());
    }
    match decisions.get(place_of(commander, general)) {
        None => Ok(()),
        Some(order) => put_decided_at(out, general, scenario.is_traitor(general), *order),
    }
}

/// Returns the index of a lieutenant's decision in a list that has an entry for each general but the commander.
pub fn place_of(commander: u8, general: u8) -> usize
    ensures { result ≡ place_of commander general }
{
    if general < commander {
        usize::from(general)
    } else {
        usize::from(general).saturating_sub(1)
    }
}

/// Appends a decision in the column of its general, next to his shape.
fn put_decided_at(
    out: &mut String,
    general: u8,
    is_traitor: bool,
    order: u32,
) -> Result<(), AllocError>
    ensures { OnOk result (string_bytes out.new ≡ string_bytes out.old ++ decided_at general is_traitor order) }
{
    put_group_start(out, column(u32::from(general)), 24)?;
    put_mark(out, sort_of(is_traitor), shape_of(is_traitor))?;
    put_text_start(out, "name", 12, 4)?;
    put_decides(out, order)?;
    put_text_end(out)?;
    put_group_end(out)
}

/// Appends a decision in words, such as `decides 1`.
#[tactic(auto, unfolding(crate::specs::Foot::decides_words))]
fn put_decides(out: &mut String, order: u32) -> Result<(), AllocError>
    ensures { OnOk result (string_bytes out.new ≡ string_bytes out.old ++ decides_words order) }
{
    write!(out, "decides {order}")
}

/// Appends the verdict in three lines: whether the loyal lieutenants decide alike, whether they obey a loyal
/// commander, and whether the bound for oral messages holds.
fn put_verdict(out: &mut String, verdict: Verdict) -> Result<(), AllocError>
    ensures { OnOk result (string_bytes out.new ≡ string_bytes out.old ++ verdict_lines verdict) }
{
    put_words(out, "name", 120, 64, alike_words(verdict.alike))?;
    put_words(out, "name", 120, 84, obeyed_words(verdict.obeyed))?;
    put_words(out, "name", 120, 104, bound_words(verdict.bound))
}

/// Returns the sentence that says whether the loyal lieutenants decide alike (IC1).
pub fn alike_words(alike: bool) -> &'static str
    ensures { result.now ≡ alike_words alike }
{
    if alike {
        "The loyal lieutenants decide alike."
    } else {
        "The loyal lieutenants do not decide alike."
    }
}

/// Returns the sentence that says whether the loyal lieutenants obey a loyal commander (IC2). `None` means that the
/// commander is a traitor.
pub fn obeyed_words(obeyed: Option<bool>) -> &'static str
    ensures { result.now ≡ obeyed_words obeyed }
{
    match obeyed {
        Some(true) => "They obey the loyal commander.",
        Some(false) => "They do not obey the loyal commander.",
        None => "The commander is a traitor, so nobody has to obey him.",
    }
}

/// Returns the sentence that says whether the bound for oral messages holds. The algorithm promises agreement only if
/// it does.
pub fn bound_words(bound: bool) -> &'static str
    ensures { result.now ≡ bound_words bound }
{
    if bound {
        "The bound holds: there are few enough traitors."
    } else {
        "The bound does not hold: too few generals or too many traitors. No promise."
    }
}
