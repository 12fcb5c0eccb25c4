//! Draws the foot of a signed campaign's diagram, which is below the bands: the decisions, the verdict and the legend.
ghost use Rattle.std.specs.Prelude.{◌≡◌, ◌++◌, string_bytes, OnOk};
ghost use Rattle.show_chains.specs.Foot.{bound_words, foot, verdict_lines};

use crate::legend::put_legend;
use show_diagram::DiagramMarks;
use show_diagram::foot::{
    alike_words, bound_words as oral_bound_words, obeyed_words, put_decisions,
};
use show_diagram::shapes::{put_group_end, put_group_start, put_line, put_words};
use signed::SignedChronicle;
use std::alloc::AllocError;
use world::Verdict;

/// Appends the foot of a signed campaign's diagram: the decisions, the verdict, and the legend for those marks that
/// occur. The foot begins at height `top`. Fails with `AllocError` if memory runs out.
pub(crate) fn put_foot(
    out: &mut String,
    chronicle: &SignedChronicle,
    marks: DiagramMarks,
    wide: u128,
    top: u128,
) -> Result<(), AllocError>
    ensures { OnOk result (string_bytes out.new ≡ string_bytes out.old ++ foot chronicle.now marks wide top) }
{
    let scenario = chronicle.scenario();
    put_group_start(out, 0, top)?;
    put_line(out, "rule", 16, 0, wide, 0)?;
    put_words(out, "round", 16, 28, "decisions")?;
    put_decisions(out, scenario, chronicle.decisions())?;
    put_verdict(out, chronicle.verdict())?;
    put_legend(out, marks)?;
    put_group_end(out)
}

/// Appends three lines for the verdict on a signed campaign: whether IC1, IC2 and the bound hold. Fails with
/// `AllocError` if memory runs out.
fn put_verdict(out: &mut String, verdict: Verdict) -> Result<(), AllocError>
    ensures { OnOk result (string_bytes out.new ≡ string_bytes out.old ++ verdict_lines verdict) }
{
    put_words(out, "name", 120, 64, alike_words(verdict.alike))?;
    put_words(out, "name", 120, 84, obeyed_words(verdict.obeyed))?;
    put_words(out, "name", 120, 104, bound_words(verdict.bound))
}

/// Returns the sentence that says whether the bound for signed messages holds. If it holds, SM(m) guarantees agreement.
pub fn bound_words(bound: bool) -> &'static str
    ensures { result.now ≡ bound_words bound }
{
    if bound {
        oral_bound_words(true)
    } else {
        "The bound does not hold: too many traitors. No promise."
    }
}
