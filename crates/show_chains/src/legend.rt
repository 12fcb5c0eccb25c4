//! Draws the legend of a signed campaign's diagram, which explains its marks.
ghost use Rattle.std.specs.Prelude.{◌≡◌, ◌++◌, string_bytes, OnOk};
ghost use Rattle.show_chains.specs.Legend.{differs_meaning, legend, missing_meaning, sent_meaning, wide_meaning};

use show_diagram::DiagramMarks;
use show_diagram::legend::put_legend_of;
use std::alloc::AllocError;

/// Appends the meanings of those marks that occur in the diagram. Fails with `AllocError` if memory runs out.
pub(crate) fn put_legend(out: &mut String, marks: DiagramMarks) -> Result<(), AllocError>
    ensures { OnOk result (string_bytes out.new ≡ string_bytes out.old ++ legend marks) }
{
    put_legend_of(
        out,
        marks,
        sent_meaning(),
        differs_meaning(),
        missing_meaning(),
        wide_meaning(),
    )
}

/// Returns the legend's words for a stroke whose chains a loyal general would also have sent.
#[tactic(auto, unfolding(crate::specs::Legend::sent_meaning))]
fn sent_meaning() -> &'static str
    ensures { result.now ≡ sent_meaning }
{
    "sent as a loyal general would send it"
}

/// Returns the legend's words for a stroke whose chains were sent, but would not have been sent by a loyal general.
#[tactic(auto, unfolding(crate::specs::Legend::differs_meaning))]
fn differs_meaning() -> &'static str
    ensures { result.now ≡ differs_meaning }
{
    "sent, but a loyal general would not send it"
}

/// Returns the legend's words for a stroke whose chains were not sent, but would have been sent by a loyal general.
#[tactic(auto, unfolding(crate::specs::Legend::missing_meaning))]
fn missing_meaning() -> &'static str
    ensures { result.now ≡ missing_meaning }
{
    "not sent, but a loyal general would send it"
}

/// Returns the legend's words about the width of a stroke's line, which is the number of its chains, at most 5.
#[tactic(auto, unfolding(crate::specs::Legend::wide_meaning))]
fn wide_meaning() -> &'static str
    ensures { result.now ≡ wide_meaning }
{
    "A line is as wide as it has chains, up to 5; its row has the first, and how many."
}
