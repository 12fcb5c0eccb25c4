//! Draws the rows of an SVG tree, one for each label. A row is 24 SVG units high. A label is 28 units to the right of
//! the label that it extends.
ghost use Rattle.std.specs.Prelude.{◌≡◌, ◌≤◌, ◌<◌, ◌^◌, ◌++◌, length, string_bytes, IfOk, OnOk};
ghost use Rattle.show_tree.specs.Rows.{branch_way, branch_ways, kind, lines_end, lines_start, outcome_class, outline, reach, row, row_end, row_start, rows_from, shape, stub, way, widest, word_text};

use crate::node::{Branch, Extent, Node, Trust};
use crate::places::branch_at;
use crate::words::put_said;
use combine::Outcome;
use std::alloc::{AllocError, Global};

/// Returns the width in SVG units of the widest row of these labels, or 0 if there are none.
///
/// # Errors
///
/// Fails if there is no memory for the text of a row.
pub(crate) fn widest(alloc: Global, nodes: &[Node]) -> Result<u128, AllocError>
    ensures width { IfOk result (λ width. width ≡ widest nodes.now) }
    ensures small { IfOk result (λ width. width < 2 ^ 100) }
{
    let mut widest = 0;
    for node in nodes {
        widest = reach(alloc, node)?.max(widest);
    }
    Ok(widest)
}

/// Returns the width of a row: 28 SVG units for each general of its label, and 8 for each byte of its text.
fn reach(alloc: Global, node: &Node) -> Result<u128, AllocError>
    ensures width { IfOk result (λ width. width ≡ reach node.now) }
    ensures small { IfOk result (λ width. width < 2 ^ 100) }
{
    let mut text = String::new(alloc);
    put_said(&mut text, node)?;
    Ok(28 * node.label.len() as u128 + 8 * text.len() as u128)
}

/// Appends a row for each of these labels.
pub(crate) fn put_rows(
    out: &mut String,
    generals: u8,
    general: u8,
    nodes: &[Node],
) -> Result<(), AllocError>
    ensures { OnOk result (string_bytes out.new ≡ string_bytes out.old ++ rows_from generals general 0 nodes.now) }
{
    for (place, node) in nodes.iter().enumerate() {
        put_row(out, generals, general, place, node)?;
    }
    Ok(())
}

/// Appends the row of a label, below `place` other rows.
fn put_row(
    out: &mut String,
    generals: u8,
    general: u8,
    place: usize,
    node: &Node,
) -> Result<(), AllocError>
    ensures { OnOk result (string_bytes out.new ≡ string_bytes out.old ++ row generals general place node.now) }
{
    let label = node.label.generals();
    let left = 28 * label.len().saturating_sub(1);
    put_start(out, place as u128)?;
    out.push_str(lines_start())?;
    put_branches(out, generals, general, label)?;
    put_stub(out, left, node.extent)?;
    out.push_str(lines_end())?;
    put_shape(out, left, node.mark, node.outcome)?;
    put_word(out, left + 14, node)?;
    out.push_str(row_end())?;
    Ok(())
}

/// Appends the start of a row, below `place` other rows.
#[tactic(auto, unfolding(crate::specs::Rows::row_start))]
pub(crate) fn put_start(out: &mut String, place: u128) -> Result<(), AllocError>
    requires { place < 2 ^ 100 }
    ensures { OnOk result (string_bytes out.new ≡ string_bytes out.old ++ row_start place) }
{
    let top = 36 + 24 * place;
    write!(out, "<g transform=\"translate(16 {top})\">")
}

/// Returns the start of the path that draws the branches in a row.
#[tactic(auto, unfolding(crate::specs::Rows::lines_start))]
fn lines_start() -> &'static str
    ensures { result.now ≡ lines_start }
{
    "<path class=\"line\" d=\""
}

/// Returns the end of the path that draws the branches in a row.
#[tactic(auto, unfolding(crate::specs::Rows::lines_end))]
fn lines_end() -> &'static str
    ensures { result.now ≡ lines_end }
{
    "\"/>"
}

/// Returns the end of a row.
#[tactic(auto, unfolding(crate::specs::Rows::row_end))]
pub(crate) fn row_end() -> &'static str
    ensures { result.now ≡ row_end }
{
    "</g>\n"
}

/// Appends the text of a label at the x coordinate `left`.
#[tactic(auto, unfolding(crate::specs::Rows::word_text))]
fn put_word(out: &mut String, left: usize, node: &Node) -> Result<(), AllocError>
    ensures { OnOk result (string_bytes out.new ≡ string_bytes out.old ++ word_text left node.now) }
{
    write!(out, "<text x=\"{left}\" y=\"17\">")?;
    put_said(out, node)?;
    out.push_str("</text>")?;
    Ok(())
}

/// Appends the path data of the branches that lead to a label.
fn put_branches(out: &mut String, generals: u8, general: u8, label: &[u8]) -> Result<(), AllocError>
    requires { length label.now ≤ 13 }
    ensures { OnOk result (string_bytes out.new ≡ string_bytes out.old ++ branch_ways generals general label.now) }
{
    for place in 0..label.len().saturating_sub(1) {
        put_branch(out, 28 * place, branch_at(generals, general, label, place))?;
    }
    Ok(())
}

/// Appends the path data of one branch at the x coordinate `left`, or nothing for a gap.
fn put_branch(out: &mut String, left: usize, branch: Branch) -> Result<(), AllocError>
    ensures { OnOk result (string_bytes out.new ≡ string_bytes out.old ++ branch_way left branch) }
{
    match branch {
        Branch::Tee => put_way(out, left, " 0v24m0-12h22"),
        Branch::Corner => put_way(out, left, " 0v12h22"),
        Branch::Bar => put_way(out, left, " 0v24"),
        Branch::Gap => Ok(()),
    }
}

/// Appends path data that begins at the top of a row at the x coordinate `left`, and goes on with `steps`.
#[tactic(auto, unfolding(crate::specs::Rows::way))]
fn put_way(out: &mut String, left: usize, steps: &str) -> Result<(), AllocError>
    ensures { OnOk result (string_bytes out.new ≡ string_bytes out.old ++ way left steps.now) }
{
    write!(out, "M{left}{steps}")
}

/// Appends the path data with which the branches to the labels below begin. Appends nothing if these labels are not
/// shown.
#[tactic(auto, unfolding(crate::specs::Rows::stub))]
fn put_stub(out: &mut String, left: usize, extent: Extent) -> Result<(), AllocError>
    ensures { OnOk result (string_bytes out.new ≡ string_bytes out.old ++ stub left extent) }
{
    match extent {
        Extent::Open => put_way(out, left, " 18v6"),
        Extent::Last | Extent::Folded(_) | Extent::Cut(_) => Ok(()),
    }
}

/// Appends the shape of a label at the x coordinate `left`: a circle, a square or a diamond.
#[tactic(auto, unfolding(crate::specs::Rows::shape))]
pub(crate) fn put_shape(
    out: &mut String,
    left: usize,
    mark: Trust,
    outcome: Option<Outcome>,
) -> Result<(), AllocError>
    ensures { OnOk result (string_bytes out.new ≡ string_bytes out.old ++ shape left mark outcome) }
{
    let kind = kind(mark);
    let class = outcome_class(outcome);
    let outline = outline(mark);
    write!(
        out,
        "<path class=\"{kind}{class}\" d=\"M{left}{outline}\"/>"
    )
}

/// Returns the CSS class of a shape: `told` if no lie is known, and `lie` for a lie. It is `word` for a commander who
/// is named as a traitor if it is not known which order he was given.
fn kind(mark: Trust) -> &'static str
    ensures { result.now ≡ kind mark }
{
    match mark {
        Trust::Honest => "told",
        Trust::Traitor => "word",
        Trust::Lie(_, _) => "lie",
    }
}

/// Returns the second CSS class of a shape, ` split`, if no order has a majority in its label's list, and otherwise
/// an empty text.
fn outcome_class(outcome: Option<Outcome>) -> &'static str
    ensures { result.now ≡ outcome_class outcome }
{
    match outcome {
        Some(Outcome::Divided(_)) => " split",
        Some(Outcome::Agreed(_) | Outcome::Middle(_)) | None => "",
    }
}

/// Returns the path data of a shape: a circle if no lie is known, and a diamond for a lie. It is a square for a
/// commander who is named as a traitor if it is not known which order he was given.
fn outline(mark: Trust) -> &'static str
    ensures { result.now ≡ outline mark }
{
    match mark {
        Trust::Honest => " 6a6 6 0 0 1 0 12a6 6 0 0 1 0-12z",
        Trust::Traitor => " 6h6v12h-12v-12z",
        Trust::Lie(_, _) => " 4l8 8l-8 8l-8-8z",
    }
}
