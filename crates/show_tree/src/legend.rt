//! Draws the legend of an SVG tree, below the rows of labels. It has a row for each mark that occurs in the picture.
ghost use Rattle.std.specs.Prelude.{◌≡◌, ◌≤◌, ◌<◌, ◌^◌, ◌++◌, string_bytes, None, OnOk};
ghost use Rattle.std.specs.List.{list_any};
ghost use Rattle.show_tree.specs.Legend.{count_of, dashed_shape, has_circle, has_dashed_circle, has_dashed_square, has_dashes, has_diamond, has_square, legend, marks_of, meaning, meaning_if, meaning_words, meanings, one_if, rule, rule_at};

use crate::facts::is_honest;
use crate::node::{DrawnMarks, Node, Trust};
use crate::rows::{put_shape, put_start, row_end};
use combine::Outcome;
use std::alloc::AllocError;

/// Returns which marks occur in a picture of these labels.
pub(crate) fn marks(nodes: &[Node]) -> DrawnMarks
    ensures { result ≡ marks_of nodes.now }
{
    DrawnMarks {
        circle: any_circle(nodes),
        square: any_square(nodes),
        diamond: any_diamond(nodes),
        dashes: any_dashes(nodes),
    }
}

/// Checks whether any of these labels is drawn as a circle: its message is not known to be a lie.
fn any_circle(nodes: &[Node]) -> bool
    ensures { result ≡ list_any has_circle nodes.now }
{
    nodes.iter().any(|node| has_circle(node))
}

/// Checks whether any of these labels is drawn as a square: its message is from a commander who is named as a traitor,
/// and it is not known which order he was given.
fn any_square(nodes: &[Node]) -> bool
    ensures { result ≡ list_any has_square nodes.now }
{
    nodes.iter().any(|node| has_square(node))
}

/// Checks whether any of these labels is drawn as a diamond: its message is a lie.
fn any_diamond(nodes: &[Node]) -> bool
    ensures { result ≡ list_any has_diamond nodes.now }
{
    nodes.iter().any(|node| has_diamond(node))
}

/// Checks whether any of these labels has a dashed outline: no order has a majority in its list.
fn any_dashes(nodes: &[Node]) -> bool
    ensures { result ≡ list_any has_dashes nodes.now }
{
    nodes.iter().any(|node| has_dashes(node))
}

/// Returns the mark at which the legend explains dashes: a circle if any of these labels has a dashed circle, else a
/// square if any has a dashed square, else a diamond.
fn dashed_shape(nodes: &[Node]) -> Trust
    ensures { result ≡ dashed_shape nodes.now }
{
    if any_dashed_circle(nodes) {
        Trust::Honest
    } else if any_dashed_square(nodes) {
        Trust::Traitor
    } else {
        Trust::Lie(0, 0)
    }
}

/// Checks whether any of these labels is drawn as a dashed circle.
fn any_dashed_circle(nodes: &[Node]) -> bool
    ensures { result ≡ list_any has_dashed_circle nodes.now }
{
    nodes.iter().any(|node| has_dashed_circle(node))
}

/// Checks whether any of these labels is drawn as a dashed square.
fn any_dashed_square(nodes: &[Node]) -> bool
    ensures { result ≡ list_any has_dashed_square nodes.now }
{
    nodes.iter().any(|node| has_dashed_square(node))
}

/// Checks whether a label is drawn as a dashed circle: no lie is known, and no order has a majority.
fn has_dashed_circle(node: &Node) -> bool
    ensures { result ≡ has_dashed_circle node.now }
{
    has_dashes(node) && has_circle(node)
}

/// Checks whether a label is drawn as a dashed square: its message is from a commander who is named as a traitor, it is
/// not known which order he was given, and no order has a majority.
fn has_dashed_square(node: &Node) -> bool
    ensures { result ≡ has_dashed_square node.now }
{
    has_dashes(node) && has_square(node)
}

/// Checks whether a label is drawn as a circle: its message is not known to be a lie.
fn has_circle(node: &Node) -> bool
    ensures { result ≡ has_circle node.now }
{
    is_honest(node.mark)
}

/// Checks whether a label is drawn as a square: its message is from a commander who is named as a traitor, and it is
/// not known which order he was given.
fn has_square(node: &Node) -> bool
    ensures { result ≡ has_square node.now }
{
    matches!(node.mark, Trust::Traitor)
}

/// Checks whether a label is drawn as a diamond: its message is a lie.
fn has_diamond(node: &Node) -> bool
    ensures { result ≡ has_diamond node.now }
{
    matches!(node.mark, Trust::Lie(_, _))
}

/// Checks whether a label is drawn with a dashed outline: no order has a majority in its list.
fn has_dashes(node: &Node) -> bool
    ensures { result ≡ has_dashes node.now }
{
    matches!(node.outcome, Some(Outcome::Divided(_)))
}

/// Returns how many of the marks occur, from 0 to 4.
pub(crate) fn count(marks: DrawnMarks) -> u128
    ensures value { result ≡ count_of marks }
    ensures few { result ≤ 4 }
{
    one_if(marks.circle) + one_if(marks.square) + one_if(marks.diamond) + one_if(marks.dashes)
}

/// Returns 1 if `stands` is true, else 0.
fn one_if(stands: bool) -> u128
    ensures value { result ≡ one_if stands }
    ensures few { result ≤ 1 }
{
    if stands { 1 } else { 0 }
}

/// Appends the legend: a horizontal rule, and below it the meaning of each mark that occurs in the picture of these
/// labels.
///
/// # Errors
///
/// Fails if there is no memory for the text.
pub(crate) fn put_legend(out: &mut String, nodes: &[Node]) -> Result<(), AllocError>
    ensures { OnOk result (string_bytes out.new ≡ string_bytes out.old ++ legend nodes.now) }
{
    put_rule(out, nodes.len() as u128)?;
    put_meanings(
        out,
        marks(nodes),
        dashed_shape(nodes),
        nodes.len() as u128 + 1,
    )
}

/// Appends a row with a horizontal rule. `place` is the number of rows above it.
fn put_rule(out: &mut String, place: u128) -> Result<(), AllocError>
    requires { place < 2 ^ 100 }
    ensures { OnOk result (string_bytes out.new ≡ string_bytes out.old ++ rule_at place) }
{
    put_start(out, place)?;
    out.push_str(rule())?;
    out.push_str(row_end())
}

/// Returns the horizontal rule between the rows of labels and the legend.
#[tactic(auto, unfolding(crate::specs::Legend::rule))]
fn rule() -> &'static str
    ensures { result.now ≡ rule }
{
    "<path class=\"line\" d=\"M0 12h240\"/>"
}

/// Appends the meanings of the marks that occur, one row each. `place` is the number of rows above the first of them.
/// Dashes are shown at the shape of `dashed`.
fn put_meanings(
    out: &mut String,
    marks: DrawnMarks,
    dashed: Trust,
    place: u128,
) -> Result<(), AllocError>
    requires { place < 2 ^ 99 }
    ensures { OnOk result (string_bytes out.new ≡ string_bytes out.old ++ meanings marks dashed place) }
{
    let second = place + one_if(marks.circle);
    let third = second + one_if(marks.square);
    let last = third + one_if(marks.diamond);
    put_shape_if(out, marks.circle, place, Trust::Honest, "no lie is known")?;
    put_shape_if(
        out,
        marks.square,
        second,
        Trust::Traitor,
        "the message of a named commander",
    )?;
    put_shape_if(
        out,
        marks.diamond,
        third,
        Trust::Lie(0, 0),
        "a lie of a named traitor",
    )?;
    put_meaning_if(
        out,
        marks.dashes,
        last,
        dashed,
        Some(Outcome::Divided(0)),
        "no order has a majority",
    )?;
    Ok(())
}

/// Appends a row with a shape without dashes and its meaning, below `place` other rows. Appends nothing if `stands`
/// is false.
fn put_shape_if(
    out: &mut String,
    stands: bool,
    place: u128,
    mark: Trust,
    words: &str,
) -> Result<(), AllocError>
    requires { place < 2 ^ 100 }
    ensures { OnOk result (string_bytes out.new
        ≡ string_bytes out.old ++ meaning_if stands place mark None words.now) }
{
    put_meaning_if(out, stands, place, mark, None, words)
}

/// Appends a row with a mark and its meaning, below `place` other rows. Appends nothing if `stands` is false.
fn put_meaning_if(
    out: &mut String,
    stands: bool,
    place: u128,
    mark: Trust,
    outcome: Option<Outcome>,
    words: &str,
) -> Result<(), AllocError>
    requires { place < 2 ^ 100 }
    ensures { OnOk result (string_bytes out.new
        ≡ string_bytes out.old ++ meaning_if stands place mark outcome words.now) }
{
    if stands {
        put_meaning(out, place, mark, outcome, words)
    } else {
        Ok(())
    }
}

/// Appends a row with a mark and its meaning, below `place` other rows.
fn put_meaning(
    out: &mut String,
    place: u128,
    mark: Trust,
    outcome: Option<Outcome>,
    words: &str,
) -> Result<(), AllocError>
    requires { place < 2 ^ 100 }
    ensures { OnOk result (string_bytes out.new ≡ string_bytes out.old ++ meaning place mark outcome words.now) }
{
    put_start(out, place)?;
    put_shape(out, 0, mark, outcome)?;
    put_meaning_words(out, words)?;
    out.push_str(row_end())
}

/// Appends the meaning of a mark in the legend, to the right of the mark.
#[tactic(auto, unfolding(crate::specs::Legend::meaning_words))]
fn put_meaning_words(out: &mut String, words: &str) -> Result<(), AllocError>
    ensures { OnOk result (string_bytes out.new ≡ string_bytes out.old ++ meaning_words words.now) }
{
    write!(out, "<text x=\"14\" y=\"17\">{words}</text>")
}
