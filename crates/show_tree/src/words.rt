//! Describes a label of a tree in words.
ghost use Rattle.std.specs.Prelude.{◌≡◌, ◌++◌, string_bytes, OnOk};
ghost use Rattle.show_tree.specs.Words.{counted_words, extent_words, mark_words, outcome_words, said, told_words, words};

use crate::node::{Extent, Node, Trust};
use crate::places::put_label;
use combine::Outcome;
use std::alloc::AllocError;

/// Appends the name of a label and what a picture says about it, such as `0.2: received 1`.
///
/// # Errors
///
/// Fails if there is no memory for the text.
pub fn put_said(out: &mut String, node: &Node) -> Result<(), AllocError>
    ensures { OnOk result (string_bytes out.new ≡ string_bytes out.old ++ said node.now) }
{
    put_label(out, node.label.generals())?;
    out.push_str(": ")?;
    put_words(out, "; ", node)
}

/// Appends what a picture says about a label, as phrases with `stop` between them.
pub(crate) fn put_words(out: &mut String, stop: &str, node: &Node) -> Result<(), AllocError>
    ensures { OnOk result (string_bytes out.new ≡ string_bytes out.old ++ words stop.now node.now) }
{
    put_told(out, node.told)?;
    put_counted(out, node.outcome, node.told)?;
    put_outcome(out, stop, node.outcome)?;
    put_mark(out, stop, node.mark)?;
    put_extent(out, stop, node.extent)
}

/// Appends the order that was received, such as `received 1` or `received nothing`.
fn put_told(out: &mut String, told: Option<u32>) -> Result<(), AllocError>
    ensures { OnOk result (string_bytes out.new ≡ string_bytes out.old ++ told_words told) }
{
    match told {
        Some(order) => write!(out, "received {order}"),
        None => out.push_str("received nothing"),
    }
}

/// Appends that a missing order counts as 0, if the label has no list of orders to combine.
fn put_counted(
    out: &mut String,
    outcome: Option<Outcome>,
    told: Option<u32>,
) -> Result<(), AllocError>
    ensures { OnOk result (string_bytes out.new ≡ string_bytes out.old ++ counted_words outcome told) }
{
    match (outcome, told) {
        (None, None) => out.push_str(", so 0"),
        _ => Ok(()),
    }
}

/// Appends the outcome of the list that is combined at a label. Appends nothing if the label has no list.
fn put_outcome(out: &mut String, stop: &str, outcome: Option<Outcome>) -> Result<(), AllocError>
    ensures { OnOk result (string_bytes out.new ≡ string_bytes out.old ++ outcome_words stop.now outcome) }
{
    let Some(outcome) = outcome else {
        return Ok(());
    };
    let head = outcome.head();
    let order = outcome.order();
    write!(out, "{stop}{head}{order}")
}

/// Appends that a message is a lie, or that it is by a traitor, if it is from a commander who is named as a traitor and
/// whose given order is not known. Appends nothing if no lie is known.
fn put_mark(out: &mut String, stop: &str, mark: Trust) -> Result<(), AllocError>
    ensures { OnOk result (string_bytes out.new ≡ string_bytes out.old ++ mark_words stop.now mark) }
{
    match mark {
        Trust::Honest => Ok(()),
        Trust::Traitor => write!(out, "{stop}by a traitor"),
        Trust::Lie(general, took) => write!(out, "{stop}a lie, {general} took {took}"),
    }
}

/// Appends how many labels that extend a label are not shown, and why. Appends nothing if all are shown.
fn put_extent(out: &mut String, stop: &str, extent: Extent) -> Result<(), AllocError>
    ensures { OnOk result (string_bytes out.new ≡ string_bytes out.old ++ extent_words stop.now extent) }
{
    match extent {
        Extent::Last | Extent::Open => Ok(()),
        Extent::Folded(count) => write!(out, "{stop}{count} below received the same"),
        Extent::Cut(count) => write!(out, "{stop}{count} below not shown"),
    }
}
