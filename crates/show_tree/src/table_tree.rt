//! Draws the tree of the orders that a lieutenant received, from a message table or its text.
ghost use Rattle.std.specs.Prelude.{◌≡◌, ◌≢◌, IfErr, IfOk, Err, string_bytes};
ghost use Rattle.book.specs.Grammar.{table_told};
ghost use Rattle.book.specs.declared.fault.TableError.TheVariants.{Memory};
ghost use Rattle.show_tree.specs.Drawn.{DrawsTable, drawn};

use crate::form::TreeForm;
use crate::graph::tree_graph;
use crate::lines::tree_text;
use crate::node::View;
use crate::svg::tree_svg;
use book::{Heard, TableError, read_table};
use std::alloc::{AllocError, Global};

/// Reads a message table from `text`, and draws the tree of the orders that the lieutenant `general` received, in the
/// given form. `traitors` are the generals named as traitors in the picture, and `view` says how much of the tree it
/// shows. The result is empty if `general` is not a lieutenant of the table.
///
/// # Errors
///
/// Fails with the error of the table if its text is rejected, or with `Memory` if memory runs out.
pub fn drawn(
    alloc: Global,
    text: &str,
    traitors: &[u8],
    view: View,
    form: TreeForm,
    general: u8,
) -> Result<String, TableError>
    ensures drawn { IfOk result (λ picture. DrawsTable text.now traitors.now view form general (string_bytes picture)) }
    ensures refused { IfErr result (λ e. e ≢ Memory → table_told text.now ≡ Err e) }
{
    let table = read_table(alloc, text)?;
    Ok(tree_drawn(alloc, &table, traitors, view, form, general)?)
}

/// Draws the tree of the orders that the lieutenant `general` received, in the given form. `table` has the messages,
/// and `traitors` are the generals named as traitors in the picture. `view` says how much of the tree it shows. The
/// result is empty if `general` is not a lieutenant of the table.
///
/// # Errors
///
/// Fails if there is no memory for the text.
pub fn tree_drawn<H: Heard>(
    alloc: Global,
    table: &H,
    traitors: &[u8],
    view: View,
    form: TreeForm,
    general: u8,
) -> Result<String, AllocError>
    ensures { IfOk result (λ picture. string_bytes picture ≡ drawn (H.seen table.now) traitors.now view form general) }
{
    if general >= table.generals() || general == table.commander() {
        return Ok(String::new(alloc));
    }
    match form {
        TreeForm::Lines(style) => tree_text(alloc, table, traitors, view, style, general),
        TreeForm::Graph => tree_graph(alloc, table, traitors, view, general),
        TreeForm::Svg => tree_svg(alloc, table, traitors, view, general),
    }
}
