//! Draws a lieutenant's tree as a graph for the program `dot` of Graphviz.
ghost use Rattle.std.specs.Prelude.{◌≡◌, ◌≢◌, ◌<◌, ◌++◌, string_bytes, IfOk, OnOk};
ghost use Rattle.show_tree.specs.Graph.{edge, extent_style, graph_box, graph_head, graph_node, graph_nodes, graph_start, graph_styles, graph_text, graph_title, mark_style, outcome_style};

use crate::node::{Extent, Node, Trust, View};
use crate::places::put_label;
use crate::shown_labels::nodes;
use crate::words::put_words;
use book::{Heard, decision};
use combine::Outcome;
use std::alloc::{AllocError, Global};

/// Returns the tree of what the lieutenant `general` received, as a graph for Graphviz. Each label that is shown is a
/// box. A lie is an octagon. So is the message of a commander who is named as a traitor, if it is not known which order
/// he was given. The outline is dashed if no order has a majority in the label's list, and doubled if labels that
/// extend it are not shown.
///
/// # Errors
///
/// Fails if there is no memory for the text.
#[tactic(auto, unfolding(crate::specs::Graph::graph_text))]
pub fn tree_graph<H: Heard>(
    alloc: Global,
    table: &H,
    traitors: &[u8],
    view: View,
    general: u8,
) -> Result<String, AllocError>
    requires general { general < (H.seen table.now).generals }
    requires lieutenant { general ≢ (H.seen table.now).commander }
    ensures { IfOk result (λ text. string_bytes text ≡ graph_text (H.seen table.now) traitors.now view general) }
{
    let nodes = nodes(alloc, table, traitors, view, general)?;
    let mut text = String::new(alloc);
    put_head(&mut text, general, decision(table, general))?;
    put_nodes(&mut text, nodes.as_slice())?;
    text.push_str("}\n")?;
    Ok(text)
}

/// Appends the start of the graph: its attributes and its title.
fn put_head(out: &mut String, general: u8, order: u32) -> Result<(), AllocError>
    ensures { OnOk result (string_bytes out.new ≡ string_bytes out.old ++ graph_head general order) }
{
    out.push_str(start())?;
    put_title(out, general, order)
}

/// Returns the first lines of every graph, with its attributes.
#[tactic(auto, unfolding(crate::specs::Graph::graph_start))]
fn start() -> &'static str
    ensures { result.now ≡ graph_start }
{
    "digraph tree {\n  rankdir=LR;\n  ordering=out;\n  labelloc=t;\n  node [shape=box];\n"
}

/// Appends the title: the lieutenant and his decision.
#[tactic(auto, unfolding(crate::specs::Graph::graph_title))]
fn put_title(out: &mut String, general: u8, order: u32) -> Result<(), AllocError>
    ensures { OnOk result (string_bytes out.new ≡ string_bytes out.old ++ graph_title general order) }
{
    write!(out, "  label=\"lieutenant {general} decides {order}\";\n")
}

/// Appends a box for each of these labels, and an edge to it from the label that it extends.
fn put_nodes(out: &mut String, nodes: &[Node]) -> Result<(), AllocError>
    ensures { OnOk result (string_bytes out.new ≡ string_bytes out.old ++ graph_nodes nodes.now) }
{
    for node in nodes {
        put_node(out, node)?;
    }
    Ok(())
}

/// Appends the box of a label, and the edge to it from the label that it extends.
fn put_node(out: &mut String, node: &Node) -> Result<(), AllocError>
    ensures { OnOk result (string_bytes out.new ≡ string_bytes out.old ++ graph_node node.now) }
{
    put_box(out, node)?;
    put_styles(out, node)?;
    out.push_str("];\n")?;
    put_edge(out, node.label.generals())
}

/// Appends the start of a label's box: its name, such as `0.2`, and the words in the box.
fn put_box(out: &mut String, node: &Node) -> Result<(), AllocError>
    ensures { OnOk result (string_bytes out.new ≡ string_bytes out.old ++ graph_box node.now) }
{
    out.push_str("  \"")?;
    put_label(out, node.label.generals())?;
    out.push_str("\" [label=\"")?;
    put_label(out, node.label.generals())?;
    out.push_str("\\n")?;
    put_words(out, "\\n", node)
}

/// Appends the attributes of a label's box. They show a lie, the lack of a majority, and that labels are left out.
fn put_styles(out: &mut String, node: &Node) -> Result<(), AllocError>
    ensures { OnOk result (string_bytes out.new ≡ string_bytes out.old ++ graph_styles node.now) }
{
    let mark = mark_style(node.mark);
    let outcome = outcome_style(node.outcome);
    let extent = extent_style(node.extent);
    write!(out, "\"{mark}{outcome}{extent}")
}

/// Appends the edge to a label from the label that it extends. Appends nothing for a label of one general.
fn put_edge(out: &mut String, label: &[u8]) -> Result<(), AllocError>
    ensures { OnOk result (string_bytes out.new ≡ string_bytes out.old ++ edge label.now) }
{
    if label.len() < 2 {
        return Ok(());
    }
    out.push_str("  \"")?;
    put_label(out, &label[..label.len() - 1])?;
    out.push_str("\" -> \"")?;
    put_label(out, label)?;
    out.push_str("\";\n")
}

/// Returns the attributes of a box whose message is a lie, or is from a commander who is named as a traitor and whose
/// given order is not known. They are empty for other messages.
fn mark_style(mark: Trust) -> &'static str
    ensures { result.now ≡ mark_style mark }
{
    match mark {
        Trust::Honest => "",
        Trust::Traitor => ", shape=octagon",
        Trust::Lie(_, _) => ", shape=octagon, color=red, penwidth=2",
    }
}

/// Returns the attribute of a dashed box, if no order has a majority in the label's list, and otherwise an empty
/// text.
fn outcome_style(outcome: Option<Outcome>) -> &'static str
    ensures { result.now ≡ outcome_style outcome }
{
    match outcome {
        Some(Outcome::Divided(_)) => ", style=dashed",
        Some(Outcome::Agreed(_) | Outcome::Middle(_)) | None => "",
    }
}

/// Returns the attribute of a box with a double outline, if labels that extend its label are not shown, and otherwise
/// an empty text.
fn extent_style(extent: Extent) -> &'static str
    ensures { result.now ≡ extent_style extent }
{
    match extent {
        Extent::Folded(_) | Extent::Cut(_) => ", peripheries=2",
        Extent::Last | Extent::Open => "",
    }
}
