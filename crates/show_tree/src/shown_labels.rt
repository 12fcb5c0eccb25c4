//! Lists the labels of a lieutenant's tree that a picture shows. Each label comes before the labels that extend it.
ghost use Rattle.std.specs.Prelude.{◌≡◌, ◌≢◌, ◌≤◌, ◌<◌, ◌+◌, ◌++◌, length, true, IfOk, OnOk};
ghost use Rattle.book.specs.Grammar.{is_place};
ghost use Rattle.show_tree.specs.Shown.{deeper, is_open, nodes_below, nodes_of, ordered, root_mark, root_node, with_those};

use crate::facts::{is_named, is_told, mark_at, node_at};
use crate::node::{Extent, Node, Trust, View};
use book::Heard;
use label::Label;
use std::alloc::{AllocError, Global};

/// Returns the labels of a lieutenant's tree that a picture shows, with what it says about each. `traitors` are the
/// generals named as traitors. Each label comes before the labels that extend it, and these are sorted by their next
/// general.
///
/// # Errors
///
/// Fails if there is no memory for the labels.
#[tactic(auto, unfolding(crate::specs::Shown::nodes_of))]
pub fn nodes<H: Heard>(
    alloc: Global,
    table: &H,
    traitors: &[u8],
    view: View,
    general: u8,
) -> Result<Vec<Node>, AllocError>
    requires general { general < (H.seen table.now).generals }
    requires lieutenant { general ≢ (H.seen table.now).commander }
    ensures { IfOk result (λ nodes. nodes.items ≡ nodes_of (H.seen table.now) traitors.now view general) }
{
    let commander = table.commander();
    let relays = table.bound();
    let root = root_node(table, traitors, view, general);
    let label = Label::of(commander);
    let mut nodes = Vec::new(alloc);
    push_with(
        &mut nodes, table, traitors, view, general, root, &label, relays,
    )?;
    Ok(nodes)
}

/// Returns what a picture says about the commander's message to the lieutenant `general`. `traitors` are the generals
/// named as traitors.
pub fn root_node<H: Heard>(table: &H, traitors: &[u8], view: View, general: u8) -> Node
    requires general { general < (H.seen table.now).generals }
    requires lieutenant { general ≢ (H.seen table.now).commander }
    ensures { result ≡ root_node (H.seen table.now) traitors.now view general }
{
    let commander = table.commander();
    let told = table.told(&Label::of(commander), general);
    let mark = root_mark(traitors, view.order, commander, told);
    node_at(
        table,
        traitors,
        view,
        general,
        Label::of(commander),
        mark,
        table.bound(),
    )
}

/// Returns whether the commander's message `told` is known to be a lie. `order` is the order that the commander was
/// given, if it is known.
fn root_mark(traitors: &[u8], order: Option<u32>, commander: u8, told: Option<u32>) -> Trust
    ensures { result ≡ root_mark traitors.now order commander told }
{
    if !is_named(traitors, commander) {
        return Trust::Honest;
    }
    match order {
        None => Trust::Traitor,
        Some(order) => {
            if is_told(order, told) {
                Trust::Honest
            } else {
                Trust::Lie(commander, order)
            }
        }
    }
}

/// Returns `view` with `order` as the order that the commander was given.
pub fn ordered(order: u32, view: View) -> View
    ensures { result ≡ ordered order view }
{
    View {
        depth: view.depth,
        folds: view.folds,
        order: Some(order),
    }
}

/// Checks whether `extent` says that the labels that extend a label are shown.
pub fn is_open(extent: Extent) -> bool
    ensures { result ≡ is_open extent }
{
    matches!(extent, Extent::Open)
}

/// Returns the view for the labels one level further down: it shows one level less, if it shows any.
pub fn deeper(view: View) -> View
    ensures { result ≡ deeper view }
{
    View {
        depth: view.depth.saturating_sub(1),
        folds: view.folds,
        order: view.order,
    }
}

/// Appends a label, described by `node`, and the labels below it if they are shown. Up to `relays` further generals
/// can extend it.
#[cycle(pushes)]
fn push_with<H: Heard>(
    nodes: &mut Vec<Node>,
    table: &H,
    traitors: &[u8],
    view: View,
    general: u8,
    node: Node,
    label: &Label,
    relays: u8,
) -> Result<(), AllocError>
    requires place { is_place (H.seen table.now) label.now general ≡ true }
    requires relays { length label.now + relays ≡ (H.seen table.now).bound + 1 }
    ensures { OnOk result (nodes.new.items ≡ nodes.old.items
        ++ with_those node (nodes_below (H.seen table.now) traitors.now (deeper view) relays label.now general)) }
{
    let opens = is_open(node.extent);
    nodes.push(node)?;
    if opens {
        push_below(nodes, table, traitors, deeper(view), general, label, relays)?;
    }
    Ok(())
}

/// Appends the labels that extend `label`, and the labels below them that are shown. Up to `relays` further generals
/// can extend `label`.
#[cycle(pushes)]
fn push_below<H: Heard>(
    nodes: &mut Vec<Node>,
    table: &H,
    traitors: &[u8],
    view: View,
    general: u8,
    label: &Label,
    relays: u8,
) -> Result<(), AllocError>
    requires place { is_place (H.seen table.now) label.now general ≡ true }
    requires relays { length label.now + relays ≡ (H.seen table.now).bound + 1 }
    ensures { OnOk result (nodes.new.items ≡ nodes.old.items
        ++ nodes_below (H.seen table.now) traitors.now view relays label.now general) }
{
    if relays == 0 {
        return Ok(());
    }
    for other in 0..table.generals() {
        if other != general && !label.has(other) {
            let next = label.with(other);
            let mark = mark_at(table, traitors, general, label, other, &next);
            let child = node_at(
                table,
                traitors,
                view,
                general,
                label.with(other),
                mark,
                relays - 1,
            );
            push_with(
                nodes,
                table,
                traitors,
                view,
                general,
                child,
                &next,
                relays - 1,
            )?;
        }
    }
    Ok(())
}
