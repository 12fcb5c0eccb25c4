//! Writes a lieutenant's tree as nested HTML lists. A label with labels below it is a fold, which a reader can open.
ghost use Rattle.std.specs.Prelude.{◌≡◌, ◌≢◌, ◌<◌, ◌+◌, ◌++◌, length, true, string_bytes, IfOk, OnOk};
ghost use Rattle.book.specs.Grammar.{is_place};
ghost use Rattle.show_tree.specs.Shown.{deeper};
ghost use Rattle.show_tree.specs.Words.{said};
ghost use Rattle.show_page.specs.Trees.{items_below, label_item, root_told, tree_told};

use book::Heard;
use html::{
    put_fold_end, put_fold_start, put_item_end, put_item_start, put_list_end, put_list_start,
    put_paragraph, put_text_item,
};
use label::Label;
use show_tree::{Node, View, deeper, is_open, mark_at, node_at, put_said, root_node};
use std::alloc::{AllocError, Global};

/// Appends the tree of the orders that lieutenant `general` received, as nested HTML lists, as far as the view shows
/// it. `traitors` are the generals who are marked as traitors.
#[tactic(auto, unfolding(crate::specs::Trees::tree_told))]
pub(crate) fn put_tree<H: Heard>(
    alloc: Global,
    out: &mut String,
    table: &H,
    traitors: &[u8],
    view: View,
    general: u8,
) -> Result<(), AllocError>
    requires general { general < (H.seen table.now).generals }
    requires lieutenant { general ≢ (H.seen table.now).commander }
    ensures { OnOk result (string_bytes out.new ≡ string_bytes out.old
        ++ tree_told (H.seen table.now) traitors.now view general) }
{
    let commander = table.commander();
    let relays = table.bound();
    let root = root_node(table, traitors, view, general);
    let words = words(alloc, &root)?;
    put_paragraph(out, words.as_str())?;
    if !is_open(root.extent) {
        return Ok(());
    }
    let label = Label::of(commander);
    put_list_start(out)?;
    put_items(
        alloc,
        out,
        table,
        traitors,
        deeper(view),
        general,
        &label,
        relays,
    )?;
    put_list_end(out)
}

/// Returns the words for a node of the tree: its label, and what was received for it.
fn words(alloc: Global, node: &Node) -> Result<String, AllocError>
    ensures { IfOk result (λ words. string_bytes words ≡ said node.now) }
{
    let mut words = String::new(alloc);
    put_said(&mut words, node)?;
    Ok(words)
}

/// Appends the list item of a label. If the view shows the labels that extend it, their items are in a fold inside this
/// item. `relays` is how many more times the order can be relayed.
#[cycle(items)]
fn put_item<H: Heard>(
    alloc: Global,
    out: &mut String,
    table: &H,
    traitors: &[u8],
    view: View,
    general: u8,
    node: &Node,
    label: &Label,
    relays: u8,
) -> Result<(), AllocError>
    requires place { is_place (H.seen table.now) label.now general ≡ true }
    requires relays { length label.now + relays ≡ (H.seen table.now).bound + 1 }
    ensures { OnOk result (string_bytes out.new ≡ string_bytes out.old
        ++ label_item node.now (items_below (H.seen table.now) traitors.now (deeper view) relays label.now general)) }
{
    let words = words(alloc, node)?;
    if !is_open(node.extent) {
        return put_text_item(out, words.as_str());
    }
    put_item_start(out)?;
    put_fold_start(out, words.as_str())?;
    put_list_start(out)?;
    put_items(
        alloc,
        out,
        table,
        traitors,
        deeper(view),
        general,
        label,
        relays,
    )?;
    put_list_end(out)?;
    put_fold_end(out)?;
    put_item_end(out)?;
    Ok(())
}

/// Appends the list items of the labels that extend `label` by one general. `relays` is how many more times the order
/// can be relayed.
#[cycle(items)]
fn put_items<H: Heard>(
    alloc: Global,
    out: &mut String,
    table: &H,
    traitors: &[u8],
    view: View,
    general: u8,
    label: &Label,
    relays: u8,
) -> Result<(), AllocError>
    requires place { is_place (H.seen table.now) label.now general ≡ true }
    requires relays { length label.now + relays ≡ (H.seen table.now).bound + 1 }
    ensures { OnOk result (string_bytes out.new ≡ string_bytes out.old
        ++ items_below (H.seen table.now) traitors.now view relays label.now general) }
{
    if relays == 0 {
        return Ok(());
    }
    for other in 0..table.generals() {
        if other != general && !label.has(other) {
            let next = label.with(other);
            let mark = mark_at(table, traitors, general, label, other, &next);
            let node = node_at(
                table,
                traitors,
                view,
                general,
                label.with(other),
                mark,
                relays - 1,
            );
            put_item(
                alloc,
                out,
                table,
                traitors,
                view,
                general,
                &node,
                &next,
                relays - 1,
            )?;
        }
    }
    Ok(())
}
