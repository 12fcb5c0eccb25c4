//! Computes what a picture says about a label: the order that the lieutenant received, the outcome of the list that
//! he combines, whether the message is a lie, and whether the labels that extend it are shown.
ghost use Rattle.std.specs.Prelude.{◌≡◌, ◌≤◌, ◌<◌, ◌+◌, ◌*◌, ◌^◌, ◌∷◌, ◌++◌, [], suc, length, true};
ghost use Rattle.label.specs.Labels.{on};
ghost use Rattle.book.specs.Conditions.{is_told};
ghost use Rattle.book.specs.Explained.{held, list_of};
ghost use Rattle.book.specs.Grammar.{is_place};
ghost use Rattle.show_tree.specs.Facts.{below, extent_at, is_alike, is_alike_by, is_honest, is_same, mark_at, node_at, outcome_at, tells};

use crate::children::last_orders;
use crate::node::{Extent, Node, Trust, View};
use arrayvec::ArrayVec;
use book::Heard;
use combine::{Combine, Outcome};
use label::Label;

/// Returns the lieutenant's value for a label that up to `relays` further generals can extend. If `relays` is 0, it
/// is the order that he received, or `None` if he received none. Otherwise it is the order that results from his list
/// for the label.
#[cycle(lists)]
fn held<H: Heard>(table: &H, general: u8, label: &Label, relays: u8) -> Option<u32>
    requires place { is_place (H.seen table.now) label.now general ≡ true }
    requires relays { length label.now + relays ≡ (H.seen table.now).bound + 1 }
    ensures { result ≡ held (H.seen table.now) relays label.now general }
{
    if relays == 0 {
        return table.told(label, general);
    }
    let orders = orders(table, general, label, relays - 1);
    Some(table.rule().combine(orders.as_slice()))
}

/// Returns the list of orders that the lieutenant `general` combines at a label, which up to `relays + 1` further
/// generals can extend.
#[cycle(lists)]
fn orders<H: Heard>(table: &H, general: u8, label: &Label, relays: u8) -> ArrayVec<u32, 13>
    requires place { is_place (H.seen table.now) label.now general ≡ true }
    requires relays { length label.now + relays ≡ (H.seen table.now).bound }
    ensures { result.items ≡ list_of (H.seen table.now) relays label.now general }
{
    if relays == 0 {
        return last_orders(table, general, label);
    }
    let mut orders: ArrayVec<u32, 13> = ArrayVec::new();
    for other in 0..table.generals() {
        if other == general {
            orders.push(table.told(label, general).unwrap_or(0));
        } else if !label.has(other) {
            orders.push(held(table, general, &label.with(other), relays).unwrap_or(0));
        }
    }
    orders
}

/// Returns the outcome of the list that the lieutenant `general` combines at a label, which up to `relays` further
/// generals can extend. Returns `None` if `relays` is 0, since such a label has no list.
fn outcome<H: Heard>(table: &H, general: u8, label: &Label, relays: u8) -> Option<Outcome>
    requires place { is_place (H.seen table.now) label.now general ≡ true }
    requires relays { length label.now + relays ≡ (H.seen table.now).bound + 1 }
    ensures { result ≡ outcome_at (H.seen table.now) relays label.now general }
{
    if relays == 0 {
        return None;
    }
    let orders = orders(table, general, label, relays - 1);
    Some(table.rule().outcome(orders.as_slice()))
}

/// Checks whether the general is among `traitors`, the generals named as traitors.
pub(crate) fn is_named(traitors: &[u8], general: u8) -> bool
    ensures { result ≡ on traitors.now general }
{
    traitors.iter().any(|x| *x == general)
}

/// Checks whether the received order `told` is `order`. Returns false if nothing was received.
pub(crate) fn is_told(order: u32, told: Option<u32>) -> bool
    ensures { result ≡ is_told order told }
{
    match told {
        Some(other) => other == order,
        None => false,
    }
}

/// Checks whether two received orders are equal. Two missing orders are equal, too.
fn is_same(one: Option<u32>, other: Option<u32>) -> bool
    ensures { result ≡ is_same one other }
{
    match one {
        Some(order) => is_told(order, other),
        None => other.is_none(),
    }
}

/// Returns whether the message that `teller` sent the lieutenant `general` for the label `next` is known to be a lie.
/// The label `next` is `label` followed by `teller`. The message is a lie if `teller` is named as a traitor and did
/// not send the order that he took for `label`.
pub fn mark_at<H: Heard>(
    table: &H,
    traitors: &[u8],
    general: u8,
    label: &Label,
    teller: u8,
    next: &Label,
) -> Trust
    requires next { next.now ≡ label.now ++ teller ∷ [] }
    requires place { is_place (H.seen table.now) next.now general ≡ true }
    ensures { result ≡ mark_at (H.seen table.now) traitors.now label.now teller general }
{
    if !is_named(traitors, teller) {
        return Trust::Honest;
    }
    let _size = label.len();
    let took = table.told(label, teller).unwrap_or(0);
    if is_told(took, table.told(next, general)) {
        Trust::Honest
    } else {
        Trust::Lie(teller, took)
    }
}

/// Checks whether the lieutenant `general` received the same for `next` as for `label`, and whether the message for
/// `next` is not known to be a lie. The label `next` is `label` followed by `teller`.
fn tells<H: Heard>(
    table: &H,
    traitors: &[u8],
    general: u8,
    label: &Label,
    teller: u8,
    next: &Label,
) -> bool
    requires next { next.now ≡ label.now ++ teller ∷ [] }
    requires place { is_place (H.seen table.now) next.now general ≡ true }
    ensures { result ≡ tells (H.seen table.now) traitors.now label.now teller general }
{
    let _size = label.len();
    is_same(table.told(next, general), table.told(label, general))
        && is_honest(mark_at(table, traitors, general, label, teller, next))
}

/// Checks whether `mark` says that a message is not known to be a lie.
pub(crate) fn is_honest(mark: Trust) -> bool
    ensures { result ≡ is_honest mark }
{
    matches!(mark, Trust::Honest)
}

/// Checks whether the labels below `label` can be folded into it. The lieutenant must have received the same for
/// `label` and for all labels that extend it by up to `relays` generals. None of their messages may be known to be a
/// lie.
#[cycle(alike)]
fn is_alike<H: Heard>(table: &H, traitors: &[u8], general: u8, label: &Label, relays: u8) -> bool
    requires place { is_place (H.seen table.now) label.now general ≡ true }
    requires relays { length label.now + relays ≡ (H.seen table.now).bound + 1 }
    ensures { result ≡ is_alike (H.seen table.now) traitors.now relays label.now general }
{
    if relays == 0 {
        return true;
    }
    let mut is_so = true;
    for other in 0..table.generals() {
        if other != general && !label.has(other) {
            let next = label.with(other);
            is_so = is_so && is_alike_by(table, traitors, general, label, other, &next, relays - 1);
        }
    }
    is_so
}

/// Checks whether the lieutenant received the same for `label`, for `next`, and for all labels that extend `next` by
/// up to `relays` generals. The messages for `next` and these extensions must not be known to be lies.
#[cycle(alike)]
fn is_alike_by<H: Heard>(
    table: &H,
    traitors: &[u8],
    general: u8,
    label: &Label,
    teller: u8,
    next: &Label,
    relays: u8,
) -> bool
    requires next { next.now ≡ label.now ++ teller ∷ [] }
    requires place { is_place (H.seen table.now) next.now general ≡ true }
    requires relays { length next.now + relays ≡ (H.seen table.now).bound + 1 }
    ensures { result ≡ is_alike_by (H.seen table.now) traitors.now relays label.now teller general }
{
    tells(table, traitors, general, label, teller, next)
        && is_alike(table, traitors, general, next, relays)
}

/// Returns how many labels without the lieutenant extend a label of `size` generals by 1 to `relays` generals.
fn below(generals: u8, size: u8, relays: u8) -> u32
    requires few { generals ≤ 13 }
    requires rounds { relays ≤ 4 }
    requires size { size + relays ≤ 13 }
    ensures value { result ≡ below generals size relays }
    ensures small { result < 13 ^ relays }
{
    if relays == 0 {
        return 0;
    }
    let children = u32::from(generals.saturating_sub(1).saturating_sub(size));
    children * (1 + below(generals, size + 1, relays - 1))
}

/// Returns whether the labels that extend `label` are shown, are folded into it, or are deeper than the view shows.
/// Up to `relays` further generals can extend `label`.
fn extent<H: Heard>(
    table: &H,
    traitors: &[u8],
    view: View,
    general: u8,
    label: &Label,
    relays: u8,
) -> Extent
    requires place { is_place (H.seen table.now) label.now general ≡ true }
    requires relays { length label.now + relays ≡ (H.seen table.now).bound + 1 }
    ensures { result ≡ extent_at (H.seen table.now) traitors.now view relays label.now general }
{
    if relays == 0 {
        return Extent::Last;
    }
    let count = below(table.generals(), label.len() as u8, relays);
    if view.folds && is_alike(table, traitors, general, label, relays) {
        Extent::Folded(count)
    } else if view.depth == 0 {
        Extent::Cut(count)
    } else {
        Extent::Open
    }
}

/// Returns what a picture says about `label`, which up to `relays` further generals can extend. `mark` says whether
/// its message is known to be a lie.
#[tactic(auto, unfolding(crate::specs::Facts::node_at))]
pub fn node_at<H: Heard>(
    table: &H,
    traitors: &[u8],
    view: View,
    general: u8,
    label: Label,
    mark: Trust,
    relays: u8,
) -> Node
    requires place { is_place (H.seen table.now) label general ≡ true }
    requires relays { length label + relays ≡ (H.seen table.now).bound + 1 }
    ensures { result ≡ node_at (H.seen table.now) traitors.now view mark relays label general }
{
    let told = table.told(&label, general);
    let outcome = outcome(table, general, &label, relays);
    let extent = extent(table, traitors, view, general, &label, relays);
    Node {
        label,
        told,
        outcome,
        mark,
        extent,
    }
}
