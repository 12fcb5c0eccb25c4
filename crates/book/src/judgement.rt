//! Judges from a message table whether the bound, IC1 and IC2 hold.
ghost use Rattle.std.specs.Prelude.{◌≡◌, ◌≤◌, ◌==◌, ◌*◌, nat_lt, count_by, length};
ghost use Rattle.std.specs.List.{list_all};
ghost use Rattle.label.specs.Labels.{on, generals};
ghost use Rattle.book.specs.Conditions.{are_alike, is_told, judged, loyal_decisions, named_in, obedience_in, obedience_to, same_order, sent};

use crate::conditions::{Conditions, Obedience};
use crate::message_source::Heard;
use crate::recursion::decision;
use arrayvec::ArrayVec;
use label::Label;

/// Returns whether the bound, IC1 and IC2 hold in a message table, if `traitors` are named as traitors. All others
/// count as loyal.
#[tactic(auto, unfolding(crate::specs::Conditions::judged))]
pub fn judge<H: Heard>(table: &H, traitors: &[u8]) -> Conditions
    ensures { result ≡ judged (H.seen table.now) traitors.now }
{
    let named = named_among(traitors, table.generals());
    let enough = 3 * table.bound() < table.generals();
    let few = named <= table.bound();
    let decisions = loyal_decisions(table, traitors);
    let orders = sent(table);
    let order = same_order(orders.as_slice());
    let is_named = is_named(traitors, table.commander());
    Conditions {
        named,
        enough,
        few,
        bound: enough && few,
        alike: are_alike(decisions.as_slice()),
        obedience: obedience_in(is_named, order, decisions.as_slice()),
    }
}

/// Checks whether the general is named as a traitor.
pub(crate) fn is_named(traitors: &[u8], general: u8) -> bool
    ensures { result ≡ on traitors.now general }
{
    traitors.iter().any(|x| *x == general)
}

/// Returns how many of the generals below `all` are named as traitors.
fn named_among(traitors: &[u8], all: u8) -> u8
    ensures count { result ≡ count_by (on traitors.now) (generals all) }
    ensures few { result ≤ all }
{
    let mut named = 0;
    for general in 0..all {
        if is_named(traitors, general) {
            named += 1;
        }
    }
    named
}

/// Returns the decisions of the lieutenants who are not named as traitors, in ascending order of the lieutenants.
fn loyal_decisions<H: Heard>(table: &H, traitors: &[u8]) -> ArrayVec<u32, 13>
    ensures { result.items ≡ loyal_decisions (H.seen table.now) traitors.now }
{
    let commander = table.commander();
    let mut decisions = ArrayVec::new();
    for general in 0..table.generals() {
        if general != commander && !is_named(traitors, general) {
            decisions.push(decision(table, general));
        }
    }
    decisions
}

/// Returns the order that the commander sent to each lieutenant, or `None` if he sent none, in ascending order of the
/// lieutenants.
fn sent<H: Heard>(table: &H) -> ArrayVec<Option<u32>, 13>
    ensures { result.items ≡ sent (H.seen table.now) }
{
    let commander = table.commander();
    let label = Label::of(commander);
    let mut orders = ArrayVec::new();
    for general in 0..table.generals() {
        if general != commander {
            orders.push(table.told(&label, general));
        }
    }
    orders
}

/// Checks whether all decisions are the same order.
fn are_alike(decisions: &[u32]) -> bool
    ensures { result ≡ are_alike decisions.now }
{
    match decisions {
        [] => true,
        [first, rest @ ..] => all_are(rest, *first),
    }
}

/// Checks whether all decisions are this order.
fn all_are(decisions: &[u32], order: u32) -> bool
    ensures { result ≡ list_all (λ d. d == order) decisions.now }
{
    decisions.iter().all(|decision| *decision == order)
}

/// Returns the order that all lieutenants received, or `None` if not all received the same order.
fn same_order(orders: &[Option<u32>]) -> Option<u32>
    ensures { result ≡ same_order orders.now }
{
    match orders {
        [Some(first), rest @ ..] if all_told(rest, *first) => Some(*first),
        _ => None,
    }
}

/// Checks whether each lieutenant received this order. `orders` is what each received.
fn all_told(orders: &[Option<u32>], order: u32) -> bool
    ensures { result ≡ list_all (is_told order) orders.now }
{
    orders.iter().all(|told| is_told(*told, order))
}

/// Checks whether `told`, what a lieutenant received, is this order.
fn is_told(told: Option<u32>, order: u32) -> bool
    ensures { result ≡ is_told order told }
{
    match told {
        Some(other) => other == order,
        None => false,
    }
}

/// Returns whether the lieutenants obey a commander who is not named as a traitor. `order` is the order that he sent to
/// all, or `None` if he did not send one order to all.
fn obedience_to(order: Option<u32>, decisions: &[u32]) -> Obedience
    ensures { result ≡ obedience_to order decisions.now }
{
    match order {
        None => Obedience::Unlike,
        Some(order) => {
            if all_are(decisions, order) {
                Obedience::Obeyed(order)
            } else {
                Obedience::Disobeyed(order)
            }
        }
    }
}

/// Returns whether the lieutenants obey the commander. `order` is the order that he sent to all, or `None` if he did
/// not send one order to all. `is_named` says that he is named as a traitor.
fn obedience_in(is_named: bool, order: Option<u32>, decisions: &[u32]) -> Obedience
    ensures { result ≡ obedience_in is_named order decisions.now }
{
    if is_named {
        Obedience::Traitor
    } else {
        obedience_to(order, decisions)
    }
}
