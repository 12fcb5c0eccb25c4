//! Computes a lieutenant's decision from the list of messages, by the recursion of OM(m), without his tree.
ghost use Rattle.std.specs.Prelude.{◌≡◌, ◌≢◌, ◌<◌, ◌+◌, true, length};
ghost use Rattle.combine.specs.Rule.{combined_by};
ghost use Rattle.label.specs.Oral.{om, taken};
ghost use Rattle.book.specs.Table.{told};
ghost use Rattle.book.specs.Decisions.{decision_of};

use crate::message::Message;
use crate::recursion::decision;
use crate::table::Table;
use arrayvec::ArrayVec;
use combine::Combine;
use label::Label;

/// Returns the decision of a lieutenant. It is computed from the messages of the table by the recursion of OM(m)
/// (TOPLAS 1982), with the table's rule. Each order is searched for in the list of messages, which is slow.
///
/// `decision` computes the same from the lieutenant's tree.
#[tactic(auto, unfolding(crate::specs::Decisions::decision_of))]
pub fn plain_decision(table: &Table, general: u8) -> u32
    requires general { general < table.now.generals }
    requires lieutenant { general ≢ table.now.commander }
    ensures { result ≡ decision_of table.now general }
{
    let label = Label::of(table.commander());
    decide(table, general, &label, table.bound())
}

/// Returns whether `decision` and `plain_decision` return the same order for a lieutenant. The contract says that they
/// do in every table.
pub fn decides_plainly(table: &Table, general: u8) -> bool
    requires general { general < table.now.generals }
    requires lieutenant { general ≢ table.now.commander }
    ensures { result ≡ true }
{
    decision(table, general) == plain_decision(table, general)
}

/// Returns what lieutenant `general` decides about a label. `relays` is the number of generals by which the label can
/// still grow.
///
/// If `relays` is 0, it is the order that he took for the label. Otherwise he combines a list of orders, one for each
/// general who is not on the label: for himself the order that he took, and for another general what he decides about
/// the label extended by that general.
#[tactic(auto, unfolding(label::specs::Oral::om))]
fn decide(table: &Table, general: u8, label: &Label, relays: u8) -> u32
    requires room { length label.now + relays < 13 }
    ensures { result ≡ om (combined_by table.now.rule) table.now.generals (told table.now.messages) relays label.now
        general }
{
    let own = taken(table.messages(), label, general);
    if relays == 0 {
        return own;
    }
    let mut orders: ArrayVec<u32, 13> = ArrayVec::new();
    for other in 0..table.generals() {
        if !label.has(other) {
            let order = if other == general {
                own
            } else {
                decide(table, general, &label.with(other), relays - 1)
            };
            orders.push(order);
        }
    }
    table.rule().combine(orders.as_slice())
}

/// Returns the order that `receiver` took for the label: the one that he received, or RETREAT, 0, if he received none.
fn taken(messages: &[Message], label: &Label, receiver: u8) -> u32
    ensures { result ≡ taken (told messages.now) label.now receiver }
{
    for message in messages {
        if message.receiver == receiver && message.label.same(label) {
            return message.order;
        }
    }
    0
}
