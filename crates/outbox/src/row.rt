//! Defines the row of a label whose receivers may be sent different orders.
ghost use Rattle.std.specs.Prelude.{◌≡◌, ◌≤◌, length, min};
ghost use Rattle.label.specs.Labels.{on};
ghost use Rattle.outbox.specs.Rows.{empty_row, orders_in, receivers_in, put_in_row, all_put, filled, order_in, row_of, IsRow};

use crate::orders_by_number::OrdersByNumber;
use crate::receivers::Receivers;
use arrayvec::ArrayVec;
use std::marker::Model;

/// A mixed row: the receivers of one label, and for each the order that he is sent, if any.
#[derive(Drop)]
pub struct MixedRow {
    receivers: Receivers,
    /// The order for each receiver, by his number. A general who is not a receiver has none.
    orders: OrdersByNumber,
}

impl Model for MixedRow {
    ghost use Rattle.outbox.specs.Rows.{RowOrders, IsRow, row_of};

    ghost Value = { RowOrders };

    ghost view = { λ r. row_of r.orders r.receivers };

    ghost invariant = { λ r. IsRow r.orders r.receivers };
}

impl MixedRow {
    /// Returns a row for these receivers, none of whom is sent an order yet.
    pub(crate) fn new(receivers: Receivers) -> MixedRow
        ensures { result ≡ empty_row receivers }
    {
        receivers.recall();
        MixedRow {
            receivers,
            orders: OrdersByNumber::nothing(),
        }
    }

    /// Puts an order for a receiver, in place of an earlier one. Returns false, and puts nothing, if he is not a
    /// receiver of the row's label.
    pub(crate) fn put(&mut self, receiver: u32, order: u32) -> bool
        ensures row { self.new ≡ put_in_row receiver order self.old }
        ensures there { result ≡ on (receivers_in self.old) receiver }
    {
        let there = self.receivers.has(receiver);
        if there {
            self.orders.put(receiver, order);
        }
        there
    }

    /// Puts this order for every receiver, in place of earlier ones.
    pub(crate) fn put_all(&mut self, order: u32)
        ensures { self.new ≡ all_put order self.old }
    {
        self.orders = OrdersByNumber::alike(order, self.receivers.mask());
    }

    /// Puts the first order for the lowest receiver, the second for the next one, and so on, until there are no more
    /// orders or receivers. Returns how many were put.
    pub(crate) fn fill(&mut self, orders: &[u32]) -> u32
        ensures row { self.new ≡ filled orders.now self.old }
        ensures count { result ≡ min (length self.old) (length orders.now) }
    {
        self.receivers.recall();
        fill(self.receivers.list().as_slice(), &mut self.orders, orders)
    }

    /// Returns the order for this receiver, or `None` if he has none or is not a receiver of the row's label.
    pub(crate) fn order(&self, receiver: u32) -> Option<u32>
        ensures { result ≡ order_in receiver self.now }
    {
        self.orders.at(receiver)
    }

    /// Returns the receivers of the label, ascending.
    pub(crate) fn receivers(&self) -> ArrayVec<u8, 13>
        ensures { result.items ≡ receivers_in self.now }
    {
        self.receivers.list()
    }

    /// Returns the order for each receiver, ascending by receiver. It is `None` for a receiver who has none.
    pub(crate) fn told(&self) -> ArrayVec<Option<u32>, 13>
        ensures orders { result.items ≡ orders_in self.now }
        ensures few { length result.items ≤ 13 }
    {
        told(self.receivers.list().as_slice(), &self.orders)
    }

    /// Returns a copy of the row.
    pub(crate) fn copy(&self) -> MixedRow
        ensures { result ≡ self.now }
    {
        MixedRow {
            receivers: self.receivers.copy(),
            orders: self.orders.copy(),
        }
    }
}

/// Returns the order for each of `receivers`, in their order. `kept` stores the orders by general.
fn told(receivers: &[u8], kept: &OrdersByNumber) -> ArrayVec<Option<u32>, 13>
    requires few { length receivers.now ≤ 13 }
    ensures orders { result.items ≡ orders_in (row_of kept.now receivers.now) }
    ensures few { length result.items ≤ 13 }
{
    let mut told = ArrayVec::new();
    for receiver in receivers {
        told.push(kept.at(u32::from(*receiver)));
    }
    told
}

/// Puts the first order for the first of `receivers`, the second for the next one, and so on, until there are no more
/// orders or receivers. `kept` stores the orders by general. Returns how many were put.
fn fill(receivers: &[u8], kept: &mut OrdersByNumber, orders: &[u32]) -> u32
    requires row { IsRow kept.old receivers.now }
    requires few { length receivers.now ≤ 13 }
    ensures row { row_of kept.new receivers.now ≡ filled orders.now (row_of kept.old receivers.now) }
    ensures kept { IsRow kept.new receivers.now }
    ensures count { result ≡ min (length receivers.now) (length orders.now) }
{
    let count = receivers.len().min(orders.len());
    for place in 0..count {
        kept.put(u32::from(receivers[place]), orders[place]);
    }
    count as u32
}
