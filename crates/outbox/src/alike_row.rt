//! Defines the row of a label whose receivers are all sent the same order, or all nothing.
ghost use Rattle.std.specs.Prelude.{◌≡◌, ◌≤◌, length};
ghost use Rattle.outbox.specs.Rows.{empty_row, orders_in, receivers_in, all_put, order_in};
ghost use Rattle.outbox.specs.Told.{orders_told};

use crate::receivers::Receivers;
use crate::row::MixedRow;
use crate::told_orders::ReceiverOrders;
use arrayvec::ArrayVec;
use std::marker::Model;

/// A uniform row: the receivers of one label, and the one order that all of them are sent, if any. It takes 12 bytes.
#[derive(Drop)]
pub struct UniformRow {
    receivers: Receivers,
    /// The order for every receiver, or `None` if none was put.
    order: Option<u32>,
}

impl Model for UniformRow {
    ghost use Rattle.outbox.specs.Rows.{RowOrders, alike_row};

    ghost Value = { RowOrders };

    ghost view = { λ a. alike_row a.order a.receivers };
}

impl UniformRow {
    /// Returns a row for these receivers, none of whom is sent an order yet.
    pub(crate) fn new(receivers: Receivers) -> UniformRow
        ensures { result ≡ empty_row receivers }
    {
        UniformRow {
            receivers,
            order: None,
        }
    }

    /// Puts this order for every receiver, in place of an earlier one.
    pub(crate) fn put_all(&mut self, order: u32)
        ensures { self.new ≡ all_put order self.old }
    {
        self.order = Some(order);
    }

    /// Returns the order for this receiver, or `None` if he has none or is not a receiver of the row's label.
    pub(crate) fn order(&self, receiver: u32) -> Option<u32>
        ensures { result ≡ order_in receiver self.now }
    {
        if self.receivers.has(receiver) {
            self.order
        } else {
            None
        }
    }

    /// Returns the receivers of the label, ascending.
    pub(crate) fn receivers(&self) -> ArrayVec<u8, 13>
        ensures { result.items ≡ receivers_in self.now }
    {
        self.receivers.list()
    }

    /// Returns the order for each receiver, ascending by receiver. It is `None` for a receiver who has none.
    pub(crate) fn told(&self) -> ArrayVec<Option<u32>, 13>
        ensures { result.items ≡ orders_in self.now }
    {
        let order = self.order;
        let count = self.receivers.count();
        let mut told = ArrayVec::new();
        for number in 0..count {
            told.push(order);
        }
        told
    }

    /// Returns the orders for all receivers in short form: the one order, and the number of receivers.
    pub(crate) fn told_at_once(&self) -> ReceiverOrders
        ensures orders { orders_told result ≡ orders_in self.now }
        ensures few { length (orders_told result) ≤ 13 }
    {
        ReceiverOrders::Alike {
            order: self.order,
            times: self.receivers.count(),
        }
    }

    /// Returns a mixed row with the same orders, in which an order can be put for a single receiver.
    pub(crate) fn apart(&self) -> MixedRow
        ensures { result ≡ self.now }
    {
        let mut row = MixedRow::new(self.receivers.copy());
        match self.order {
            Some(order) => {
                row.put_all(order);
                row
            }
            None => row,
        }
    }

    /// Returns a copy of the row.
    pub(crate) fn copy(&self) -> UniformRow
        ensures { result ≡ self.now }
    {
        UniformRow {
            receivers: self.receivers.copy(),
            order: self.order,
        }
    }
}
