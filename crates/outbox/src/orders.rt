//! Defines a borrowed view of the orders for one label's receivers, which is the same however the outbox stores them.
ghost use Rattle.std.specs.Prelude.{◌≡◌, ◌≤◌, length};
ghost use Rattle.outbox.specs.Orders.{orders_seen};
ghost use Rattle.outbox.specs.Rows.{orders_in, order_in, receivers_in};
ghost use Rattle.outbox.specs.Told.{orders_told};

use crate::alike_row::UniformRow;
use crate::row::MixedRow;
use crate::told_orders::ReceiverOrders;
use arrayvec::ArrayVec;

/// The orders for one label's receivers, borrowed from an outbox.
#[derive(Clone, Copy)]
pub enum Orders<'a> {
    /// All receivers have the same order, or none has an order.
    Alike(&'a UniformRow),
    /// Each receiver has his own order or none.
    Apart(&'a MixedRow),
    /// There are no receivers. This is used in place of a missing letter.
    Nobody,
}

impl Orders<'_> {
    /// Returns the order for this receiver, or `None` if he has none or is not a receiver of the label.
    pub fn order(&self, receiver: u32) -> Option<u32>
        ensures { result ≡ order_in receiver (orders_seen self.now) }
    {
        match self {
            Orders::Alike(alike) => alike.order(receiver),
            Orders::Apart(row) => row.order(receiver),
            Orders::Nobody => None,
        }
    }

    /// Returns the receivers of the label, ascending.
    pub(crate) fn receivers(&self) -> ArrayVec<u8, 13>
        ensures { result.items ≡ receivers_in (orders_seen self.now) }
    {
        match self {
            Orders::Alike(alike) => alike.receivers(),
            Orders::Apart(row) => row.receivers(),
            Orders::Nobody => ArrayVec::new(),
        }
    }

    /// Returns the order for each receiver, ascending by receiver. It is `None` for a receiver who has none.
    pub(crate) fn told(&self) -> ArrayVec<Option<u32>, 13>
        ensures { result.items ≡ orders_in (orders_seen self.now) }
    {
        match self {
            Orders::Alike(alike) => alike.told(),
            Orders::Apart(row) => row.told(),
            Orders::Nobody => ArrayVec::new(),
        }
    }

    /// Returns the order for each receiver, ascending by receiver. If the outbox stores one order for all of them, it
    /// is returned once, with the number of receivers.
    pub(crate) fn told_at_once(&self) -> ReceiverOrders
        ensures orders { orders_told result ≡ orders_in (orders_seen self.now) }
        ensures few { length (orders_told result) ≤ 13 }
    {
        match self {
            Orders::Alike(alike) => alike.told_at_once(),
            Orders::Apart(row) => ReceiverOrders::Apart(row.told()),
            Orders::Nobody => ReceiverOrders::Alike {
                order: None,
                times: 0,
            },
        }
    }
}
