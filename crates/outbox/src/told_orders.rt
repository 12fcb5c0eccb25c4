//! Defines the orders for a label's receivers. If all have the same one, it is stored once.
use arrayvec::ArrayVec;

/// The order for each receiver of a label, ascending by receiver.
#[derive(Drop)]
pub enum ReceiverOrders {
    /// There are `times` receivers, and all have this order, or none has an order.
    Alike { order: Option<u32>, times: u32 },
    /// Each receiver has his own order or none.
    Apart(ArrayVec<Option<u32>, 13>),
}
