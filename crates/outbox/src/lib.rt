//! Defines the outbox of a general in a round. It has a place for each label that he relays and each receiver of that
//! label, and there the order that he sends.
#![tactic(auto)]

mod alike_row;
mod laws;
mod mask;
mod orders;
mod orders_by_number;
mod outbox;
mod receivers;
mod relays;
mod row;
mod rows;
mod signed_entries;
mod told_orders;

pub use label::Shape;
pub use laws::last_orders_are_given;
pub use orders::Orders;
pub use outbox::Outbox;
pub use semantics::Entry;
pub use told_orders::ReceiverOrders;
