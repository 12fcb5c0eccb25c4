//! States laws of the outbox. Each function does nothing, and its contract is the law.
ghost use Rattle.outbox.specs.Laws.{LastOrdersAreGiven};

/// States that [`crate::Outbox::get`] returns for each label and receiver the last order that `put`, `put_row`, `sway`
/// or `honest` has put there.
pub fn last_orders_are_given()
    ensures { LastOrdersAreGiven }
{}
