//! The mark of a message in a message table: an order, a question mark, or no line at all.

use label::Label;

/// What a message table has for a label and a receiver of it.
#[derive(Clone, Copy)]
pub enum TableMark {
    /// An order, where 0 is RETREAT.
    Order(u32),
    /// A question mark, which an order is to replace.
    Open,
    /// No line, because nothing was received.
    Silence,
}

/// A source of marks: it says what to write for each label and receiver of a message table.
pub(crate) trait Marks {
    ghost use Rattle.std.specs.Prelude.{◌≡◌};
    ghost use Rattle.book.specs.Written.{Marking};

    // The mark of each label and receiver.
    ghost marking: { Self → Marking };

    /// Returns what to write for the message that the last general on `label` sends to `receiver`.
    fn mark(&self, label: &Label, receiver: u8) -> TableMark
        ensures { result ≡ marking self.now label.now receiver };
}
