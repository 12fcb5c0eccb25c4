//! Entries of an outbox: the signed messages that a program sends in a campaign with signatures.
ghost use Rattle.std.specs.Prelude.{◌≡◌};

/// A message that a program sends in a campaign with signatures. Bit g of `receivers` is set if general g is a
/// receiver.
#[derive(Clone, Copy)]
pub enum Entry {
    /// An order that the program's general signs and sends to `receivers`.
    Sign { order: u32, receivers: u16 },
    /// The chain of signatures with index `held` among those that the general holds. He adds his own and sends it to
    /// `receivers`.
    Pass { held: u16, receivers: u16 },
}

impl Default for Entry {
    /// Returns an order for no receiver, which fills unused items of arrays.
    fn default() -> Entry
        ensures { result ≡ Entry.Sign 0 0 }
    {
        Entry::Sign {
            order: 0,
            receivers: 0,
        }
    }
}
