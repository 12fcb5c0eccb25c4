//! Chooses what to write for each order in a message table in which all generals send the same one.
ghost use Rattle.std.specs.Prelude.{◌≡◌};
ghost use Rattle.book.specs.Written.{ends_in};

use crate::mark::{Marks, TableMark};
use label::Label;

/// The marks of a message table: `order` for each message, or a question mark if the liar sends it.
#[derive(Clone, Copy)]
pub(crate) struct LoyalMarks {
    pub(crate) order: u32,
    pub(crate) liar: Option<u8>,
}

impl Marks for LoyalMarks {
    ghost use Rattle.book.specs.Written.{loyal};

    ghost marking = { λ l. loyal l.order l.liar };

    fn mark(&self, label: &Label, _receiver: u8) -> TableMark {
        match self.liar {
            Some(liar) if ends_in(label.generals(), liar) => TableMark::Open,
            _ => TableMark::Order(self.order),
        }
    }
}

/// Checks whether a general is the last on a label.
fn ends_in(label: &[u8], general: u8) -> bool
    ensures { result ≡ ends_in label.now general }
{
    let mut is_last = false;
    for other in label {
        is_last = *other == general;
    }
    is_last
}
