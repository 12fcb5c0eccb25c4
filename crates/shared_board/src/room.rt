//! Defines how a type parameter names a shared board.
use std::marker::Brand;
use std::sync::ledger::Ledger;

/// The name of one shared board, used as a type parameter. It determines the history of the board's accesses and the
/// words at the start. A function that shares a board uses a new name in each call. The same name belongs to a ledger
/// of `std`, which counts the accesses.
pub trait Room: Ledger {
    ghost use Rattle.std.specs.Prelude.{ℕ, List};
    ghost use Rattle.logbook.specs.Pages.{Book};

    /// The history of the board's accesses.
    ghost book: { Book };

    /// The words that the board has before its first access.
    ghost opening: { List ℕ };
}

impl Room for Brand {
    ghost use Rattle.std.specs.Prelude.{[]};

    ghost book = { record { number = 0; log_name = 0; cells_name = 0 } };

    ghost opening = { [] };
}
