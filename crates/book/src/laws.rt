//! Laws of message tables. Each function does nothing, and its contract is the law.
ghost use Rattle.book.specs.WrittenLaws.{LoyalTablesDecide, TablesAreRead};

/// Does nothing. Its contract states that a message table that is written as text is read back with the same messages
/// and decisions.
pub fn tables_are_read()
    ensures { TablesAreRead }
{}

/// Does nothing. Its contract states that if all generals send the same order, each lieutenant decides on it by the
/// majority rule.
pub fn loyal_tables_decide()
    ensures { LoyalTablesDecide }
{}
