//! The agreement theorem, and laws of message tables. Each function does nothing, and its contract is the law.
ghost use Rattle.book.specs.Consistency.{ConditionsMean};
ghost use Rattle.book.specs.Forms.{FormsAreRead};
ghost use Rattle.book.specs.Laws.{ToldTablesAreWhole};
ghost use Rattle.book.specs.Theorem.{AgreementHolds, ListsMean};

/// Does nothing. Its contract is the agreement theorem (TOPLAS 1982, Theorem 1). If the bound holds and loyal generals
/// send on the orders that they took, the loyal lieutenants decide alike, and if the commander is loyal, they decide on
/// his order. This holds whatever the traitors send.
pub fn agreement()
    ensures { AgreementHolds }
{}

/// Does nothing. Its contract states that if a text is read as a message table, its numbers are within their limits,
/// its messages are ones of the campaign, and no two have the same label and receiver.
pub fn told_tables_are_whole()
    ensures { ToldTablesAreWhole }
{}

/// Does nothing. Its contract states that the conditions that `judge` returns are IC1 and IC2, for the decisions of the
/// generals who are not named as traitors, and that both hold if the agreement theorem applies.
pub fn conditions_mean()
    ensures { ConditionsMean }
{}

/// Does nothing. Its contract states that if an order replaces each question mark of a table to fill in, the text is
/// read as a table with exactly these orders.
pub fn forms_are_read()
    ensures { FormsAreRead }
{}

/// Does nothing. Its contract states that the lists that `explain` writes have the outcomes that OM(m) requires, and
/// that a majority is reported exactly if there is one.
pub fn lists_mean()
    ensures { ListsMean }
{}
