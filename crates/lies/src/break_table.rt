//! Decides whether some traitors, whatever they say, break a rule, and writes the shortest break as a message table.
ghost use Rattle.std.specs.Prelude.{◌≡◌, ◌≢◌, IfErr, IfNone, IfOk, IfSome, map, string_bytes, true};
ghost use Rattle.combine.specs.Rule.{combined_by};
ghost use Rattle.label.specs.Lieutenants.{lieutenants};
ghost use Rattle.book.specs.Grammar.{is_within};
ghost use Rattle.book.specs.Hearing.{heard};
ghost use Rattle.book.specs.Table.{AreNumbersWithin};
ghost use Rattle.book.specs.Trees.{tree_of};
ghost use Rattle.book.specs.Written.{table_text};
ghost use Rattle.lies.specs.Asked.{ToleratesAsked, first_asked};
ghost use Rattle.lies.specs.BreakTable.{IsBreakTable};
ghost use Rattle.lies.specs.BreakTrees.{messages_of};
ghost use Rattle.lies.specs.Refusal.{IsRefused, no_memory};

use crate::break_trees::break_trees;
use crate::commanders::cheapest_asked;
use crate::found::{Found, FoundUnder};
use crate::refusal::BreakError;
use arrayvec::ArrayVec;
use book::{TableError, TableFault, table_of};
use combine::Rule;
use std::alloc::{AllocError, Global};

/// A break: its commander, who the traitors are, and the messages as a message table.
#[derive(Drop)]
pub struct BreakTable {
    /// The number of the commander.
    pub commander: u8,
    /// The numbers of the traitors, in ascending order.
    pub traitors: ArrayVec<u8, 13>,
    /// The text of the message table.
    pub table: String,
}

/// Returns a shortest break of OM(m) by at most `most` traitors, or `None` if the rule tolerates these traitors,
/// whatever they send or leave out. `bound` is m. The search is over the breaks under the commander, or under all
/// commanders if none is given.
///
/// A shortest break has the fewest traitors. Of those it is one in which they send the fewest orders other than RETREAT
/// to loyal generals.
///
/// # Errors
///
/// Fails with `Table` if the numbers are out of the limits of a message table, or there is no memory.
pub fn shortest_break(
    alloc: Global,
    generals: u8,
    bound: u8,
    commander: Option<u8>,
    rule: Rule,
    most: u8,
) -> Result<Option<BreakTable>, BreakError>
    ensures within { IfOk result (λ _. is_within generals bound (first_asked commander) ≡ true) }
    ensures tolerates { IfOk result (λ found. IfNone found
        (ToleratesAsked (combined_by rule) generals bound most commander)) }
    ensures broken { IfOk result (λ found. IfSome found (λ found. IsBreakTable rule generals bound commander most
        found.commander found.traitors.items (string_bytes found.table))) }
    ensures refused { IfErr result (λ e. e ≢ no_memory → IsRefused generals bound (first_asked commander) e) }
{
    if !is_within(generals, bound, commander.unwrap_or(0)) {
        return Err(BreakError::Table(TableError::At(TableFault::Range, 1)));
    }
    for count in 0..most.min(generals) + 1 {
        if let Some(under) = cheapest_asked(alloc, &rule, generals, bound, commander, count)? {
            let FoundUnder {
                commander: leader,
                found,
            } = under;
            let table = written(alloc, &found, generals, bound, leader, rule)?;
            let Found {
                traitors,
                success: _,
            } = found;
            return Ok(Some(BreakTable {
                commander: leader,
                traitors,
                table,
            }));
        }
    }
    Ok(None)
}

/// Returns the message table of a break, with this rule.
fn written(
    alloc: Global,
    found: &Found,
    generals: u8,
    bound: u8,
    commander: u8,
    rule: Rule,
) -> Result<String, AllocError>
    requires { AreNumbersWithin generals bound commander }
    ensures { IfOk result (λ text. string_bytes text ≡ table_text
        (heard (map (tree_of generals bound commander
        (messages_of (combined_by rule) generals bound commander found.now)) (lieutenants generals commander)))
        generals bound commander rule) }
{
    let trees = break_trees(alloc, &rule, found, generals, bound, commander)?;
    table_of(alloc, trees.as_slice(), generals, bound, commander, rule)
}

/// Returns whether the numbers are within the limits of a message table.
pub(crate) fn is_within(generals: u8, bound: u8, commander: u8) -> bool
    ensures { result ≡ is_within generals bound commander }
{
    generals <= 13 && bound <= 4 && bound + 2 <= generals && commander < generals
}
