//! Reads a message table from a text.
ghost use Rattle.std.specs.Prelude.{◌≡◌, ◌≢◌, ◌≤◌, ◌++◌, ◌∷◌, [], IfOk, IfErr, Ok, Err};
ghost use Rattle.book.specs.declared.fault.TableError.TheVariants.{Memory};
ghost use Rattle.book.specs.Grammar.{opened, head_of, checked, at_line, message_of, is_within, table_told};

use crate::fault::{TableError, TableFault};
use crate::message::Message;
use crate::message_label::{can_hear, label_in};
use crate::parts::{head, shape};
use crate::table::Table;
use std::alloc::Global;
use text::line;

/// Reads a message table from a text.
///
/// # Errors
///
/// The first fault in the order of the lines, with the number of its line, or `Memory` if out of memory.
#[tactic(auto, unfolding(crate::specs::Grammar::table_told))]
pub fn read_table(alloc: Global, text: &str) -> Result<Table, TableError>
    ensures told { IfOk result (λ t. table_told text.now ≡ Ok t) }
    ensures fault { IfErr result (λ e. e ≢ Memory → table_told text.now ≡ Err e) }
{
    let Some((first, behind)) = line(text.as_bytes()) else {
        return Err(TableError::At(TableFault::Line, 1));
    };
    let mut table = read_head(alloc, first)?;
    let mut rest = behind;
    let mut number: u64 = 2;
    while let Some((next, behind)) = line(rest) {
        let message = message_at(&table, number, next)?;
        table = table.with(message)?;
        rest = behind;
        number += 1;
    }
    Ok(table)
}

/// Returns the table, without messages, that begins with this first line.
///
/// # Errors
///
/// At line 1, `Line` if the line does not have the required form, and `Range` if its numbers are out of their limits.
/// `Memory` if out of memory.
fn read_head(alloc: Global, line: &[u8]) -> Result<Table, TableError>
    ensures told { IfOk result (λ t. opened (head_of line.now) ≡ Ok t) }
    ensures fault { IfErr result (λ e. e ≢ Memory → opened (head_of line.now) ≡ Err e) }
{
    let Some((generals, bound, commander, rule)) = head(line) else {
        return Err(TableError::At(TableFault::Line, 1));
    };
    if is_within(generals, bound, commander) {
        Ok(Table::open(alloc, generals as u8, bound as u8, commander as u8, rule)?)
    } else {
        Err(TableError::At(TableFault::Range, 1))
    }
}

/// Checks whether the numbers of a campaign are within their limits: at most 13 generals, a bound of at most 4 that
/// leaves two other generals, and a commander who exists.
pub(crate) fn is_within(generals: u128, bound: u128, commander: u128) -> bool
    ensures { result ≡ is_within generals bound commander }
{
    generals <= 13 && bound <= 4 && bound + 2 <= generals && commander < generals
}

/// Returns the message of a line after the first.
///
/// # Errors
///
/// The first fault of the line, with `number`, the number of the line.
fn message_at(table: &Table, number: u64, line: &[u8]) -> Result<Message, TableError>
    ensures { result ≡ at_line number (checked table.now (message_of line.now)) }
{
    match read_message(table, line) {
        Ok(message) => Ok(message),
        Err(fault) => Err(TableError::At(fault, number)),
    }
}

/// Returns the message of a line after the first.
///
/// # Errors
///
/// `Line` if the line does not have the required form, `Place` if there is no such label or receiver, and `Twice` if an
/// earlier line has both.
fn read_message(table: &Table, line: &[u8]) -> Result<Message, TableFault>
    ensures { result ≡ checked table.now (message_of line.now) }
{
    let Some((label, receiver, order)) = shape(line) else {
        return Err(TableFault::Line);
    };
    let label = label_in(table, label)?;
    if !can_hear(table, &label, receiver) {
        return Err(TableFault::Place);
    }
    if table.told(&label, receiver as u8).is_some() {
        return Err(TableFault::Twice);
    }
    Ok(Message {
        label,
        receiver: receiver as u8,
        order,
    })
}
