//! Reads the label in a line of a message table.
ghost use Rattle.std.specs.Prelude.{◌≡◌, ◌≤◌, ◌<◌, ◌+◌, ◌&&◌, not, nat_le, nat_lt, length, Err, None};
ghost use Rattle.std.specs.Bool.{OnTrue};
ghost use Rattle.text.specs.Stop.{dot};
ghost use Rattle.text.specs.Parts.{left};
ghost use Rattle.label.specs.Labels.{on};
ghost use Rattle.book.specs.Table.{AreNumbersWithin};
ghost use Rattle.book.specs.Grammar.{numbers_of};
ghost use Rattle.book.specs.Reading.{numbers_or, prolonged_label, label_read};

use crate::fault::TableFault;
use crate::parts::{DOT, are_numbers};
use crate::table::Table;
use label::Label;
use text::{decimal, piece};

/// Reads a label: numbers joined by dots, the commander first, such as `0.2.3`.
///
/// # Errors
///
/// `Line` if something between the dots is not a decimal number, and otherwise `Place` if the numbers are not a label
/// of the campaign.
#[tactic(auto, unfolding(crate::specs::Reading::label_read, crate::specs::Reading::begun_label))]
pub fn label_in(table: &Table, part: &[u8]) -> Result<Label, TableFault>
    ensures label { result ≡ label_read table.now part.now }
    ensures within { AreNumbersWithin table.now.generals table.now.bound table.now.commander }
{
    let (first, rest) = piece(DOT, part);
    let commander = table.commander();
    let Some(first) = decimal(first) else {
        return Err(TableFault::Line);
    };
    if first == (commander as u128) {
        prolonged(table, Label::of(commander), rest)
    } else {
        Err(no_label(rest))
    }
}

/// Returns `label` extended by the generals in `rest`, which are numbers joined by dots, or `label` if `rest` is
/// `None`.
///
/// # Errors
///
/// `Line` if something between the dots is not a decimal number. Otherwise `Place` if a number is not a general, is
/// already on the label, or makes the label longer than `bound + 1` generals.
#[tactic(auto, unfolding(crate::specs::Reading::prolonged_label))]
fn prolonged(table: &Table, label: Label, rest: Option<&[u8]>) -> Result<Label, TableFault>
    requires { length label ≤ table.now.bound + 1 }
    ensures { result ≡ numbers_or (prolonged_label table.now.generals table.now.bound label)
        (numbers_of (left dot rest.entry)) }
{
    let Some(rest) = rest else {
        return Ok(label);
    };
    let (next, behind) = piece(DOT, rest);
    let Some(next) = decimal(next) else {
        return Err(TableFault::Line);
    };
    if is_next(table, &label, next) {
        prolonged(table, label.with(next as u8), behind)
    } else {
        Err(no_label(behind))
    }
}

/// Returns the fault of a label with a number that is not allowed there: `Place` if `rest`, the text after this number,
/// has only decimal numbers between its dots, and otherwise `Line`.
fn no_label(rest: Option<&[u8]>) -> TableFault
    ensures { Err result ≡ numbers_or (λ ns. None) (numbers_of (left dot rest.entry)) }
{
    if are_numbers(rest) {
        TableFault::Place
    } else {
        TableFault::Line
    }
}

/// Checks whether a label can be extended by the general `next`: he exists, is not on the label, and the label has at
/// most `bound` generals.
fn is_next(table: &Table, label: &Label, next: u128) -> bool
    ensures small { OnTrue result ((next < 13) × (length label.now < 13)) }
    ensures value { result ≡ (nat_le (length label.now) table.now.bound && nat_lt next table.now.generals
        && not (on label.now next)) }
{
    label.len() <= (table.bound() as usize)
        && next < (table.generals() as u128)
        && !label.has(next as u8)
}

/// Checks whether `receiver` is a general who is not on the label.
pub fn can_hear(table: &Table, label: &Label, receiver: u128) -> bool
    ensures small { OnTrue result (receiver < 13) }
    ensures value { result ≡ (nat_lt receiver table.now.generals && not (on label.now receiver)) }
{
    receiver < (table.generals() as u128) && !label.has(receiver as u8)
}
