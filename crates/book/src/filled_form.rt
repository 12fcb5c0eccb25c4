//! Writes a message table in which all generals send the same order. One general's orders may be left open.
ghost use Rattle.std.specs.Prelude.{◌≡◌, ◌≢◌, IfOk, IfErr, Err, Some, string_bytes};
ghost use Rattle.combine.specs.Names.{default_rule};
ghost use Rattle.book.specs.Grammar.{opened};
ghost use Rattle.book.specs.Table.{AreNumbersWithin};
ghost use Rattle.book.specs.declared.fault.TableError.TheVariants.{Memory};
ghost use Rattle.book.specs.Answers.{IsFilled};
ghost use Rattle.book.specs.Numbers.{HasGenerals, numbers_in};

use crate::fault::{TableError, TableFault};
use crate::loyal_marks::LoyalMarks;
use crate::writer::write;
use combine::Rule;
use std::alloc::Global;
use text::decimal;

/// Returns the message table of a campaign in which all generals send `order`. If a liar is given, his orders are
/// question marks, to be filled in.
///
/// # Errors
///
/// The fault that a first line with these numbers has, or `Memory` if out of memory.
pub fn filled(
    alloc: Global,
    generals: &str,
    bound: &str,
    commander: &str,
    order: u32,
    liar: Option<u8>,
) -> Result<String, TableError>
    ensures filled { IfOk result
        (λ text. IsFilled generals.now bound.now commander.now order liar (string_bytes text)) }
    ensures refused { IfErr result (λ e. e ≢ Memory →
        opened (numbers_in generals.now bound.now commander.now) ≡ Err e) }
{
    let (generals, bound, commander) = numbers(generals, bound, commander)?;
    let marks = LoyalMarks { order, liar };
    Ok(write(alloc, &marks, generals, bound, commander, Rule::DEFAULT)?)
}

/// Returns the number of generals of a campaign with these three numbers.
///
/// # Errors
///
/// The fault that a first line with these numbers has.
pub fn generals_in(generals: &str, bound: &str, commander: &str) -> Result<u8, TableError>
    ensures told { IfOk result (HasGenerals generals.now bound.now commander.now) }
    ensures refused { IfErr result (λ e. opened (numbers_in generals.now bound.now commander.now) ≡ Err e) }
    ensures memory { IfErr result (λ e. e ≢ Memory) }
{
    let (generals, _, _) = numbers(generals, bound, commander)?;
    Ok(generals)
}

/// Returns the three numbers of a campaign, which are given as text. They must be within the limits of the first line
/// of a message table.
///
/// # Errors
///
/// At line 1, `Line` if a number is not decimal, and `Range` if the numbers are out of their limits.
#[tactic(auto, unfolding(crate::specs::Numbers::numbers_in))]
fn numbers(generals: &str, bound: &str, commander: &str) -> Result<(u8, u8, u8), TableError>
    ensures told { IfOk result
        (λ n. numbers_in generals.now bound.now commander.now ≡ Some (n.0, n.1, n.2, default_rule)) }
    ensures within { IfOk result (λ n. AreNumbersWithin n.0 n.1 n.2) }
    ensures refused { IfErr result (λ e. (e ≢ Memory)
        × (opened (numbers_in generals.now bound.now commander.now) ≡ Err e)) }
{
    let (Some(generals), Some(bound), Some(commander)) = (
        decimal(generals.as_bytes()),
        decimal(bound.as_bytes()),
        decimal(commander.as_bytes()),
    ) else {
        return Err(TableError::At(TableFault::Line, 1));
    };
    if generals > 13 || bound > 4 || bound + 2 > generals || commander >= generals {
        return Err(TableError::At(TableFault::Range, 1));
    }
    Ok((generals as u8, bound as u8, commander as u8))
}
