//! Makes a message table to fill in, for a campaign whose numbers are given as text.
ghost use Rattle.std.specs.Prelude.{◌≡◌, ◌≢◌, IfOk, IfErr, Err, min, string_bytes};
ghost use Rattle.book.specs.Grammar.{opened};
ghost use Rattle.book.specs.declared.fault.TableError.TheVariants.{Memory};
ghost use Rattle.book.specs.Answers.{IsFormOf};
ghost use Rattle.book.specs.Numbers.{numbers_in};

use crate::blanks::form;
use crate::fault::{TableError, TableFault};
use std::alloc::Global;
use text::decimal;

/// Returns the message table of a campaign with a question mark in place of each order, to fill in. The campaign's
/// numbers are given as text.
///
/// # Errors
///
/// The fault that a first line with these numbers has, or `Memory` if out of memory.
#[tactic(auto, unfolding(crate::specs::Numbers::numbers_in))]
pub fn formed(
    alloc: Global,
    generals: &str,
    bound: &str,
    commander: &str,
) -> Result<String, TableError>
    ensures formed { IfOk result (λ text. IsFormOf generals.now bound.now commander.now (string_bytes text)) }
    ensures refused { IfErr result (λ e. e ≢ Memory →
        opened (numbers_in generals.now bound.now commander.now) ≡ Err e) }
{
    let Some(generals) = decimal(generals.as_bytes()) else {
        return Err(TableError::At(TableFault::Line, 1));
    };
    let Some(bound) = decimal(bound.as_bytes()) else {
        return Err(TableError::At(TableFault::Line, 1));
    };
    let Some(commander) = decimal(commander.as_bytes()) else {
        return Err(TableError::At(TableFault::Line, 1));
    };
    Ok(form(
        alloc,
        narrowed(generals),
        narrowed(bound),
        narrowed(commander),
    )?)
}

/// Returns the number, or 2^64 - 1 if it is greater. A number this large is out of every limit.
fn narrowed(number: u128) -> u64
    ensures { result ≡ min number 18446744073709551615 }
{
    number.min(u128::from(u64::MAX)) as u64
}
