//! Finds the line of an assembly text in which a unit is written.
ghost use Rattle.std.specs.Prelude.{◌≡◌, IfOk};
ghost use Rattle.cli_report.specs.Units.{IsUnitLine, as_line, number_in, unit_line};

use crate::report::behind;
use std::alloc::{AllocError, Global};
use text::{Base, digits};

/// Returns the number N in the text `line N`, or 0 if there is none.
fn number_in(place: &str) -> u64
    ensures { result ≡ number_in place.now }
{
    match digits(Base::Ten, behind(place.as_bytes(), 5)) {
        Some(number) => as_line(number),
        None => 0,
    }
}

/// Returns the number of the line with unit `unit`, counted from 0, or 0 if there is no such unit. `places` has the
/// text `line N` for each unit.
fn unit_line(places: &[String], unit: usize) -> u64
    ensures { result ≡ unit_line places.now unit }
{
    match places.get(unit) {
        Some(place) => number_in(place.as_str()),
        None => 0,
    }
}

/// Returns the number, or 0 if it is 2^64 or more.
fn as_line(number: u128) -> u64
    ensures { result ≡ as_line number }
{
    match u64::try_from(number) {
        Ok(number) => number,
        Err(_) => 0,
    }
}

/// Returns the number of the line, counted from 1, in which unit `unit` of an assembly text is written. Units are
/// counted from 0. Returns 0 if there is no such unit.
pub(crate) fn line_of_unit(alloc: Global, text: &str, unit: usize) -> Result<u64, AllocError>
    ensures { IfOk result (λ number. IsUnitLine text.now unit number) }
{
    let places = asm::places(alloc, text)?;
    Ok(unit_line(places.as_slice(), unit))
}
