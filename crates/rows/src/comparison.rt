//! Compares a text with an expected text, line by line.
ghost use Rattle.std.specs.Prelude.{◌≡◌, ◌↔◌};
ghost use Rattle.rows.specs.declared.comparison.ComparisonResult.TheVariants.{AsStored};
ghost use Rattle.rows.specs.Comparing.{parting, outcome_by};

use std::fmt;

/// The result of comparing a text with an expected text.
#[derive(Clone, Copy)]
pub enum ComparisonResult {
    /// The texts are equal.
    AsStored,
    /// The first line in which the texts differ, counted from 1.
    Differs(usize),
}

impl fmt::Display for ComparisonResult {
    fn fmt<W: fmt::Write>(&self, f: &mut fmt::Formatter<W>) -> fmt::Result {
        match *self {
            ComparisonResult::AsStored => write!(f, "as stored"),
            ComparisonResult::Differs(line) => write!(f, "differs at line {line}"),
        }
    }
}

/// Returns the first line in which two texts differ, counted from 1. Returns `None` if they are equal.
fn differing_line(told: &[u8], stored: &[u8]) -> Option<usize>
    ensures { result ≡ parting 1 told.now stored.now }
{
    let mut line = 1;
    let mut rest = stored;
    for byte in told {
        let [next, behind @ ..] = rest else {
            return Some(line);
        };
        if *next != *byte {
            return Some(line);
        }
        if *byte == b'\n' {
            line += 1;
        }
        rest = behind;
    }
    if rest.is_empty() { None } else { Some(line) }
}

/// Compares a text with the stored text that is expected, and returns whether they are equal or where they first
/// differ.
pub fn compare(told: &[u8], stored: &[u8]) -> ComparisonResult
    ensures line { result ≡ outcome_by (parting 1 told.now stored.now) }
    ensures same { result ≡ AsStored ↔ told.now ≡ stored.now }
{
    match differing_line(told, stored) {
        None => ComparisonResult::AsStored,
        Some(line) => ComparisonResult::Differs(line),
    }
}
