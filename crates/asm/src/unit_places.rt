//! Finds the line on which each unit of a program is written.
ghost use Rattle.std.specs.Prelude.{◌≡◌, ◌++◌, ◌∷◌, [], map, string_bytes, IfOk, OnOk};
ghost use Rattle.std.specs.List.{flat_map};
ghost use Rattle.asm.specs.Places.{AreWritten, kept_places, line_text, own_places};
ghost use Rattle.asm.specs.Program.{lines_of, nothing, read_on};
ghost use Rattle.asm.specs.Views.{kept_view};

use crate::draft::{Kept, units};
use crate::reader::{Reading, gather};
use std::alloc::{AllocError, Global};

/// Returns the number of a line as text, such as `line 7`.
fn line_text(alloc: Global, line: u64) -> Result<String, AllocError>
    ensures { IfOk result (λ text. string_bytes text ≡ line_text line) }
{
    format!(in alloc; "line {line}")
}

/// Appends the number of a unit's line to `places`, as a text such as `line 7`.
fn put_place(alloc: Global, places: &mut Vec<String>, line: u64) -> Result<(), AllocError>
    ensures { OnOk result (map string_bytes places.new.items ≡ map string_bytes places.old.items
        ++ line_text line ∷ []) }
{
    places.push(line_text(alloc, line)?)?;
    Ok(())
}

/// Appends the number of an instruction's line to `places`, as a text such as `line 7`, once for each of its units.
fn put_places(alloc: Global, places: &mut Vec<String>, kept: &Kept<'_>) -> Result<(), AllocError>
    ensures { OnOk result (map string_bytes places.new.items ≡ map string_bytes places.old.items
        ++ own_places (kept_view kept.now)) }
{
    put_place(alloc, places, kept.line)?;
    if units(&kept.statement) == 2 {
        put_place(alloc, places, kept.line)?;
    }
    Ok(())
}

/// Returns for each unit of the stored instructions the number of its line, as a text such as `line 7`.
fn all_places(alloc: Global, reading: &Reading<'_>) -> Result<Vec<String>, AllocError>
    ensures { IfOk result (λ places. map string_bytes places.items ≡ flat_map kept_places reading.now.sources.items) }
{
    let mut places = Vec::new(alloc);
    for kept in &reading.sources {
        put_places(alloc, &mut places, kept)?;
    }
    Ok(places)
}

/// Returns for each unit of the program in a text the number of its line, as a text such as `line 7`. Lines are counted
/// from 1, and an `lddw` has two units. The list is empty if a line has a fault of its own. The contract says nothing
/// about texts with more than 4,096 units.
///
/// # Errors
///
/// `AllocError` if out of memory.
#[tactic(auto, using(crate::proofs::PlaceLemmas::places_refused))]
pub fn places(alloc: Global, text: &str) -> Result<Vec<String>, AllocError>
    ensures { IfOk result (λ places. AreWritten (read_on nothing 1 (lines_of text.now))
        (map string_bytes places.items)) }
{
    match gather(alloc, text.as_bytes()) {
        Ok(reading) => all_places(alloc, &reading),
        Err(error) => {
            error.want_of_memory()?;
            Ok(Vec::new(alloc))
        }
    }
}
