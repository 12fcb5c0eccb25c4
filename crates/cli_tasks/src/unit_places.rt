//! Finds where and how the 8-byte units of a program are written: on which line of assembly or, for an ELF object, on
//! which line of which source file.
ghost use Rattle.std.specs.Prelude.{◌≡◌, IfOk, map, string_bytes};
ghost use Rattle.std.specs.Str.{IsUtf8};
ghost use Rattle.asm.specs.Places.{AreWritten, statements_of};
ghost use Rattle.asm.specs.Program.{lines_of, nothing, read_on};
ghost use Rattle.object.specs.Places.{AreEntryPlaces};
ghost use Rattle.object.specs.Entry.{function_of};
ghost use Rattle.object.specs.Symbol.{asked};
ghost use Rattle.cli_tasks.specs.Programs.{ArePlaces, AreStatements};

use cli_words::Notation;
use object::entry_places;
use std::alloc::{AllocError, Global};

/// Returns where each 8-byte unit of the program in a file is written: on which line of assembly or, for an ELF object,
/// on which line of which source file. Returns no entries for bytecode.
pub(crate) fn written_in(
    alloc: Global,
    notation: &Notation,
    bytes: &[u8],
) -> Result<Vec<String>, AllocError>
    ensures { IfOk result (λ places. ArePlaces notation.now bytes.now (map string_bytes places.items)) }
{
    match notation {
        Notation::Bytecode => Ok(Vec::new(alloc)),
        Notation::Assembly => in_text(alloc, bytes),
        Notation::Object { entry } => in_object(alloc, bytes, entry.as_deref()),
    }
}

/// Returns the line on which each 8-byte unit of an assembled text is written. Returns no entries if the bytes are not
/// UTF-8.
fn in_text(alloc: Global, bytes: &[u8]) -> Result<Vec<String>, AllocError>
    ensures { IfOk result (λ places. IsUtf8 bytes.now →
        AreWritten (read_on nothing 1 (lines_of bytes.now)) (map string_bytes places.items)) }
{
    match str::from_utf8(bytes) {
        Ok(text) => asm::places(alloc, text),
        Err(_) => Ok(Vec::new(alloc)),
    }
}

/// Returns the source file and the line on which each 8-byte unit of a function in an ELF object is written. The
/// function is the one named `entry` or, without a name, the only global one.
fn in_object(alloc: Global, object: &[u8], entry: Option<&str>) -> Result<Vec<String>, AllocError>
    ensures { IfOk result (λ places. AreEntryPlaces object.now (function_of object.now (asked entry.entry))
        (map string_bytes places.items)) }
{
    match entry {
        None => entry_places(alloc, object, None),
        Some(name) => entry_places(alloc, object, Some(name.as_bytes())),
    }
}

/// Returns the statement for each 8-byte unit of the program in a file of assembly, as it is written on its line.
/// Returns no entries for bytecode and ELF objects.
pub(crate) fn statements_in(
    alloc: Global,
    notation: &Notation,
    bytes: &[u8],
) -> Result<Vec<String>, AllocError>
    ensures { IfOk result (λ statements. AreStatements notation.now bytes.now (map string_bytes statements.items)) }
{
    match notation {
        Notation::Assembly => statements_of_text(alloc, bytes),
        Notation::Bytecode | Notation::Object { .. } => Ok(Vec::new(alloc)),
    }
}

/// Returns the statement for each 8-byte unit of an assembled text, as it is written on its line. Returns no entries if
/// the bytes are not UTF-8.
fn statements_of_text(alloc: Global, bytes: &[u8]) -> Result<Vec<String>, AllocError>
    ensures { IfOk result (λ statements. IsUtf8 bytes.now →
        map string_bytes statements.items ≡ statements_of bytes.now) }
{
    match str::from_utf8(bytes) {
        Ok(text) => asm::statements(alloc, text),
        Err(_) => Ok(Vec::new(alloc)),
    }
}
