//! Finds the program of a general in a scenario's text.
ghost use Rattle.std.specs.Prelude.{◌≡◌, IfOk, option_and_then, option_map};
ghost use Rattle.toml.specs.Parse.{parse_document};
ghost use Rattle.toml.specs.View.{table_view};
ghost use Rattle.scenario.specs.Seen.{source_of};
ghost use Rattle.scenario.specs.Sources.{source_by};
ghost use Rattle.cli_report.specs.Scenarios.{IsDocumentOf, IsTableBy};

use scenario::{ProgramText, written_by};
use std::alloc::{AllocError, Global};
use toml::de::Error;
use toml::{Table, table_from_str};

/// Returns the table that the parser returned, or `None` if the text is not TOML.
///
/// # Errors
///
/// Fails with `AllocError` if there was not enough memory to parse the text.
fn table_of(parsed: Result<Table, Error>) -> Result<Option<Table>, AllocError>
    ensures { IsTableBy parsed result }
{
    match parsed {
        Ok(table) => Ok(Some(table)),
        Err(error) if error.is_memory() => Err(AllocError),
        Err(_) => Ok(None),
    }
}

/// Parses a text as TOML. Returns `None` if it is not TOML.
pub(crate) fn table_in(alloc: Global, text: &str) -> Result<Option<Table>, AllocError>
    ensures { IfOk result (λ table. option_map table_view table ≡ parse_document text.now) }
{
    table_of(table_from_str(alloc, text))
}

/// Parses bytes as TOML. Returns `None` if they are not UTF-8, or not TOML.
pub(crate) fn document_of(alloc: Global, bytes: &[u8]) -> Result<Option<Table>, AllocError>
    ensures { IfOk result (λ table. IsDocumentOf bytes.now (option_map table_view table)) }
{
    match str::from_utf8(bytes) {
        Ok(text) => table_in(alloc, text),
        Err(_) => Ok(None),
    }
}

/// Returns the program's text that the first `[[traitor]]` table of `general` contains: its `asm`, or else its `code`.
/// `tables` is the scenario, or `None` if it is not TOML. Returns `None` if the general has no such table, or if the
/// table contains no program.
pub(crate) fn source_in(tables: Option<&Table>, general: u8) -> Option<ProgramText<'_>>
    ensures { option_map source_of result
        ≡ option_and_then (source_by general) (option_map (λ t. table_view t.now) tables.entry) }
{
    match tables {
        Some(table) => written_by(table, general),
        None => None,
    }
}
