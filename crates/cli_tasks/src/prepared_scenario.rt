//! Prepares a scenario that names files: replaces their names by the programs in them.
ghost use Rattle.std.specs.Prelude.{◌≡◌, ◌++◌, ◌∷◌, [], IfErr, IfOk, OnOk, option_map, string_bytes};
ghost use Rattle.std.specs.List.{AllZip};
ghost use Rattle.toml.specs.Parse.{parse_document};
ghost use Rattle.scenario.specs.Asking.{asked};
ghost use Rattle.cli_tasks.specs.Seen.{Sees, SeesIn, opened, reads_scenario};
ghost use Rattle.cli_tasks.specs.Taken.{IsBeside, IsUntaken};

use crate::folder::Folder;
use crate::named_files::{FileProblem, beside};
use cli_words::Task;
use scenario::{LoadedFile, Reference, asked, resolved};
use std::alloc::{AllocError, Global};

/// Checks whether the task's first file is a scenario, or, for `tree`, may be one.
pub fn reads_scenario(task: &Task) -> bool
    ensures { result ≡ reads_scenario task.now }
{
    match task {
        Task::Play { .. }
        | Task::Muster { .. }
        | Task::Audit { .. }
        | Task::Explore { .. }
        | Task::Tree { .. }
        | Task::Draw { .. }
        | Task::Page { .. }
        | Task::Retrace { .. } => true,
        Task::Check { .. }
        | Task::Assemble { .. }
        | Task::AssemblePartly { .. }
        | Task::Disassemble { .. }
        | Task::DisassemblePartly { .. }
        | Task::Book(_)
        | Task::ExplainDecisions { .. }
        | Task::Form { .. }
        | Task::Refute { .. }
        | Task::Exhaust { .. }
        | Task::Certify { .. } => false,
    }
}

/// Returns the bytes of a scenario in which each named file is replaced by its content, and each traitor has a table of
/// his own. Returns the bytes unchanged if they are not UTF-8 or not TOML, or if they name no files and no two traitors
/// share a table. If `no_files` is set, no file is read and its name stays. The reader of scenarios then rejects this
/// name as an unknown key.
///
/// # Errors
///
/// Fails if a named file cannot be used, or if memory runs out.
pub fn with_files<D: Folder>(
    alloc: Global,
    bytes: Vec<u8>,
    folder: &D,
    no_files: bool,
) -> Result<Vec<u8>, FileProblem>
    ensures seen { IfOk result (λ new. Sees no_files (D.bytes folder.now) bytes.items new.items) }
    ensures untaken { IfErr result
        (IsUntaken (D.bytes folder.now) (D.fails folder.now) (opened no_files (asked (parse_document bytes.items)))) }
{
    let Ok(text) = str::from_utf8(bytes.as_slice()) else {
        return Ok(bytes);
    };
    match with_named(alloc, text, folder, no_files)? {
        Some(new) => Ok(new.into_bytes()),
        None => Ok(bytes),
    }
}

/// Returns the text of a scenario in which each named file is replaced by its content, and each traitor has a table of
/// his own. Returns `None` if nothing has to be replaced.
fn with_named<D: Folder>(
    alloc: Global,
    text: &str,
    folder: &D,
    no_files: bool,
) -> Result<Option<String>, FileProblem>
    ensures seen { IfOk result
        (λ new. SeesIn no_files (D.bytes folder.now) (parse_document text.now) (option_map string_bytes new)) }
    ensures untaken { IfErr result
        (IsUntaken (D.bytes folder.now) (D.fails folder.now) (opened no_files (asked (parse_document text.now)))) }
{
    let named = opened(alloc, text, no_files)?;
    let files = read_all(alloc, named.as_slice(), folder)?;
    Ok(resolved(alloc, text, files.as_slice())?)
}

/// Returns the files that are named in a scenario and must be read. There are none if `no_files` is set.
fn opened(alloc: Global, text: &str, no_files: bool) -> Result<Vec<Reference>, AllocError>
    ensures { IfOk result (λ all. all.items ≡ opened no_files (asked (parse_document text.now))) }
{
    if no_files {
        Ok(Vec::new(alloc))
    } else {
        asked(alloc, text)
    }
}

/// Reads the named files from the folder, in the order of `named`. Fails with the first file that cannot be used.
fn read_all<D: Folder>(
    alloc: Global,
    named: &[Reference],
    folder: &D,
) -> Result<Vec<LoadedFile>, FileProblem>
    ensures files { IfOk result (λ files. AllZip (IsBeside (D.bytes folder.now)) named.now files.items) }
    ensures untaken { IfErr result (IsUntaken (D.bytes folder.now) (D.fails folder.now) named.now) }
{
    let mut files = Vec::with_capacity(alloc, named.len())?;
    for file in named {
        push(&mut files, beside(alloc, folder, file)?)?;
    }
    Ok(files)
}

/// Appends a file to the list of files. Fails only if memory runs out.
fn push(files: &mut Vec<LoadedFile>, file: LoadedFile) -> Result<(), AllocError>
    ensures { OnOk result (files.new.items ≡ files.old.items ++ file ∷ []) }
{
    Ok(files.push(file)?)
}
