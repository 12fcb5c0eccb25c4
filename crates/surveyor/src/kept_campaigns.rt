//! Writes campaigns to the folder of `--keep`. No contract can say that the files remain there.
ghost use Rattle.std.specs.Prelude.{◌≡◌, IfErr, IfOk, string_bytes};
ghost use Rattle.streams.specs.Filling.{IsFilledBy};
ghost use Rattle.surveyor.specs.Faults.{IsUnkept, tried_name, unwritten};
ghost use Rattle.surveyor.specs.Kept.{beside_name, kept_name};

use crate::fault::SurveyFailure;
use std::alloc::{AllocError, Global};
use std::fs::{File, OpenOptions, create_dir, metadata, remove_file, rename};
use std::io::{self, ErrorKind};
use streams::{Filled, fill};

/// The two names of a file: the name that it gets in the end, and the temporary name under which it is written.
#[derive(Drop)]
struct FileNames {
    name: String,
    beside: String,
}

/// Writes `text`, the campaign of a seed, to the file FOLDER/SEED.toml. To keep this file from ever being incomplete,
/// writes FOLDER/.SEED.toml.new first and then renames it. If that fails, removes the temporary file.
///
/// # Errors
///
/// Fails if the file cannot be written, or if memory runs out. If FOLDER/.SEED.toml.new exists already, the error names
/// it.
pub fn keep<'t>(
    rt: &HostRuntime,
    folder: &str,
    seed: u64,
    text: &'t str,
) -> Result<Filled<'t, File>, SurveyFailure>
    ensures written { IfOk result (IsFilledBy (kept_name folder.now seed) text.now) }
    ensures unkept { IfErr result (IsUnkept (kept_name folder.now seed) (beside_name folder.now seed)) }
{
    let names = names_of(rt.alloc(), folder, seed)?;
    let written = match new_file(rt, names.beside.as_str()) {
        Ok(file) => moved(rt, file, &names, text),
        Err(error) => Err(error),
    };
    match written {
        Ok(filled) => Ok(filled),
        Err(error) => Err(unwritten(error.kind(), names)),
    }
}

/// Returns the two names of the file for the campaign of a seed: FOLDER/SEED.toml, and FOLDER/.SEED.toml.new while it
/// is written.
///
/// # Errors
///
/// Fails with `AllocError` if memory runs out.
fn names_of(alloc: Global, folder: &str, seed: u64) -> Result<FileNames, AllocError>
    ensures name { IfOk result (λ names. string_bytes names.name ≡ kept_name folder.now seed) }
    ensures beside { IfOk result (λ names. string_bytes names.beside ≡ beside_name folder.now seed) }
{
    Ok(FileNames {
        name: format!(in alloc; "{folder}/{seed}.toml")?,
        beside: format!(in alloc; "{folder}/.{seed}.toml.new")?,
    })
}

/// Makes the folder named `folder` unless it exists, and checks that files can be written to it by creating and
/// removing one. `number` is part of the name of this file, so that concurrent surveys with other numbers do not use
/// the same one.
///
/// # Errors
///
/// Fails if the folder cannot be made, if no file can be written to it, or if memory runs out.
pub fn open_folder(rt: &HostRuntime, folder: &str, number: u64) -> Result<(), SurveyFailure>
    ensures { IfErr result (IsUnkept folder.now (tried_name folder.now number)) }
{
    let alloc = rt.alloc();
    let names = FileNames {
        name: String::from_str(alloc, folder)?,
        beside: format!(in alloc; "{folder}/.{number}.survey.new")?,
    };
    match opened(rt, folder, names.beside.as_str()) {
        Ok(()) => Ok(()),
        Err(error) => Err(unwritten(error.kind(), names)),
    }
}

/// Returns the failure for a file that could not be written because of an error of this kind. The failure names the
/// temporary file if that exists already, and otherwise the file itself. If memory ran out, it is `Memory`.
fn unwritten(kind: ErrorKind, names: FileNames) -> SurveyFailure
    ensures same { result ≡ unwritten kind names.name names.beside }
    ensures unkept { IsUnkept (string_bytes names.name) (string_bytes names.beside) result }
{
    match kind {
        ErrorKind::OutOfMemory => SurveyFailure::Memory,
        ErrorKind::AlreadyExists => SurveyFailure::Unwritten(Some(names.beside)),
        _ => SurveyFailure::Unwritten(Some(names.name)),
    }
}

/// Makes the folder unless it exists. Then creates the file named `name` in it and removes it again, which shows that
/// files can be written to the folder.
///
/// # Errors
///
/// Fails if the folder cannot be made, or if the file cannot be created or removed.
fn opened(rt: &HostRuntime, folder: &str, name: &str) -> io::Result<()> {
    if metadata(rt, folder).is_err() {
        made(rt, folder)?;
    }
    let file = new_file(rt, name)?;
    drop(file);
    remove_file(rt, name)
}

/// Makes the folder. Succeeds also if another process has just made it.
///
/// # Errors
///
/// Fails if the folder cannot be made.
fn made(rt: &HostRuntime, folder: &str) -> io::Result<()> {
    match create_dir(rt, folder) {
        Err(error) if error.kind() != ErrorKind::AlreadyExists => Err(error),
        _ => Ok(()),
    }
}

/// Creates an empty file with this name.
///
/// # Errors
///
/// Fails if the file exists already or cannot be created.
fn new_file(rt: &HostRuntime, name: &str) -> io::Result<File> {
    OpenOptions::new()
        .write(true)
        .create_new(true)
        .open(rt, name)
}

/// Writes `text` to the temporary file, and renames it to its final name. If that fails, removes the temporary file.
///
/// # Errors
///
/// Fails if the file cannot be written or renamed, or if memory ran out.
fn moved<'t>(
    rt: &HostRuntime,
    file: File,
    names: &FileNames,
    text: &'t str,
) -> io::Result<Filled<'t, File>>
    ensures { IfOk result (IsFilledBy (string_bytes names.now.name) text.now) }
{
    let written = named(rt, file, names, text);
    if written.is_err() {
        let _ = remove_file(rt, names.beside.as_str());
    }
    written
}

/// Writes `text` to the temporary file, and renames it to its final name. If that fails, the temporary file remains.
///
/// # Errors
///
/// Fails if the file cannot be written or renamed, or if memory ran out.
fn named<'t>(
    rt: &HostRuntime,
    mut file: File,
    names: &FileNames,
    text: &'t str,
) -> io::Result<Filled<'t, File>>
    ensures { IfOk result (IsFilledBy (string_bytes names.now.name) text.now) }
{
    let filled = fill(rt.alloc(), &mut file, names.name.as_str(), text.as_bytes())?;
    drop(file);
    rename(rt, names.beside.as_str(), names.name.as_str())?;
    Ok(filled)
}
