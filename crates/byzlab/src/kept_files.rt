//! Writes files in addition to an answer: a scenario and its schedules to a folder, or a single file. A regular file is
//! written whole or not at all.
ghost use Rattle.std.specs.Prelude.{◌≡◌, ◌++◌, ◌∷◌, [], IfErr, IfOk, OnOk, length, map, string_bytes};
ghost use Rattle.streams.specs.Filling.{IsFilledBy, file_of};
ghost use Rattle.byzlab.specs.Kept.{IsKeptIn, IsUnwritten, Tells, kept_files, schedule_name};

use crate::new_file::NewFile;
use std::alloc::{AllocError, Global};
use std::fs::{create_dir, metadata};
use std::io::{self, ErrorKind};
use streams::{Filled, fill};

/// A record that a file was written whole.
pub type KeptFile<'a, 'r> = Filled<'a, NewFile<'r>>;

/// Why a file was not written.
#[derive(Drop)]
pub enum Unkept {
    /// The file or the folder of this name cannot be written, with this kind of error.
    Unwritten(String, ErrorKind),
    /// Memory ran out.
    Memory,
}

impl From<AllocError> for Unkept {
    ghost use Rattle.byzlab.specs.declared.kept_files.Unkept.TheVariants.{Memory};
    ghost use Rattle.std.specs.Prelude.{◌≡◌};

    ghost from_gives = { λ _ unkept. unkept ≡ Memory };

    fn from(_error: AllocError) -> Unkept {
        Unkept::Memory
    }
}

/// Writes `bytes` to the file with this name. A regular file is written whole or not at all, since `NewFile` writes a
/// new file first.
///
/// # Errors
///
/// Fails if the file cannot be written, or if memory runs out.
pub fn write_whole<'a, 'r>(
    rt: &'r HostRuntime,
    name: &str,
    bytes: &'a [u8],
) -> Result<KeptFile<'a, 'r>, Unkept>
    ensures written { IfOk result (IsFilledBy name.now bytes.now) }
    ensures unwritten { IfErr result (Tells (λ told. told ≡ name.now)) }
{
    let ended = match NewFile::create(rt, name) {
        Ok(file) => fill_new(rt.alloc(), file, name, bytes),
        Err(error) => Err(error),
    };
    match ended {
        Ok(written) => Ok(written),
        Err(error) => Err(unwritten(rt, name, error.kind())),
    }
}

/// Writes `bytes` to a file that was just begun, and completes it. If this fails, removes the new file.
///
/// # Errors
///
/// Fails if a write or the renaming fails, or if memory runs out.
fn fill_new<'a, 'r>(
    alloc: Global,
    mut file: NewFile<'r>,
    name: &str,
    bytes: &'a [u8],
) -> io::Result<KeptFile<'a, 'r>>
    ensures { IfOk result (IsFilledBy name.now bytes.now) }
{
    let written = fill(alloc, &mut file, name, bytes);
    if written.is_err() {
        file.abandon();
    }
    written
}

/// Returns the error that the file or folder with this name cannot be written. Returns `Memory` if memory ran out.
fn unwritten(rt: &HostRuntime, name: &str, kind: ErrorKind) -> Unkept
    ensures { IsUnwritten name.now kind result }
{
    if kind == ErrorKind::OutOfMemory {
        return Unkept::Memory;
    }
    match String::from_str(rt.alloc(), name) {
        Ok(name) => Unkept::Unwritten(name, kind),
        Err(_) => Unkept::Memory,
    }
}

/// Makes the folder with this name, unless it exists.
///
/// # Errors
///
/// Fails if something other than a folder has this name, if the folder cannot be made, or if memory runs out.
fn make_folder(rt: &HostRuntime, name: &str) -> Result<(), Unkept>
    ensures { IfErr result (Tells (λ told. told ≡ name.now)) }
{
    match metadata(rt, name) {
        Ok(found) if found.is_dir() => Ok(()),
        Ok(_) => Err(unwritten(rt, name, ErrorKind::NotADirectory)),
        Err(_) => match create_dir(rt, name) {
            Ok(()) => Ok(()),
            Err(error) => Err(unwritten(rt, name, error.kind())),
        },
    }
}

/// Returns the name of the file with the schedule of outcome `number`, such as `FOLDER/outcome-1.schedule`.
fn schedule_name(alloc: Global, folder: &str, number: u64) -> Result<String, AllocError>
    ensures { IfOk result (λ name. string_bytes name ≡ schedule_name folder.now number) }
{
    format!(in alloc; "{folder}/outcome-{number}.schedule")
}

/// Writes `bytes` to the file with this name, and appends the file to the list of written files.
///
/// # Errors
///
/// Fails if the file cannot be written, or if memory runs out.
fn keep_file<'a, 'r>(
    rt: &'r HostRuntime,
    files: &mut Vec<KeptFile<'a, 'r>>,
    name: &str,
    bytes: &'a [u8],
) -> Result<(), Unkept>
    ensures kept { OnOk result
        (map file_of files.new.items ≡ map file_of files.old.items ++ (name.now, bytes.now) ∷ []) }
    ensures unkept { IfErr result (Tells (λ told. told ≡ name.now)) }
{
    let file = write_whole(rt, name, bytes)?;
    match files.push(file) {
        Ok(()) => Ok(()),
        Err(_) => Err(Unkept::Memory),
    }
}

/// Writes a scenario to FOLDER/scenario.toml, and the schedules to FOLDER/outcome-N.schedule, with N from 1. The folder
/// is made if it does not exist. Returns the files that were written.
///
/// # Errors
///
/// Fails if a file or the folder cannot be written, or if memory runs out.
pub fn keep<'a, 'r>(
    rt: &'r HostRuntime,
    folder: &str,
    scenario: &'a [u8],
    schedules: &'a [String],
) -> Result<Vec<KeptFile<'a, 'r>>, Unkept>
    ensures kept { IfOk result (λ files.
        map file_of files.items ≡ kept_files folder.now scenario.now (map string_bytes schedules.now)) }
    ensures unkept { IfErr result (Tells (IsKeptIn folder.now (length schedules.now))) }
{
    let alloc = rt.alloc();
    make_folder(rt, folder)?;
    let mut files = Vec::new(alloc);
    let name = format!(in alloc; "{folder}/scenario.toml")?;
    keep_file(rt, &mut files, name.as_str(), scenario)?;
    for (before, schedule) in schedules.iter().enumerate() {
        let name = schedule_name(alloc, folder, before as u64 + 1)?;
        keep_file(rt, &mut files, name.as_str(), schedule.as_bytes())?;
    }
    Ok(files)
}
