//! Reads the files that a scenario names, relative to the scenario's folder.
ghost use Rattle.std.specs.Prelude.{IfOk, option_map, string_bytes};
ghost use Rattle.byzlab.specs.Beside.{IsFolderOf, IsPathOf};

use cli_tasks::Folder;
use std::alloc::{AllocError, Global};
use std::fs::File;
use std::io::{self, ErrorKind};
use streams::Source;

/// The folder of the scenario with this file name. If the name has no slash, as for standard input, it is the working
/// directory.
#[derive(Clone, Copy)]
pub struct FolderOf<'a> {
    pub rt: &'a HostRuntime,
    pub scenario: &'a str,
}

impl Folder for FolderOf<'_> {
    fn read(&self, alloc: Global, name: &str, most: usize) -> io::Result<Vec<u8>> {
        let path = path_of(alloc, self.scenario, name)?;
        let bytes = File::open(self.rt, path.as_str())?.read_front(alloc, most)?;
        if bytes.len() > most {
            return Err(io::Error::from(ErrorKind::FileTooLarge));
        }
        Ok(bytes)
    }
}

/// Returns the folder in the file name of a scenario, or `None` if the name has no slash.
fn folder_of(scenario: &str) -> Option<&str>
    ensures { IsFolderOf scenario.now (option_map (λ folder. folder.now) result) }
{
    match scenario.rsplit_once('/') {
        Some((folder, _)) => Some(folder),
        None => None,
    }
}

/// Returns the path of a file that a scenario names. A name that begins with a slash is a path itself, and any other
/// name is relative to the scenario's folder.
fn path_of(alloc: Global, scenario: &str, name: &str) -> Result<String, AllocError>
    ensures { IfOk result (λ path. IsPathOf scenario.now name.now (string_bytes path)) }
{
    if name.starts_with('/') {
        return String::from_str(alloc, name);
    }
    match folder_of(scenario) {
        Some(folder) => format!(in alloc; "{folder}/{name}"),
        None => String::from_str(alloc, name),
    }
}
