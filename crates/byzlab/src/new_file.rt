//! A file that is written whole or not at all. Its bytes go to a new file next to it, and a flush gives this new file
//! the old name. Devices, pipes, streams such as `/dev/stdout` and targets of broken links are written directly.
ghost use Rattle.std.specs.Prelude.{◌≡◌, IfOk, IfSome, IsSomeAnd, None, true, string_bytes};
ghost use Rattle.std.specs.Io.KnownBytes.{Keeps};
ghost use Rattle.byzlab.specs.NewFiles.{IsRenamedTo, IsRenaming, is_stream, name_beside};
ghost use Rattle.byzlab.specs.declared.new_file.Place.TheVariants.{Itself};

use std::alloc::{AllocError, Global};
use std::fs::{
    File, OpenOptions, Permissions, canonicalize, metadata, read_link, remove_file, rename,
    symlink_metadata,
};
use std::io::{self, ErrorKind, Write};

/// One more than the number of names that are tried for a new file. The names end in 1 to 999. One is in use already
/// only if another call writes the same file at the same time, or if a call was killed.
const NAMES: u32 = 1000;

/// A file that is being written. It is written whole or not at all, except if the bytes go to the file itself.
#[derive(Drop)]
pub struct NewFile<'a> {
    rt: &'a HostRuntime,
    file: File,
    /// The new name that a flush gives to the file. It is `None` if the bytes go to the file itself, or after the
    /// flush.
    renaming: Option<Renaming>,
}

/// The name of a new file, and the name that it gets when it is whole.
#[derive(Drop)]
struct Renaming {
    from: String,
    to: String,
}

/// Where the bytes of a file are written.
#[derive(Drop)]
enum Place {
    /// To the file itself: a device, a pipe, an open file of a process, or the target of a broken link.
    Itself,
    /// To a new file next to the regular file with this name, which need not exist.
    Beside(String),
}

/// Returns whether a name belongs to a stream of the system, such as `/dev/stdout` or an open file in `/proc/`. A
/// process may have such a file open, so that no new file may replace it.
fn is_stream(name: &str) -> bool
    ensures { result ≡ is_stream name.now }
{
    let name = name.as_bytes();
    name.starts_with(b"/proc/") || name.starts_with(b"/dev/fd/") || name.starts_with(b"/dev/std")
}

/// Returns where bytes are written if `link`, which is a symbolic link, is the name of the file.
///
/// # Errors
///
/// Fails if memory runs out.
fn place_by_link(rt: &HostRuntime, link: &str) -> io::Result<Place> {
    match read_link(rt, link) {
        Ok(next) if is_stream(next.as_str()) => return Ok(Place::Itself),
        _ => {}
    }
    match canonicalize(rt, link) {
        Ok(path) => {
            let path = path.into_string();
            match metadata(rt, path.as_str()) {
                Ok(found) if found.is_file() => Ok(Place::Beside(path)),
                _ => Ok(Place::Itself),
            }
        }
        Err(error) if error.kind() == ErrorKind::OutOfMemory => Err(error),
        Err(_) => Ok(Place::Itself),
    }
}

/// Returns where bytes are written for a file with this name.
///
/// # Errors
///
/// Fails if memory runs out.
fn place_for(rt: &HostRuntime, name: &str) -> io::Result<Place>
    ensures { is_stream name.now ≡ true → IfOk result (λ place. place ≡ Itself) }
{
    if is_stream(name) {
        return Ok(Place::Itself);
    }
    match symlink_metadata(rt, name) {
        Ok(found) if found.is_symlink() => place_by_link(rt, name),
        Ok(found) if !found.is_file() => Ok(Place::Itself),
        _ => Ok(Place::Beside(String::from_str(rt.alloc(), name)?)),
    }
}

/// Returns the permissions of the file with this name, or `None` if there is no such file.
///
/// # Errors
///
/// Fails if the file may not be written.
fn permissions(rt: &HostRuntime, name: &str) -> io::Result<Option<Permissions>> {
    let mut writing = OpenOptions::new();
    writing.write(true);
    match writing.open(rt, name) {
        Ok(file) => Ok(Some(file.metadata()?.permissions())),
        Err(error) if error.kind() == ErrorKind::NotFound => Ok(None),
        Err(error) => Err(error),
    }
}

/// Returns the name of the new file `number` next to the file `name`: for `page.html` and 1 it is `page.html.new1`.
fn name_beside(alloc: Global, name: &str, number: u32) -> Result<String, AllocError>
    ensures { IfOk result (λ beside. string_bytes beside ≡ name_beside name.now number) }
{
    format!(in alloc; "{name}.new{number}")
}

/// Creates the new file `number` next to the file `to`. Returns `None` if a file has its name already.
///
/// # Errors
///
/// Fails if the file cannot be created, or if memory runs out.
fn numbered<'a>(rt: &'a HostRuntime, to: &str, number: u32) -> io::Result<Option<NewFile<'a>>>
    ensures { IfOk result (λ made. IfSome made (λ made. IsSomeAnd made.renaming (IsRenaming to.now number))) }
{
    let from = name_beside(rt.alloc(), to, number)?;
    match File::create_new(rt, from.as_str()) {
        Ok(file) => {
            let to = String::from_str(rt.alloc(), to)?;
            let renaming = Some(Renaming { from, to });
            Ok(Some(NewFile { rt, file, renaming }))
        }
        Err(error) if error.kind() == ErrorKind::AlreadyExists => Ok(None),
        Err(error) => Err(error),
    }
}

/// Creates a new file next to the file `to`. If `to` exists, tries to give the new file its permissions, and ignores it
/// if this fails. If a file has the name of the new file already, it is left as it is, and the next name is tried.
///
/// # Errors
///
/// Fails if the file `to` may not be written, if no new file can be created, or if memory runs out.
#[tactic(auto, using(crate::proofs::NewFileLemmas::renamed_to))]
fn beside<'a>(rt: &'a HostRuntime, to: &str) -> io::Result<NewFile<'a>>
    ensures { IfOk result (λ made. IsRenamedTo to.now made.renaming) }
{
    let old = permissions(rt, to)?;
    for number in 1..NAMES {
        if let Some(made) = numbered(rt, to, number)? {
            if let Some(old) = old {
                let _ = made.file.set_permissions(old);
            }
            return Ok(made);
        }
    }
    Err(io::Error::from(ErrorKind::AlreadyExists))
}

impl<'a> NewFile<'a> {
    /// Begins to write the file with this name.
    ///
    /// # Errors
    ///
    /// Fails if the file cannot be written, or if memory runs out.
    pub fn create(rt: &'a HostRuntime, name: &str) -> io::Result<NewFile<'a>>
        ensures { is_stream name.now ≡ true → IfOk result (λ made. made.renaming ≡ None) }
    {
        match place_for(rt, name)? {
            Place::Itself => Ok(NewFile {
                rt,
                file: File::create(rt, name)?,
                renaming: None,
            }),
            Place::Beside(to) => beside(rt, to.as_str()),
        }
    }

    /// Drops the file. If it is a new file that is not whole, removes it.
    pub fn abandon(self) {
        let NewFile { rt, renaming, .. } = self;
        if let Some(renaming) = renaming {
            let _ = remove_file(rt, renaming.from.as_str());
        }
    }
}

impl Write for NewFile<'_> {
    fn write(&mut self, buf: &[u8]) -> io::Result<usize> {
        self.file.write(buf)
    }

    fn flush(&mut self) -> io::Result<()>
        ensures bytes { Keeps None None }
        ensures renamed { IfOk result (λ _. self.new.renaming ≡ None) }
    {
        self.file.flush()?;
        if let Some(renaming) = &self.renaming {
            rename(self.rt, renaming.from.as_str(), renaming.to.as_str())?;
        }
        self.renaming = None;
        Ok(())
    }
}
