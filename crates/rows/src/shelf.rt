//! A shelf: the files of a row, which are kept in memory. Also the outputs to which an answer is written.
ghost use Rattle.std.specs.Prelude.{◌≤◌, IfOk, length};

use cli_tasks::Folder;
use std::alloc::{AllocError, Global};
use std::io::{self, ErrorKind, Read, Write};

/// The content of a row's file, which is kept in memory.
#[derive(Drop)]
pub enum FileContent {
    /// A file with these bytes.
    Bytes(Vec<u8>),
    /// A file that can be opened, but not read.
    Unreadable,
}

/// A row's file, which is kept in memory, with its name.
#[derive(Drop)]
struct Named {
    name: String,
    content: FileContent,
}

/// The files of a row, which are kept in memory and found by their names.
#[derive(Drop)]
pub struct Shelf {
    files: Vec<Named>,
}

impl Shelf {
    /// Creates a shelf without files.
    pub fn new(alloc: Global) -> Shelf {
        Shelf {
            files: Vec::new(alloc),
        }
    }

    /// Adds a file to the row's files. It hides any older file with the same name.
    pub fn put(
        &mut self,
        alloc: Global,
        name: &str,
        content: FileContent,
    ) -> Result<(), AllocError> {
        let name = String::from_str(alloc, name)?;
        self.files.push(Named { name, content })?;
        Ok(())
    }

    /// Returns the content of the newest file with this name, or `None` if there is no such file.
    pub fn find(&self, name: &str) -> Option<&FileContent> {
        for file in self.files.iter().rev() {
            if file.name.as_str() == name {
                return Some(&file.content);
            }
        }
        None
    }

    /// Returns the bytes of the newest file with this name. Returns `None` if there is no such file, or if it cannot be
    /// read.
    pub fn bytes(&self, name: &str) -> Option<&[u8]> {
        match self.find(name) {
            Some(FileContent::Bytes(bytes)) => Some(bytes.as_slice()),
            Some(FileContent::Unreadable) | None => None,
        }
    }

    /// Returns the bytes of the row's file that was added last. Returns `None` if the row has no files, or if this file
    /// cannot be read.
    pub fn last(&mut self) -> Option<&mut Vec<u8>> {
        match self.files.last_mut() {
            Some(
                Named {
                    content: FileContent::Bytes(bytes),
                    ..
                },
            ) => Some(bytes),
            _ => None,
        }
    }

    /// Removes the row's file that was added last.
    pub fn drop_last(&mut self) {
        let _ = self.files.pop();
    }
}

impl Folder for Shelf {
    fn read(&self, alloc: Global, name: &str, most: usize) -> io::Result<Vec<u8>> {
        match self.find(name) {
            Some(FileContent::Bytes(bytes)) if bytes.len() <= most => {
                Ok(bytes.as_slice().to_vec(alloc)?)
            }
            Some(FileContent::Bytes(_)) => Err(io::Error::from(ErrorKind::FileTooLarge)),
            Some(FileContent::Unreadable) | None => Err(io::Error::from(ErrorKind::NotFound)),
        }
    }
}

/// A row's file that is open for reading.
#[derive(Clone, Copy, Drop)]
pub enum FileInput<'a> {
    /// A reader of these bytes.
    Bytes(&'a [u8]),
    /// A reader that fails in each read.
    Unreadable,
}

impl FileContent {
    /// Opens the file for reading.
    pub fn input(&self) -> FileInput<'_> {
        match self {
            FileContent::Bytes(bytes) => FileInput::Bytes(bytes.as_slice()),
            FileContent::Unreadable => FileInput::Unreadable,
        }
    }
}

impl Read for FileInput<'_> {
    fn read(&mut self, buf: &mut [u8]) -> io::Result<usize> {
        match self {
            FileInput::Bytes(bytes) => bytes.read(buf),
            FileInput::Unreadable => Err(io::Error::from(ErrorKind::Other)),
        }
    }
}

/// A standard output for a call, which keeps what is written or fails.
#[derive(Drop)]
pub enum AnswerOutput {
    /// An output that keeps everything that is written.
    Kept(Vec<u8>),
    /// An output in which each write and each flush fails.
    Full,
    /// An output that keeps at most `most` bytes of each write, and in which each flush fails.
    Unflushed { most: usize, bytes: Vec<u8> },
}

/// Appends at most the first `most` of `bytes` to `taken`. Returns how many bytes it appended.
fn take(taken: &mut Vec<u8>, bytes: &[u8], most: usize) -> Result<usize, AllocError>
    ensures { IfOk result (λ n. n ≤ length bytes.now) }
{
    let few = if bytes.len() < most {
        bytes.len()
    } else {
        most
    };
    taken.extend_from_slice(&bytes[..few])?;
    Ok(few)
}

impl AnswerOutput {
    /// Returns the bytes that were written to the output.
    pub fn into_bytes(self, alloc: Global) -> Vec<u8> {
        match self {
            AnswerOutput::Kept(bytes) => bytes,
            AnswerOutput::Full => Vec::new(alloc),
            AnswerOutput::Unflushed { bytes, .. } => bytes,
        }
    }
}

impl Write for AnswerOutput {
    fn write(&mut self, buf: &[u8]) -> io::Result<usize> {
        match self {
            AnswerOutput::Kept(bytes) => bytes.write(buf),
            AnswerOutput::Full => Err(io::Error::from(ErrorKind::Other)),
            AnswerOutput::Unflushed { most, bytes } => match take(bytes, buf, *most) {
                Ok(length) => Ok(length),
                Err(_) => Err(io::Error::from(ErrorKind::OutOfMemory)),
            },
        }
    }

    fn flush(&mut self) -> io::Result<()> {
        match self {
            AnswerOutput::Kept(_) => Ok(()),
            AnswerOutput::Full | AnswerOutput::Unflushed { .. } => Err(io::Error::from(
                ErrorKind::Other,
            )),
        }
    }
}
