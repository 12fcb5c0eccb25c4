//! Opens the files that a task reads: a named file, standard input for a hyphen, or a text in memory.
ghost use Rattle.std.specs.Prelude.{◌≢◌, IfOk, IfErr, Some, codes};
ghost use Rattle.byzlab.specs.Files.{IsInputOf};

use std::fs::File;
use std::io::{self, Cursor, ErrorKind, Read, Stdin};

/// An input of a task in this program.
pub type Input<'a> = Opened<'a, File, Stdin>;

/// An input of a task. `F` is the type of a file opened by its name, and `S` is the type of standard input.
#[derive(Drop)]
pub enum Opened<'a, F: Read + Drop, S: Read + Drop> {
    /// A file that was opened by the name given here.
    File(F, &'a str),
    /// Standard input, for which a name is a hyphen.
    Standard(S),
    /// A text in memory: a scenario with the contents of its files, or the random schedule of a seed.
    Text(Cursor<Vec<u8>>),
    /// No file: the task does not read one.
    Nothing,
}

/// Opens the file with this name, or standard input if the name is a hyphen.
///
/// # Errors
///
/// Fails if the file cannot be opened, or if it is a folder. Standard input always opens.
pub fn open<'a>(rt: &HostRuntime, name: &'a str) -> io::Result<Input<'a>>
    ensures input { IfOk result (λ input. IsInputOf name.entry.now (Some input)) }
    ensures closed { IfErr result (λ _. name.entry.now ≢ codes "-") }
{
    if name == "-" {
        return Ok(Opened::Standard(rt.stdin()));
    }
    let file = File::open(rt, name)?;
    if file.metadata()?.is_dir() {
        return Err(io::Error::from(ErrorKind::IsADirectory));
    }
    Ok(Opened::File(file, name))
}

impl<F: Read + Drop, S: Read + Drop> Read for Opened<'_, F, S> {
    ghost use Rattle.byzlab.specs.Files.{remaining_of};

    ghost remaining = { remaining_of F.remaining S.remaining };

    fn read(&mut self, buf: &mut [u8]) -> io::Result<usize> {
        match self {
            Opened::File(file, _) => file.read(buf),
            Opened::Standard(stdin) => stdin.read(buf),
            Opened::Text(text) => text.read(buf),
            Opened::Nothing => Ok(0),
        }
    }
}
