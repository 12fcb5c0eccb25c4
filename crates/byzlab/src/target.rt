//! Where a task's answer is written: to standard output, or to a file that is created by the first write.
ghost use Rattle.std.specs.Prelude.{◌≡◌, ◌⊎◌, IfErr, IfOk, option_map};
ghost use Rattle.std.specs.Io.{WritesAtMost};
ghost use Rattle.std.specs.Io.KnownBytes.{Keeps, WriteAppends};
ghost use Rattle.byzlab.specs.Files.{IsMadeOf, IsPlaceOf, IsTargetOf, contents_of};

use crate::new_file::NewFile;
use std::io::{self, Stdout, Write};

/// A file that is not created yet.
pub trait Unmade: Drop {
    ghost use Rattle.std.specs.Prelude.{◌≡◌, ℕ, List, None, Option, IfOk};

    /// The type of the file after its creation.
    type Made: Write + Drop;

    // Returns what the file contains after its creation, if this is known.
    ghost contents: { Self → Option (List ℕ) } = { λ _. None };

    /// Creates the file.
    ///
    /// # Errors
    ///
    /// Fails if the file cannot be created.
    fn make(&self) -> io::Result<Self::Made>
        ensures made { IfOk result (λ made. Self.Made.contents made ≡ contents self.now) };
}

/// A file that is not created yet, with its name. An older file with this name is replaced when the new one is whole.
#[derive(Drop)]
pub struct Named<'a> {
    pub rt: &'a HostRuntime,
    pub name: &'a str,
}

impl<'a> Unmade for Named<'a> {
    type Made = NewFile<'a>;

    fn make(&self) -> io::Result<NewFile<'a>> {
        NewFile::create(self.rt, self.name)
    }
}

/// Where a task's answer is written. `S` is the type of standard output, and `U` the type of a file that is not created
/// yet.
#[derive(Drop)]
pub enum Destination<S: Write + Drop, U: Unmade> {
    /// Standard output.
    Standard(S),
    /// A file that is created by the first write or flush. If there is no answer, it is not created.
    Unmade(U),
    /// A file that was created.
    File(U::Made),
}

/// Where the answer of a task in this program is written.
pub type Target<'a> = Destination<Stdout, Named<'a>>;

/// Returns the destination for the file with this name, or for standard output if there is no name or the name is a
/// hyphen.
pub fn target_of<'a>(rt: &'a HostRuntime, name: Option<&'a str>) -> Target<'a>
    ensures { IsTargetOf (option_map (λ n. n.now) name.entry) result }
{
    match name {
        None | Some("-") => Destination::Standard(rt.stdout()),
        Some(name) => Destination::Unmade(Named { rt, name }),
    }
}

impl Target<'_> {
    /// Drops the destination. A new file that is not whole is removed.
    pub fn abandon(self) {
        if let Destination::File(file) = self {
            file.abandon();
        }
    }
}

impl<S: Write + Drop, U: Unmade> Destination<S, U> {
    /// Creates the file, if the destination is a file that is not created yet.
    ///
    /// # Errors
    ///
    /// Fails if the file cannot be created.
    fn make(&mut self) -> io::Result<()>
        ensures made { IfOk result (λ _. IsMadeOf self.old self.new) }
        ensures unmade { IfErr result (λ _. self.new ≡ self.old) }
        ensures contents { contents_of S.contents U.contents U.Made.contents self.new
            ≡ contents_of S.contents U.contents U.Made.contents self.old }
    {
        if let Destination::Unmade(file) = self {
            let made = file.make()?;
            *self = Destination::File(made);
        }
        Ok(())
    }
}

impl<S: Write + Drop, U: Unmade> Write for Destination<S, U> {
    ghost contents = { contents_of S.contents U.contents U.Made.contents };

    fn write(&mut self, buf: &[u8]) -> io::Result<usize>
        ensures bound { WritesAtMost result buf.now }
        ensures bytes { WriteAppends (contents_of S.contents U.contents U.Made.contents self.old)
            (contents_of S.contents U.contents U.Made.contents self.new) result buf.now }
        ensures place { IfOk result (λ _. IsPlaceOf self.old self.new) }
        ensures failed { IfErr result (λ _. (self.new ≡ self.old) ⊎ IsPlaceOf self.old self.new) }
    {
        self.make()?;
        match self {
            Destination::Standard(stdout) => stdout.write(buf),
            Destination::File(file) => file.write(buf),
            Destination::Unmade(_) => Ok(0),
        }
    }

    fn flush(&mut self) -> io::Result<()>
        ensures bytes { Keeps (contents_of S.contents U.contents U.Made.contents self.old)
            (contents_of S.contents U.contents U.Made.contents self.new) }
        ensures place { IfOk result (λ _. IsPlaceOf self.old self.new) }
        ensures failed { IfErr result (λ _. (self.new ≡ self.old) ⊎ IsPlaceOf self.old self.new) }
    {
        self.make()?;
        match self {
            Destination::Standard(stdout) => stdout.flush(),
            Destination::File(file) => file.flush(),
            Destination::Unmade(_) => Ok(()),
        }
    }
}
