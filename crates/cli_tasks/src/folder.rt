//! The trait `Folder`: reads the files that a scenario names.
use std::alloc::Global;
use std::io;

/// A folder with the files that a scenario names, such as the folder of the scenario's own file.
pub trait Folder {
    ghost use Rattle.std.specs.Prelude.{◌≡◌, ◌≤◌, ℕ, List, None, Option, IfErr, IfOk, IfSome, length};
    ghost use Rattle.std.specs.IoError.{error_kind};
    ghost use Rattle.std.specs.declared.io.ErrorKind.{ErrorKind};

    // Returns the bytes of the file with a given name, if they are known.
    ghost bytes: { Self → List ℕ → Option (List ℕ) } = { λ _ _. None };

    // States what is known after a read of the file with a given name failed with an error of this kind.
    ghost fails: { Self → List ℕ → ErrorKind → Type 0 } = { λ _ _ _. Unit {0} };

    /// Reads all bytes of the file named `name`, if it has at most `most` bytes.
    ///
    /// # Errors
    ///
    /// Fails with the kind `FileTooLarge` if the file has more than `most` bytes. Fails if the file cannot be opened or
    /// read, or if memory runs out.
    fn read(&self, alloc: Global, name: &str, most: usize) -> io::Result<Vec<u8>>
        ensures few { IfOk result (λ all. length all.items ≤ most) }
        ensures whole { IfOk result (λ all. IfSome (bytes self.now name.now) (λ known. all.items ≡ known)) }
        ensures failed { IfErr result (λ error. fails self.now name.now (error_kind error)) };
}
