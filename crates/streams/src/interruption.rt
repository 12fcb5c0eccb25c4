//! Recognizes reads and writes that a signal interrupted and that should be tried again.
ghost use Rattle.std.specs.Prelude.{◌≡◌, ◌↔◌, IsTrue};
ghost use Rattle.std.specs.IoError.{error_kind};

use std::io::{self, ErrorKind};

/// Checks whether a read or write failed only because it was interrupted. It should then be tried again.
pub(crate) fn is_interrupted(error: &io::Error) -> bool
    ensures { IsTrue result ↔ (error_kind error.now ≡ ErrorKind.Interrupted) }
{
    error.kind() == ErrorKind::Interrupted
}
