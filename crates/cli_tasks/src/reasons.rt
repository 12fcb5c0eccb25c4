//! Says why the operating system could not read or write a file.
ghost use Rattle.std.specs.Prelude.{◌≡◌};
ghost use Rattle.cli_tasks.specs.Reasons.{reason_text};

use std::io::ErrorKind;

/// Returns the sentence that explains why the operating system could not read or write a file.
pub fn reason(kind: ErrorKind) -> &'static str
    ensures { result.now ≡ reason_text kind }
{
    match kind {
        ErrorKind::NotFound => "there is no file with this name",
        ErrorKind::PermissionDenied => "the system does not permit it",
        ErrorKind::IsADirectory => "it is a folder",
        ErrorKind::NotADirectory => "a part of its path is not a folder",
        ErrorKind::InvalidFilename => "its name is longer than the system allows",
        ErrorKind::FilesystemLoop => "its path has too many links",
        ErrorKind::FileTooLarge => "it is larger than it may be",
        ErrorKind::ReadOnlyFilesystem => "its file system is read-only",
        ErrorKind::StorageFull => "there is no space left for it",
        ErrorKind::BrokenPipe => "its reader has closed it",
        _ => "the system gives no known reason",
    }
}
