//! Reads a whole file, or all of standard input.
ghost use Rattle.std.specs.Prelude.{IfErr};
ghost use Rattle.surveyor.specs.Faults.{IsUnread};

use crate::fault::SurveyFailure;
use std::fs::read;
use std::io::{self, ErrorKind, Read};

/// Reads all bytes of the file named `name`, or of standard input if the name is `-`. No contract can say which bytes
/// these are.
///
/// # Errors
///
/// Fails with `Unread` if the file cannot be read, and with `Memory` if memory runs out.
pub fn bytes_of(rt: &HostRuntime, name: &str) -> Result<Vec<u8>, SurveyFailure>
    ensures { IfErr result (IsUnread name.now) }
{
    match taken(rt, name) {
        Ok(bytes) => Ok(bytes),
        Err(error) if error.kind() == ErrorKind::OutOfMemory => Err(SurveyFailure::Memory),
        Err(_) => Err(SurveyFailure::Unread(String::from_str(rt.alloc(), name)?)),
    }
}

/// Reads all bytes of the file named `name`, or of standard input if the name is `-`. Fails with the error of the
/// operating system.
fn taken(rt: &HostRuntime, name: &str) -> io::Result<Vec<u8>> {
    if name != "-" {
        return read(rt, name);
    }
    let mut bytes = Vec::new(rt.alloc());
    rt.stdin().read_to_end(&mut bytes)?;
    Ok(bytes)
}
