//! Writes a whole text to a writer, even if this takes several writes or a write is interrupted.
ghost use Rattle.std.specs.Prelude.{◌≢◌, IfErr, OnErr, OnOk};
ghost use Rattle.std.specs.Io.KnownBytes.{Appends};
ghost use Rattle.std.specs.IoError.{error_kind};
ghost use Rattle.streams.specs.Writing.{AppendsFront};

use crate::interruption::is_interrupted;
use crate::pending_flush::Unflushed;
use std::io::{self, ErrorKind, Write};

/// Writes the whole text, and returns a token that says that the writer must still be flushed. If a write fails, only
/// the first bytes of the text may have been written.
///
/// # Errors
///
/// Fails if a write fails for a reason other than an interruption, or if it takes no bytes.
#[tactic(auto, using(crate::proofs::WriteLemmas::writes))]
pub(crate) fn write_whole<W: Write>(writer: &mut W, text: &[u8]) -> io::Result<Unflushed<W>>
    ensures whole { OnOk result (Appends (W.contents writer.old) (W.contents writer.new) text.now) }
    ensures begun { OnErr result (AppendsFront (W.contents writer.old) (W.contents writer.new) text.now) }
    ensures again { IfErr result (λ error. error_kind error ≢ ErrorKind.Interrupted) }
{
    let mut written = 0;
    for _ in 0..u64::MAX {
        if written == text.len() {
            return Ok(Unflushed::new());
        }
        match writer.write(&text[written..]) {
            Ok(0) => return Err(io::Error::from(ErrorKind::WriteZero)),
            Ok(number) => written += number,
            Err(error) if is_interrupted(&error) => {}
            Err(error) => return Err(error),
        }
    }
    Err(io::Error::from(ErrorKind::Other))
}
