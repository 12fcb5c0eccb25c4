//! The trait `Output`: a stream to which a task writes its answer or its error. Every writer is an `Output`. A contract
//! of `Output` can state that a call failed, which a contract of `Write` cannot.

use crate::writer::write_whole;
use std::fmt::Display;
use std::io::{self, Write};

/// A stream to which a task writes texts and lines.
pub trait Output {
    ghost use Rattle.std.specs.Prelude.{◌≡◌, ℕ, List, Option, IfSome, OnOk, OnErr};
    ghost use Rattle.std.specs.Fmt.{with_newline};
    ghost use Rattle.std.specs.Io.KnownBytes.{Appends};
    ghost use Rattle.streams.specs.Writing.{AppendsFront};

    // The bytes that the stream contains, if they are known.
    ghost contents: { Self → Option (List ℕ) };

    // What a failed write proves about the stream.
    ghost fails: { Self → Type 0 };

    /// Writes the whole text, and flushes the stream. If that fails, only the first bytes of the text may have been
    /// written.
    ///
    /// # Errors
    ///
    /// Fails if a write or the flush fails.
    fn put(&mut self, text: &[u8]) -> io::Result<()>
        ensures put { OnOk result (Appends (contents self.old) (contents self.new) text.now) }
        ensures begun { OnErr result (AppendsFront (contents self.old) (contents self.new) text.now) }
        ensures failed { OnErr result (fails self.old) };

    /// Writes a value as a line, with a line feed at its end. If that fails, any part of the line may have been
    /// written.
    ///
    /// # Errors
    ///
    /// Fails if a write fails.
    fn tell<D: Display + Drop>(&mut self, line: D) -> io::Result<()>
        ensures told { OnOk result (IfSome (with_newline (D.output line))
            (Appends (contents self.old) (contents self.new))) }
        ensures failed { OnErr result (fails self.old) };
}

impl<W: Write> Output for W {
    ghost contents = { λ writer. W.contents writer };

    ghost fails = { λ _. Unit {0} };

    #[tactic(auto, using(crate::proofs::WriteLemmas::appends_kept, crate::proofs::WriteLemmas::appends_whole))]
    fn put(&mut self, text: &[u8]) -> io::Result<()> {
        let written = write_whole(self, text)?;
        written.flush(self)
    }

    fn tell<D: Display + Drop>(&mut self, line: D) -> io::Result<()> {
        writeln!(self, "{line}")
    }
}
