//! A token that reminds the caller to flush a writer.
ghost use Rattle.std.specs.Io.KnownBytes.{Keeps};

use std::io::{self, Write};
use std::marker::PhantomData;

/// A token that says that a writer of type `W` must still be flushed. Because it does not implement `Drop`, whoever has
/// it must call `flush`.
pub(crate) struct Unflushed<W> {
    writer: PhantomData<W>,
}

impl<W: Write> Unflushed<W> {
    /// Returns the token after a text was written to a writer.
    pub(crate) fn new() -> Unflushed<W> {
        Unflushed {
            writer: PhantomData,
        }
    }

    /// Flushes the writer, and so uses up the token.
    ///
    /// # Errors
    ///
    /// Fails if the flush fails.
    pub(crate) fn flush(self, writer: &mut W) -> io::Result<()>
        ensures { Keeps (W.contents writer.old) (W.contents writer.new) }
    {
        let Unflushed {
            writer: PhantomData,
        } = self;
        writer.flush()
    }
}
