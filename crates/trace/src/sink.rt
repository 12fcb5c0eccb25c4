//! Defines the sinks to which texts are written.
ghost use Rattle.std.specs.Prelude.{◌≡◌, false};

use std::io::Write;

/// A stream to which bytes are written, and which remembers whether a write has failed.
pub trait Sink {
    ghost use Rattle.std.specs.Prelude.{◌≡◌, ◌<◌, ◌≤◌, ℕ, Bool, true, List, Option, Some, IfSome, IfNone, is_none, length, take};
    ghost use Rattle.std.specs.Io.KnownBytes.{Appends, Keeps};

    // The bytes that the sink has accepted, or `None` if they are not known.
    ghost contents: { Self → Option (List ℕ) };

    // Whether the sink has failed.
    ghost has_failed: { Self → Bool };

    /// Accepts at least one byte from the beginning of `piece`, and returns how many. Returns `None` if it accepts
    /// none, and then the sink has failed. An empty piece changes nothing and returns `Some(0)`. A sink that has failed
    /// stays failed.
    fn put(&mut self, piece: &[u8]) -> Option<usize>
        ensures taken { IfSome result (λ n. (n ≤ length piece.now)
            × Appends (contents self.old) (contents self.new) (take n piece.now)) }
        ensures kept { IfNone result (Keeps (contents self.old) (contents self.new)) }
        ensures some { 0 < length piece.now → IfSome result (λ n. 0 < n) }
        ensures failed { 0 < length piece.now → has_failed self.new ≡ is_none result }
        ensures empty { length piece.now ≡ 0 → (result ≡ Some 0) × (self.new ≡ self.old) }
        ensures lasting { has_failed self.old ≡ true → has_failed self.new ≡ true };

    /// Returns whether the sink has failed.
    fn failed(&self) -> bool
        ensures { result ≡ has_failed self.now };
}

/// A sink that passes its bytes to a writer. Once the writer has returned an error, or accepted no byte of a piece that
/// is not empty, the sink has failed and accepts no more bytes.
#[derive(Drop)]
pub struct Latch<W> {
    writer: W,
    failed: bool,
}

impl<W: Write> Latch<W> {
    /// Returns a sink that writes to this writer and has not failed.
    pub fn new(writer: W) -> Latch<W>
        ensures { result ≡ record { writer = writer; failed = false } }
    {
        Latch {
            writer,
            failed: false,
        }
    }

    /// Returns the writer to which the sink has passed its bytes.
    pub fn into_writer(self) -> W
        ensures { result ≡ self.writer }
    {
        let Latch { writer, failed: _ } = self;
        writer
    }
}

impl<W: Write> Sink for Latch<W> {
    ghost contents = { λ latch. W.contents latch.writer };

    ghost has_failed = { λ latch. latch.failed };

    fn put(&mut self, piece: &[u8]) -> Option<usize> {
        if piece.is_empty() {
            return Some(0);
        }
        if self.failed {
            return None;
        }
        match self.writer.write(piece) {
            Ok(0) | Err(_) => {
                self.failed = true;
                None
            }
            Ok(taken) => Some(taken),
        }
    }

    fn failed(&self) -> bool {
        self.failed
    }
}
