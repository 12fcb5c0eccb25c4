//! Defines a writer that fails at one of its writes, for tests.
ghost use Rattle.std.specs.Prelude.{◌≤◌, IfOk, length};

use std::alloc::{AllocError, Global};
use std::io::{self, ErrorKind, Write};

/// A writer that accepts only a few bytes in one call, and fails at one of its writes.
#[derive(Drop)]
pub struct Writer {
    most: usize,
    /// The number of the write that fails, counted from 1.
    fails: u32,
    writes: u32,
    taken: Vec<u8>,
}

impl Writer {
    /// Creates a writer that accepts at most `most` bytes in one call, and fails at write number `fails`, counted
    /// from 1.
    pub fn new(alloc: Global, most: usize, fails: u32) -> Writer {
        Writer {
            most,
            fails,
            writes: 0,
            taken: Vec::new(alloc),
        }
    }

    /// Returns all bytes that the writer has received.
    pub fn taken(&self) -> &[u8] {
        self.taken.as_slice()
    }

    /// Receives the first bytes of `bytes`, at most `most`, and returns their number.
    fn take(&mut self, bytes: &[u8]) -> Result<usize, AllocError>
        ensures { IfOk result (λ n. n ≤ length bytes.now) }
    {
        let few = if bytes.len() < self.most {
            bytes.len()
        } else {
            self.most
        };
        self.taken.extend_from_slice(&bytes[..few])?;
        Ok(few)
    }
}

impl Write for Writer {
    fn write(&mut self, buf: &[u8]) -> io::Result<usize> {
        self.writes = self.writes.wrapping_add(1);
        if self.fails == self.writes {
            return Err(io::Error::from(ErrorKind::Other));
        }
        match self.take(buf) {
            Ok(length) => Ok(length),
            Err(_) => Err(io::Error::from(ErrorKind::OutOfMemory)),
        }
    }

    fn flush(&mut self) -> io::Result<()> {
        Ok(())
    }
}
