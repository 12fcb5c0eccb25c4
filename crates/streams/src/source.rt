//! The trait `Source`: a file that a task reads. Every reader is a `Source`. A contract of `Source` can state that a
//! call failed, which a contract of `Read` cannot.

use crate::bounded_read::Within;
use crate::pieces::read_front;
use std::alloc::Global;
use std::io::{self, ErrorKind, Read};

/// A file that a task reads once.
pub trait Source: Drop {
    ghost use Rattle.std.specs.Prelude.{◌≡◌, ◌≤◌, ◌+◌, ℕ, List, Option, IfOk, IfSome, OnErr, length};
    ghost use Rattle.streams.specs.Reading.{HasAtMost, IsFront, IsWithin};

    // The bytes of the file, if they are known.
    ghost bytes: { Self → Option (List ℕ) };

    // What a failed read proves about the file.
    ghost fails: { Self → Type 0 };

    /// Reads all bytes of the file.
    ///
    /// # Errors
    ///
    /// Fails if a read fails or if memory runs out.
    fn read_all(self, alloc: Global) -> io::Result<Vec<u8>>
        ensures whole { IfOk result (λ all. IfSome (bytes self) (λ known. all.items ≡ known)) }
        ensures failed { OnErr result (fails self) };

    /// Reads the whole file if it has at most `most` bytes. Reads a longer file to its end too, but only to count its
    /// bytes: then the result has this number and at most `most` + 8,192 of the first bytes.
    ///
    /// # Errors
    ///
    /// Fails if a read fails or if memory runs out.
    fn read_within(self, alloc: Global, most: usize) -> io::Result<Within>
        ensures within { IfOk result (IsWithin most (bytes self)) }
        ensures few { IfOk result (HasAtMost (most + 8192)) }
        ensures failed { OnErr result (fails self) };

    /// Reads the whole file if it has at most `most` bytes. From a longer file reads only the first bytes: more than
    /// `most`, and at most `most` + 8,192.
    ///
    /// # Errors
    ///
    /// Fails if a read fails or if memory runs out.
    fn read_front(self, alloc: Global, most: usize) -> io::Result<Vec<u8>>
        ensures front { IfOk result (λ front. IsFront most (bytes self) front.items) }
        ensures few { IfOk result (λ front. length front.items ≤ most + 8192) }
        ensures failed { OnErr result (fails self) };
}

impl<R: Read + Drop> Source for R {
    ghost bytes = { λ reader. R.remaining reader };

    ghost fails = { λ _. Unit {0} };

    fn read_all(mut self, alloc: Global) -> io::Result<Vec<u8>> {
        read_front(&mut self, alloc, usize::MAX)
    }

    fn read_within(mut self, alloc: Global, most: usize) -> io::Result<Within> {
        let front = read_front(&mut self, alloc, most)?;
        if front.len() <= most {
            return Ok(Within::Whole(front));
        }
        let rest = io::copy(&mut self, &mut io::sink())?;
        match front.len().checked_add(rest as usize) {
            Some(number) => Ok(Within::Longer { front, number }),
            None => Err(io::Error::from(ErrorKind::Other)),
        }
    }

    fn read_front(mut self, alloc: Global, most: usize) -> io::Result<Vec<u8>> {
        read_front(&mut self, alloc, most)
    }
}
