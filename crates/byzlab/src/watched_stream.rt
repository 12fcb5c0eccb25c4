//! A writer that stores the kind of error of its last write or flush that failed.
ghost use Rattle.std.specs.Prelude.{◌≡◌, IfErr, IfOk, None, Some};
ghost use Rattle.std.specs.Io.{WritesAtMost};
ghost use Rattle.std.specs.Io.KnownBytes.{Keeps, WriteAppends};
ghost use Rattle.std.specs.IoError.{error_kind};

use std::io::{self, ErrorKind, Write};

/// A stream, and the kind of error of its last write or flush that failed, if one did.
#[derive(Drop)]
pub struct Watched<W: Write + Drop> {
    stream: W,
    fault: Option<ErrorKind>,
}

impl<W: Write + Drop> Watched<W> {
    /// Wraps a stream to which nothing has been written yet.
    pub fn new(stream: W) -> Watched<W>
        ensures stream { result.stream ≡ stream }
        ensures fault { result.fault ≡ None }
    {
        Watched {
            stream,
            fault: None,
        }
    }

    /// Returns the kind of error of the last write or flush that failed, or `None` if none failed.
    pub fn fault(&self) -> Option<ErrorKind>
        ensures { result ≡ self.now.fault }
    {
        self.fault
    }

    /// Returns the stream.
    pub fn into_stream(self) -> W
        ensures { result ≡ self.stream }
    {
        let Watched { stream, .. } = self;
        stream
    }

    /// Returns `answer` unchanged. If it is an error, stores its kind.
    fn kept<T>(&mut self, answer: io::Result<T>) -> io::Result<T>
        ensures answer { result ≡ answer }
        ensures stream { self.new.stream ≡ self.old.stream }
        ensures well { IfOk answer (λ _. self.new.fault ≡ self.old.fault) }
        ensures failed { IfErr answer (λ error. self.new.fault ≡ Some (error_kind error)) }
    {
        if let Err(error) = &answer {
            self.fault = Some(error.kind());
        }
        answer
    }
}

impl<W: Write + Drop> Write for Watched<W> {
    ghost contents = { λ watched. W.contents watched.stream };

    fn write(&mut self, buf: &[u8]) -> io::Result<usize>
        ensures bound { WritesAtMost result buf.now }
        ensures bytes { WriteAppends (W.contents self.old.stream) (W.contents self.new.stream) result buf.now }
        ensures well { IfOk result (λ _. self.new.fault ≡ self.old.fault) }
        ensures failed { IfErr result (λ error. self.new.fault ≡ Some (error_kind error)) }
    {
        let answer = self.stream.write(buf);
        self.kept(answer)
    }

    fn flush(&mut self) -> io::Result<()>
        ensures bytes { Keeps (W.contents self.old.stream) (W.contents self.new.stream) }
        ensures well { IfOk result (λ _. self.new.fault ≡ self.old.fault) }
        ensures failed { IfErr result (λ error. self.new.fault ≡ Some (error_kind error)) }
    {
        let answer = self.stream.flush();
        self.kept(answer)
    }
}
