//! Reads a stream piece by piece, with at most 8,192 bytes in each, to its end or until a limit is exceeded.
ghost use Rattle.std.specs.Prelude.{◌≡◌, ◌≢◌, ◌≤◌, ◌+◌, IfOk, IfErr, take, vec_len};
ghost use Rattle.std.specs.Io.KnownBytes.{Consumes, IsAtEnd};
ghost use Rattle.std.specs.IoError.{error_kind};

use crate::interruption::is_interrupted;
use std::alloc::Global;
use std::io::{self, ErrorKind, Read};

/// The greatest number of bytes that is read at a time.
const PIECE: usize = 8192;

/// Reads the next bytes of a stream into `piece`. A read that is interrupted is tried again. Returns how many bytes
/// were read, which is 0 only at the end of the stream.
///
/// # Errors
///
/// Fails if the read fails for a reason other than an interruption.
#[tactic(auto, using(crate::proofs::ReadLemmas::begun_again))]
fn read_piece<R: Read>(reader: &mut R, piece: &mut [u8; PIECE]) -> io::Result<usize>
    ensures inside { IfOk result (λ n. n ≤ 8192) }
    ensures bytes { IfOk result (λ n. Consumes (R.remaining reader.old) (R.remaining reader.new) (take n piece.new)) }
    ensures end { IfOk result (λ n. n ≡ 0 → IsAtEnd (R.remaining reader.new)) }
    ensures again { IfErr result (λ error. error_kind error ≢ ErrorKind.Interrupted) }
{
    for _ in 0..u64::MAX {
        match reader.read(piece.as_mut_slice()) {
            Ok(number) => return Ok(number),
            Err(error) if is_interrupted(&error) => {}
            Err(error) => return Err(error),
        }
    }
    Err(io::Error::from(ErrorKind::Other))
}

/// Reads a stream to its end, but stops as soon as more than `most` bytes have been read. Returns the bytes that were
/// read, at most `most` + 8,192.
///
/// # Errors
///
/// Fails if a read fails or if memory runs out.
#[tactic(auto, using(crate::proofs::ReadLemmas::consumes_none, crate::proofs::ReadLemmas::consumes_more))]
pub(crate) fn read_front<R: Read>(reader: &mut R, alloc: Global, most: usize) -> io::Result<Vec<u8>>
    ensures bytes { IfOk result (λ front. Consumes (R.remaining reader.old) (R.remaining reader.new) front.items) }
    ensures end { IfOk result (λ front. vec_len front ≤ most → IsAtEnd (R.remaining reader.new)) }
    ensures few { IfOk result (λ front. vec_len front ≤ most + 8192) }
{
    let mut front = Vec::new(alloc);
    let mut piece = [0; PIECE];
    for _ in 0..u64::MAX {
        let read = read_piece(reader, &mut piece)?;
        front.extend_from_slice(&piece[..read])?;
        if read == 0 || front.len() > most {
            return Ok(front);
        }
    }
    Err(io::Error::from(ErrorKind::Other))
}
