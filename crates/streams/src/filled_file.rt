//! Writes all bytes of a file, and returns a record that proves it.
ghost use Rattle.std.specs.Prelude.{IfOk, OnErr, OnOk};
ghost use Rattle.std.specs.Io.KnownBytes.{Appends};
ghost use Rattle.streams.specs.Filling.{IsFilledBy};
ghost use Rattle.streams.specs.Writing.{AppendsFront};

use crate::output::Output;
use std::alloc::Global;
use std::io;
use std::marker::PhantomData;

/// A record that all of `bytes` were written to a stream of type `O`, as the file with this name. Only `fill` makes
/// such a record.
#[derive(Drop)]
pub struct Filled<'a, O> {
    name: String,
    bytes: &'a [u8],
    stream: PhantomData<O>,
}

/// Writes all of `bytes` to `file`, and returns a record that the file with this name was written.
///
/// # Errors
///
/// Fails if a write fails or if memory runs out.
pub fn fill<'a, O: Output>(
    alloc: Global,
    file: &mut O,
    name: &str,
    bytes: &'a [u8],
) -> io::Result<Filled<'a, O>>
    ensures whole { OnOk result (Appends (O.contents file.old) (O.contents file.new) bytes.now) }
    ensures begun { OnErr result (AppendsFront (O.contents file.old) (O.contents file.new) bytes.now) }
    ensures told { IfOk result (IsFilledBy name.now bytes.now) }
{
    let name = String::from_str(alloc, name)?;
    file.put(bytes)?;
    Ok(Filled {
        name,
        bytes,
        stream: PhantomData,
    })
}
