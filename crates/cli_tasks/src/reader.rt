//! Reads the files of a task, and of a file that is too long no more than is needed to reject it.
ghost use Rattle.std.specs.Prelude.{◌≡◌, ◌<◌, ◌*◌, ℕ, List, length, IfOk, IfErr, IsSomeAnd, option_map};
ghost use Rattle.std.specs.IoError.{error_kind};
ghost use Rattle.cli_tasks.specs.Faults.{Stops, unread_by};
ghost use Rattle.cli_tasks.specs.Reading.{IsTooLong};
ghost use Rattle.streams.specs.Reading.{IsFront, AreBytes};
ghost use Rattle.cli_tasks.specs.ProgramRefusals.{RefusesBytes};
ghost use Rattle.cli_tasks.specs.Serving.{AreSecondBytes, IsRefused, first_name};

use crate::failure::TaskFailure;
use crate::refusal::InputRefusal;
use crate::whys::unjudged;
use cli_words::{Notation, Task};
use codec::{CodecError, CodecFault};
use insn::Program;
use std::alloc::Global;
use std::io::{self, ErrorKind};
use streams::{Source, Within};
use trace::MOST_SCHEDULE_BYTES;

/// The most bytes that the bytecode of a program may have: 32,768.
const MOST_OF_A_PROGRAM: usize = 8 * Program::MOST_UNITS;

/// Reads all bytes of the task's only or first file. If the file must be bytecode and has more bytes than any program,
/// it is rejected, and only a part of it is kept in memory.
pub(crate) fn read_first<'a, R: Source>(
    alloc: Global,
    task: &'a Task,
    first: R,
) -> Result<Vec<u8>, TaskFailure<'a>>
    ensures whole { IfOk result (λ all. AreBytes (R.bytes first) all.items) }
    ensures fault { IfErr result
        (Stops (R.fails first) (IsRefused task.entry.now (R.bytes first)) (first_name task.entry.now)) }
{
    match task {
        Task::Check {
            program: file,
            notation: Notation::Bytecode,
            ..
        }
        | Task::Disassemble {
            program: file,
            notation: Notation::Bytecode,
            ..
        }
        | Task::Certify {
            program: file,
            notation: Notation::Bytecode,
            ..
        } => read_program(alloc, task, file.as_str(), first),
        _ => read(alloc, task.file().unwrap_or(""), first),
    }
}

/// Reads all bytes of a file of bytecode. Fails if they are more than 32,768, the most that a program may have.
fn read_program<'a, R: Source>(
    alloc: Global,
    task: &'a Task,
    file: &'a str,
    source: R,
) -> Result<Vec<u8>, TaskFailure<'a>>
    requires { file.now ≡ first_name task.now }
    ensures whole { IfOk result (λ all. AreBytes (R.bytes source) all.items) }
    ensures fault { IfErr result (Stops (R.fails source) (IsTooLong task.entry.now (R.bytes source)) file.entry.now) }
{
    match source.read_within(alloc, MOST_OF_A_PROGRAM) {
        Ok(Within::Whole(bytes)) => Ok(bytes),
        Ok(Within::Longer { front, number }) => {
            let refusal = InputRefusal::Codec(too_long(number));
            Err(unjudged(alloc, task, refusal, file, front.as_slice()))
        }
        Err(error) => Err(unread(&error, file)),
    }
}

/// Returns the first fault of bytecode that is too long for a program: it has `number` bytes, more than 32,768. The
/// fault is the length if `number` is not a multiple of 8, and otherwise the count of units.
fn too_long(number: usize) -> CodecError
    requires { 8 * 4096 < number }
    ensures { (bytes : List ℕ) → length bytes ≡ number → RefusesBytes bytes result }
{
    if number % 8 == 0 {
        CodecError::At(CodecFault::Count, 0)
    } else {
        CodecError::At(CodecFault::Length, number / 8)
    }
}

/// Reads a file with a schedule. If it has at most 1,048,576 bytes, the result is the whole file. Otherwise the result
/// is the first bytes of the file, more than 1,048,576 of them.
pub(crate) fn read_schedule<'a, R: Source>(
    alloc: Global,
    file: &'a str,
    source: R,
) -> Result<Vec<u8>, TaskFailure<'a>>
    ensures front { IfOk result (λ front. IsFront 1048576 (R.bytes source) front.items) }
    ensures fault { IfErr result (Stops (R.fails source) (λ _ _. ⊥) file.entry.now) }
{
    match source.read_front(alloc, MOST_SCHEDULE_BYTES) {
        Ok(front) => Ok(front),
        Err(error) => Err(unread(&error, file)),
    }
}

/// Reads all bytes of the second file. Returns no bytes if there is no second file.
pub(crate) fn read_second<'a, R: Source>(
    alloc: Global,
    file: &'a str,
    second: Option<R>,
) -> Result<Vec<u8>, TaskFailure<'a>>
    ensures whole { IfOk result (λ all. AreSecondBytes (option_map R.bytes second) all.items) }
    ensures fault { IfErr result (Stops (IsSomeAnd second R.fails) (λ _ _. ⊥) file.entry.now) }
{
    match second {
        Some(second) => read(alloc, file, second),
        None => Ok(Vec::new(alloc)),
    }
}

/// Reads all bytes of the file named `file`. Fails with `Read` if it cannot be read, and with `Memory` if memory runs
/// out.
fn read<'a, R: Source>(alloc: Global, file: &'a str, source: R) -> Result<Vec<u8>, TaskFailure<'a>>
    ensures whole { IfOk result (λ all. AreBytes (R.bytes source) all.items) }
    ensures fault { IfErr result (Stops (R.fails source) (λ _ _. ⊥) file.entry.now) }
{
    match source.read_all(alloc) {
        Ok(bytes) => Ok(bytes),
        Err(error) => Err(unread(&error, file)),
    }
}

/// Returns the failure of a task that could not read the file named `file`: `Memory` if memory ran out, and `Read`
/// otherwise.
fn unread<'a>(error: &io::Error, file: &'a str) -> TaskFailure<'a>
    ensures kind { result ≡ unread_by (error_kind error.now) file.entry }
    ensures stops { Stops (Unit {0}) (λ _ _. ⊥) file.entry.now result }
{
    match error.kind() {
        ErrorKind::OutOfMemory => TaskFailure::Memory,
        _ => TaskFailure::Read(file),
    }
}
