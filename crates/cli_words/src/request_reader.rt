//! Parses the words of the command line into a request for a task.
ghost use Rattle.std.specs.Prelude.{◌≡◌, ◌≢◌, IfOk, IfErr, IsSomeAnd, None};
ghost use Rattle.clap.specs.Words.{IsAmong, fault_of, kind_of};
ghost use Rattle.cli_words.specs.Asked.{asked, spelt, words_of};
ghost use Rattle.cli_words.specs.Lab.{lab_app};
ghost use Rattle.cli_words.specs.Tasks.{Asks, IfMisuse, IfRefused, IfWords, IsMisused, IsToldBy};

use crate::command::lab_command;
use crate::errors::TaskError;
use crate::matches::ParsedWords;
use crate::tasks::TaskRequest;
use clap::Error;
use clap::error::ErrorKind;
use std::alloc::Global;

/// Converts an error of `clap`, the parser of the command line, to a `TaskError`.
fn refused(error: Error) -> TaskError
    ensures { IsToldBy error result }
{
    if error.kind() == ErrorKind::OutOfMemory {
        return TaskError::Memory;
    }
    TaskError::Words(error)
}

/// Parses the words after the program's name into a request: a task, and how its answer is printed.
///
/// # Errors
///
/// Fails with `Words` if `clap`, the parser of the command line, rejects the words, or if they ask for help. Fails with
/// `Misuse` if `clap` accepts the words, but they name no task, and with `Memory` if there is not enough memory.
pub fn request(alloc: Global, words: &[&str]) -> Result<TaskRequest, TaskError>
    ensures found { IfOk result (λ request. IsSomeAnd (asked (words_of words.now)) (λ told. Asks told request)) }
    ensures refused { IfErr result (λ error. IfRefused error (asked (words_of words.now) ≡ None)) }

    // The kind of `clap`'s error determines the exit status.
    ensures kind { IfErr result (λ error. IfWords error (λ refusal.
        IsAmong (kind_of refusal) (fault_of lab_app (words_of words.now)))) }
    ensures not_memory { IfErr result (λ error. IfWords error (λ refusal.
        kind_of refusal ≢ ErrorKind.OutOfMemory)) }
    ensures misused { IfErr result (λ error. IfMisuse error (λ misuse.
        IsSomeAnd (spelt (words_of words.now)) (λ told. IsMisused told misuse))) }
{
    let lab = lab_command(alloc, words)?;
    match lab.try_get_matches_from(words) {
        Ok(matches) => ParsedWords::of(&matches).request(alloc),
        Err(error) => Err(refused(error)),
    }
}
