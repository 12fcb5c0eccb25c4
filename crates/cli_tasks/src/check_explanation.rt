//! Describes why a task rejects its first file. For `check --explain` this includes the explanation of a rejected
//! program.
ghost use Rattle.std.specs.Prelude.{◌≡◌, ◌≢◌, false, option_map};
ghost use Rattle.object.specs.Symbol.{asked};
ghost use Rattle.cli_tasks.specs.Hints.{is_reported};
ghost use Rattle.cli_tasks.specs.TaskFaults.{StopsFirst};
ghost use Rattle.cli_tasks.specs.TaskHints.{asked_of, bytecode_in, entry_code, explained_in};
ghost use Rattle.cli_tasks.specs.TaskRefusals.{Refuses};

use crate::failure::TaskFailure;
use crate::hint::Hint;
use crate::program_explanation::explanation;
use crate::programs::code_in;
use crate::refusal::InputRefusal;
use crate::whys::unjudged;
use cli_words::{Notation, Task};
use std::alloc::Global;

/// Returns how the program is written that the task must explain, or `None` if the task is not `check --explain`.
pub(crate) fn explained_in(task: &Task) -> Option<&Notation>
    ensures { option_map (λ notation. notation.now) result ≡ explained_in task.now }
{
    match task {
        Task::Check {
            notation,
            explained: true,
            ..
        } => Some(notation),
        _ => None,
    }
}

/// Returns the code of the function named `entry` in an ELF object or, without a name, the code of its only global
/// function. Returns no bytes if the object has no such code.
fn entry_code<'a>(object: &'a [u8], entry: Option<&str>) -> &'a [u8]
    ensures { result.now ≡ entry_code (asked entry.entry) object.now }
{
    match code_in(object, entry) {
        Ok(code) => code,
        Err(_) => &[],
    }
}

/// Returns the bytes by which a fault in the task's first file is located. If the task reads an ELF object, they are
/// the code of its entry. Otherwise they are the whole file.
fn bytecode_in<'a>(task: &Task, bytes: &'a [u8]) -> &'a [u8]
    ensures { result.now ≡ bytecode_in task.now bytes.now }
{
    match task {
        Task::Check {
            notation: Notation::Object { entry },
            ..
        }
        | Task::Disassemble {
            notation: Notation::Object { entry },
            ..
        }
        | Task::DisassemblePartly {
            notation: Notation::Object { entry },
            ..
        }
        | Task::Certify {
            notation: Notation::Object { entry },
            ..
        } => entry_code(bytes, entry.as_deref()),
        _ => bytes,
    }
}

/// Returns how a program is written that the verifier rejected, if the task must explain it. Returns `None` if the task
/// asks for no explanation, or if the program was rejected for another reason.
fn asked_of<'a>(refusal: &InputRefusal, task: &'a Task) -> Option<&'a Notation>
    ensures { option_map (λ notation. notation.now) result ≡ asked_of refusal.now task.now }
{
    match refusal {
        InputRefusal::Verifier(_) => explained_in(task),
        _ => None,
    }
}

/// Returns the failure of a task that rejects its first file for the reason `refusal`. The file has the bytes `bytes`.
/// The failure contains the hint that is printed after the error line. If the task asks for no report and `refusal` is
/// not `Memory`, the failure is not `Memory` either.
pub(crate) fn refused<'a>(
    alloc: Global,
    task: &'a Task,
    refusal: InputRefusal,
    bytes: &[u8],
) -> TaskFailure<'a>
    requires { Refuses task.now bytes.now refusal }
    ensures stops { StopsFirst task.entry.now bytes.now result }
    ensures quiet { is_reported task.entry.now refusal ≡ false → refusal ≢ InputRefusal.Memory → result ≢ TaskFailure.Memory }
{
    let file = task.file().unwrap_or("");
    let own = bytecode_in(task, bytes);
    let Some(notation) = asked_of(&refusal, task) else {
        return unjudged(alloc, task, refusal, file, own);
    };
    match explanation(alloc, notation, bytes) {
        Ok(text) => TaskFailure::Refused(refusal, Some(Hint::Explained(text))),
        // The program was read before, so only memory can have run out.
        Err(unread) => unjudged(alloc, task, unread, file, own),
    }
}
