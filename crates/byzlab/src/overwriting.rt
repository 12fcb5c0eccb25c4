//! Refuses tasks that would write over a file that they read.
ghost use Rattle.std.specs.Prelude.{◌≡◌, ◌⊎◌, IfSome, IsSome, IsTrue, Some, option_map, true};
ghost use Rattle.cli_words.specs.Tasks.{schedule_target_of, target_of};
ghost use Rattle.byzlab.specs.Overwriting.{advice, is_read, is_same_name, overwrites};

use cli_tasks::FileName;
use cli_words::Task;
use std::fmt::{self, Display};
use std::fs::{canonicalize, metadata};

/// The line `fault write NAME`, that the file with this name is not written.
#[derive(Drop)]
pub struct FaultLine<'a> {
    pub name: &'a str,
}

impl Display for FaultLine<'_> {
    ghost use Rattle.std.specs.Prelude.{Some, codes};
    ghost use Rattle.std.specs.Fmt.{◌++?◌};
    ghost use Rattle.streams.specs.Names.{shown};

    ghost output = { λ line. Some (codes "fault write ") ++? shown line.name.now };

    fn fmt<W: fmt::Write>(&self, f: &mut fmt::Formatter<W>) -> fmt::Result {
        write!(f, "fault write {}", FileName(self.name))
    }
}

/// Lines to report, and a sentence after them.
#[derive(Drop)]
pub struct Advised<D: Display + Drop> {
    pub lines: D,
    pub advice: &'static str,
}

impl<D: Display + Drop> Display for Advised<D> {
    ghost use Rattle.std.specs.Prelude.{◌++◌, Some, codes};
    ghost use Rattle.std.specs.Fmt.{◌++?◌};

    ghost output = { λ told. D.output told.lines ++? Some (codes "\nerror: " ++ told.advice.now) };

    fn fmt<W: fmt::Write>(&self, f: &mut fmt::Formatter<W>) -> fmt::Result {
        self.lines.fmt(f)?;
        write!(f, "\nerror: {}", self.advice)
    }
}

/// The lines to report about a file that is not written because the task also reads it.
pub type WrittenInput<'a> = Advised<FaultLine<'a>>;

/// Returns whether both names lead to the same regular file. A hyphen as `name`, the file that is read, is standard
/// input.
fn is_same_file(rt: &HostRuntime, target: &str, name: &str) -> bool {
    let name = if name == "-" { "/dev/stdin" } else { name };
    match (canonicalize(rt, target), canonicalize(rt, name)) {
        (Ok(target), Ok(name)) => {
            target.as_str() == name.as_str() && is_regular(rt, target.as_str())
        }
        _ => false,
    }
}

/// Returns whether there is a regular file with this name.
fn is_regular(rt: &HostRuntime, name: &str) -> bool {
    match metadata(rt, name) {
        Ok(found) => found.is_file(),
        Err(_) => false,
    }
}

/// Returns whether a task that writes `target` and reads `name` writes and reads the same file. It does if the names
/// are equal, or if they lead to the same regular file. It does not if `target` is a hyphen, which is standard output.
fn is_one(rt: &HostRuntime, target: &str, name: Option<&str>) -> bool
    ensures { is_same_name (Some target.now) (option_map (λ n. n.now) name.entry) ≡ true → IsTrue result }
{
    match name {
        Some(name) if target != "-" => target == name || is_same_file(rt, target, name),
        _ => false,
    }
}

/// Returns the lines to report if the task also reads the file `target` that it writes, and otherwise `None`.
fn read_too<'a>(rt: &HostRuntime, task: &Task, target: Option<&'a str>) -> Option<WrittenInput<'a>>
    ensures named { is_read task.now (option_map (λ t. t.now) target.entry) ≡ true → IsSome result }
    ensures target { IfSome result (λ told. option_map (λ t. t.now) target.entry ≡ Some told.lines.name.now) }
    ensures advice { IfSome result (λ told. told.advice.now ≡ advice) }
{
    let name = target?;
    if is_one(rt, name, task.file()) || is_one(rt, name, task.second()) {
        return Some(Advised {
            lines: FaultLine { name },
            advice: "this file is also read, and would be lost: write to another one",
        });
    }
    None
}

/// Returns the lines to report if the task would write over a file that it reads, and otherwise `None`.
pub fn overwritten<'a>(rt: &HostRuntime, task: &'a Task) -> Option<WrittenInput<'a>>
    ensures named { overwrites task.now ≡ true → IsSome result }
    ensures target { IfSome result (λ told. (target_of task.now ≡ Some told.lines.name.now)
        ⊎ (schedule_target_of task.now ≡ Some told.lines.name.now)) }
    ensures advice { IfSome result (λ told. told.advice.now ≡ advice) }
{
    match read_too(rt, task, task.target()) {
        Some(told) => Some(told),
        None => read_too(rt, task, task.schedule_target()),
    }
}
