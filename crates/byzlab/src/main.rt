//! The program `byzlab`, a laboratory for the Byzantine generals problem. It reads the command line and opens the
//! files. The crate `cli_answers` and the crates below it do the tasks.
#![tactic(auto)]

mod ending;
mod endings;
mod failures;
mod folder;
mod input;
mod kept_files;
mod new_file;
mod no_request;
mod noted_line;
mod overwriting;
mod progress;
mod rejection;
mod stop;
mod target;
mod told_line;
mod watched_stream;

ghost use Rattle.std.specs.Prelude.{◌≡◌, ◌≢◌, ◌≤◌, ◌⊎◌, ◌↔◌, Any, Ok, IfOk, IfErr, IfNone, IfSome, IsErr, IsOk, IsSome, IsUtf8, List, None, Some, false, length, option_map, string_bytes, true};
ghost use Rattle.std.specs.Result.{result_ok};
ghost use Rattle.cli_words.specs.Asked.{words_of};
ghost use Rattle.cli_words.specs.Tasks.{file_of, folder_of, schedule_target_of, second_of, seed_of, target_of};
ghost use Rattle.cli_words.specs.Usage.{Text};
ghost use Rattle.cli_tasks.specs.Seen.{reads_scenario};
ghost use Rattle.cli_tasks.specs.Story.{with_story};
ghost use Rattle.cli_tasks.specs.declared.failure.TaskFailure.TheVariants.{Read as unreadable};
ghost use Rattle.cli_report.specs.Refused.{IsTold};
ghost use Rattle.byzlab.specs.Files.{IsInputIf, IsOpened, IsSecondIf, IsSeededIf, IsSeen, IsServedFor, IsTargetOf, IsTextOf};
ghost use Rattle.byzlab.specs.Kept.{IsUnexplored, KeepsIn};
ghost use Rattle.byzlab.specs.Failures.{AsksNothing, IsStatus, IsUnreadable, failure_of};
ghost use Rattle.byzlab.specs.Overwriting.{overwrites};
ghost use Rattle.byzlab.specs.Rejected.{IsRejected};
ghost use Rattle.byzlab.specs.Turns.{AreDone, AreEndingsOf};

use campaign_schedules::seeded;
use cli_report::refused;
use cli_tasks::{Folder, InputRefusal, reads_scenario, with_files, with_schedules, with_story};
use cli_words::{Task, TaskRequest, each};
use ending::{Ending, Printed, Served};
use endings::Endings;
use failures::why_unwritten;
use folder::FolderOf;
use input::{Input, Opened};
use kept_files::{keep, write_whole};
use no_request::Unasked;
use overwriting::overwritten;
use progress::ProgressLine;
use rejection::{Rejected, TurnedDown, Unread, given_or_told, tell_neighbour, turn_down};
use std::alloc::AllocError;
use std::env;
use std::fs::File;
use std::io::{self, Cursor, ErrorKind, Read, Stdin};
use std::process::ExitCode;
use std::sync::Wait;
use std::thread::Threads;
use stop::lacking;
use target::{Target, target_of};
use watched_stream::Watched;

fn main(rt: HostRuntime) -> ExitCode {
    let status = match called(&rt, &rt) {
        Ok(endings) => endings.worst(),
        Err(error) => lacking(&rt, error.kind()).status(),
    };
    ExitCode::from(status)
}

/// Reads the command line, and serves its requests in order. It stops after a request whose output fails, and at words
/// that ask for no task.
///
/// # Errors
///
/// Fails if the command line is not UTF-8, if help cannot be printed, or if memory runs out.
fn called<T: Threads + Wait + Sync>(rt: &HostRuntime, threads: &T) -> io::Result<Endings>
    ensures status { IfOk result (λ endings. endings.worst ≤ 3) }
    ensures done { IfOk result (λ endings. (words : List Text) × AreDone words endings) }
{
    let alloc = rt.alloc();
    let words: Vec<String> = env::args(rt)?.skip(1).collect(alloc)?;
    let mut texts: Vec<&str> = Vec::with_capacity(alloc, words.len())?;
    for word in &words {
        texts.push(word.as_str())?;
    }
    done_each(rt, threads, texts.as_slice())
}

/// Serves the requests that these words of the command line make, in order. It stops after a request whose output
/// fails, and at words that ask for no task.
///
/// # Errors
///
/// Fails if help cannot be printed, or if memory runs out.
fn done_each<T: Threads + Wait + Sync>(
    rt: &HostRuntime,
    threads: &T,
    words: &[&str],
) -> io::Result<Endings>
    ensures status { IfOk result (λ endings. endings.worst ≤ 3) }
    ensures done { IfOk result (AreDone (words_of words.now)) }
{
    let requests = each(rt.alloc(), words)?;
    in_turn(rt, threads, requests.as_slice())
}

/// Serves the requests that these lists of words make, in order. It stops after a request whose output fails, and at
/// words that ask for no task.
///
/// # Errors
///
/// Fails if help cannot be printed, or if memory runs out.
fn in_turn<T: Threads + Wait + Sync>(
    rt: &HostRuntime,
    threads: &T,
    requests: &[Vec<&str>],
) -> io::Result<Endings>
    ensures status { IfOk result (λ endings. endings.worst ≤ 3) }
    ensures done { IfOk result (AreEndingsOf requests.now) }
    ensures all { IfOk result (λ endings. (endings.count ≡ length requests.now)
        ⊎ (IsSome endings.unwritten ⊎ Any (λ words. AsksNothing words.items) requests.now)) }
    ensures unasked { IfOk result
        (λ endings. endings.worst ≡ 2 → Any (λ words. AsksNothing words.items) requests.now) }
{
    let progress = ProgressLine::of(rt, requests.len());
    let mut endings = Endings::none();
    for words in requests {
        let request = match cli_words::request(rt.alloc(), words.as_slice()) {
            Ok(request) => request,
            Err(error) => return Ok(endings.with_unasked(Unasked::told(rt, error)?)),
        };
        let _ = progress.clear();
        endings.enter(ended(rt, threads, &request));
        if endings.is_unwritten() {
            return Ok(endings);
        }
        let _ = progress.tell(endings.count());
    }
    Ok(endings)
}

/// Serves one request, and returns how it ended. If memory runs out while files are opened or written, reports this on
/// standard error.
fn ended<'a, T: Threads + Wait + Sync>(
    rt: &'a HostRuntime,
    threads: &T,
    request: &'a TaskRequest,
) -> Ending
    ensures status { IsStatus result.status }
{
    settled(rt, answered(rt, threads, request))
}

/// Returns how a request ended. If memory ran out before it ended, first reports this on standard error.
fn settled(rt: &HostRuntime, outcome: Result<Ending, AllocError>) -> Ending
    ensures done { IfOk outcome (λ ending. result ≡ ending) }
    ensures lacking { IfErr outcome (λ _. result.status ≡ (failure_of ErrorKind.OutOfMemory).1) }
{
    match outcome {
        Ok(ending) => ending,
        Err(_) => Ending::stopped(lacking(rt, ErrorKind::OutOfMemory)),
    }
}

/// Serves one request: opens its files, does the task, and writes the schedule or the files of an exploration, if the
/// request asks for them. Before that, refuses a request that would write over a file that it reads.
///
/// # Errors
///
/// Fails with `AllocError` if memory runs out and this was not reported yet.
fn answered<'a, T: Threads + Wait + Sync>(
    rt: &'a HostRuntime,
    threads: &T,
    request: &'a TaskRequest,
) -> Result<Ending, AllocError>
    ensures status { IfOk result (λ ending. IsStatus ending.status) }
    ensures overwriting { overwrites request.now.task ≡ true → IfOk result (λ ending. ending.status ≢ 0) }
{
    if let Some(lines) = overwritten(rt, &request.task) {
        return Ok(Ending::refused(turn_down(rt, request, lines).said()));
    }
    let (first, second) = match files(rt, request)? {
        Ok(files) => files,
        Err(told) => return Ok(Ending::refused(told.said())),
    };
    let first = match completed(rt, request, first)? {
        Ok(first) => first,
        Err(told) => return Ok(Ending::refused(told.said())),
    };
    let Task::Explore {
        scenario,
        most,
        folder: Some(folder),
    } = &request.task
    else {
        let done = served(rt, threads, request, first, second);
        return schedule_written(rt, request, done);
    };
    let bytes = match read(rt, request, scenario.as_str(), first)? {
        Ok(bytes) => bytes,
        Err(told) => return Ok(Ending::refused(told.said())),
    };
    match explored(rt, request, bytes.as_slice(), *most, folder.as_str())? {
        Some(ending) => Ok(ending),
        None => {
            let first = Opened::Text(Cursor::new(bytes));
            let done = served(rt, threads, request, first, second);
            Ok(done.unexplored())
        }
    }
}

/// Explores the campaign of a scenario. Writes the scenario and a schedule for each outcome to the folder, and then
/// prints the outcomes. If a file cannot be written, reports this instead. Returns `None` if the scenario is rejected.
///
/// # Errors
///
/// Fails with `AllocError` if memory runs out.
fn explored(
    rt: &HostRuntime,
    request: &TaskRequest,
    scenario: &[u8],
    most: Option<u64>,
    folder: &str,
) -> Result<Option<Ending>, AllocError>
    requires { KeepsIn request.now.task most folder.now }
    ensures status { IfOk result (λ done. IfSome done (λ ending. IsStatus ending.status)) }
    ensures refused { IfOk result (λ done. IfNone done (IsUnexplored scenario.now)) }
{
    match with_schedules(rt.alloc(), scenario, most) {
        Ok((text, schedules)) => {
            let kept = keep(rt, folder, scenario, schedules.as_slice());
            let mut target = target_of(rt, request.task.target());
            let printed = Printed::of(rt, request, scenario, kept, text.as_str(), &mut target)?;
            Ok(Some(printed.ending()))
        }
        Err(refusal) => unexplored(refusal),
    }
}

/// Returns `None`, for a scenario that is rejected.
///
/// # Errors
///
/// Fails with `AllocError` if it is rejected because memory ran out.
fn unexplored(refusal: InputRefusal) -> Result<Option<Ending>, AllocError>
    ensures none { IfOk result (λ ending. ending ≡ None) }
    ensures memory { IsErr result ↔ (refusal ≡ InputRefusal.Memory) }
    ensures refused { IfOk result (λ _. refusal ≢ InputRefusal.Memory) }
{
    match refusal {
        InputRefusal::Memory => Err(AllocError),
        _ => Ok(None),
    }
}

/// Serves the request with these files, and removes a new file that is not whole. If the output fails, also reports the
/// reason on standard error, provided that the task names its output or explains what it rejects.
fn served<'a, T: Threads + Wait + Sync>(
    rt: &'a HostRuntime,
    threads: &T,
    request: &'a TaskRequest,
    first: Input<'a>,
    second: Option<Input<'a>>,
) -> Served<'a, Input<'a>, Target<'a>>
    ensures request { result.request ≡ request.entry }
    ensures first { result.first.value ≡ first.entry }
    ensures second { result.second.value ≡ second.entry }
    ensures target { IsTargetOf (target_of request.entry.now.task) result.target.value.stream }
    ensures status { IsStatus result.ending.status }
{
    let mut target = Watched::new(target_of(rt, request.task.target()));
    let alloc = rt.alloc();
    let done = Served::of(
        threads,
        alloc,
        request,
        first,
        second,
        &mut target,
        &mut rt.stderr(),
    );
    if let Some(why) = why_unwritten(done.status(), &request.task, target.fault()) {
        let _ = rt.eprintln(format_args!("error: {why}"));
    }
    target.into_stream().abandon();
    done
}

/// Writes the schedule of the seed, if the request names a file for it and its exit status is 0. Returns how the
/// request ended.
///
/// # Errors
///
/// Fails with `AllocError` if memory runs out.
fn schedule_written<'a>(
    rt: &HostRuntime,
    request: &TaskRequest,
    done: Served<'a, Input<'a>, Target<'a>>,
) -> Result<Ending, AllocError>
    requires request { done.request.now ≡ request.now }
    requires unkept { folder_of request.now.task ≡ None }
    requires its_own { IsServedFor request.now.task done.first.value done.second.value done.target.value.stream }
    ensures status { IsStatus done.entry.ending.status → IfOk result (λ ending. IsStatus ending.status) }
    ensures unasked { schedule_target_of request.now.task ≡ None → result ≡ Ok done.entry.ending }
    ensures undone { done.entry.ending.status ≢ 0 → result ≡ Ok done.entry.ending }
{
    let (Some(seed), Some(name)) = (request.task.seed(), request.task.schedule_target()) else {
        return Ok(done.alone());
    };
    if done.status() != 0 {
        return Ok(done.alone());
    }
    let text = seeded(rt.alloc(), seed)?;
    let written = write_whole(rt, name, text.as_bytes());
    done.with_schedule(rt, written)
}

/// Opens the files of the task. If one of them cannot be opened, reports this, and returns a record of the report.
///
/// # Errors
///
/// Fails with `AllocError` if memory runs out.
fn files<'a>(
    rt: &HostRuntime,
    request: &'a TaskRequest,
) -> Result<Result<(Input<'a>, Option<Input<'a>>), Unread<'a>>, AllocError>
    ensures first { IfOk result (λ files. IfOk files (λ f. IsInputIf (file_of request.now.task) (Some f.0))) }
    ensures second { IfOk result
        (λ files. IfOk files (λ f. IsSecondIf (second_of request.now.task) (seed_of request.now.task) f.1)) }
    ensures line { IfOk result (λ files. IfErr files (λ told. IsUnreadable (file_of request.now.task) told.line.lines
        ⊎ (IsOpened File Stdin (file_of request.now.task)
        × IsUnreadable (second_of request.now.task) told.line.lines))) }
{
    let first = match opened(rt, request, request.task.file())? {
        Ok(file) => file,
        Err(told) => return Ok(Err(told)),
    };
    let second = match request.task.second() {
        None => random(rt, &request.task)?,
        name => match opened(rt, request, name)? {
            Ok(file) => Some(file),
            Err(told) => return Ok(Err(told)),
        },
    };
    Ok(Ok((first, second)))
}

/// Returns the random schedule of the task's seed in place of a second file, or `None` if the task has no seed.
///
/// # Errors
///
/// Fails with `AllocError` if memory runs out.
fn random<'a>(rt: &HostRuntime, task: &Task) -> Result<Option<Input<'a>>, AllocError>
    ensures seeded { IfOk result (IsSeededIf (seed_of task.now)) }
{
    let Some(seed) = task.seed() else {
        return Ok(None);
    };
    let schedule = seeded(rt.alloc(), seed)?;
    Ok(Some(Opened::Text(Cursor::new(schedule.into_bytes()))))
}

/// Returns the first file of the task. If it is a scenario, returns its text with the contents of the files that it
/// names. If the scenario or one of those files is rejected, reports this, and returns a record of the report. A file
/// of another kind is returned unchanged.
///
/// # Errors
///
/// Fails with `AllocError` if memory runs out.
fn completed<'a>(
    rt: &HostRuntime,
    request: &'a TaskRequest,
    first: Input<'a>,
) -> Result<Result<Input<'a>, Rejected<'a>>, AllocError>
    ensures other { reads_scenario request.now.task ≡ false → result ≡ Ok (Ok first.entry) }
    ensures seen { reads_scenario request.now.task ≡ true → IfSome (file_of request.now.task) (λ _. IfOk result
        (λ input. IfOk input (IsSeen request.now.no_files None (λ _. None) request.now.task))) }
    ensures rejected { IfSome (file_of request.now.task) (λ name. IfOk result (λ input. IfErr input
        (IsRejected request.now.no_files None (λ _. None) request.now.task name))) }
{
    match request.task.file() {
        Some(name) if reads_scenario(&request.task) => {
            let folder = FolderOf { rt, scenario: name };
            seen(rt, request, name, first, &folder)
        }
        _ => Ok(Ok(first)),
    }
}

/// Reads a scenario from `file`, and puts the contents of the files that it names in place of their names. If the
/// scenario or one of those files is rejected, reports this, and returns a record of the report.
///
/// # Errors
///
/// Fails with `AllocError` if memory runs out.
fn seen<'a, R: Read + Drop, D: Folder>(
    rt: &HostRuntime,
    request: &TaskRequest,
    name: &'a str,
    file: R,
    folder: &D,
) -> Result<Result<Input<'a>, Rejected<'a>>, AllocError>
    ensures seen { IfOk result
        (λ input. IfOk input (IsSeen request.now.no_files (R.remaining file) (D.bytes folder.now) request.now.task)) }
    ensures rejected { IfOk result (λ input. IfErr input
        (IsRejected request.now.no_files (R.remaining file) (D.bytes folder.now) request.now.task name.entry.now)) }
{
    let bytes = match read(rt, request, name, file)? {
        Ok(bytes) => bytes,
        Err(told) => return Ok(Err(Rejected::Unread(told))),
    };
    let own = bytes.clone()?;
    match with_files(rt.alloc(), bytes, folder, request.no_files) {
        Ok(bytes) => match made(rt, request, own.as_slice(), bytes)? {
            Ok(input) => Ok(Ok(input)),
            Err(told) => Ok(Err(Rejected::Refused(told))),
        },
        Err(untaken) => {
            let told = tell_neighbour(rt, request, untaken)?;
            Ok(Err(Rejected::Untaken(told)))
        }
    }
}

/// Returns the text of a scenario to be served. `own` is the scenario as it was read, and `bytes` is the scenario with
/// the contents of the files that it names. For a page, the text begins with the scenario's story. If a scenario that
/// names files is rejected, and the task explains what it rejects, reports this, and returns a record of the report.
///
/// # Errors
///
/// Fails with `AllocError` if memory runs out.
fn made<'a>(
    rt: &HostRuntime,
    request: &TaskRequest,
    own: &[u8],
    bytes: Vec<u8>,
) -> Result<Result<Input<'a>, TurnedDown<String>>, AllocError>
    ensures text { IfOk result (λ input. IfOk input (IsTextOf (with_story request.now.task own.now bytes.items))) }
    ensures taken { IfOk result (λ input. IfOk input (λ _.
        own.now ≢ bytes.items → IsUtf8 own.now → IsUtf8 bytes.items →
        IsTold request.now.task own.now bytes.items None)) }
    ensures told { IfOk result (λ input. IfErr input (λ told.
        own.now ≢ bytes.items → IsUtf8 own.now → IsUtf8 bytes.items →
        IsTold request.now.task own.now bytes.items (Some (string_bytes told.line)))) }
    ensures named { IfOk result (λ input. IfErr input (λ _. own.now ≢ bytes.items)) }
    ensures own_text { ¬ IsUtf8 own.now → IfOk result IsOk }
    ensures made_text { ¬ IsUtf8 bytes.items → IfOk result IsOk }
{
    if let Some(lines) = refused(rt.alloc(), &request.task, own, bytes.as_slice())? {
        return Ok(Err(turn_down(rt, request, lines)));
    }
    let text = with_story(rt.alloc(), &request.task, own, bytes)?;
    Ok(Ok(Opened::Text(Cursor::new(text))))
}

/// Reads all bytes of `file`. If it cannot be read, reports this under the name `name`, and returns a record of the
/// report.
///
/// # Errors
///
/// Fails with `AllocError` if memory runs out.
fn read<'a, R: Read + Drop>(
    rt: &HostRuntime,
    request: &TaskRequest,
    name: &'a str,
    file: R,
) -> Result<Result<Vec<u8>, Unread<'a>>, AllocError>
    ensures whole { IfOk result (λ all. IfOk all (λ all. IfSome (R.remaining file) (λ known. all.items ≡ known))) }
    ensures line { IfOk result (λ all. IfErr all (λ told. told.line.lines ≡ unreadable name.entry)) }
{
    let mut file = file;
    let mut bytes = Vec::new(rt.alloc());
    let outcome = file.read_to_end(&mut bytes);
    match given_or_told(rt, request, name, outcome)? {
        Ok(_) => Ok(Ok(bytes)),
        Err(told) => Ok(Err(told)),
    }
}

/// Opens the file with this name. If there is no name, returns an input without bytes. If the file cannot be opened,
/// reports this, and returns a record of the report.
///
/// # Errors
///
/// Fails with `AllocError` if memory runs out.
fn opened<'a>(
    rt: &HostRuntime,
    request: &TaskRequest,
    name: Option<&'a str>,
) -> Result<Result<Input<'a>, Unread<'a>>, AllocError>
    ensures input { IfOk result (λ input. IsInputIf (option_map (λ n. n.now) name.entry) (result_ok input)) }
    ensures line { IfOk result
        (λ input. IfErr input (λ told. option_map unreadable name.entry ≡ Some told.line.lines)) }
    ensures name { IfOk result (λ input. IfErr input
        (λ told. IsUnreadable (option_map (λ n. n.now) name.entry) told.line.lines)) }
{
    let Some(name) = name else {
        return Ok(Ok(Opened::Nothing));
    };
    given_or_told(rt, request, name, input::open(rt, name))
}
