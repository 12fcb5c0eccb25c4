//! Answers a call of `byzlab` without starting the program, with files that are kept in memory.
use crate::shelf::{AnswerOutput, FileContent, FileInput, Shelf};
use anyhow::{Result, bail};
use campaign_schedules::seeded;
use cli_answers::{serve, turned_down};
use cli_tasks::{
    FileName, FileProblem, is_explained, reads_scenario, reason, with_files, with_schedules,
    with_story,
};
use cli_words::{Task, TaskError, TaskRequest, each, request};
use std::alloc::{AllocError, Global};
use std::fmt::Display;
use std::io::ErrorKind;
use std::sync::Wait;
use std::thread::Threads;

/// What a call of `byzlab` writes to standard output and to standard error, and its exit status.
#[derive(Drop)]
pub struct CallOutput {
    pub out: Vec<u8>,
    pub err: Vec<u8>,
    pub status: u8,
}

impl CallOutput {
    /// Returns the answer that writes nothing and has exit status 0.
    fn nothing(alloc: Global) -> CallOutput {
        CallOutput {
            out: Vec::new(alloc),
            err: Vec::new(alloc),
            status: 0,
        }
    }

    /// Appends the texts of the next answer, and keeps the higher exit status.
    fn add(&mut self, next: CallOutput) -> Result<(), AllocError> {
        self.out.extend_from_slice(next.out.as_slice())?;
        self.err.extend_from_slice(next.err.as_slice())?;
        if self.status < next.status {
            self.status = next.status;
        }
        Ok(())
    }

    /// Returns an answer with this exit status, which writes this text to standard error and nothing to standard
    /// output.
    fn fault(alloc: Global, status: u8, text: String) -> CallOutput {
        CallOutput {
            out: Vec::new(alloc),
            err: text.into_bytes(),
            status,
        }
    }
}

/// Answers a call of `byzlab` with these words. `shelf` has the row's files in memory, and `output` is the call's
/// standard output. If the words are several requests, their answers follow one another, with the highest exit status.
/// A file that the call writes is added to the row's files.
pub fn answered<R: Threads + Wait + Sync + AllocGlobal>(
    rt: &R,
    words: &[&str],
    shelf: &mut Shelf,
    output: AnswerOutput,
) -> Result<CallOutput> {
    let alloc = rt.alloc();
    let requests = each(alloc, words)?;
    if let [one] = requests.as_slice() {
        return match request(alloc, one.as_slice()) {
            Ok(request) => answered_one(rt, &request, shelf, output),
            Err(error) => refused(alloc, error),
        };
    }
    let mut all = CallOutput::nothing(alloc);
    for words in &requests {
        let request = match request(alloc, words.as_slice()) {
            Ok(request) => request,
            Err(error) => return refused(alloc, error),
        };
        let kept = AnswerOutput::Kept(Vec::new(alloc));
        all.add(answered_one(rt, &request, shelf, kept)?)?;
    }
    Ok(all)
}

/// Answers one request of a call. A file that the request writes is added to the row's files, which are in memory.
fn answered_one<R: Threads + Wait + Sync + AllocGlobal>(
    rt: &R,
    request: &TaskRequest,
    shelf: &mut Shelf,
    output: AnswerOutput,
) -> Result<CallOutput> {
    let alloc = rt.alloc();
    let told = opened(rt, request, shelf, output)?;
    if told.status == 0 {
        keep(alloc, request, shelf)?;
    }
    written(alloc, &request.task, shelf, told)
}

/// Adds the files that a task writes in addition to its answer to the row's files, which are in memory. These are the
/// schedule that a seed gives, or a scenario and schedules for the outcomes of an exploration.
fn keep(alloc: Global, request: &TaskRequest, shelf: &mut Shelf) -> Result<()> {
    let task = &request.task;
    if let (Some(seed), Some(name)) = (task.seed(), task.schedule_target()) {
        let text = seeded(alloc, seed)?;
        shelf.put(alloc, name, FileContent::Bytes(text.into_bytes()))?;
    }
    let Task::Explore {
        scenario,
        most,
        folder: Some(folder),
    } = task
    else {
        return Ok(());
    };
    let folder = folder.as_str();
    let Some(bytes) = shelf.bytes(scenario.as_str()) else {
        bail!("{scenario}: there is no such file");
    };
    let Ok(bytes) = with_files(alloc, bytes.to_vec(alloc)?, shelf, request.no_files) else {
        bail!("{scenario}: a file that it names is not taken");
    };
    let Ok((_, schedules)) = with_schedules(alloc, bytes.as_slice(), *most) else {
        bail!("{scenario}: it is refused");
    };
    let name = format!(in alloc; "{folder}/scenario.toml")?;
    shelf.put(alloc, name.as_str(), FileContent::Bytes(bytes))?;
    for (before, schedule) in schedules.iter().enumerate() {
        let number = (before as u64).saturating_add(1);
        let name = format!(in alloc; "{folder}/outcome-{number}.schedule")?;
        let text = schedule.as_bytes().to_vec(alloc)?;
        shelf.put(alloc, name.as_str(), FileContent::Bytes(text))?;
    }
    Ok(())
}

/// Returns the answer to words that name no task: help or an error.
fn refused(alloc: Global, error: TaskError) -> Result<CallOutput> {
    match error {
        TaskError::Words(error) => {
            let text = format!(in alloc; "{error}")?;
            if error.use_stderr() {
                return Ok(CallOutput::fault(alloc, 2, text));
            }
            Ok(CallOutput {
                out: text.into_bytes(),
                err: Vec::new(alloc),
                status: 0,
            })
        }
        TaskError::Memory => bail!("out of memory"),
        error => Ok(CallOutput::fault(alloc, 2, format!(in alloc; "{error}\n")?)),
    }
}

/// Finds the files of the task among the row's files, and does the task. The answer reports a file that does not exist.
fn opened<R: Threads + Wait + Sync + AllocGlobal>(
    rt: &R,
    request: &TaskRequest,
    shelf: &Shelf,
    output: AnswerOutput,
) -> Result<CallOutput, AllocError> {
    let alloc = rt.alloc();
    let first = match request.task.file() {
        None => FileInput::Bytes(&[]),
        Some(name) => match shelf.find(name) {
            Some(content) => content.input(),
            None => return Ok(unopened(alloc, request, name, output)),
        },
    };
    let random = match request.task.seed() {
        None => None,
        Some(seed) => Some(seeded(alloc, seed)?),
    };
    let second = match request.task.second() {
        None => random
            .as_ref()
            .map(|text| FileInput::Bytes(text.as_bytes())),
        Some(name) => match shelf.find(name) {
            Some(content) => Some(content.input()),
            None => return Ok(unopened(alloc, request, name, output)),
        },
    };
    completed(rt, request, shelf, first, second, output)
}

/// Does the task with these files. If the first file is a scenario, the files that it names are first looked up among
/// the row's files, and their contents replace their names.
fn completed<R: Threads + Wait + Sync + AllocGlobal>(
    rt: &R,
    request: &TaskRequest,
    shelf: &Shelf,
    first: FileInput,
    second: Option<FileInput>,
    output: AnswerOutput,
) -> Result<CallOutput, AllocError> {
    let alloc = rt.alloc();
    let bytes = match first {
        FileInput::Bytes(bytes) if reads_scenario(&request.task) => bytes.to_vec(alloc)?,
        _ => return Ok(served(rt, request, first, second, output)),
    };
    let own = bytes.clone()?;
    match with_files(alloc, bytes, shelf, request.no_files) {
        Ok(text) => match cli_report::refused(
            alloc,
            &request.task,
            own.as_slice(),
            text.as_slice(),
        )? {
            Some(lines) => Ok(turn_down(alloc, request, lines.as_str(), output)),
            None => {
                let text = with_story(alloc, &request.task, own.as_slice(), text)?;
                Ok(served(
                    rt,
                    request,
                    FileInput::Bytes(text.as_slice()),
                    second,
                    output,
                ))
            }
        },
        Err(FileProblem::Told { lines, kind }) => {
            Ok(untaken(alloc, request, lines.as_str(), kind, output))
        }
        Err(FileProblem::Memory) => Err(AllocError),
    }
}

/// Returns the answer to a task whose file `name` does not exist.
fn unopened(alloc: Global, request: &TaskRequest, name: &str, output: AnswerOutput) -> CallOutput {
    let name = FileName(name);
    let kind = Some(ErrorKind::NotFound);
    untaken(
        alloc,
        request,
        format_args!("fault read {name}"),
        kind,
        output,
    )
}

/// Returns the answer to a task whose file cannot be used, with `lines` as the error. If the task explains its errors,
/// a sentence about the error of the operating system, `kind`, follows.
fn untaken<D: Display + Drop>(
    alloc: Global,
    request: &TaskRequest,
    lines: D,
    kind: Option<ErrorKind>,
    output: AnswerOutput,
) -> CallOutput {
    match kind {
        Some(kind) if is_explained(&request.task) => {
            let why = reason(kind);
            turn_down(
                alloc,
                request,
                format_args!("{lines}\nerror: {why}"),
                output,
            )
        }
        _ => turn_down(alloc, request, lines, output),
    }
}

/// Returns the answer to a task that is not done. Its error is `line`.
fn turn_down<D: Display + Drop>(
    alloc: Global,
    request: &TaskRequest,
    line: D,
    mut output: AnswerOutput,
) -> CallOutput {
    let mut err = Vec::new(alloc);
    let status = turned_down(alloc, request, line, &mut output, &mut err);
    let out = output.into_bytes(alloc);
    CallOutput { out, err, status }
}

/// Does the task with these files, and returns what it writes and its exit status.
fn served<R: Threads + Wait + Sync + AllocGlobal>(
    rt: &R,
    request: &TaskRequest,
    first: FileInput,
    second: Option<FileInput>,
    mut output: AnswerOutput,
) -> CallOutput {
    let alloc = rt.alloc();
    let mut err = Vec::new(alloc);
    let status = serve(rt, alloc, request, first, second, &mut output, &mut err);
    let out = output.into_bytes(alloc);
    CallOutput { out, err, status }
}

/// Handles a task whose answer goes to a file: moves its standard output into that file, among the row's files in
/// memory. Makes no file if nothing was written.
fn written(alloc: Global, task: &Task, shelf: &mut Shelf, told: CallOutput) -> Result<CallOutput> {
    let name = match task.target() {
        None | Some("-") => return Ok(told),
        Some(name) => name,
    };
    let CallOutput { out, err, status } = told;
    if !out.is_empty() {
        shelf.put(alloc, name, FileContent::Bytes(out))?;
    }
    Ok(CallOutput {
        out: Vec::new(alloc),
        err,
        status,
    })
}
