//! Runs a subcommand: reads its files, computes the answer, and prints the answer or the error.
ghost use Rattle.std.specs.Prelude.{◌≡◌, ◌≢◌, ◌⊎◌, [], Ok, Err, IfOk, IfErr, IfSome, IsErrAnd, IsSomeAnd, MatchResult, OnOk, codes, option_map};
ghost use Rattle.std.specs.Fmt.{with_newline};
ghost use Rattle.std.specs.Io.KnownBytes.{Appends};
ghost use Rattle.cli_tasks.specs.Faults.{IsToldIf, Stops, fault_text, status_of};
ghost use Rattle.cli_tasks.specs.TaskFaults.{Undoes, Prevents};
ghost use Rattle.cli_tasks.specs.TaskAnswers.{IsUnfinished};
ghost use Rattle.cli_tasks.specs.TaskHints.{explained_in};
ghost use Rattle.cli_tasks.specs.Whys.{Nothing, TellsWhyOf, is_explained};
ghost use Rattle.cli_tasks.specs.Serving.{EndsIn, IsAuditOf, IsFault, IsPlacedAnswer, IsPlayedBy, IsPrinted, IsScheduleOf, IsScheduleTold, IsToldLater, IsTrialAt, Tells, files};
ghost use Rattle.cli_tasks.specs.declared.first_answer.FirstAnswer.TheVariants.{Trial, Play, Audit};
ghost use Rattle.cli_tasks.specs.declared.failure.TaskFailure.TheVariants.{Write as unwritten};
ghost use Rattle.streams.specs.Writing.{AppendsFront};

use crate::audit::audited;
use crate::campaign_course::{draw_by, draw_record, page_by, page_record, retrace_of};
use crate::campaigns::schedule_of;
use crate::check_explanation::{explained_in, refused};
use crate::chronicle::played;
use crate::failure::TaskFailure;
use crate::first_answer::FirstAnswer;
use crate::muster::mustered;
use crate::placed_answer::Answer;
use crate::reader::{read_first, read_schedule, read_second};
use crate::refusal::InputRefusal;
use crate::task_answer::answer;
use crate::trials::tried_by;
use crate::whys::{FileRole, is_explained, later};
use cli_words::{Account, Lieutenants, Task};
use scenario::Campaign;
use std::alloc::Global;
use std::sync::Wait;
use std::thread::Threads;
use streams::{Output, Source};
use verify::Verified;
use world::Schedule;

/// Does a task on its files. Prints the answer to `out`, or else the error to `fault`: one line, and then the lines of
/// its hint. For a task that reads no file, `first` is an empty file.
///
/// The second file is read only if there is one and the first file is accepted. The whole answer is in memory before
/// any of it is printed. Only a muster starts threads, and `serve` waits for them.
///
/// Returns the exit status: 0 if the task is done, 3 if memory runs out, and 1 for any other failure, for example if a
/// file is rejected or the output fails.
pub fn serve<T, R, O, F>(
    rt: &T,
    alloc: Global,
    task: &Task,
    first: R,
    second: Option<R>,
    out: &mut O,
    fault: &mut F,
) -> u8
where
    T: Threads + Wait + Sync,
    R: Source,
    O: Output,
    F: Output,
    ensures status { (result ≡ 0) ⊎ ((result ≡ 1) ⊎ (result ≡ 3)) }

    ensures done { result ≡ 0 →
        IsPrinted task.now (files R.bytes first second) (O.contents out.old) (O.contents out.new) }
    ensures quiet { result ≡ 0 → fault.new ≡ fault.old }

    ensures at_fault { result ≡ 1 →
        IsFault (R.fails first) (IsSomeAnd second R.fails) (O.fails out.old)
        (AppendsFront (O.contents out.old) (O.contents out.new)) task.now (files R.bytes first second)
        (out.new ≡ out.old) (Tells (F.fails fault.old) (F.contents fault.old) (F.contents fault.new)) }

    ensures unprinted { result ≡ 3 → out.new ≡ out.old }
    ensures memory { result ≡ 3 →
        Tells (F.fails fault.old) (F.contents fault.old) (F.contents fault.new) (codes "out of memory") }
{
    match print(rt, alloc, task, first, second, out) {
        Ok(()) => 0,
        Err(failure) => ended(&failure, fault),
    }
}

/// Prints the error of a task to `fault`, and returns the exit status. An error while printing is ignored.
fn ended<F: Output>(failure: &TaskFailure<'_>, fault: &mut F) -> u8
    ensures status { result ≡ status_of failure.now }
    ensures told { F.fails fault.old ⊎ IfSome (with_newline (fault_text failure.now))
        (Appends (F.contents fault.old) (F.contents fault.new)) }
{
    let _ = fault.tell(failure);
    failure.status()
}

/// Computes the answer of a task on its files, and prints it to `out`. If there is no answer, nothing is printed. If
/// the output fails, only the first bytes of the answer may have been printed.
#[tactic(auto, using(crate::proofs::FilesLemmas::answer_there))]
fn print<'a, T, R, O>(
    rt: &T,
    alloc: Global,
    task: &'a Task,
    first: R,
    second: Option<R>,
    out: &mut O,
) -> Result<(), TaskFailure<'a>>
where
    T: Threads + Wait + Sync,
    R: Source,
    O: Output,
    ensures done { OnOk result
        (IsPrinted task.entry.now (files R.bytes first second) (O.contents out.old) (O.contents out.new)) }
    ensures fault { IfErr result
        (Undoes (R.fails first) (IsSomeAnd second R.fails) (O.fails out.old)
        (AppendsFront (O.contents out.old) (O.contents out.new)) task.entry.now (files R.bytes first second)) }
    ensures unprinted { IfErr result (λ fault. fault ≢ unwritten → out.new ≡ out.old) }
{
    let answer = answered(rt, alloc, task, first, second)?;
    match out.put(answer.text.as_slice()) {
        Ok(()) => Ok(()),
        Err(_) => Err(TaskFailure::Write),
    }
}

/// Computes the answer of a task on its files, without printing it. If the task tries a program in the setting of its
/// second file, the answer says for which general and round the program ran.
///
/// # Errors
///
/// Fails if a file cannot be read or is rejected, if the threads of a muster make no chronicle, or if memory runs out.
pub fn answered<'a, T, R>(
    rt: &T,
    alloc: Global,
    task: &'a Task,
    first: R,
    second: Option<R>,
) -> Result<Answer, TaskFailure<'a>>
where
    T: Threads + Wait + Sync,
    R: Source,
    ensures answer { IfOk result
        (λ answer. IsPlacedAnswer task.entry.now (files R.bytes first second) answer.text.items answer.place) }
    ensures fault { IfErr result
        (Prevents (R.fails first) (IsSomeAnd second R.fails) task.entry.now (files R.bytes first second)) }
{
    let bytes = read_first(alloc, task, first)?;
    let file = task.second().unwrap_or("");
    match answer(alloc, task, bytes.as_slice()) {
        Ok(more) => completed(rt, alloc, task, bytes.as_slice(), more, file, second),
        Err(refusal) => Err(refused(alloc, task, refusal, bytes.as_slice())),
    }
}

/// Finishes the answer of a task. `more` is its result on its first file, which has the bytes `first`. If `more` is not
/// yet the whole answer, the second file, which is named `file`, is read.
fn completed<'a, T, R>(
    rt: &T,
    alloc: Global,
    task: &Task,
    first: &[u8],
    more: FirstAnswer,
    file: &'a str,
    second: Option<R>,
) -> Result<Answer, TaskFailure<'a>>
where
    T: Threads + Wait + Sync,
    R: Source,
    ensures answer { IfOk result
        (λ answer. EndsIn task.now first.now (option_map R.bytes second) more answer.text.items answer.place) }
    ensures fault { IfErr result
        (λ fault. IsUnfinished more
        × Stops (IsSomeAnd second R.fails)
        (IsToldLater (is_explained task.now) file.entry.now (option_map R.bytes second) more) file.entry.now fault) }
{
    let told = is_explained(task);
    match more {
        FirstAnswer::Text(text) => Ok(Answer::plain(text.into_bytes())),
        FirstAnswer::Bytes(bytes) => Ok(Answer::plain(bytes)),
        FirstAnswer::Trial(program, traced) => {
            trial_of(alloc, task, first, &program, traced, file, second)
        }
        FirstAnswer::Play(campaign, account, explained) => {
            let text = play_by(alloc, campaign, account, explained, told, file, second)?;
            Ok(Answer::plain(text))
        }
        FirstAnswer::Muster(campaign, explained) => {
            let text = mustered(rt, alloc, campaign, explained);
            Ok(Answer::plain(mustered_text(alloc, text, told, file)?))
        }
        FirstAnswer::Audit(campaign, explained) => {
            let text = audit_of(alloc, &campaign, explained, told, file, second)?;
            Ok(Answer::plain(text))
        }
        FirstAnswer::Draw(campaign) => {
            Ok(Answer::plain(draw_by(alloc, campaign, told, file, second)?))
        }
        FirstAnswer::DrawRecorded(campaign) => {
            Ok(Answer::plain(draw_record(alloc, &campaign, told, file, second)?))
        }
        FirstAnswer::Page(campaign, text) => {
            Ok(Answer::plain(page_by(alloc, campaign, text, told, file, second)?))
        }
        FirstAnswer::PageRecorded(campaign, text) => {
            Ok(Answer::plain(page_record(alloc, campaign, text, told, file, second)?))
        }
        FirstAnswer::Retrace(campaign) => {
            Ok(Answer::plain(retrace_of(alloc, &campaign, told, file, second)?))
        }
    }
}

/// Returns the text of a muster, or turns the reason why it failed into the failure of the task. The failure reports
/// more about the reason if `explained` is set. `file` is the name of the task's second file.
fn mustered_text<'a>(
    alloc: Global,
    text: Result<Vec<u8>, InputRefusal>,
    explained: bool,
    file: &'a str,
) -> Result<Vec<u8>, TaskFailure<'a>>
    ensures { MatchResult text (λ own. result ≡ Ok own)
        (λ refusal. IsErrAnd result
        (IsToldIf explained refusal file.entry (TellsWhyOf refusal Nothing file.entry.now []))) }
{
    match text {
        Ok(text) => Ok(text),
        Err(unmustered) => Err(later(alloc, explained, FileRole::Nothing, unmustered, file, &[])),
    }
}

/// Tries a program in the setting that the second file describes. Returns the text that is printed about the trial,
/// with the general and round for which the program ran.
fn trial_of<'a, R: Source>(
    alloc: Global,
    task: &Task,
    first: &[u8],
    program: &Verified,
    traced: bool,
    file: &'a str,
    second: Option<R>,
) -> Result<Answer, TaskFailure<'a>>
    ensures tried { IfOk result
        (λ answer. IsTrialAt (option_map R.bytes second) traced
        (explained_in task.now) first.now program.now answer.text.items answer.place) }
    ensures fault { IfErr result
        (Stops (IsSomeAnd second R.fails)
        (IsToldLater (is_explained task.now) file.entry.now (option_map R.bytes second)
        (Trial program.now traced)) file.entry.now) }
{
    let bytes = read_second(alloc, file, second)?;
    match tried_by(
        alloc,
        program,
        traced,
        explained_in(task),
        first,
        bytes.as_slice(),
    ) {
        Ok((text, shape)) => Ok(Answer {
            text: text.into_bytes(),
            place: Some(shape),
        }),
        Err(refusal) => Err(later(
            alloc,
            is_explained(task),
            FileRole::Nothing,
            refusal,
            file,
            bytes.as_slice(),
        )),
    }
}

/// Plays the campaign by the schedule in the second file. Returns its chronicle or its message table, as `account`
/// says. If `explained` names lieutenants, the explanation of their decisions follows.
fn play_by<'a, R: Source>(
    alloc: Global,
    campaign: Campaign,
    account: Account,
    explained: Option<Lieutenants>,
    reported: bool,
    file: &'a str,
    second: Option<R>,
) -> Result<Vec<u8>, TaskFailure<'a>>
    ensures played { IfOk result
        (λ text. IsPlayedBy (option_map R.bytes second) campaign account explained text.items) }
    ensures fault { IfErr result
        (Stops (IsSomeAnd second R.fails)
        (IsToldLater reported file.entry.now (option_map R.bytes second)
        (Play campaign account explained)) file.entry.now) }
{
    let schedule = scheduled(alloc, reported, file, second)?;
    match played(alloc, campaign, &schedule, account, explained) {
        Ok(text) => Ok(text),
        Err(_) => Err(TaskFailure::Memory),
    }
}

/// Reads the schedule in the second file, which is named `file`. Returns the empty schedule if there is no second file.
pub(crate) fn scheduled<'a, R: Source>(
    alloc: Global,
    reported: bool,
    file: &'a str,
    second: Option<R>,
) -> Result<Schedule, TaskFailure<'a>>
    ensures told { IfOk result (λ schedule. IsScheduleOf (option_map R.bytes second) schedule) }
    ensures fault { IfErr result
        (Stops (IsSomeAnd second R.fails)
        (IsScheduleTold reported file.entry.now (option_map R.bytes second)) file.entry.now) }
{
    let Some(second) = second else {
        return Ok(Schedule {
            lines: Vec::new(alloc),
        });
    };
    let front = read_schedule(alloc, file, second)?;
    match schedule_of(alloc, front.as_slice()) {
        Ok(schedule) => Ok(schedule),
        Err(refusal) => {
            Err(later(
                alloc,
                reported,
                FileRole::Schedule,
                refusal,
                file,
                front.as_slice(),
            ))
        }
    }
}

/// Checks that the second file is a chronicle of the campaign. Returns the lines that `audit` prints. If `explained`
/// names lieutenants, the explanation of their decisions follows.
fn audit_of<'a, R: Source>(
    alloc: Global,
    campaign: &Campaign,
    explained: Option<Lieutenants>,
    reported: bool,
    file: &'a str,
    second: Option<R>,
) -> Result<Vec<u8>, TaskFailure<'a>>
    ensures audited { IfOk result (λ text. IsAuditOf (option_map R.bytes second) campaign.now explained text.items) }
    ensures fault { IfErr result
        (Stops (IsSomeAnd second R.fails)
        (IsToldLater reported file.entry.now (option_map R.bytes second)
        (Audit campaign.now explained)) file.entry.now) }
{
    let bytes = read_second(alloc, file, second)?;
    match audited(alloc, campaign, bytes.as_slice(), explained) {
        Ok(text) => Ok(text),
        Err(refusal) => {
            Err(later(
                alloc,
                reported,
                FileRole::Chronicle(campaign),
                refusal,
                file,
                bytes.as_slice(),
            ))
        }
    }
}
