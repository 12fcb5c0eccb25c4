//! How one request (a task on one file of a call) ended: its exit status, and whether its output failed. Only functions
//! of this file make an `Ending`: after a request was served, an exploration was kept and printed, or a line was
//! reported.
ghost use Rattle.std.specs.Prelude.{◌≡◌, ◌≢◌, ◌⊎◌, ℕ, List, IfErr, IfOk, IsOk, IsSomeAnd, None, Ok, OnErr, OnOk, codes, false, is_some, true};
ghost use Rattle.std.specs.Io.KnownBytes.{Appends};
ghost use Rattle.cli_words.specs.Tasks.{folder_of, schedule_target_of, seed_of, target_of};
ghost use Rattle.streams.specs.Writing.{AppendsFront};
ghost use Rattle.cli_tasks.specs.Serving.{IsFault, Tells, files};
ghost use Rattle.cli_answers.specs.Printing.{is_shaped};
ghost use Rattle.cli_answers.specs.Serving.{IsAnswerUnwritten, IsPrevented, IsRefusalShown, IsShown};
ghost use Rattle.byzlab.specs.Failures.{IsSaidOf, IsStatus, IsTurnedDown};
ghost use Rattle.byzlab.specs.Files.{IsServedFor, IsTargetOf, IsTextOf};
ghost use Rattle.byzlab.specs.Kept.{IsExplorationKept, IsScheduleKept, IsUnexplored};

use crate::input::Input;
use crate::kept_files::{KeptFile, Unkept};
use crate::rejection::{TurnedDown, tell_unkept, turn_down};
use crate::stop::Stopped;
use crate::target::Target;
use crate::told_line::ReportOutcome;
use crate::watched_stream::Watched;
use cli_answers::serve;
use cli_tasks::TaskFailure;
use cli_words::TaskRequest;
use std::alloc::{AllocError, Global};
use std::io::Write;
use std::snapshot::Snapshot;
use std::sync::Wait;
use std::thread::Threads;
use streams::{Output, Source};

/// A record of the report that the output failed.
type NotPrinted = TurnedDown<TaskFailure<'static>>;

/// How a request of a call ended.
#[derive(Drop)]
pub struct Ending {
    /// The exit status: 0 if it is done, 1 for a rejection or a fault of a file, or 3 if memory ran out.
    status: u8,
    /// Whether the output failed, so that no further answer can be written.
    is_unwritten: bool,
}

impl Ending {
    ghost use Rattle.std.specs.Prelude.{◌≡◌, ◌≢◌, IfErr, OnErr, OnOk, false, true};
    ghost use Rattle.byzlab.specs.Failures.{IsStatus, status_said};

    /// Returns the ending of a run of `byzlab` that has this exit status and whose outputs were all written.
    fn with(status: u8) -> Ending
        ensures status { result.status ≡ status }
        ensures written { result.is_unwritten ≡ false }
    {
        Ending {
            status,
            is_unwritten: false,
        }
    }

    /// Returns the ending of a request that is not done, after the reason was reported. `said` says how the report
    /// went.
    pub fn refused(said: ReportOutcome) -> Ending
        ensures status { result.status ≡ status_said said.is_lacking }
        ensures either { IsStatus result.status }
        ensures undone { result.status ≢ 0 }
        ensures unwritten { result.is_unwritten ≡ said.is_unwritten }
    {
        Ending {
            status: said.status(),
            is_unwritten: said.is_unwritten(),
        }
    }

    /// Returns the ending of a request that could not go on, after the reason was reported.
    pub fn stopped(stopped: Stopped) -> Ending
        ensures status { result.status ≡ stopped.status }
        ensures written { result.is_unwritten ≡ false }
    {
        Ending::with(stopped.status())
    }

    /// Returns the ending of a request after its text was printed or, if the output failed, after this was reported.
    fn printed(printed: Result<(), NotPrinted>) -> Ending
        ensures status { IsStatus result.status }
        ensures done { OnOk printed.entry ((result.status ≡ 0) × (result.is_unwritten ≡ false)) }
        ensures failed { IfErr printed.entry (λ told. result.status ≡ status_said told.said.is_lacking) }
        ensures unwritten { OnErr printed.entry (result.is_unwritten ≡ true) }
    {
        match printed {
            Ok(()) => Ending::with(0),
            Err(told) => Ending {
                status: told.said().status(),
                is_unwritten: true,
            },
        }
    }

    /// Returns the exit status.
    pub fn status(&self) -> u8
        ensures { result ≡ self.now.status }
    {
        self.status
    }

    /// Returns whether the output of the request failed, so that no further answer can be written.
    pub fn is_unwritten(&self) -> bool
        ensures { result ≡ self.now.is_unwritten }
    {
        self.is_unwritten
    }
}

/// A request that was served, but whose schedule, if it asks for one, is not written yet. Only `Served::of` makes this
/// value. The proofs need the files and the target: they are snapshots, which take no bytes at run time.
#[derive(Drop)]
pub struct Served<'a, R, W: Write + Drop> {
    request: &'a TaskRequest,
    first: Snapshot<R>,
    second: Snapshot<Option<R>>,
    target: Snapshot<Watched<W>>,
    ending: Ending,
}

impl<'a, R: Source, W: Write + Drop> Served<'a, R, W> {
    /// Serves the request with these files, as `cli_answers::serve` does: prints the answer, or reports what is wrong.
    /// The contract allows each write to the output to fail.
    pub fn of<T, F>(
        threads: &T,
        alloc: Global,
        request: &'a TaskRequest,
        first: R,
        second: Option<R>,
        out: &mut Watched<W>,
        fault: &mut F,
    ) -> Served<'a, R, W>
    where
        T: Threads + Wait + Sync,
        F: Output,
        ensures request { result.request ≡ request.entry }
        ensures first { result.first.value ≡ first }
        ensures second { result.second.value ≡ second }
        ensures target { result.target.value ≡ out.old }
        ensures status { IsStatus result.ending.status }
        ensures written { result.ending.is_unwritten ≡ is_some out.new.fault }
        ensures done { result.ending.status ≡ 0 →
            IsShown request.entry.now (files R.bytes first second) (W.contents out.old.stream)
            (W.contents out.new.stream) }
        ensures quiet { result.ending.status ≡ 0 → fault.new ≡ fault.old }
        // The request asks for neither JSON nor one line.
        ensures at_fault { is_shaped request.entry.now ≡ false → result.ending.status ≡ 1 →
            IsFault (R.fails first) (IsSomeAnd second R.fails) (Unit {0})
            (AppendsFront (W.contents out.old.stream) (W.contents out.new.stream)) request.entry.now.task
            (files R.bytes first second) (out.new ≡ out.old)
            (Tells (F.fails fault.old) (F.contents fault.old) (F.contents fault.new)) }
        // The request asks for JSON or for one line.
        ensures refused { is_shaped request.entry.now ≡ true → result.ending.status ≡ 1 →
            IsAnswerUnwritten (Unit {0})
            (Tells (F.fails fault.old) (F.contents fault.old) (F.contents fault.new)) request.entry.now
            (files R.bytes first second) (W.contents out.old.stream) (W.contents out.new.stream)
            ⊎ IsPrevented (R.fails first) (IsSomeAnd second R.fails)
            (IsRefusalShown (fault.new ≡ fault.old) (Unit {0})
            (Tells (F.fails fault.old) (F.contents fault.old) (F.contents fault.new)) request.entry.now
            (W.contents out.old.stream) (W.contents out.new.stream))
            request.entry.now (files R.bytes first second) }
        ensures unprinted { result.ending.status ≡ 3 → out.new ≡ out.old }
        ensures memory { result.ending.status ≡ 3 →
            Tells (F.fails fault.old) (F.contents fault.old) (F.contents fault.new) (codes "out of memory") }
    {
        let (of_first, of_second) = (Snapshot::of(&first), Snapshot::of(&second));
        let target = Snapshot::of(&*out);
        let status = serve(threads, alloc, request, first, second, out, fault);
        Served {
            request,
            first: of_first,
            second: of_second,
            target,
            ending: Ending {
                status,
                is_unwritten: out.fault().is_some(),
            },
        }
    }

    /// Returns the exit status of the request before its schedule is written.
    pub fn status(&self) -> u8
        ensures { result ≡ self.now.ending.status }
    {
        self.ending.status
    }
}

impl<'a> Served<'a, Input<'a>, Target<'a>> {
    /// Returns how the request ended, if it writes neither a schedule nor the files of an exploration.
    pub fn alone(self) -> Ending
        requires unkept { folder_of self.request.now.task ≡ None }
        requires its_own { IsServedFor self.request.now.task self.first.value self.second.value self.target.value.stream }
        requires unscheduled { (schedule_target_of self.request.now.task ≡ None)
            ⊎ ((seed_of self.request.now.task ≡ None) ⊎ (self.ending.status ≢ 0)) }
        ensures { result ≡ self.entry.ending }
    {
        let Served { ending, .. } = self;
        ending
    }

    /// Returns how the request ended, if it asks to keep an exploration, but its scenario is rejected.
    pub fn unexplored(self) -> Ending
        requires refused { (scenario : List ℕ) × IsTextOf scenario self.first.value × IsUnexplored scenario }
        requires its_own { IsServedFor self.request.now.task self.first.value self.second.value self.target.value.stream }
        ensures { result ≡ self.entry.ending }
    {
        let Served { ending, .. } = self;
        ending
    }

    /// Returns how the request ended, after an attempt to write the schedule of its seed. If the attempt failed,
    /// reports that the file was not written.
    ///
    /// # Errors
    ///
    /// Fails with `AllocError` if the schedule was not written because memory ran out.
    pub fn with_schedule(
        self,
        rt: &HostRuntime,
        written: Result<KeptFile<'_, '_>, Unkept>,
    ) -> Result<Ending, AllocError>
        requires its_own { IsServedFor self.request.now.task self.first.value self.second.value self.target.value.stream }
        requires written { IfOk written (IsScheduleKept self.request.now.task) }
        ensures kept { IfOk written.entry (λ _. result ≡ Ok self.entry.ending) }
        ensures unkept { IfErr written.entry (λ _. IfOk result (IsTurnedDown self.entry.request.now)) }
        ensures memory { IfErr written.entry (λ unkept. unkept ≢ Unkept.Memory → IsOk result) }
    {
        let Served {
            request,
            ending,
            ..
        } = self;
        match written {
            Ok(_filled) => Ok(ending),
            Err(unkept) => {
                let told = tell_unkept(rt, request, unkept)?;
                Ok(Ending::refused(told.said()))
            }
        }
    }
}

/// Shows that an exploration was written to its files and printed, or that its failure was reported. Only
/// `Printed::of` makes this value. The field `target` is only for proofs, and takes no bytes at run time.
#[derive(Drop)]
pub struct Printed<'a, O> {
    request: &'a TaskRequest,
    target: Snapshot<O>,
    ending: Ending,
}

impl<'a, O: Output> Printed<'a, O> {
    /// Prints `text`, which describes the exploration of the scenario, if the exploration's files were written. If not,
    /// reports this instead.
    ///
    /// # Errors
    ///
    /// Fails with `AllocError` if a file was not written because memory ran out.
    pub fn of(
        rt: &HostRuntime,
        request: &'a TaskRequest,
        scenario: &[u8],
        kept: Result<Vec<KeptFile<'_, '_>>, Unkept>,
        text: &str,
        out: &mut O,
    ) -> Result<Printed<'a, O>, AllocError>
        requires { IsExplorationKept request.now.task scenario.now text.now kept }
        ensures request { IfOk result (λ done. done.request ≡ request.entry) }
        ensures target { IfOk result (λ done. done.target.value ≡ out.old) }
        ensures status { IfOk result (λ done. IsStatus done.ending.status) }
        ensures kept { IfOk result (λ done. done.ending.status ≡ 0 → IsOk kept.entry) }
        ensures unkept { IfErr kept.entry (λ _. out.new ≡ out.old) }
        ensures told { IfErr kept.entry (λ _. IfOk result (λ done. IsTurnedDown request.entry.now done.ending)) }
        ensures memory { IfErr kept.entry (λ unkept. unkept ≢ Unkept.Memory → IsOk result) }
        ensures printed { IfOk result
            (λ done. done.ending.status ≡ 0 → Appends (O.contents out.old) (O.contents out.new) text.now) }
        ensures unwritten { IfOk kept.entry (λ _. IfOk result
            (λ done. done.ending.is_unwritten ≡ true → (done.ending.status ≢ 0) × O.fails out.old)) }
        ensures written { IfOk kept.entry (λ _. IfOk result
            (λ done. done.ending.is_unwritten ≡ false → done.ending.status ≡ 0)) }
    {
        let target = Snapshot::of(&*out);
        let ending = match kept {
            Ok(_files) => Ending::printed(put_text(rt, request, text, out)),
            Err(unkept) => Ending::refused(tell_unkept(rt, request, unkept)?.said()),
        };
        Ok(Printed {
            request,
            target,
            ending,
        })
    }
}

impl<'a> Printed<'a, Target<'a>> {
    /// Returns how the request for this exploration ended.
    pub fn ending(self) -> Ending
        requires its_own { IsTargetOf (target_of self.request.now.task) self.target.value }
        ensures { result ≡ self.entry.ending }
    {
        let Printed { ending, .. } = self;
        ending
    }
}

/// Prints a text to the output `out`. If the output fails, reports this.
///
/// # Errors
///
/// Returns a record of the report if the output failed.
fn put_text<O: Output>(
    rt: &HostRuntime,
    request: &TaskRequest,
    text: &str,
    out: &mut O,
) -> Result<(), NotPrinted>
    ensures printed { OnOk result (Appends (O.contents out.old) (O.contents out.new) text.now) }
    ensures failed { OnErr result (O.fails out.old) }
    ensures line { IfErr result (λ told. told.line ≡ TaskFailure.Write) }
    ensures said { IfErr result (λ told. IsSaidOf request.now told.said) }
{
    match out.put(text.as_bytes()) {
        Ok(()) => Ok(()),
        Err(_) => Err(turn_down(rt, request, TaskFailure::Write)),
    }
}
