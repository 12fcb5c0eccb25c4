//! How a call of the program ended: what its command line asked for, and the exit status.
ghost use Rattle.std.specs.Prelude.{◌≡◌, IfErr, IfOk};
ghost use Rattle.std.specs.Fmt.{with_newline};
ghost use Rattle.surveyor.specs.Asked.{IsAsked};
ghost use Rattle.surveyor.specs.Done.{IsDone, IsUndone};
ghost use Rattle.surveyor.specs.Statuses.{IsRefusedByClap, IsReported, IsUnasked, IsUnhelped, IsUnhelpedBy, complaint};

use crate::breaches::broken;
use crate::fault::SurveyFailure;
use crate::file_sums::summed;
use crate::keeper::Keeper;
use crate::mistake::print_mistake;
use crate::one_campaign::print_campaign;
use crate::played_survey::surveyed;
use crate::printer::unprinted;
use crate::task::{Asked, AskedError};
use std::marker::PhantomData;
use std::thread::Threads;
use streams::Output;

/// How a call of the program ended. Only functions of this file make this value, after they did the task. `O` is the
/// type of standard output, `F` of standard error, and `K` of the keeper, which stores campaigns as files.
#[derive(Drop)]
pub struct SurveyEnding<O, F, K> {
    /// What the command line asks for, or why it asks for no task.
    asked: Result<Asked, AskedError>,
    /// The exit status of the program.
    status: u8,
    output: PhantomData<O>,
    error: PhantomData<F>,
    keeper: PhantomData<K>,
}

impl<O: Output, F: Output, K: Keeper> SurveyEnding<O, F, K> {
    /// Does the task that `asked` describes, and returns how the call ended. If `asked` is an error, reports it on
    /// `error`, which is standard error. `out` is standard output, and `keeper` stores campaigns as files.
    ///
    /// # Errors
    ///
    /// Fails if the task cannot be finished, if help cannot be printed, or if memory runs out.
    pub fn of<T: Threads + Sync>(
        rt: &HostRuntime,
        threads: &T,
        out: &mut O,
        error: &mut F,
        keeper: &mut K,
        asked: Result<Asked, AskedError>,
    ) -> Result<SurveyEnding<O, F, K>, SurveyFailure>
        requires { IfOk asked IsAsked }
        ensures asked { IfOk result (λ ending. ending.asked ≡ asked) }
        ensures done { IfOk result (λ ending.
            IsDone asked (O.contents out.old) (O.contents out.new) (K.files keeper.old) (K.files keeper.new)
            (IsReported (F.fails error.old) (F.contents error.old) (F.contents error.new)) ending.status) }
        ensures undone { IfErr result (IsUndone asked) }
    {
        let status = done(rt, threads, out, error, keeper, &asked)?;
        Ok(SurveyEnding {
            asked,
            status,
            output: PhantomData,
            error: PhantomData,
            keeper: PhantomData,
        })
    }

    /// Returns the exit status of the program.
    pub fn status(&self) -> u8
        ensures { result ≡ self.now.status }
    {
        self.status
    }
}

/// Does the task that `asked` describes, and returns the exit status. If `asked` is an error, reports it on `error`,
/// which is standard error.
///
/// # Errors
///
/// Fails if the task cannot be finished, if help cannot be printed, or if memory runs out.
fn done<T: Threads + Sync, O: Output, F: Output, K: Keeper>(
    rt: &HostRuntime,
    threads: &T,
    out: &mut O,
    error: &mut F,
    keeper: &mut K,
    asked: &Result<Asked, AskedError>,
) -> Result<u8, SurveyFailure>
    requires { IfOk asked.now IsAsked }
    ensures done { IfOk result
        (IsDone asked.now (O.contents out.old) (O.contents out.new) (K.files keeper.old) (K.files keeper.new)
        (IsReported (F.fails error.old) (F.contents error.old) (F.contents error.new))) }
    ensures undone { IfErr result (IsUndone asked.now) }
{
    match asked {
        Ok(Asked::Survey(survey)) => {
            surveyed(rt, threads, out, keeper, survey)?;
            Ok(0)
        }
        Ok(Asked::Campaign(campaign)) => {
            print_campaign(rt, out, campaign)?;
            Ok(0)
        }
        Ok(Asked::Break(survey, is_table)) => {
            broken(rt, threads, out, survey, *is_table)?;
            Ok(0)
        }
        Ok(Asked::Merge(merge)) => summed(rt, out, error, merge),
        Err(why) => unasked(rt, error, why),
    }
}

/// Reports on `error`, which is standard error, why the command line describes no task, or prints help if it asks for
/// help. Returns the exit status: 2, or 0 for help.
///
/// # Errors
///
/// Fails if help cannot be printed, or if memory ran out.
fn unasked<F: Output>(
    rt: &HostRuntime,
    error: &mut F,
    why: &AskedError,
) -> Result<u8, SurveyFailure>
    ensures status { IfOk result (IsUnasked why.now) }
    ensures told { IfOk result (λ _. IsReported (F.fails error.old) (F.contents error.old) (F.contents error.new)
        (with_newline (complaint why.now))) }
    ensures unhelped { IfErr result (IsUnhelped why.now) }
{
    match why {
        AskedError::Words(refusal) => printed(rt, refusal),
        AskedError::Memory => Err(SurveyFailure::Memory),
        why => {
            let _ = error.tell(why);
            Ok(2)
        }
    }
}

/// Prints why `clap` rejects the command line, or the help that it asks for. Returns the exit status: 2, or 0 for help.
///
/// # Errors
///
/// Fails if help cannot be printed, or if memory ran out.
fn printed(rt: &HostRuntime, refusal: &clap::Error) -> Result<u8, SurveyFailure>
    ensures status { IfOk result (IsRefusedByClap refusal.now) }
    ensures unhelped { IfErr result (IsUnhelpedBy refusal.now) }
{
    if refusal.use_stderr() {
        print_mistake(rt, refusal);
        return Ok(2);
    }
    match refusal.print(rt) {
        Ok(()) => Ok(0),
        Err(error) => Err(unprinted(error.kind())),
    }
}
