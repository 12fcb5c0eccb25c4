//! Decides how a campaign with threads ends: with a result or with an error.
ghost use Rattle.std.specs.Prelude.{◌≡◌, ◌↔◌, ◌≤◌, Ok, Some, length, map, find, is_some, IfOk, IfErr};
ghost use Rattle.threads.specs.Answers.{halt_of};
ghost use Rattle.threads.specs.Outcomes.{error_by, first_failure, LacksMemory, LacksAccount, LacksThread, LacksRoom};
ghost use Rattle.threads.specs.declared.error.MusterError.TheVariants.{Memory, Unaccounted, Spawn, Post};

use crate::error::MusterError;
use crate::failed_muster::FailedMuster;
use crate::failure::Failure;
use crate::general_end::GeneralEnd;
use crate::halt::Halt;
use arrayvec::ArrayVec;

/// How the threads of a campaign have ended. Only `Ending::told` turns it into a result, and that looks at every
/// thread's end.
#[derive(Drop)]
pub(crate) struct Ending<T> {
    outcome: Result<T, Halt>,
    generals: ArrayVec<GeneralEnd, 13>,
}

impl<T: Drop> Ending<T> {
    /// Returns an ending. `outcome` is the result of the thread that called the muster, and `generals` says how the
    /// generals' threads have ended, ascending by general.
    pub(crate) fn new(outcome: Result<T, Halt>, generals: ArrayVec<GeneralEnd, 13>) -> Ending<T>
        ensures outcome { result.outcome ≡ outcome }
        ensures generals { result.generals ≡ generals }
    {
        Ending { outcome, generals }
    }

    /// Returns the result of the thread that called the muster, and how the generals' threads have ended.
    ///
    /// # Errors
    ///
    /// `Spawn` if not all threads were started, otherwise the error for the failure of the lowest general who failed,
    /// otherwise the error for what halted the thread that called the muster.
    pub(crate) fn told(self) -> Result<(T, ArrayVec<GeneralEnd, 13>), FailedMuster>
        ensures outcome { IfOk result (λ r. self.outcome ≡ Ok r.0) }
        ensures generals { IfOk result (λ r. r.1 ≡ self.generals) }
        ensures memory { IfErr result (λ failed. failed.error ≡ Memory ↔ LacksMemory failed.outcomes) }
        ensures unaccounted { IfErr result (λ failed. failed.error ≡ Unaccounted ↔ LacksAccount failed.outcomes) }
        ensures spawn { IfErr result (λ failed. failed.error ≡ Spawn ↔ LacksThread failed.outcomes) }
        ensures post { IfErr result (λ failed. failed.error ≡ Post ↔ LacksRoom failed.outcomes) }
        ensures halt { IfErr result (λ failed. failed.outcomes.halt ≡ halt_of self.outcome) }
        ensures ends { IfErr result (λ failed. failed.outcomes.generals ≡ self.generals) }
    {
        let Ending { outcome, generals } = self;
        let lowest = lowest_failure(generals.as_slice());
        match outcome {
            Ok(well) => match lowest {
                None => Ok((well, generals)),
                Some(failure) => Err(FailedMuster::new(failure.error(), None, generals)),
            },
            Err(halt) => Err(FailedMuster::new(error_of(&halt, lowest), Some(halt), generals)),
        }
    }
}

/// Returns the error to report if `halt` halted the thread that called the muster. `lowest` says why the lowest general
/// who failed has failed, if one has.
fn error_of(halt: &Halt, lowest: Option<Failure>) -> MusterError
    ensures { Some result ≡ error_by (Some halt.now) lowest }
{
    match (halt, lowest) {
        (Halt::Unstarted(_), _) => MusterError::Spawn,
        (_, Some(failure)) => failure.error(),
        (_, None) => halt.error(),
    }
}

/// Returns why the first general in this list who failed has failed, or `None` if none has.
fn lowest_failure(generals: &[GeneralEnd]) -> Option<Failure>
    requires { length generals.now ≤ 13 }
    ensures { result ≡ first_failure (map (λ end. end.failure) generals.now) }
{
    let failures = failures(generals);
    first_failed(failures.as_slice()).flatten()
}

/// Returns for each general why he has failed, or `None` if he has not.
fn failures(generals: &[GeneralEnd]) -> ArrayVec<Option<Failure>, 13>
    requires { length generals.now ≤ 13 }
    ensures { result.items ≡ map (λ end. end.failure) generals.now }
{
    let mut failures = ArrayVec::new();
    for end in generals {
        failures.push(end.failure);
    }
    failures
}

/// Returns the first element that is not `None`, or `None` if every element is `None`.
fn first_failed(failures: &[Option<Failure>]) -> Option<Option<Failure>>
    ensures { result ≡ find (λ failure. is_some failure) failures.now }
{
    failures.iter().copied().find(|failure| failure.is_some())
}
