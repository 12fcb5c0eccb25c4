//! The program `surveyor`, which runs `./byzlab survey`: plays a campaign for each seed, and counts the outcomes.
#![tactic(auto)]

mod accounts;
mod breaches;
mod ending;
mod family;
mod fault;
mod file_sums;
mod flags;
mod input;
mod keeper;
mod kept_campaigns;
mod minimal_campaigns;
mod mistake;
mod numbers;
mod one_campaign;
mod pieces;
mod played_survey;
mod printer;
mod progress;
mod task;
mod task_words;
mod word_values;

ghost use Rattle.std.specs.Prelude.{◌≡◌, ◌⊎◌, List, Result, IfErr, IfOk};
ghost use Rattle.clap.specs.Words.{Text};
ghost use Rattle.surveyor.specs.Done.{IsAskedBy, IsUndone};
ghost use Rattle.surveyor.specs.Faults.{IsUnprinted};
ghost use Rattle.surveyor.specs.Flags.{words_of};
ghost use Rattle.surveyor.specs.declared.task.Asked.{Asked as Wish};
ghost use Rattle.surveyor.specs.declared.task.AskedError.{AskedError as NoWish};
ghost use Rattle.surveyor.specs.declared.fault.SurveyFailure.TheVariants.{Words as NotTextual};

use ending::SurveyEnding;
use fault::{SurveyFailure, tell};
use keeper::Disk;
use std::env;
use std::io::{Stderr, Stdout};
use std::process::ExitCode;
use std::thread::Threads;
use task::request;

fn main(rt: HostRuntime) -> ExitCode {
    let status = match called(&rt, &rt) {
        Ok(ending) => ending.status(),
        Err(fault) => tell(&fault, &mut rt.stderr()),
    };
    ExitCode::from(status)
}

/// Reads the command line, and does what it asks for. Returns how the call ended, a value that only `SurveyEnding::of`
/// makes.
///
/// # Errors
///
/// Fails if the command line is not UTF-8, if the task cannot be finished, or if memory runs out.
fn called<'a, T: Threads + Sync>(
    rt: &'a HostRuntime,
    threads: &T,
) -> Result<SurveyEnding<Stdout, Stderr, Disk<'a>>, SurveyFailure>
    ensures asked { IfOk result (λ ending. (words : List Text) × IsAskedBy words ending.asked) }
    ensures undone { IfErr result (λ fault. (fault ≡ NotTextual) ⊎ IsUnprinted fault
        ⊎ ((words : List Text) × (asked : Result Wish NoWish) × IsAskedBy words asked × IsUndone asked fault)) }
{
    let alloc = rt.alloc();
    let words: Vec<String> = env::args(rt)?.skip(1).collect(alloc)?;
    let mut texts: Vec<&str> = Vec::with_capacity(alloc, words.len())?;
    for word in &words {
        texts.push(word.as_str())?;
    }
    answered(rt, threads, texts.as_slice())
}

/// Does what the words of the command line ask for, or reports why they describe no task.
///
/// # Errors
///
/// Fails if the task cannot be finished, if help cannot be printed, or if memory runs out.
fn answered<'a, T: Threads + Sync>(
    rt: &'a HostRuntime,
    threads: &T,
    words: &[&str],
) -> Result<SurveyEnding<Stdout, Stderr, Disk<'a>>, SurveyFailure>
    ensures asked { IfOk result (λ ending. IsAskedBy (words_of words.now) ending.asked) }
    ensures undone { IfErr result (λ fault. (asked : Result Wish NoWish) × IsAskedBy (words_of words.now) asked × IsUndone asked fault) }
{
    let asked = request(rt.alloc(), words);
    let (mut out, mut error) = (rt.stdout(), rt.stderr());
    SurveyEnding::of(rt, threads, &mut out, &mut error, &mut Disk { rt }, asked)
}
