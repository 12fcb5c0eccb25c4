//! `--shrink`: reduces the broken campaigns of a survey as far as possible, and prints the least result.
ghost use Rattle.std.specs.Prelude.{◌≡◌, List, ℕ, IfErr, IfOk, OnOk, count_by, flat_map, is_some, length, option_map, string_bytes};
ghost use Rattle.std.specs.Io.KnownBytes.{Appends};
ghost use Rattle.surveys.specs.Breaches.{IsRefusedIn};
ghost use Rattle.surveys.specs.Plotting.{plot_of};
ghost use Rattle.surveyor.specs.Asked.{IsSurvey};
ghost use Rattle.surveyor.specs.Ends.{IsStopped};
ghost use Rattle.surveyor.specs.Faults.{IsKeptIn, IsUnkeptIn};
ghost use Rattle.surveyor.specs.Kept.{Gains, breach_file, breach_files};
ghost use Rattle.surveyor.specs.Printed.{IsLeastKept, IsShrunken, least_head, least_text};

use crate::fault::SurveyFailure;
use crate::keeper::Keeper;
use crate::pieces::{at_once, refused};
use crate::printer::print;
use crate::progress::SurveyProgress;
use crate::task::Survey;
use std::alloc::{AllocError, Global};
use std::thread::Threads;
use streams::Output;
use surveys::{Breach, Family, Plot, better, breaches, least, plot_text, statements};

/// Plays the campaign of each seed. From each broken one removes traitors and statements of theirs, such as an order to
/// a general, as long as it stays broken. Prints the least of the reduced campaigns.
///
/// # Errors
///
/// Fails if a campaign is rejected, if the output or a campaign's file cannot be written, or if memory runs out.
#[tactic(auto, using(crate::proofs::FaultLemmas::stopped_printing, crate::proofs::FaultLemmas::stopped_by_memory))]
pub fn shrunken<T: Threads + Sync, O: Output, K: Keeper>(
    rt: &HostRuntime,
    threads: &T,
    out: &mut O,
    keeper: &mut K,
    asked: &Survey,
    family: &Family,
) -> Result<(), SurveyFailure>
    requires { IsSurvey asked.now }
    ensures printed { OnOk result ((text : List ℕ) × (files : List (List ℕ × List ℕ))
        × IsShrunken asked.now family.now text files × Appends (O.contents out.old) (O.contents out.new) text
        × Gains (K.files keeper.old) (K.files keeper.new) files) }
    ensures stopped { IfErr result (IsStopped asked.now (IsRefusedIn (plot_of family.now))) }
{
    let least = least_left(rt, threads, keeper, asked, family)?;
    print(out, least_text(rt.alloc(), least.as_ref())?.as_str())
}

/// Plays the campaign of each seed and reduces the broken ones. Writes the reduced campaigns to the survey's folder, if
/// it has one, and returns the least of them. Returns `None` if no campaign is broken.
///
/// # Errors
///
/// Fails if a campaign is rejected, if a campaign's file cannot be written, or if memory runs out.
#[tactic(auto, using(crate::proofs::FaultLemmas::stopped_keeping, crate::proofs::FaultLemmas::stopped_by_memory, crate::proofs::FaultLemmas::stopped_campaign))]
fn least_left<T: Threads + Sync, K: Keeper>(
    rt: &HostRuntime,
    threads: &T,
    keeper: &mut K,
    asked: &Survey,
    family: &Family,
) -> Result<Option<Breach>, SurveyFailure>
    requires { IsSurvey asked.now }
    ensures least { IfOk result
        (IsLeastKept asked.now family.now (K.files keeper.old) (K.files keeper.new)) }
    ensures stopped { IfErr result (IsStopped asked.now (IsRefusedIn (plot_of family.now))) }
{
    let alloc = rt.alloc();
    let end = asked.last + 1;
    let many = at_once(13);
    let mut so_far: Option<Breach> = None;
    let mut broken: u64 = 0;
    let mut next = asked.first;
    let mut progress = SurveyProgress::of(rt, asked.first, asked.last);
    while next < end {
        let until = next.saturating_add(many).min(end);
        let found = match breaches(threads, alloc, family, next, until) {
            Ok(found) => found,
            Err(error) => return Err(refused(next, until, error)),
        };
        keep_all(rt, keeper, asked, found.as_slice())?;
        broken = broken.saturating_add(count_broken(found.as_slice()));
        so_far = better(so_far, least(found));
        next = until;
        progress.tell(next.saturating_sub(1), broken)?;
    }
    Ok(so_far)
}

/// Returns how many campaigns are broken. `found` has an entry for each campaign, which is `None` if it is not broken.
fn count_broken(found: &[Option<Breach>]) -> u64
    ensures { result ≡ count_by is_some found.now }
{
    found.iter().filter(|breach| breach.is_some()).count() as u64
}

/// Writes the reduced campaigns to the folder of `--keep`. Does nothing if the survey has no such folder.
///
/// # Errors
///
/// Fails if a file cannot be written, or if memory runs out.
#[tactic(auto, using(crate::proofs::FaultLemmas::kept_where, crate::proofs::KeptLemmas::none_gained))]
fn keep_all<K: Keeper>(
    rt: &HostRuntime,
    keeper: &mut K,
    asked: &Survey,
    found: &[Option<Breach>],
) -> Result<(), SurveyFailure>
    ensures kept { OnOk result
        (Gains (K.files keeper.old) (K.files keeper.new) (breach_files asked.now.keep found.now)) }
    ensures unkept { IfErr result (IsKeptIn (is_some asked.now.keep)) }
{
    match &asked.keep {
        Some(folder) => keep_in(rt, keeper, folder.as_str(), found),
        None => Ok(()),
    }
}

/// Writes the reduced campaigns to the folder named `folder`, each to the file SEED.toml.
///
/// # Errors
///
/// Fails if a file cannot be written, or if memory runs out.
fn keep_in<K: Keeper>(
    rt: &HostRuntime,
    keeper: &mut K,
    folder: &str,
    found: &[Option<Breach>],
) -> Result<(), SurveyFailure>
    ensures kept { OnOk result
        (Gains (K.files keeper.old) (K.files keeper.new) (flat_map (breach_file folder.now) found.now)) }
    ensures unkept { IfErr result IsUnkeptIn }
{
    for breach in found {
        keep_one(rt, keeper, folder, breach.as_ref())?;
    }
    Ok(())
}

/// Writes a reduced campaign to the file SEED.toml in the folder named `folder`. Does nothing if there is no such
/// campaign because the seed's campaign was not broken.
///
/// # Errors
///
/// Fails if the file cannot be written, or if memory runs out.
#[tactic(auto, using(crate::proofs::FaultLemmas::unkept_one, crate::proofs::FaultLemmas::unkept_by_memory, crate::proofs::KeptLemmas::none_gained))]
fn keep_one<K: Keeper>(
    rt: &HostRuntime,
    keeper: &mut K,
    folder: &str,
    breach: Option<&Breach>,
) -> Result<(), SurveyFailure>
    ensures kept { OnOk result (Gains (K.files keeper.old) (K.files keeper.new)
        (breach_file folder.now (option_map (λ breach. breach.now) breach.entry))) }
    ensures unkept { IfErr result IsUnkeptIn }
{
    let Some(breach) = breach else {
        return Ok(());
    };
    let text = plot_text(rt.alloc(), &breach.plot)?;
    keeper.keep(folder, breach.seed, text.as_str())?;
    Ok(())
}

/// Returns how many traitors a campaign has.
fn traitors_in(plot: &Plot) -> usize
    ensures { result ≡ length plot.now.traitors }
{
    plot.traitors.len()
}

/// Returns the comment line that is printed before a reduced campaign, such as `# seed 5: 1 traitors, 2 statements`.
fn least_head(
    alloc: Global,
    seed: u64,
    traitors: usize,
    statements: u128,
) -> Result<String, AllocError>
    ensures { IfOk result (λ text. string_bytes text ≡ least_head seed traitors statements) }
{
    format!(in alloc; "# seed {seed}: {traitors} traitors, {statements} statements\n")
}

/// Returns the least reduced campaign as the text of a scenario, after a comment line such as `# seed 5: 1 traitors, 2
/// statements`. If no campaign is broken, returns only a comment that says so.
fn least_text(alloc: Global, least: Option<&Breach>) -> Result<String, AllocError>
    ensures { IfOk result (λ text. string_bytes text ≡ least_text (option_map (λ breach. breach.now) least.entry)) }
{
    let Some(breach) = least else {
        return String::from_str(alloc, "# no campaign is broken\n");
    };
    let plot = &breach.plot;
    let mut out = least_head(alloc, breach.seed, traitors_in(plot), statements(plot))?;
    out.push_str(plot_text(alloc, plot)?.as_str())?;
    Ok(out)
}
