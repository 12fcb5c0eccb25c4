//! Takes the letters of a round out of the post, and checks that they are of that round.
ghost use Rattle.std.specs.Prelude.{◌≡◌, ◌≢◌, ◌≤◌, ◌++◌, suc, All, List, IsPermutation, IsSortedByKey, IfOk, OnOk, IfErr};
ghost use Rattle.std.specs.Ordering.{nat_cmp};
ghost use Rattle.round.specs.Letters.{Letter as LetterSeen};
ghost use Rattle.round.specs.Origin.{AreLettersOf};
ghost use Rattle.threads.specs.Answers.{HasStrayedIn};
ghost use Rattle.threads.specs.Outcomes.{halt_as, IfUnlike, IsHaltOf};
ghost use Rattle.threads.specs.declared.error.MusterError.TheVariants.{Spawn, Post as PostFull};

use crate::claim::Claim;
use crate::collector::Collector;
use crate::delivered::Delivered;
use crate::halt::Halt;
use crate::post::PostOf;
use crate::tally::AllPosted;
use round::{Letter, Scenario, are_letters_of};
use std::alloc::{AllocError, Global};
use std::snapshot::Snapshot;
use std::sync::Wait;

/// Evidence that the letters taken for a round are not exactly one letter of that round for each general. Only
/// `of_round` creates one.
#[derive(Drop)]
pub struct Strayed {
    /// The round for which the letters were taken.
    round: u32,
    /// A snapshot of these letters.
    letters: Snapshot<Vec<Letter>>,
}

/// Takes the letters of the next round out of the post, and returns the collector and these letters, ascending by
/// general. `all` is evidence that every general has posted.
///
/// # Errors
///
/// `Memory` if an allocation fails, `Strayed` if the letters are not exactly one letter of that round for each general.
pub(crate) fn receive<R: Wait, C: Claim, D: Delivered>(
    rt: &R,
    alloc: Global,
    scenario: &Scenario,
    told: &D,
    post: &PostOf<C>,
    collector: Collector,
    all: AllPosted<D>,
) -> Result<(Collector, Vec<Letter>), Halt>
    requires collector { collector.table ≡ post.now.table }
    requires all { scenario.now.generals ≤ all.letters }
    requires scenario { all.out.scenario.value ≡ scenario.now }
    requires told { all.out.told.value ≡ told.now }
    requires given { (all.out.given.from ≡ 0) × (all.out.given.tasks ≡ scenario.now.generals) }
    ensures post { IfOk result (λ r. r.0.table ≡ post.now.table) }
    ensures letters { IfOk result (λ r. AreLettersOf scenario.now (suc (D.count told.now)) r.1.items) }
    ensures ascending { IfOk result (λ r. IsSortedByKey (λ (letter : LetterSeen). letter.general) nat_cmp r.1.items) }
    ensures taken { IfOk result (λ r. (came : List LetterSeen) × (r.0.taken ≡ collector.taken ++ came)
        × IsPermutation came r.1.items) }
    ensures claims { IfOk result (λ r. All C.holds r.1.items) }
    ensures strayed { IfErr result (HasStrayedIn (suc (D.count told.now))) }
    ensures found { IfErr result (IsHaltOf D.kind scenario.now) }
    ensures unjudged { IfErr result (λ halt. IfUnlike halt (λ _. ⊥)) }
    ensures started { IfErr result (λ halt. halt_as halt ≢ Spawn) }
    ensures posted { IfErr result (λ halt. halt_as halt ≢ PostFull) }
{
    let (collector, letters) = take_letters(rt, alloc, post, collector, all)?;
    let letters = of_round(scenario, u32::from(told.rounds()) + 1, letters)?;
    Ok((collector, letters))
}

/// Returns `letters` if they are the letters of this round, one for each general.
///
/// # Errors
///
/// `Strayed` if they are not.
fn of_round(scenario: &Scenario, round: u32, letters: Vec<Letter>) -> Result<Vec<Letter>, Strayed>
    ensures same { IfOk result (λ own. own.items ≡ letters.items) }
    ensures placed { OnOk result (AreLettersOf scenario.now round letters.items) }
    ensures strayed { IfErr result (λ strayed. ¬ AreLettersOf scenario.now strayed.round strayed.letters.value.items) }
    ensures round { IfErr result (λ strayed. strayed.round ≡ round) }
{
    if are_letters_of(scenario, round, letters.as_slice()) {
        Ok(letters)
    } else {
        Err(Strayed {
            round,
            letters: Snapshot::of(&letters),
        })
    }
}

/// Takes letters out of the post until it is empty, and returns the collector and these letters, ascending by general.
/// The contract does not promise that they are those of one round, since the caller checks that.
///
/// # Errors
///
/// `AllocError` if an allocation fails.
fn take_letters<R: Wait, C: Claim, D: Drop>(
    rt: &R,
    alloc: Global,
    post: &PostOf<C>,
    mut collector: Collector,
    all: AllPosted<D>,
) -> Result<(Collector, Vec<Letter>), AllocError>
    requires { collector.table ≡ post.now.table }
    ensures post { IfOk result (λ r. r.0.table ≡ post.now.table) }
    ensures taken { IfOk result (λ r. (came : List LetterSeen) × (r.0.taken ≡ collector.taken ++ came)
        × IsPermutation came r.1.items) }
    ensures claims { IfOk result (λ r. All C.holds r.1.items) }
    ensures ascending { IfOk result (λ r. IsSortedByKey (λ (letter : LetterSeen). letter.general) nat_cmp r.1.items) }
{
    let mut letters = Vec::with_capacity(alloc, all.letters())?;
    for _ in rt.forever() {
        let (again, taken) = post.take(rt, collector);
        collector = again;
        let Some(letter) = taken else {
            break;
        };
        letters.push(letter)?;
    }
    Ok((collector, by_general(letters)))
}

/// Sorts the letters by general, ascending.
fn by_general(mut letters: Vec<Letter>) -> Vec<Letter>
    ensures same { IsPermutation letters.items result.items }
    ensures ascending { IsSortedByKey (λ (letter : LetterSeen). letter.general) nat_cmp result.items }
{
    letters.sort_unstable_by_key(|letter| letter.general);
    letters
}
