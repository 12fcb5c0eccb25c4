//! Collects the letters of a campaign from the generals' threads.
ghost use Rattle.std.specs.Prelude.{◌≡◌, ◌↔◌, ℕ, ◌<◌, ◌≤◌, [], suc, length, slice_index_or, vec_capacity, All, IsPermutation, IfOk, IfErr, IfSome, Err};
ghost use Rattle.round.specs.Letters.{Letter as LetterSeen};
ghost use Rattle.threads.specs.Seen.{PosterSeen, poster_seen};
ghost use Rattle.threads.specs.Answers.{AreAscending, HasAllStarted};
ghost use Rattle.threads.specs.Inboxes.{AreOwn};
ghost use Rattle.threads.specs.Outcomes.{LacksMemory, LacksAccount, LacksThread, LacksRoom, HasAnEndForEach, IfUnlike, IsHaltOf};
ghost use Rattle.threads.specs.Served.{IsGated};
ghost use Rattle.threads.specs.declared.error.MusterError.TheVariants.{Memory, Unaccounted, Spawn, Post};
ghost use Rattle.threads.specs.declared.halt.Halt.TheVariants.{Unstarted as NotStarted};

use crate::answers::{Unstarted, kept};
use crate::camp::{AllShut, Crew};
use crate::claim::Claim;
use crate::collector::Collector;
use crate::conductor::conduct;
use crate::delivered::Delivered;
use crate::ending::Ending;
use crate::failed_muster::FailedMuster;
use crate::gate::Gate;
use crate::general_end::GeneralEnd;
use crate::halt::Halt;
use crate::poster::Poster;
use crate::resident::Answer;
use arrayvec::ArrayVec;
use round::{Round, Scenario};
use shared_board::{Room, SharedBoard, Witness};
use std::alloc::{AllocError, Global};
use std::sync::Wait;
use std::thread;
use std::thread::{JoinHandle, Threads};

/// The letters of all rounds, within a round ascending by general, and what they have delivered.
type Conducted<D> = (Vec<Round>, D);

/// How the threads of the generals have ended, ascending by general.
type GeneralEnds = ArrayVec<GeneralEnd, 13>;

/// Returns the letters of all rounds, what they have delivered, and how the generals' threads have ended. Each general
/// has one thread for all rounds, with a stack of `stack` bytes. Before the function returns, all threads that were
/// started have ended.
///
/// # Errors
///
/// `FailedMuster` if a thread could not be started, a general has failed or not all rounds were conducted.
pub(crate) fn collect<
    R: Threads + Wait + Sync,
    G: Gate + Sync,
    J: Room + Send + Sync,
    C: Claim + Send + Sync,
    D: Delivered,
>(
    rt: &R,
    alloc: Global,
    scenario: &Scenario,
    gate: &G,
    board: &SharedBoard<J>,
    witnesses: Vec<Witness<J>>,
    stack: usize,
) -> Result<(Conducted<D>, GeneralEnds), FailedMuster>
    requires many { scenario.now.generals ≤ length witnesses.items }
    requires unserved { All (λ w. w.made ≡ 0) witnesses.items }
    requires claim { (l : LetterSeen) → IsGated (G.passed gate.now) l → C.holds l }
    ensures rounds { IfOk result (λ r. length r.0.0.items ≡ suc scenario.now.bound) }
    ensures told { IfOk result (λ r. D.was_told scenario.now r.0.0.items r.0.1) }
    ensures claims { IfOk result (λ r. All (λ letters. All C.holds letters) r.0.0.items) }
    ensures all { IfOk result (λ r. length r.1.items ≡ scenario.now.generals) }
    ensures ascending { IfOk result (λ r. AreAscending r.1.items) }
    ensures memory { IfErr result (λ failed. failed.error ≡ Memory ↔ LacksMemory failed.outcomes) }
    ensures unaccounted { IfErr result (λ failed. failed.error ≡ Unaccounted ↔ LacksAccount failed.outcomes) }
    ensures spawn { IfErr result (λ failed. failed.error ≡ Spawn ↔ LacksThread failed.outcomes) }
    ensures post { IfErr result (λ failed. failed.error ≡ Post ↔ LacksRoom failed.outcomes) }
    ensures ends { IfErr result (λ failed. HasAnEndForEach scenario.now.generals failed.outcomes) }
    ensures found { IfErr result (λ failed. IfSome failed.outcomes.halt (IsHaltOf D.kind scenario.now)) }
    ensures unjudged { IfErr result (λ failed. IfSome failed.outcomes.halt (λ halt. IfUnlike halt (λ _. ⊥))) }
{
    let (camp, posters, collector) = Crew::<G, J, C>::new(alloc, scenario.generals(), gate, board)?;
    let ending = through_residents::<R, G, J, C, D>(
        rt, alloc, scenario, &camp, posters, witnesses, collector, stack,
    )?;
    ending.told()
}

/// Starts a thread for each general that has a poster, conducts the rounds, and joins the threads. Returns how the
/// campaign ended.
///
/// # Errors
///
/// `AllocError` if an allocation fails before a thread is started.
fn through_residents<
    R: Threads + Wait + Sync,
    G: Gate + Sync,
    J: Room + Send + Sync,
    C: Claim + Send + Sync,
    D: Delivered,
>(
    rt: &R,
    alloc: Global,
    scenario: &Scenario,
    camp: &Crew<G, J, C>,
    mut posters: Vec<Poster>,
    mut witnesses: Vec<Witness<J>>,
    collector: Collector,
    stack: usize,
) -> Result<Ending<Conducted<D>>, AllocError>
    requires few { length posters.items ≤ 13 }
    requires witnesses { length posters.items ≤ length witnesses.items }
    requires unserved { All (λ w. w.made ≡ 0) witnesses.items }
    requires posters { (g : ℕ) (d : PosterSeen) → g < length posters.items →
        slice_index_or posters.items g d ≡ poster_seen camp.now.post.table g [] }
    requires inboxes { length posters.items ≤ length camp.now.inboxes.items }
    requires generals { scenario.now.generals ≤ length camp.now.inboxes.items }
    requires own { AreOwn camp.now.inboxes.items }
    requires tally { scenario.now.generals ≤ camp.now.tally.generals }
    requires collector { collector.table ≡ camp.now.post.table }
    requires claim { (l : LetterSeen) → IsGated (G.passed camp.now.gate.now) l → C.holds l }
    ensures all { IfOk result
        (λ ending. HasAllStarted ending.outcome → length ending.generals.items ≡ length posters.items) }
    ensures ascending { IfOk result (λ ending. AreAscending ending.generals.items) }
    ensures found { IfOk result (λ ending. IfErr ending.outcome (IsHaltOf D.kind scenario.now)) }
    ensures unjudged { IfOk result (λ ending. IfErr ending.outcome (λ halt. IfUnlike halt (λ _. ⊥))) }
    ensures rounds { IfOk result
        (λ ending. IfOk ending.outcome (λ r. length r.0.items ≡ suc scenario.now.bound)) }
    ensures told { IfOk result (λ ending. IfOk ending.outcome (λ r. D.was_told scenario.now r.0.items r.1)) }
    ensures claims { IfOk result
        (λ ending. IfOk ending.outcome (λ r. All (λ letters. All C.holds letters) r.0.items)) }
{
    let mut handles = Vec::with_capacity(alloc, posters.len())?;
    let ending = thread::scope(
        thread::scope_env(),
        rt,
        |scope| -> Ending<Conducted<D>>
            requires fresh { handles.items ≡ [] }
            requires room { length posters.items ≤ vec_capacity handles }
            requires few { length posters.items ≤ 13 }
            requires witnesses { length posters.items ≤ length witnesses.items }
            requires unserved { All (λ w. w.made ≡ 0) witnesses.items }
            requires posters { (g : ℕ) (d : PosterSeen) → g < length posters.items →
                slice_index_or posters.items g d ≡ poster_seen camp.now.post.table g [] }
            requires inboxes { length posters.items ≤ length camp.now.inboxes.items }
            requires generals { scenario.now.generals ≤ length camp.now.inboxes.items }
            requires own { AreOwn camp.now.inboxes.items }
            requires tally { scenario.now.generals ≤ camp.now.tally.generals }
            requires collector { collector.table ≡ camp.now.post.table }
            requires claim { (l : LetterSeen) → IsGated (G.passed camp.now.gate.now) l → C.holds l }
            ensures all { HasAllStarted result.outcome → length result.generals.items ≡ length posters.entry.items }
            ensures ascending { AreAscending result.generals.items }
            ensures found { IfErr result.outcome (IsHaltOf D.kind scenario.entry.now) }
            ensures unjudged { IfErr result.outcome (λ halt. IfUnlike halt (λ _. ⊥)) }
            ensures rounds { IfOk result.outcome (λ r. length r.0.items ≡ suc scenario.entry.now.bound) }
            ensures told { IfOk result.outcome (λ r. D.was_told scenario.entry.now r.0.items r.1) }
            ensures claims { IfOk result.outcome (λ r. All (λ letters. All C.holds letters) r.0.items) }
        {
            let mut unstarted = None;
            while let Some(poster) = posters.pop() {
                let Some(me) = witnesses.pop() else {
                    unreachable!()
                };
                let resident = camp.resident(posters.len() as u8);
                let started = thread::Builder::new().stack_size(stack).spawn_scoped(
                    scope,
                    move || -> Answer
                        requires post { poster.table ≡ camp.now.post.table }
                        requires general { poster.general ≡ resident.general }
                        requires tally { resident.tally.now ≡ camp.now.tally }
                        requires unposted { poster.posted ≡ [] }
                        requires unserved { me.made ≡ 0 }
                        requires claim { (l : LetterSeen) → IsGated (G.passed resident.gate.now) l → C.holds l }
                    { resident.stay(rt, alloc, &camp.post, poster, me) },
                );
                unstarted = kept(&mut handles, started);
                if unstarted.is_some() {
                    break;
                }
            }
            finish(rt, alloc, scenario, camp, collector, handles, unstarted)
        },
    );
    Ok(ending)
}

/// Conducts the rounds if all threads were started (`unstarted` is `None`), closes the inboxes, and joins the threads.
/// Returns how the campaign ended.
fn finish<R: Threads + Wait, G, J: Room, C: Claim, D: Delivered>(
    rt: &R,
    alloc: Global,
    scenario: &Scenario,
    camp: &Crew<G, J, C>,
    collector: Collector,
    handles: Vec<JoinHandle<Answer>>,
    unstarted: Option<Unstarted>,
) -> Ending<Conducted<D>>
    requires collector { collector.table ≡ camp.now.post.table }
    requires inboxes { scenario.now.generals ≤ length camp.now.inboxes.items }
    requires own { AreOwn camp.now.inboxes.items }
    requires tally { scenario.now.generals ≤ camp.now.tally.generals }
    requires threads { length handles.items ≤ length camp.now.inboxes.items }
    requires few { length handles.items ≤ 13 }
    ensures unstarted { IfSome unstarted (λ evidence. result.outcome ≡ Err (NotStarted evidence)) }
    ensures all { length result.generals.items ≡ length handles.items }
    ensures ascending { AreAscending result.generals.items }
    ensures found { IfErr result.outcome (IsHaltOf D.kind scenario.now) }
    ensures unjudged { IfErr result.outcome (λ halt. IfUnlike halt (λ _. ⊥)) }
    ensures rounds { IfOk result.outcome (λ r. length r.0.items ≡ suc scenario.now.bound) }
    ensures told { IfOk result.outcome (λ r. D.was_told scenario.now r.0.items r.1) }
    ensures claims { IfOk result.outcome (λ r. All (λ letters. All C.holds letters) r.0.items) }
{
    let outcome = conducted(rt, alloc, scenario, camp, collector, unstarted);
    let shut = camp.close(rt);
    Ending::new(outcome, by_general(joined(rt, shut, handles)))
}

/// Conducts the rounds if all threads were started (`unstarted` is `None`). Returns the letters of all rounds, and what
/// they have delivered.
///
/// # Errors
///
/// `Unstarted` if a thread was not started, otherwise the errors of `conduct`.
fn conducted<R: Wait, G, J: Room, C: Claim, D: Delivered>(
    rt: &R,
    alloc: Global,
    scenario: &Scenario,
    camp: &Crew<G, J, C>,
    collector: Collector,
    unstarted: Option<Unstarted>,
) -> Result<Conducted<D>, Halt>
    requires collector { collector.table ≡ camp.now.post.table }
    requires inboxes { scenario.now.generals ≤ length camp.now.inboxes.items }
    requires own { AreOwn camp.now.inboxes.items }
    requires tally { scenario.now.generals ≤ camp.now.tally.generals }
    ensures unstarted { IfSome unstarted (λ evidence. result ≡ Err (NotStarted evidence)) }
    ensures found { IfErr result (IsHaltOf D.kind scenario.now) }
    ensures unjudged { IfErr result (λ halt. IfUnlike halt (λ _. ⊥)) }
    ensures rounds { IfOk result (λ r. length r.0.items ≡ suc scenario.now.bound) }
    ensures told { IfOk result (λ r. D.was_told scenario.now r.0.items r.1) }
    ensures claims { IfOk result (λ r. All (λ letters. All C.holds letters) r.0.items) }
{
    match unstarted {
        Some(evidence) => Err(Halt::Unstarted(evidence)),
        None => conduct(rt, alloc, scenario, camp, collector),
    }
}

/// Joins the threads of `handles`, and returns how they have ended. `shut` is evidence that as many inboxes were closed
/// as there are threads, or more, so that the threads end.
fn joined<R: Threads>(rt: &R, shut: AllShut, mut handles: Vec<JoinHandle<Answer>>) -> GeneralEnds
    requires shut { length handles.items ≤ shut.inboxes }
    requires few { length handles.items ≤ 13 }
    ensures { length result.items ≡ length handles.items }
{
    let mut ends = ArrayVec::new();
    while let Some(handle) = handles.pop() {
        ends.push(handle.join(rt).end());
    }
    ends
}

/// Sorts the ends of threads by general, ascending.
fn by_general(mut ends: GeneralEnds) -> GeneralEnds
    ensures same { IsPermutation ends.items result.items }
    ensures count { length result.items ≡ length ends.items }
    ensures ascending { AreAscending result.items }
{
    ends.sort_unstable_by_key(|end| end.general);
    ends
}
