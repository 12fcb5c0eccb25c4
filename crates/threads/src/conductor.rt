//! Conducts the rounds of a campaign: gives the generals their tasks, and takes their letters.
ghost use Rattle.std.specs.Prelude.{◌≡◌, ◌≢◌, ◌≤◌, ◌∷◌, [], suc, All, List, length, IfOk, IfErr};
ghost use Rattle.round.specs.Letters.{Letter as LetterSeen};
ghost use Rattle.world.specs.Kind.{each};
ghost use Rattle.threads.specs.Duties.{duty_of};
ghost use Rattle.threads.specs.Inboxes.{AreByGeneral, AreOwn};
ghost use Rattle.threads.specs.Outcomes.{halt_as, IfUnlike, IsHaltOf};
ghost use Rattle.threads.specs.declared.error.MusterError.TheVariants.{Spawn, Post as PostFull};

use crate::camp::Crew;
use crate::claim::Claim;
use crate::collector::Collector;
use crate::delivered::Delivered;
use crate::halt::Halt;
use crate::round_letters::receive;
use crate::task::Task;
use round::{Round, Scenario};
use shared_board::Room;
use std::alloc::{AllocError, Global};
use std::sync::Wait;

/// Conducts all rounds. In each round it gives the generals their tasks, waits until all have posted their letters, and
/// takes these out of the post. Returns the letters of all rounds, within a round ascending by general, and what they
/// have delivered.
///
/// # Errors
///
/// `Memory` if an allocation fails, `Failed` if a general has failed, `Strayed` if the letters taken are not those of
/// their round.
pub(crate) fn conduct<R: Wait, G, J: Room, C: Claim, D: Delivered>(
    rt: &R,
    alloc: Global,
    scenario: &Scenario,
    camp: &Crew<G, J, C>,
    mut collector: Collector,
) -> Result<(Vec<Round>, D), Halt>
    requires collector { collector.table ≡ camp.now.post.table }
    requires inboxes { scenario.now.generals ≤ length camp.now.inboxes.items }
    requires own { AreOwn camp.now.inboxes.items }
    requires tally { scenario.now.generals ≤ camp.now.tally.generals }
    ensures rounds { IfOk result (λ r. length r.0.items ≡ suc scenario.now.bound) }
    ensures told { IfOk result (λ r. D.was_told scenario.now r.0.items r.1) }
    ensures claims { IfOk result (λ r. All (λ letters. All C.holds letters) r.0.items) }
    ensures found { IfErr result (IsHaltOf D.kind scenario.now) }
    ensures unjudged { IfErr result (λ halt. IfUnlike halt (λ _. ⊥)) }
    ensures started { IfErr result (λ halt. halt_as halt ≢ Spawn) }
    ensures posted { IfErr result (λ halt. halt_as halt ≢ PostFull) }
{
    let rounds = scenario.bound() + 1;
    let mut told = D::begin(alloc, scenario)?;
    let mut rows = Vec::with_capacity(alloc, usize::from(rounds))?;
    for _round in 0..rounds {
        let tasks = tasks(alloc, scenario, &told)?;
        let out = camp.hand_out(rt, scenario, &told, tasks);
        let all = camp.tally.all_posted(rt, out)?;
        let (again, letters) = receive(rt, alloc, scenario, &told, &camp.post, collector, all)?;
        collector = again;
        told.add(alloc, scenario, letters.as_slice())?;
        rows.push(Round { letters })?;
    }
    Ok((rows, told))
}

/// Returns the generals' tasks in the next round, ascending by general. `told` is what the letters of the earlier
/// rounds have delivered.
///
/// # Errors
///
/// `AllocError` if an allocation fails.
fn tasks<D: Delivered>(
    alloc: Global,
    scenario: &Scenario,
    told: &D,
) -> Result<Vec<Task>, AllocError>
    requires told { (before : List (List LetterSeen)) × D.was_told scenario.now before told.now }
    requires left { D.count told.now ≤ scenario.now.bound }
    ensures count { IfOk result (λ tasks. length tasks.items ≡ scenario.now.generals) }
    ensures own { IfOk result (λ tasks. AreByGeneral tasks.items) }
    ensures duties { IfOk result (λ tasks. (before : List (List LetterSeen)) → D.was_told scenario.now before told.now
        → tasks.items ≡ each scenario.now.generals (λ g. duty_of D.kind scenario.now before g ∷ [])) }
{
    let generals = scenario.generals();
    let mut tasks = Vec::with_capacity(alloc, usize::from(generals))?;
    for general in 0..generals {
        tasks.push(told.task(alloc, scenario, general)?)?;
    }
    Ok(tasks)
}
