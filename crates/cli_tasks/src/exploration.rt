//! Plays a campaign once for each sequence of its accesses to the board, and counts which decisions result (subcommand
//! `explore`).
ghost use Rattle.std.specs.Prelude.{IfErr, IfOk, map, string_bytes};
ghost use Rattle.cli_tasks.specs.Exploring.{IsExplored, KeepsOrders, limit};
ghost use Rattle.cli_tasks.specs.Refusals.{RefusesScenario, RefusesText};

use crate::campaigns::campaign;
use crate::refusal::InputRefusal;
use campaign_orders::findings_agree;
use round::Scenario;
use std::alloc::{AllocError, Global};

/// Plays an oral campaign once for each sequence in which its accesses to the board can happen, and returns the
/// outcomes as text. If there are more than `most` sequences, only the first `most`, in lexicographic order, are
/// counted. If `most` is `None`, all are counted. Time and memory then grow with the number of worlds that can go on
/// differently.
///
/// # Errors
///
/// Fails with `AllocError` if memory runs out.
pub fn explored(alloc: Global, scenario: &Scenario, most: Option<u64>) -> Result<String, AllocError>
    ensures { IfOk result (λ text. IsExplored scenario.now (limit most) (string_bytes text)) }
{
    scenario.recall();
    findings_agree();
    campaign_orders::explored(alloc, scenario, most.unwrap_or(u64::MAX))
}

/// Reads an oral campaign, and returns the text that `explore` prints about it. Returns for each outcome also the text
/// of a schedule that leads to this outcome, in the order of the printed outcomes.
///
/// # Errors
///
/// Fails with `Scenario` for the first fault of the scenario, with `NotText` if the bytes are not UTF-8, and with
/// `Memory` if memory runs out.
#[tactic(auto, using(crate::proofs::ExploringLemmas::keeps_orders))]
pub fn with_schedules(
    alloc: Global,
    bytes: &[u8],
    most: Option<u64>,
) -> Result<(String, Vec<String>), InputRefusal>
    ensures kept { IfOk result
        (λ kept. KeepsOrders most bytes.now (string_bytes kept.0) (map string_bytes kept.1.items)) }
    ensures refused { IfErr result (RefusesText RefusesScenario bytes.now) }
{
    let scenario = campaign(alloc, bytes)?;
    Ok(campaign_orders::explored_with_schedules(alloc, &scenario, most.unwrap_or(u64::MAX))?)
}
