//! Decides whether traitors, whatever they say, break a rule (subcommand `exhaust`).
ghost use Rattle.std.specs.Prelude.{◌≡◌, ◌++◌, ◌≤◌, IfOk, IfErr, string_bytes, true};
ghost use Rattle.lies.specs.Estimate.{steps as steps_of, stored};
ghost use Rattle.cli_tasks.specs.Searches.{Exhausts, RefusesSearch, broken_line, most_steps};
ghost use Rattle.cli_tasks.specs.Staging.{IsBreakText};
ghost use Rattle.cli_tasks.specs.declared.refusal.InputRefusal.TheVariants.{Memory};

use crate::refusal::InputRefusal;
use book::read_table;
use combine::Rule;
use lies::{BreakTable, estimate, most_places, shortest_break};
use std::alloc::{AllocError, Global};
use table_scenario::{is_short, scenario_of};

/// The most steps that a search may take by its estimate.
const MOST_STEPS: u64 = 100_000_000;

/// Searches all that at most `most` traitors can say for a break of IC1 or IC2 by OM(m) with the rule. `bound` is m.
/// Without a commander, each general commands in turn. Returns the line that says that there is no break, or the
/// traitors and the message table of a shortest one. If `staged` is true, returns this table as a scenario.
///
/// # Errors
///
/// Fails with `Table` if the numbers are out of the limits of a message table, with `LongSearch` if the search takes
/// more than 100,000,000 steps by its estimate, with `LongScenario` if `staged` is true and the program of a traitor
/// could be too long, and with `Memory` if memory runs out.
pub fn exhausted(
    alloc: Global,
    generals: u8,
    bound: u8,
    most: u8,
    commander: Option<u8>,
    rule: Rule,
    staged: bool,
) -> Result<String, InputRefusal>
    ensures decides { IfOk result (λ text. Exhausts generals bound most commander rule staged (string_bytes text)) }
    ensures reach { IfOk result (λ _. stored (steps_of generals bound commander most) ≤ most_steps) }
    ensures refused { IfErr result (RefusesSearch generals bound most commander staged) }
{
    let steps = estimate(generals, bound, commander, most);
    if MOST_STEPS < steps {
        return Err(InputRefusal::LongSearch { steps });
    }
    if staged && !is_short(generals, bound) {
        return Err(InputRefusal::LongScenario);
    }
    match shortest_break(alloc, generals, bound, commander, rule, most)? {
        Some(found) => shown(alloc, &found, staged),
        None => {
            let places = most_places(generals, bound, most);
            Ok(format!(in alloc; "none of 2^{places}\n")?)
        }
    }
}

/// Returns the text that shows a break: its traitors and its message table or, if `staged` is true, its scenario.
fn shown(alloc: Global, found: &BreakTable, staged: bool) -> Result<String, InputRefusal>
    ensures shows { IfOk result (λ text. IsBreakText staged (broken_line found.now.traitors.items)
        found.now.traitors.items (string_bytes found.now.table) (string_bytes text)) }
    ensures refused { IfErr result (λ refusal. refusal ≡ Memory) }
{
    if staged {
        return staged_break(alloc, found);
    }
    Ok(broken(alloc, found)?)
}

/// Returns the scenario of a break.
fn staged_break(alloc: Global, found: &BreakTable) -> Result<String, InputRefusal>
    ensures shows { IfOk result (λ text. IsBreakText true (broken_line found.now.traitors.items)
        found.now.traitors.items (string_bytes found.now.table) (string_bytes text)) }
    ensures refused { IfErr result (λ refusal. refusal ≡ Memory) }
{
    let Ok(table) = read_table(alloc, found.table.as_str()) else {
        return Err(InputRefusal::Memory);
    };
    Ok(scenario_of(alloc, &table, found.traitors.as_slice())?)
}

/// Returns the line that names the traitors of a break, and the lines of its message table.
fn broken(alloc: Global, found: &BreakTable) -> Result<String, AllocError>
    ensures { IfOk result (λ text. string_bytes text
        ≡ broken_line found.now.traitors.items ++ string_bytes found.now.table) }
{
    let mut text = format!(in alloc; "broken traitors")?;
    for general in found.traitors.as_slice() {
        write!(text, " {general}")?;
    }
    text.push_str("\n")?;
    text.push_str(found.table.as_str())?;
    Ok(text)
}
