//! Writes a message table, or a scenario, that shows that the generals are too few for the majority or the median
//! (subcommand `refute`).
ghost use Rattle.std.specs.Prelude.{◌≡◌, ◌≤◌, IfOk, IfErr, IfSome, List, ℕ, string_bytes, true};
ghost use Rattle.bounds.specs.Refutation.{IsAsked, Refutes};
ghost use Rattle.cli_tasks.specs.Staging.{RefusesShown, ShowsRefutation, StagesRefutation, traitors_of};
ghost use Rattle.cli_tasks.specs.TableRefusals.{RefusesRefutation};

use crate::refusal::InputRefusal;
use arrayvec::ArrayVec;
use book::{Heard, read_table};
use bounds::{Story, first_broken};
use combine::Rule;
use std::alloc::Global;
use table_scenario::{is_short, scenario_of};

/// Returns the message table of the given story, which is one of three campaigns with at most m traitors. In one of the
/// three, lieutenants who combine orders by `rule` break IC1 or IC2. If no story is given, returns the table of the
/// first such campaign. The words `generals`, `bound` and `commander` give the number of generals, the bound m on the
/// traitors and the commander.
///
/// # Errors
///
/// Fails with `Table` if a table with these numbers would have a fault in its first line, with `Tolerated` if there are
/// more than 3m generals, and with `Memory` if memory runs out.
pub fn refuted(
    alloc: Global,
    generals: &str,
    bound: &str,
    commander: &str,
    rule: Rule,
    story: Option<Story>,
) -> Result<String, InputRefusal>
    ensures refutes { IfOk result
        (λ text. Refutes generals.now bound.now commander.now rule story (string_bytes text)) }
    ensures refused { IfErr result (RefusesRefutation generals.now bound.now commander.now) }
{
    Ok(bounds::refuted(alloc, generals, bound, commander, rule, story)?)
}

/// Returns what `refuted` returns or, if `staged` is true, that message table as a scenario. The traitors of its story
/// then have programs that send what the table says.
///
/// # Errors
///
/// Fails as `refuted` does and, if `staged` is true, with `LongScenario` if a program could be too long.
pub fn shown_refutation(
    alloc: Global,
    generals: &str,
    bound: &str,
    commander: &str,
    rule: Rule,
    story: Option<Story>,
    staged: bool,
) -> Result<String, InputRefusal>
    ensures shows { IfOk result
        (λ text. ShowsRefutation staged generals.now bound.now commander.now rule story (string_bytes text)) }
    ensures refused { IfErr result (RefusesShown staged generals.now bound.now commander.now) }
{
    let table = refuted(alloc, generals, bound, commander, rule, story)?;
    if !staged {
        return Ok(table);
    }
    staged_refutation(alloc, table.as_str(), rule, story)
}

/// Returns the scenario of the message table `source`, which `refuted` returned for this rule and this story.
fn staged_refutation(
    alloc: Global,
    source: &str,
    rule: Rule,
    asked: Option<Story>,
) -> Result<String, InputRefusal>
    ensures stages { (n m c : List ℕ) → Refutes n m c rule asked source.now →
        IfOk result (λ text. StagesRefutation n m c rule asked (string_bytes text)) }
    ensures refused { (n m c : List ℕ) → Refutes n m c rule asked source.now →
        IfErr result (RefusesShown true n m c) }
{
    let Ok(table) = read_table(alloc, source) else {
        return Err(InputRefusal::Memory);
    };
    let generals = table.generals();
    let bound = table.bound();
    let commander = table.commander();
    if !is_short(generals, bound) {
        return Err(InputRefusal::LongScenario);
    }
    let Some(story) = chosen(alloc, asked, generals, bound, commander, rule) else {
        return Err(InputRefusal::Memory);
    };
    let traitors = traitors_of(story, generals, commander);
    Ok(scenario_of(alloc, &table, traitors.as_slice())?)
}

/// Returns the story that is asked for or, if none is, the first that breaks the rule. Returns `None` if it is not
/// found, for example because memory runs out.
fn chosen(
    alloc: Global,
    asked: Option<Story>,
    generals: u8,
    bound: u8,
    commander: u8,
    rule: Rule,
) -> Option<Story>
    ensures { IfSome result (IsAsked asked rule generals commander bound) }
{
    match asked {
        Some(story) => Some(story),
        None => first_broken(alloc, generals, bound, commander, rule).ok(),
    }
}

/// Returns the traitors of a story among this many generals, at most 13, in ascending order.
fn traitors_of(story: Story, generals: u8, commander: u8) -> ArrayVec<u8, 13>
    requires { generals ≤ 13 }
    ensures { result.items ≡ traitors_of story generals commander }
{
    let mut traitors = ArrayVec::new();
    for general in 0..generals {
        if story.is_traitor(commander, general) {
            traitors.push(general);
        }
    }
    traitors
}
