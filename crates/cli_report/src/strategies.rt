//! Reports that a traitor's table names a strategy that does not exist.
ghost use Rattle.std.specs.Prelude.{◌≡◌, IfOk, option_map, string_bytes};
ghost use Rattle.scenario.specs.Strategies.{strategy_names};
ghost use Rattle.cli_report.specs.Keys.{found_view};
ghost use Rattle.cli_report.specs.Nearest.{near};
ghost use Rattle.cli_report.specs.Report.{help_words};
ghost use Rattle.cli_report.specs.Strategies.{misnaming_line, misnaming_table, strategies_listed, strategy_help, strategy_sentence};

use crate::keys::{Found, find_line, quoted_value};
use crate::nearest_name::near;
use crate::report::Help;
use scenario::{ScenarioFault, ScenarioKey, ScenarioPlace, strategy_names};
use std::alloc::{AllocError, Global};

/// Returns the names of all strategies, separated by commas.
fn strategies_listed(alloc: Global) -> Result<String, AllocError>
    ensures { IfOk result (λ text. string_bytes text ≡ strategies_listed) }
{
    let names = strategy_names(alloc)?;
    names.as_slice().join(alloc, ", ")
}

/// Returns the error sentence for a value that is not the name of a strategy.
pub(crate) fn strategy_sentence(alloc: Global) -> Result<String, AllocError>
    ensures { IfOk result (λ text. string_bytes text ≡ strategy_sentence) }
{
    let names = strategies_listed(alloc)?;
    let names = names.as_str();
    format!(in alloc; "a strategy must be one of these texts, in quotation marks: {names}")
}

/// Returns the number of the traitor's table, counted from 0, that names an unknown strategy, or `None` for another
/// fault.
fn misnaming_table(fault: ScenarioFault, place: ScenarioPlace) -> Option<usize>
    ensures { result ≡ misnaming_table fault place }
{
    match (fault, place) {
        (ScenarioFault::Range, ScenarioPlace::Entry(index, ScenarioKey::Strategy)) => Some(index),
        _ => None,
    }
}

/// Returns the line of a scenario that names an unknown strategy, or `None` for another fault.
#[tactic(auto, unfolding(crate::specs::Strategies::misnaming_line))]
fn misnaming_line(fault: ScenarioFault, place: ScenarioPlace, text: &[u8]) -> Option<Found<'_>>
    ensures { option_map found_view result ≡ misnaming_line fault place text.now }
{
    let index = misnaming_table(fault, place)?;
    find_line(index as u128 + 1, b"strategy", text)
}

/// Returns the name of a strategy that is similar to `word`, or `None` if there is no such strategy.
fn near_strategy(alloc: Global, word: &[u8]) -> Result<Option<&'static str>, AllocError>
    ensures { IfOk result (λ name. option_map (λ n. n.now) name ≡ near word.now strategy_names) }
{
    let names = strategy_names(alloc)?;
    near(alloc, word, names.as_slice())
}

/// Returns the help message for a fault at a place in a scenario. If a table names an unknown strategy, the message
/// names a similar one. Returns `None` if there is none, or for another fault.
#[tactic(auto, unfolding(crate::specs::Strategies::strategy_help))]
pub(crate) fn strategy_help(
    alloc: Global,
    fault: ScenarioFault,
    place: ScenarioPlace,
    text: &[u8],
) -> Result<Option<Help<'static>>, AllocError>
    ensures { IfOk result (λ help. option_map help_words help ≡ strategy_help fault place text.now) }
{
    let Some(line) = misnaming_line(fault, place, text) else {
        return Ok(None);
    };
    match near_strategy(alloc, quoted_value(line))? {
        Some(name) => Ok(Some(Help::Near("strategy", name))),
        None => Ok(None),
    }
}
