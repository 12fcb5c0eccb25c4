//! Reads the tables of a scenario's traitors, one after the other.
ghost use Rattle.std.specs.Prelude.{◌≡◌, ◌<◌, ◌≤◌, ℕ, not, None, Some, Ok, option_map, ok_or, IfOk, length, replicate};
ghost use Rattle.toml.specs.Data.{as_table};
ghost use Rattle.toml.specs.View.{view, items_view, table_view};
ghost use Rattle.scenario.specs.Checks.{test};
ghost use Rattle.scenario.specs.Flaws.{Gives, OrMemory, faulty};
ghost use Rattle.scenario.specs.Tables.{is_seated, source, source_named, strategy, table_in, table};
ghost use Rattle.scenario.specs.Reading.{TableGives};
ghost use Rattle.scenario.specs.Seen.{source_of};

use crate::fault::{ScenarioError, ScenarioFault};
use crate::keys::{at, entry_is_known, general};
use crate::place::{ScenarioKey, ScenarioPlace};
use crate::programs::{ProgramText, accepted, program};
use crate::strategy::program_named;
use round::Player;
use std::alloc::Global;
use toml::{Table, Value};
use verify::Verified;

/// Returns the program of the strategy with this name, which the traitor's table `index` names.
///
/// # Errors
///
/// Fails with `At`, the fault `Range` and the table's key `strategy` if no strategy has this name.
fn source_named<'a>(index: usize, name: &str) -> Result<ProgramText<'a>, ScenarioError>
    ensures { Gives source_of result (source_named index name.now) }
{
    match program_named(name) {
        Some(program) => Ok(ProgramText::Asm(program)),
        None => Err(ScenarioError::At(
            ScenarioFault::Range,
            ScenarioPlace::Entry(index, ScenarioKey::Strategy),
        )),
    }
}

/// Returns the program of the strategy that the traitor's table `index` names by `value`.
///
/// # Errors
///
/// Fails with `At` and the table's key `strategy`. The fault is `Kind` if the value is not a string, or `Range` if no
/// strategy has this name.
#[tactic(auto, unfolding(crate::specs::Tables::strategy))]
fn strategy<'a>(index: usize, value: &Value) -> Result<ProgramText<'a>, ScenarioError>
    ensures { Gives source_of result (strategy index (view value.now)) }
{
    match value.as_str() {
        Some(name) => source_named(index, name),
        None => Err(ScenarioError::At(
            ScenarioFault::Kind,
            ScenarioPlace::Entry(index, ScenarioKey::Strategy),
        )),
    }
}

/// Returns the program of the traitor's table `index`: its assembly, its bytecode, or the program of the strategy that
/// it names. `asm`, `code` and `named` are the values of these keys, or `None` for a missing one.
///
/// # Errors
///
/// Fails with `At` and one of the table's keys. The fault is `Key`, at `asm`, unless the table has exactly one of
/// `asm`, `code` and `strategy`. It is `Kind` if the value is not a string, or `Range` if no strategy has this name.
#[tactic(auto, unfolding(crate::specs::Tables::source))]
fn written<'a>(
    index: usize,
    asm: Option<&'a Value>,
    code: Option<&'a Value>,
    named: Option<&'a Value>,
) -> Result<ProgramText<'a>, ScenarioError>
    ensures { Gives source_of result (source index (option_map (λ v. view v.now) asm.entry)
        (option_map (λ v. view v.now) code.entry) (option_map (λ v. view v.now) named.entry)) }
{
    match (asm, code, named) {
        (Some(asm), None, None) => match asm.as_str() {
            Some(text) => Ok(ProgramText::Asm(text)),
            None => Err(ScenarioError::At(
                ScenarioFault::Kind,
                ScenarioPlace::Entry(index, ScenarioKey::Asm),
            )),
        },
        (None, Some(code), None) => match code.as_str() {
            Some(text) => Ok(ProgramText::Code(text)),
            None => Err(ScenarioError::At(
                ScenarioFault::Kind,
                ScenarioPlace::Entry(index, ScenarioKey::Code),
            )),
        },
        (None, None, Some(named)) => strategy(index, named),
        (Some(_), Some(_), None)
        | (Some(_), None, Some(_))
        | (None, Some(_), Some(_))
        | (Some(_), Some(_), Some(_))
        | (None, None, None) => {
            Err(ScenarioError::At(
                ScenarioFault::Key,
                ScenarioPlace::Entry(index, ScenarioKey::Asm),
            ))
        }
    }
}

/// Returns whether an earlier table gave this general a program.
fn is_seated(seats: &[Player], general: u8) -> bool
    requires { general < length seats.now }
    ensures { result ≡ is_seated seats.now general }
{
    seats[usize::from(general)].program().is_some()
}

/// Checks that no earlier table gave this general a program.
///
/// # Errors
///
/// Fails with `At`, the fault `Twice` and the place if an earlier table did.
fn once(place: ScenarioPlace, seats: &[Player], general: u8) -> Result<(), ScenarioError>
    requires { general < length seats.now }
    ensures { Gives (λ _. tt) result (test (not (is_seated seats.now general)) ScenarioFault.Twice place) }
{
    if is_seated(seats, general) {
        return Err(ScenarioError::At(ScenarioFault::Twice, place));
    }
    Ok(())
}

/// Returns element `index` of the list of traitors as a table.
///
/// # Errors
///
/// Fails with `At`, the fault `Kind` and the element if it is not a table.
fn as_table(index: usize, value: &Value) -> Result<&Table, ScenarioError>
    ensures { Gives (λ t. table_view t.now) result
        (ok_or (as_table (view value.now)) (faulty ScenarioFault.Kind (ScenarioPlace.Table index))) }
{
    match value.as_table() {
        Some(table) => Ok(table),
        None => Err(ScenarioError::At(ScenarioFault::Kind, ScenarioPlace::Table(index))),
    }
}

/// Returns the general of the traitor's table `index`, and his program as the table contains it.
///
/// # Errors
///
/// Fails with `Unknown` and the first unknown key, or else with `At` and the first fault. Fails with `Memory` if an
/// allocation fails.
#[tactic(auto, unfolding(crate::specs::Tables::table_in))]
fn in_table<'a>(
    alloc: Global,
    generals: u8,
    seats: &[Player],
    index: usize,
    table: &'a Table,
) -> Result<(u8, ProgramText<'a>), ScenarioError>
    requires { length seats.now ≡ generals }
    ensures gives { OrMemory (λ r. Gives (λ t. record {
      general = t.0;
      source = source_of t.1;
    }) r (table_in generals seats.now index (table_view table.now))) result }
    ensures small { IfOk result (λ t. t.0 < generals) }
{
    entry_is_known(alloc, index, table)?;
    let place = ScenarioPlace::Entry(index, ScenarioKey::General);
    let general = general(
        place,
        ScenarioFault::General,
        generals,
        at(table, ScenarioKey::General),
    )?;
    once(place, seats, general)?;
    let written = written(
        index,
        at(table, ScenarioKey::Asm),
        at(table, ScenarioKey::Code),
        at(table, ScenarioKey::Strategy),
    )?;
    Ok((general, written))
}

/// Returns the general of element `index` of the list of traitors, and his program as this table contains it.
///
/// # Errors
///
/// Fails with `Unknown` and the first unknown key, or else with `At` and the first fault. Fails with `Memory` if an
/// allocation fails.
#[tactic(auto, unfolding(crate::specs::Tables::table))]
fn table<'a>(
    alloc: Global,
    generals: u8,
    seats: &[Player],
    index: usize,
    value: &'a Value,
) -> Result<(u8, ProgramText<'a>), ScenarioError>
    requires { length seats.now ≡ generals }
    ensures gives { OrMemory (λ r. Gives (λ t. record {
      general = t.0;
      source = source_of t.1;
    }) r (table generals seats.now index (view value.now))) result }
    ensures small { IfOk result (λ t. t.0 < generals) }
{
    in_table(alloc, generals, seats, index, as_table(index, value)?)
}

/// Returns the general of element `index` of the list of traitors, and his program, which the verifier has accepted.
///
/// # Errors
///
/// Fails with `Unknown` or `At` and the first fault of the table, or else with `Program` and the first fault of the
/// program. Fails with `Memory` if an allocation fails.
pub fn traitor(
    alloc: Global,
    generals: u8,
    seats: &[Player],
    index: usize,
    value: &Value,
) -> Result<(u8, Verified), ScenarioError>
    requires { length seats.now ≡ generals }
    ensures gives { OrMemory (TableGives (table generals seats.now index (view value.now))) result }
    ensures small { IfOk result (λ t. t.0 < generals) }
{
    let (general, written) = table(alloc, generals, seats, index, value)?;
    let program = program(alloc, general, written)?;
    let verified = accepted(alloc, general, program)?;
    Ok((general, verified))
}
