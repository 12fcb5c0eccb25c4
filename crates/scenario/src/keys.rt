//! Checks single keys and values of a scenario. A check returns the value, or fails with the first fault.

ghost use Rattle.std.specs.Prelude.{◌≡◌, ℕ, ◌≤◌, ◌<◌, ◌^◌, option_map, IfOk, IfSome, MatchResult};
ghost use Rattle.toml.specs.Data.{get_member};
ghost use Rattle.toml.specs.View.{view, table_view, array_view, items_view};
ghost use Rattle.scenario.specs.Names.{is_top_key, is_entry_key, text_of};
ghost use Rattle.scenario.specs.Checks.{first_unknown, known, required, whole, elements, natural, number, optional_number, general};
ghost use Rattle.scenario.specs.Flaws.{Gives, OrMemory};
ghost use Rattle.scenario.specs.declared.fault.ScenarioError.TheVariants.{Unknown, Memory};

use crate::fault::{ScenarioError, ScenarioFault};
use crate::place::{ScenarioKey, ScenarioPlace};
use std::alloc::{AllocError, Global};
use toml::{Table, Value};

/// Returns whether a scenario may have this key at its top.
pub fn is_top_key(key: &str) -> bool
    ensures { result ≡ is_top_key key.now }
{
    key == "generals"
        || key == "bound"
        || key == "commander"
        || key == "order"
        || key == "board"
        || key == "patience"
        || key == "rule"
        || key == "messages"
        || key == "traitor"
}

/// Returns whether a traitor's table may have this key.
pub fn is_entry_key(key: &str) -> bool
    ensures { result ≡ is_entry_key key.now }
{
    key == "general" || key == "asm" || key == "code" || key == "strategy"
}

/// Returns the first key of a scenario that is not allowed at its top, or `None` if all are. Keys ascend by bytes.
fn first_unknown_at_top(table: &Table) -> Option<&str>
    ensures { option_map (λ k. k.now) result ≡ first_unknown is_top_key (table_view table.now) }
{
    for (key, _) in table {
        if !is_top_key(key.as_str()) {
            return Some(key.as_str());
        }
    }
    None
}

/// Returns the first key of a traitor's table that is not allowed there, or `None` if all are. Keys ascend by bytes.
fn first_unknown_in_entry(table: &Table) -> Option<&str>
    ensures { option_map (λ k. k.now) result ≡ first_unknown is_entry_key (table_view table.now) }
{
    for (key, _) in table {
        if !is_entry_key(key.as_str()) {
            return Some(key.as_str());
        }
    }
    None
}

/// Returns the error for an unknown key, in the traitor's table `at` or at the top. `key` is a copy of the key. If
/// memory ran out for the copy, returns `Memory`.
fn unknown(at: Option<usize>, key: Result<String, AllocError>) -> ScenarioError
    ensures { MatchResult key (λ key. result ≡ Unknown at key) (λ _. result ≡ Memory) }
{
    match key {
        Ok(key) => ScenarioError::Unknown(at, key),
        Err(AllocError) => ScenarioError::Memory,
    }
}

/// Fails with `Unknown` if there is an unknown key, in the traitor's table `at` or at the top, and with `Memory` if
/// memory runs out.
fn refuse_unknown(alloc: Global, at: Option<usize>, key: Option<&str>) -> Result<(), ScenarioError>
    ensures { OrMemory (λ r. Gives (λ _. tt) r (known at (option_map (λ k. k.now) key.entry))) result }
{
    match key {
        None => Ok(()),
        Some(key) => Err(unknown(at, String::from_str(alloc, key))),
    }
}

/// Checks that a scenario has only known keys at its top.
///
/// # Errors
///
/// Fails with `Unknown` and the first unknown key, which is the least by bytes, or with `Memory` if an allocation
/// fails.
pub fn top_is_known(alloc: Global, table: &Table) -> Result<(), ScenarioError>
    ensures { OrMemory (λ r. Gives (λ _. tt) r (known None (first_unknown is_top_key (table_view table.now)))) result }
{
    refuse_unknown(alloc, None, first_unknown_at_top(table))
}

/// Checks that the traitor's table `index`, counted from 0, has only known keys.
///
/// # Errors
///
/// Fails with `Unknown`, the index and the first unknown key, which is the least by bytes, or with `Memory` if an
/// allocation fails.
pub fn entry_is_known(alloc: Global, index: usize, table: &Table) -> Result<(), ScenarioError>
    ensures { OrMemory (λ r. Gives (λ _. tt) r
        (known (Some index) (first_unknown is_entry_key (table_view table.now)))) result }
{
    refuse_unknown(alloc, Some(index), first_unknown_in_entry(table))
}

/// Returns the value of a key, or `None` if the table does not have the key.
pub fn at<'a>(table: &'a Table, name: ScenarioKey) -> Option<&'a Value>
    ensures { option_map (λ v. view v.now) result ≡ get_member (text_of name) (table_view table.now) }
{
    table.get(name.text())
}

/// Returns the value of a required key. `value` is `None` if the key is missing, and `place` is the place that the
/// error names.
///
/// # Errors
///
/// Fails with `At`, the fault `Key` and the place if the key is missing.
fn required(place: ScenarioPlace, value: Option<&Value>) -> Result<&Value, ScenarioError>
    ensures { Gives (λ v. view v.now) result (required place (option_map (λ v. view v.now) value.entry)) }
{
    match value {
        Some(value) => Ok(value),
        None => Err(ScenarioError::At(ScenarioFault::Key, place)),
    }
}

/// Returns a value as an integer.
///
/// # Errors
///
/// Fails with `At`, the fault `Kind` and the place if the value is not an integer.
pub fn whole(place: ScenarioPlace, value: &Value) -> Result<i64, ScenarioError>
    ensures { Gives (λ z. z) result (whole place (view value.now)) }
{
    match value.as_integer() {
        Some(integer) => Ok(integer),
        None => Err(ScenarioError::At(ScenarioFault::Kind, place)),
    }
}

/// Returns the elements of a value that is an array.
///
/// # Errors
///
/// Fails with `At`, the fault `Kind` and the place if the value is not an array.
pub fn elements(place: ScenarioPlace, value: &Value) -> Result<&[Value], ScenarioError>
    ensures { Gives (λ a. items_view a.now) result (elements place (view value.now)) }
{
    match value.as_array() {
        Some(array) => Ok(array.as_slice()),
        None => Err(ScenarioError::At(ScenarioFault::Kind, place)),
    }
}

/// Returns a TOML integer as a `u64`.
///
/// # Errors
///
/// Fails with `At`, the given fault and the place if the integer is negative.
pub fn natural(
    fault: ScenarioFault,
    place: ScenarioPlace,
    integer: i64,
) -> Result<u64, ScenarioError>
    ensures { Gives (λ n. n) result (natural fault place integer) }
{
    match u64::try_from(integer) {
        Ok(number) => Ok(number),
        Err(_) => Err(ScenarioError::At(fault, place)),
    }
}

/// Returns the number at a required key, which must be from `least` to `most`. `value` is the key's value, or `None` if
/// the scenario does not have the key. `place` is the key's place, which errors name.
///
/// # Errors
///
/// Fails with `At` and the place. The fault is `Key` if the key is missing, `Kind` if its value is not an integer, or
/// `Range` if the integer is out of range.
#[tactic(auto, unfolding(crate::specs::Checks::number))]
pub fn number(
    place: ScenarioPlace,
    least: u32,
    most: u32,
    value: Option<&Value>,
) -> Result<u32, ScenarioError>
    ensures value { Gives (λ n. n) result (number place least most (option_map (λ v. view v.now) value.entry)) }
    ensures within { IfOk result (λ n. (least ≤ n) × (n ≤ most)) }
{
    let value = required(place, value)?;
    let integer = whole(place, value)?;
    let number = natural(ScenarioFault::Range, place, integer)?;
    if u64::from(least) <= number && number <= u64::from(most) {
        return Ok(number as u32);
    }
    Err(ScenarioError::At(ScenarioFault::Range, place))
}

/// Returns the number at an optional key, which must be from `least` to `most`. `value` is the key's value, or `None`
/// if the scenario does not have the key. Then the result is `None`. `place` is the key's place, which errors name.
///
/// # Errors
///
/// Fails with `At` and the place. The fault is `Kind` if the value is not an integer, or `Range` if the integer is out
/// of range.
#[tactic(auto, unfolding(crate::specs::Checks::optional_number))]
pub fn optional_number(
    place: ScenarioPlace,
    least: u32,
    most: u32,
    value: Option<&Value>,
) -> Result<Option<u32>, ScenarioError>
    ensures value { Gives (λ n. n) result
        (optional_number place least most (option_map (λ v. view v.now) value.entry)) }
    ensures within { IfOk result (λ o. IfSome o (λ n. (least ≤ n) × (n ≤ most))) }
{
    match value {
        None => Ok(None),
        Some(value) => Ok(Some(number(place, least, most, Some(value))?)),
    }
}

/// Returns the number of a general at a required key, which must be less than `generals`. `value` is the key's value,
/// or `None` if the key is missing. `place` is the key's place, which errors name.
///
/// # Errors
///
/// Fails with `At` and the place. The fault is `Key` if the key is missing, `Kind` if its value is not an integer,
/// `low` if the integer is negative, or `General` if there is no such general.
#[tactic(auto, unfolding(crate::specs::Checks::general))]
pub fn general(
    place: ScenarioPlace,
    low: ScenarioFault,
    generals: u8,
    value: Option<&Value>,
) -> Result<u8, ScenarioError>
    ensures value { Gives (λ n. n) result (general place low generals (option_map (λ v. view v.now) value.entry)) }
    ensures small { IfOk result (λ g. g < generals) }
{
    let value = required(place, value)?;
    let integer = whole(place, value)?;
    let number = natural(low, place, integer)?;
    if number < u64::from(generals) {
        return Ok(number as u8);
    }
    Err(ScenarioError::At(ScenarioFault::General, place))
}
