//! Reads and checks the keys of a setting, and their values.
ghost use Rattle.std.specs.Prelude.{◌≡◌, ◌≢◌, ℕ, ◌≤◌, ◌<◌, option_map, IfOk, IfErr, MatchResult};
ghost use Rattle.toml.specs.Data.{get_member};
ghost use Rattle.toml.specs.View.{view, table_view, items_view};
ghost use Rattle.trial.specs.Names.{is_key, text_of};
ghost use Rattle.trial.specs.Checks.{first_unknown, known, required, whole, elements, natural, number, general};
ghost use Rattle.trial.specs.Flaws.{Gives};
ghost use Rattle.trial.specs.declared.fault.SettingError.TheVariants.{Unknown, Memory};

use crate::fault::{SettingError, SettingFault};
use crate::place::{SettingKey, SettingPlace};
use std::alloc::{AllocError, Global};
use toml::{Table, Value};

/// Checks whether the text is one of the seven keys that a setting may have.
fn is_key(key: &str) -> bool
    ensures { result ≡ is_key key.now }
{
    key == "generals"
        || key == "bound"
        || key == "commander"
        || key == "general"
        || key == "round"
        || key == "taken"
        || key == "board"
}

/// Returns the first key of the table that is not a key of a setting, or `None` if all are.
fn first_unknown(table: &Table) -> Option<&str>
    ensures { option_map (λ k. k.now) result ≡ first_unknown (table_view table.now) }
{
    for (key, _) in table {
        if !is_key(key.as_str()) {
            return Some(key.as_str());
        }
    }
    None
}

/// Returns the error `Unknown` with this key. If copying the key failed, returns `Memory`.
fn unknown(key: Result<String, AllocError>) -> SettingError
    ensures { MatchResult key (λ key. result ≡ Unknown key) (λ _. result ≡ Memory) }
{
    match key {
        Ok(key) => SettingError::Unknown(key),
        Err(AllocError) => SettingError::Memory,
    }
}

/// Checks that no unknown key was found: `key` is the first one, or `None`.
///
/// # Errors
///
/// Fails with `Unknown` and the key if there is one, or with `Memory` if there is no memory for its text.
fn refuse_unknown(alloc: Global, key: Option<&str>) -> Result<(), SettingError>
    ensures { Gives (λ _. tt) result (known (option_map (λ k. k.now) key.entry)) }
{
    match key {
        None => Ok(()),
        Some(key) => Err(unknown(String::from_str(alloc, key))),
    }
}

/// Checks that all keys of the table are keys of a setting.
///
/// # Errors
///
/// Fails with `Unknown` and the first unknown key, or with `Memory` if there is no memory for its text.
pub fn keys_are_known(alloc: Global, table: &Table) -> Result<(), SettingError>
    ensures { Gives (λ _. tt) result (known (first_unknown (table_view table.now))) }
{
    refuse_unknown(alloc, first_unknown(table))
}

/// Returns the value of the key `name`, or `None` if the table does not have it.
pub fn at<'a>(table: &'a Table, name: SettingKey) -> Option<&'a Value>
    ensures { option_map (λ v. view v.now) result ≡ get_member (text_of name) (table_view table.now) }
{
    table.get(name.text())
}

/// Returns the value of a required key, where `value` is `None` if the setting does not have the key.
///
/// # Errors
///
/// Fails with `Key` at `place` if the key is missing.
fn required(place: SettingPlace, value: Option<&Value>) -> Result<&Value, SettingError>
    ensures value { Gives (λ v. view v.now) result (required place (option_map (λ v. view v.now) value.entry)) }
    ensures fault { IfErr result (λ e. e ≢ Memory) }
{
    match value {
        Some(value) => Ok(value),
        None => Err(SettingError::At(SettingFault::Key, place)),
    }
}

/// Returns the integer that a TOML value holds.
///
/// # Errors
///
/// Fails with `Kind` at `place` if the value is not an integer.
pub fn whole(place: SettingPlace, value: &Value) -> Result<i64, SettingError>
    ensures value { Gives (λ z. z) result (whole place (view value.now)) }
    ensures fault { IfErr result (λ e. e ≢ Memory) }
{
    match value.as_integer() {
        Some(integer) => Ok(integer),
        None => Err(SettingError::At(SettingFault::Kind, place)),
    }
}

/// Returns the elements of a TOML array.
///
/// # Errors
///
/// Fails with `Kind` at `place` if the value is not an array.
pub fn elements(place: SettingPlace, value: &Value) -> Result<&[Value], SettingError>
    ensures value { Gives (λ a. items_view a.now) result (elements place (view value.now)) }
    ensures fault { IfErr result (λ e. e ≢ Memory) }
{
    match value.as_array() {
        Some(array) => Ok(array.as_slice()),
        None => Err(SettingError::At(SettingFault::Kind, place)),
    }
}

/// Returns an integer as a number from 0 on.
///
/// # Errors
///
/// Fails with `fault` at `place` if the integer is negative.
pub fn natural(fault: SettingFault, place: SettingPlace, integer: i64) -> Result<u64, SettingError>
    ensures value { Gives (λ n. n) result (natural fault place integer) }
    ensures fault { IfErr result (λ e. e ≢ Memory) }
{
    match u64::try_from(integer) {
        Ok(number) => Ok(number),
        Err(_) => Err(SettingError::At(fault, place)),
    }
}

/// Returns the number at a required key, which must be from `least` to `most`. `value` is the key's value, or `None`
/// if the setting does not have the key. Errors name `place`.
///
/// # Errors
///
/// Fails with `Key` if the key is missing, with `Kind` if the value is not an integer, and with `Range` if it is not
/// from `least` to `most`.
#[tactic(auto, unfolding(crate::specs::Checks::number))]
pub fn number(
    place: SettingPlace,
    least: u32,
    most: u32,
    value: Option<&Value>,
) -> Result<u32, SettingError>
    ensures value { Gives (λ n. n) result (number place least most (option_map (λ v. view v.now) value.entry)) }
    ensures within { IfOk result (λ n. (least ≤ n) × (n ≤ most)) }
    ensures fault { IfErr result (λ e. e ≢ Memory) }
{
    let value = required(place, value)?;
    let integer = whole(place, value)?;
    let number = natural(SettingFault::Range, place, integer)?;
    if u64::from(least) <= number && number <= u64::from(most) {
        return Ok(number as u32);
    }
    Err(SettingError::At(SettingFault::Range, place))
}

/// Returns the general at a required key, a number below `generals`. `value` is the key's value, or `None` if the
/// setting does not have the key. Errors name `place`.
///
/// # Errors
///
/// Fails with `Key` if the key is missing, with `Kind` if the value is not an integer, and with `General` if there is
/// no such general.
#[tactic(auto, unfolding(crate::specs::Checks::general))]
pub fn general(
    place: SettingPlace,
    generals: u32,
    value: Option<&Value>,
) -> Result<u32, SettingError>
    ensures value { Gives (λ n. n) result (general place generals (option_map (λ v. view v.now) value.entry)) }
    ensures small { IfOk result (λ g. g < generals) }
    ensures fault { IfErr result (λ e. e ≢ Memory) }
{
    let value = required(place, value)?;
    let integer = whole(place, value)?;
    let number = natural(SettingFault::General, place, integer)?;
    if number < u64::from(generals) {
        return Ok(number as u32);
    }
    Err(SettingError::At(SettingFault::General, place))
}
