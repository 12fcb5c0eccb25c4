//! Reads a setting from its TOML text.
ghost use Rattle.std.specs.Prelude.{◌≡◌, ◌-◌, ◌≤◌, min, MatchBool, Some};
ghost use Rattle.toml.specs.Parse.{parse_document};
ghost use Rattle.toml.specs.View.{table_view};
ghost use Rattle.trial.specs.Flaws.{Gives};
ghost use Rattle.trial.specs.Checks.{setting};
ghost use Rattle.trial.specs.Answers.{Reads};
ghost use Rattle.trial.specs.declared.fault.SettingError.TheVariants.{Memory, Toml};

use crate::fault::SettingError;
use crate::keys::{at, general, keys_are_known, number};
use crate::orders::taken;
use crate::place::{SettingKey, SettingPlace};
use crate::relayed_labels::labels_relayed;
use crate::setting::Setting;
use crate::words::board;
use label::Shape;
use std::alloc::Global;
use toml::Table;

/// Returns the greatest bound of a campaign with `generals` generals: 2 less than their number, but at most 4.
fn greatest_bound(generals: u32) -> u32
    ensures { result ≡ min 4 (generals - 2) }
{
    generals.saturating_sub(2).min(4)
}

/// Reads the setting that a TOML table describes.
///
/// # Errors
///
/// Fails with the first fault, at its place, or with `Memory` if memory runs out.
#[tactic(auto, unfolding(crate::specs::Checks::setting))]
fn setting(alloc: Global, table: &Table) -> Result<Setting, SettingError>
    ensures { Gives (λ s. s) result (setting (table_view table.now)) }
{
    keys_are_known(alloc, table)?;
    let generals = number(
        SettingPlace::Key(SettingKey::Generals),
        2,
        13,
        at(table, SettingKey::Generals),
    )?;
    let most = greatest_bound(generals);
    let bound = number(
        SettingPlace::Key(SettingKey::Bound),
        0,
        most,
        at(table, SettingKey::Bound),
    )?;
    let commander = general(
        SettingPlace::Key(SettingKey::Commander),
        generals,
        at(table, SettingKey::Commander),
    )?;
    let own = general(
        SettingPlace::Key(SettingKey::General),
        generals,
        at(table, SettingKey::General),
    )?;
    let round = number(
        SettingPlace::Key(SettingKey::Round),
        1,
        bound + 1,
        at(table, SettingKey::Round),
    )?;
    let shape = Shape {
        generals,
        commander,
        general: own,
        round,
    };
    let taken = taken(alloc, labels_relayed(shape), at(table, SettingKey::Taken))?;
    let board = board(at(table, SettingKey::Board))?;
    Ok(Setting::new(shape, bound, taken, board))
}

/// Returns the error of a text that could not be parsed: `Memory` if memory ran out, and `Toml` otherwise.
fn unparsed(is_memory: bool) -> SettingError
    ensures { MatchBool is_memory (result ≡ Memory) (result ≡ Toml) }
{
    if is_memory {
        SettingError::Memory
    } else {
        SettingError::Toml
    }
}

/// Reads a setting from its TOML text.
///
/// # Errors
///
/// Fails with the first fault, at its place. First the text must be TOML. Then all keys must be known, and an error
/// names the first unknown key in the order of bytes. Then the values of `generals`, `bound`, `commander`, `general`,
/// `round`, `taken` and `board` are checked in this order. Fails with `Memory` if memory runs out.
pub fn read(alloc: Global, text: &str) -> Result<Setting, SettingError>
    ensures { Reads (parse_document text.now) result }
{
    match toml::table_from_str(alloc, text) {
        Ok(table) => setting(alloc, &table),
        Err(error) => Err(unparsed(error.is_memory())),
    }
}
