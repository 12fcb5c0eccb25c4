//! Reports the errors of a scenario or a setting.
ghost use Rattle.std.specs.Prelude.{IfOk, string_bytes};
ghost use Rattle.cli_report.specs.Errors.{ReportsScenario, TellsScenario, TellsSetting};

use crate::program_faults::program_told;
use crate::program_judgements::judged;
use crate::report::report;
use crate::toml_errors::not_toml;
use crate::{scenarios, settings};
use scenario::ScenarioError;
use std::alloc::{AllocError, Global};
use trial::SettingError;

/// Returns the report of an error in a scenario. If the verifier rejects a program, the explanation of the program
/// follows. `name` is the file's name.
pub fn of_scenario(
    alloc: Global,
    name: &str,
    text: &[u8],
    error: &ScenarioError,
) -> Result<String, AllocError>
    ensures { IfOk result (λ told. TellsScenario name.now text.now error.now (string_bytes told)) }
{
    let mut told = scenario_report(alloc, name, text, error)?;
    let behind = judged(alloc, text, error)?;
    told.push_str(behind.as_str())?;
    Ok(told)
}

/// Returns the report of an error in a scenario, without the explanation of a rejected program. `name` is the file's
/// name.
fn scenario_report(
    alloc: Global,
    name: &str,
    text: &[u8],
    error: &ScenarioError,
) -> Result<String, AllocError>
    ensures { IfOk result (λ told. ReportsScenario name.now text.now error.now (string_bytes told)) }
{
    match error {
        ScenarioError::Toml => not_toml(alloc, name, text),
        ScenarioError::Unknown(at, key) => {
            scenarios::unknown_told(alloc, name, text, *at, key.as_str())
        }
        ScenarioError::At(fault, place) => {
            scenarios::place_told(alloc, name, text, *fault, *place)
        }
        ScenarioError::Program(general, fault) => {
            program_told(alloc, name, text, *general, *fault)
        }
        ScenarioError::Memory => report(alloc, name, "there is not enough memory", None, None),
    }
}

/// Returns the report of an error in a setting. `name` is the file's name.
pub fn of_setting(
    alloc: Global,
    name: &str,
    text: &[u8],
    error: &SettingError,
) -> Result<String, AllocError>
    ensures { IfOk result (λ told. TellsSetting name.now text.now error.now (string_bytes told)) }
{
    match error {
        SettingError::Toml => not_toml(alloc, name, text),
        SettingError::Unknown(key) => settings::unknown_told(alloc, name, text, key.as_bytes()),
        SettingError::At(fault, place) => settings::place_told(alloc, name, text, *fault, *place),
        SettingError::Memory => report(alloc, name, "there is not enough memory", None, None),
    }
}
