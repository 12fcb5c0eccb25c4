//! Reports why a file is rejected: a sentence for each error code, the place in the file, and a help message if a cause
//! is likely. A fault in a file that a scenario names is reported at its place in that file.
#![tactic(auto)]

mod assembly;
mod bytecode;
mod chronicles;
mod errors;
mod file_errors;
mod keys;
mod laws;
mod lieutenants;
mod lines;
mod messages;
mod mnemonics;
mod musters;
mod nearest_name;
mod program_faults;
mod program_judgements;
mod refusal;
mod report;
mod scenarios;
mod settings;
mod shown_errors;
mod sources;
mod strategies;
mod toml_errors;
mod units;

pub use assembly::of_assembly;
pub use bytecode::of_bytecode;
pub use chronicles::{of_chronicle, of_schedule};
pub use errors::{of_scenario, of_setting};
pub use file_errors::of_made;
pub use laws::refusals_are_told;
pub use lieutenants::of_stranger;
pub use messages::of_table;
pub use musters::of_muster;
pub use refusal::refused;
pub use shown_errors::{ShownScenarioError, ShownSettingError};
