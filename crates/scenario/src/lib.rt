//! Reads campaigns from TOML texts, called scenarios, and replaces the names of files in them by the files' contents.
#![tactic(auto)]

mod fault;
mod head;
mod keys;
mod messages;
mod neighbour_files;
mod origins;
mod place;
mod programs;
mod reader;
mod reference;
mod reference_key;
mod resolution;
mod sources;
mod strategies;
mod strategy;
mod tables;
mod text_tables;
mod words;

pub use fault::{ProgramFault, ScenarioError, ScenarioFault};
pub use messages::{Campaign, Messages};
pub use neighbour_files::LoadedFile;
pub use origins::{origin, seat};
pub use place::{ScenarioKey, ScenarioPlace};
pub use programs::{ProgramText, program};
pub use reader::{read, read_any};
pub use reference::{Reference, asked};
pub use reference_key::ReferenceKey;
pub use resolution::resolved;
pub use sources::written_by;
pub use strategy::strategy_names;
