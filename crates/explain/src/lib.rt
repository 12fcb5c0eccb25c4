//! Explains a program: what the verifier knows at each unit, and why and where it rejects the program. A unit is 8
//! bytes of bytecode. Most instructions have one unit, and wide ones have two.
#![tactic(auto)]

mod accesses;
mod cells;
mod edit_choices;
mod helps;
mod laws;
mod lines;
mod misfits;
mod misuse;
mod names;
mod notes;
mod origins;
mod pointer_moves;
mod reach;
mod refusal_text;
mod rules;
mod sentence;
mod shortfall;
mod sources;
mod units;
mod values;

pub use laws::{helps_mend, names_are_read, refusals_are_told};
pub use lines::{explanation, explanation_at};
pub use names::{HELPERS, helper_name};
pub use sentence::{AccessMisuse, Misfit, RegisterMisuse, Sentence, Structure};
pub use units::UnitTexts;
pub use values::NumberSpan;
