//! Does the task of a request, and prints the answer in the requested form: as text, as JSON Lines, or as one line.
//! If the task cannot be done, prints the reason in that form.
#![tactic(auto)]

mod advice;
mod explanations;
mod file_line;
mod instructions;
mod json_lines;
mod labels;
mod objects;
mod outcome;
mod position;
mod printed_lines;
mod printer;
mod refusals;
mod service;
mod shape;
mod shaped;
mod texts;
mod values;

pub use file_line::{answer_of, refusal_of};
pub use json_lines::answer;
pub use refusals::refusal;
pub use service::{serve, turned_down};
