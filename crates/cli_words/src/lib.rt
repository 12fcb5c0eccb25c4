//! Parses the words of the command line into a task: a subcommand, the names of its files, and the values of its flags.
#![tactic(auto)]

mod command;
mod errors;
mod file_words;
mod generals;
mod matches;
mod request_reader;
mod subcommand;
mod subcommands;
mod tasks;

pub use errors::{Misuse, TaskError};
pub use file_words::each;
pub use request_reader::request;
pub use tasks::{
    Accesses, Account, Course, Drawing, Filling, Lieutenants, Notation, Spelling, Task,
    TaskRequest, Turns,
};
