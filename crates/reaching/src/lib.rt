//! Reaching definitions, which explanations need: finds the units that last set a register or a cell of the stack, what
//! a cell contains, and what is known after each instruction.
#![tactic(auto)]

mod cells;
mod changes;
mod edits;
mod flow;
mod laws;
mod loads;
mod mark;
mod register;
mod setters;
mod stack_transfer;
mod subject;
mod transfer;
mod unit_marks;
mod ways;

pub use cells::{CellContent, held_at};
pub use changes::{Column, columns, last_setters};
pub use edits::{Edit, Trial, operation_of, tried};
pub use laws::left_is_the_transfer;
pub use mark::UnitMark;
pub use register::result_of;
pub use setters::Setters;
pub use subject::Subject;
pub use transfer::left_by;
pub use unit_marks::{known_by, marks};
