//! Oral messages by the book: message tables, the decisions that follow from them by OM(m), and the agreement theorem
//! (TOPLAS 1982).
//!
//! The crate reads and writes message tables, prints and explains decisions, and makes tables to fill in. A message
//! table lists for each label and receiver the order that was sent.
#![tactic(auto)]

mod blanks;
mod conditions;
mod decision_text;
mod explanation;
mod fault;
mod filled_form;
mod judgement;
mod kept_facts;
mod laws;
mod lists;
mod loyal_marks;
mod mark;
mod message;
mod message_label;
mod message_source;
mod parts;
mod plain_recursion;
mod reader;
mod recursion;
mod table;
mod table_form;
mod theorem;
mod tree_table;
mod trees;
mod writer;

pub use blanks::form;
pub use conditions::{Conditions, Obedience};
pub use decision_text::{decided, explained};
pub use explanation::{explain, explain_one};
pub use fault::{TableError, TableFault};
pub use filled_form::{filled, generals_in};
pub use judgement::judge;
pub use kept_facts::recall_orders;
pub use laws::{loyal_tables_decide, tables_are_read};
pub use message::Message;
pub use message_source::Heard;
pub use plain_recursion::{decides_plainly, plain_decision};
pub use reader::read_table;
pub use recursion::{decision, decisions};
pub use table::Table;
pub use table_form::formed;
pub use theorem::{agreement, conditions_mean, forms_are_read, lists_mean, told_tables_are_whole};
pub use tree_table::TreeTable;
pub use trees::table_of;
