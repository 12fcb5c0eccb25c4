//! Rules of combination that are programs: the order to which a verified program without calls combines a list of
//! orders, and whether it keeps majorities.
#![tactic(auto)]

mod certificate;
mod laws;
mod lost_majority;
mod orders;
mod program_calls;
mod program_run;
mod rule_program;

pub use certificate::first_lost_majority;
pub use laws::{certified_rules_agree, programs_return_two_orders};
pub use lost_majority::LostMajority;
pub use rule_program::{CallFound, RuleProgram};
