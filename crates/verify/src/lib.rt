//! The verifier: it accepts a program, which is then sound, or finds the program's first fault. It works by abstract
//! interpretation, in one forward pass.
#![tactic(auto)]

mod branches;
mod calls;
mod comparison;
mod error;
mod kept_facts;
mod laws;
mod memory;
mod pairs;
mod pass;
mod pending_states;
mod ready_form;
mod reason;
mod registers;
mod state;
mod steps;
mod structure;
mod survey;
mod verified_program;
mod verifier;
mod work;

pub use error::{Refused, VerifyError};
pub use laws::{accepted_is_sound, passes_agree, plain_is_accepted, states_are_as_known};
pub use ready_form::{Change, Other, Ready, SourceOperand};
pub use reason::Reason;
pub use state::AbsState;
pub use survey::{KnownStates, known_at_units};
pub use verified_program::Verified;
pub use verifier::verify;
pub use work::SizedOperation;
