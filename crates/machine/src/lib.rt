//! The machine, which runs an accepted program step by step. [`Machine`] runs it in place. [`Activation`] is passed by
//! value instead, so that its type allows only one answer to each request.
#![tactic(auto)]

mod activation;
mod arguments;
mod arithmetic;
mod calls;
mod ended_program;
mod execution;
mod flow;
mod machine;
mod pairs;
mod pause;
mod registers;
mod replies;
mod stop;
mod tag;
mod waiting_program;

pub use activation::Activation;
pub use ended_program::Ended;
pub use machine::Machine;
pub use pause::Pause;
pub use stop::StopReason;
pub use waiting_program::Waiting;
