//! Why a program has stopped, with the value by which it can be continued.
use crate::activation::Activation;
use crate::ended_program::Ended;
use crate::waiting_program::Waiting;
use semantics::Request;

/// Why a program has stopped. Unless it has exited, the variant has the value by which it can be continued.
#[derive(Drop)]
pub enum Pause {
    /// The program has made a request to the board, and waits for the answer.
    Board(Request, Waiting),
    /// The program has exited.
    Done(Ended),
    /// The program has reached the limit of steps, and can be run further.
    Cut(Activation),
}
