//! Defines what a program does in one step.
use semantics::Request;

/// What a program does in a step: it goes on, makes a request to the board, or ends.
pub(crate) enum Turn {
    Onward,
    Asked(Request),
    Ended,
}
