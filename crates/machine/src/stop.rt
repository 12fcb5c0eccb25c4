//! Why a running program has stopped.
use semantics::Request;

/// Why a running program has stopped.
#[derive(Clone, Copy)]
pub enum StopReason {
    /// The program has made this request to the board.
    Asked(Request),
    /// The program has exited with this value of r0.
    Exited(u64),
    /// The program has reached the limit of steps.
    Limit,
}
