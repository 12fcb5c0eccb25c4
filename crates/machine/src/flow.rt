//! How a program continues after a call, an instruction or a pair of instructions.
use semantics::Request;

/// How a program continues after a call.
#[derive(Clone, Copy)]
pub(crate) enum Flow {
    /// The program continues at its next unit.
    Onward,
    /// The program has made this request to the board, and waits for the answer.
    Asked(Request),
}

/// How a program continues after an instruction or a pair of two.
#[derive(Clone, Copy)]
pub(crate) enum Stride {
    /// The program continues at this unit, after one step.
    Onward(usize),
    /// The program continues at this unit, after two steps.
    Twice(usize),
    /// The program calls the helper with this number. The call is still to be executed.
    Call(i32),
    /// The program exits. The exit is still to be executed.
    Exit,
}
