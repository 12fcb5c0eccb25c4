//! Compares the answers of a call that is made twice, and describes the outcome.
use anyhow::Result;
use std::fmt;
use thiserror::Error;

/// The answer of one call.
#[derive(Drop)]
pub enum CallAnswer {
    /// The call succeeded, and these bytes describe its result.
    Bytes(Vec<u8>),
    /// The call failed because memory ran out.
    Memory,
    /// The call failed because a thread could not be started.
    NoThread,
}

/// The outcome of making the same call twice.
#[derive(Clone, Copy)]
pub enum CallOutcome {
    /// Both calls succeeded, with the same result.
    Answered,
    /// The first call ran out of memory, and the second succeeded.
    Memory,
    /// The first call could not start a thread, and the second succeeded.
    NoThread,
}

impl fmt::Display for CallOutcome {
    fn fmt<W: fmt::Write>(&self, f: &mut fmt::Formatter<W>) -> fmt::Result {
        f.write_str(match self {
            CallOutcome::Answered => "answered",
            CallOutcome::Memory => "memory",
            CallOutcome::NoThread => "no thread",
        })
    }
}

/// What is wrong with the second call of two, or with the result of several calls.
#[derive(Clone, Copy, Debug, PartialEq, Eq, Error)]
pub enum Difference {
    #[error("asked again, the call does not answer")]
    NoAnswer,
    #[error("asked again, the call answers otherwise")]
    OtherAnswer,
    #[error("the calls lead to something else")]
    OtherEnd,
}

/// Compares the first answer of a call with its second answer, and returns the outcome.
///
/// # Errors
///
/// Fails if the second call did not succeed, or if both succeeded with different results.
pub fn compared(first: CallAnswer, again: CallAnswer) -> Result<CallOutcome> {
    Ok(asked_again(first, again)?)
}

/// Compares the first answer of a call with its second answer, and returns the outcome or the difference.
fn asked_again(
    first: CallAnswer,
    again: CallAnswer,
) -> std::result::Result<CallOutcome, Difference> {
    let CallAnswer::Bytes(again) = again else {
        return Err(Difference::NoAnswer);
    };
    match first {
        CallAnswer::Memory => Ok(CallOutcome::Memory),
        CallAnswer::NoThread => Ok(CallOutcome::NoThread),
        CallAnswer::Bytes(first) => {
            if first.as_slice() != again.as_slice() {
                return Err(Difference::OtherAnswer);
            }
            Ok(CallOutcome::Answered)
        }
    }
}

/// Compares the result of several calls, `first`, with their result if there is enough memory, `ample`. `is_refused`
/// says whether memory ran out in one of the calls. Returns the outcome.
///
/// # Errors
///
/// Fails if the two results differ.
pub fn led(is_refused: bool, first: &[u8], ample: &[u8]) -> Result<CallOutcome> {
    same_end(first, ample)?;
    Ok(if is_refused {
        CallOutcome::Memory
    } else {
        CallOutcome::Answered
    })
}

fn same_end(first: &[u8], ample: &[u8]) -> std::result::Result<(), Difference> {
    if first != ample {
        return Err(Difference::OtherEnd);
    }
    Ok(())
}
