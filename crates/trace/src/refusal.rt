//! Finds why an audit rejects a text: the fault and its line.
ghost use Rattle.std.specs.Prelude.{◌≡◌, ◌≤◌, ◌==◌, count_by, length};
ghost use Rattle.trace.specs.Audit.{differing, fault_at, line_at};

use crate::fault::{TraceError, TraceFault};
use crate::shapes::unshaped;

/// Returns the number of line feeds in a text.
fn feeds(text: &[u8]) -> usize
    ensures value { result ≡ count_by (λ c. c == 10) text.now }
    ensures bound { result ≤ length text.now }
{
    let mut count = 0;
    for byte in text {
        count += usize::from(*byte == b'\n');
    }
    count
}

/// Returns the number of the line, counted from 1, that contains the byte at offset `place`.
fn line_at(text: &[u8], place: usize) -> u64
    requires { place ≤ length text.now }
    ensures { result ≡ line_at text.now place }
{
    feeds(&text[..place]) as u64 + 1
}

/// Returns the fault to report if this line, counted from 1, is not as expected: `Scenario` for lines 1 and 2,
/// `Differs` for later lines.
fn differing(line: u64) -> TraceFault
    ensures { result ≡ differing line }
{
    if line <= 2 {
        TraceFault::Scenario
    } else {
        TraceFault::Differs
    }
}

/// Returns why an audit rejects a text that differs from the expected chronicle at byte offset `place`. If some line is
/// not a valid line of any chronicle, the first such line is reported instead of the difference.
#[tactic(auto, unfolding(crate::specs::Audit::fault_at))]
pub fn refusal(text: &[u8], place: usize) -> TraceError
    requires { place ≤ length text.now }
    ensures { result ≡ fault_at text.now place }
{
    match unshaped(text) {
        Some(line) => TraceError::At(TraceFault::Line, line),
        None => {
            let line = line_at(text, place);
            TraceError::At(differing(line), line)
        }
    }
}
