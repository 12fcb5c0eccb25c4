//! Reports why a muster, which plays a campaign with a thread for each general, returned no chronicle.
ghost use Rattle.std.specs.Prelude.{◌≡◌, IfOk, string_bytes};
ghost use Rattle.cli_report.specs.Musters.{muster_sentence, muster_told};

use std::alloc::{AllocError, Global};
use threads::MusterError;

/// Returns the error sentence for a muster that failed.
fn sentence(error: MusterError) -> &'static str
    ensures { result.now ≡ muster_sentence error }
{
    match error {
        MusterError::Unaccounted =>
            "the board's accesses do not explain the letters that the threads returned: \
             this is a fault of the program or the machine, not of a file",
        MusterError::Spawn =>
            "the system cannot start another thread, and a muster needs one for each general: `play` needs none",
        MusterError::Post =>
            "a general's letter found the post full: this is a fault of the program, not of a file",
        MusterError::Memory => "there is not enough memory",
    }
}

/// Returns the report of a muster's error. It names no file, because no file is at fault.
pub fn of_muster(alloc: Global, error: MusterError) -> Result<String, AllocError>
    ensures { IfOk result (λ told. string_bytes told ≡ muster_told error) }
{
    let sentence = sentence(error);
    format!(in alloc; "\nerror: {sentence}")
}
