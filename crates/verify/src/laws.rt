//! Laws of the verifier. Each function does nothing, and its contract is the law.
ghost use Rattle.verify.specs.Laws.{PassesAgree, PlainIsAccepted, AcceptedIsSound, StatesAreAsKnown};

/// States, for a program without a structural fault: if the verifier's forward pass reaches the end, `judged` accepts
/// the program, and if it stops at a first fault, `judged` returns this fault. The pass never does both, and there is
/// only one first fault.
pub fn passes_agree()
    ensures { PassesAgree }
{}

/// States that the verifier finds no fault in a plain program, one that only computes with numbers that it has set,
/// jumps forward and ends with its exit.
pub fn plain_is_accepted()
    ensures { PlainIsAccepted }
{}

/// States that an accepted program is sound: it never traps, and it exits or waits within as many steps as it has
/// instructions. This holds in any context, for any general and round, and for all answers of the board.
pub fn accepted_is_sound()
    ensures { AcceptedIsSound }
{}

/// States that what the verifier knows at a unit of an accepted program is true of every state of every run at that
/// unit.
pub fn states_are_as_known()
    ensures { StatesAreAsKnown }
{}
