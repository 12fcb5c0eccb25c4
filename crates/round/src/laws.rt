//! States laws of contexts, letters and activations. Each function does nothing, and its contract is the law.
ghost use Rattle.round.specs.Laws.{ContextsTell, LoyalLettersFollow, OutboxesTell, PatienceIsKept, RunsAreSafe, RunsFollowAnswers, RunsHaveOneEnd};

/// States that a context contains, for each label that its general relays, the order that he took for it.
pub fn contexts_tell()
    ensures { ContextsTell }
{}

/// States that a loyal general's letter depends only on his context.
pub fn loyal_letters_follow()
    ensures { LoyalLettersFollow }
{}

/// States where an outbox keeps an order: the order that it sends to a receiver of a label is in the row of the label's
/// rank.
pub fn outboxes_tell()
    ensures { OutboxesTell }
{}

/// States that runs are deterministic: two runs with the same start, the same number of steps and the same accesses end
/// in the same state.
pub fn runs_have_one_end()
    ensures { RunsHaveOneEnd }
{}

/// States that a patience does not change a run until it is used up.
pub fn patience_is_kept()
    ensures { PatienceIsKept }
{}

/// States that the run of a sound program never traps, and takes at most as many steps as the program has instructions.
pub fn runs_are_safe()
    ensures { RunsAreSafe }
{}

/// States that the state of a sound program's run depends only on its start and the replies that it has received.
pub fn runs_follow_answers()
    ensures { RunsFollowAnswers }
{}
