//! A law about what is known after an instruction. The function does nothing, and its contract is the law.
ghost use Rattle.reaching.specs.Laws.{LeftIsTransfer};

/// States that `left`, which explanations use, gives for every instruction that may run the same state as the verifier.
pub fn left_is_the_transfer()
    ensures { LeftIsTransfer }
{}
