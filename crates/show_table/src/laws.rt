//! States a law of chronicles. The function does nothing, and its contract is the law.
ghost use Rattle.show_table.specs.Laws.{RunsAreWhole};

/// States that the chronicle of a complete run has the letters of all rounds, so that it has a message table.
pub fn runs_are_whole()
    ensures { RunsAreWhole }
{}
