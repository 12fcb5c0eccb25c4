//! Laws of trials. Each function does nothing, and its contract is the law.
ghost use Rattle.trial.specs.Laws.{TrialsEnd, TrialsAreRuns, ContextsAreSettings};

/// States that the trial of a sound program ends, whatever its context contains.
pub fn trials_end()
    ensures { TrialsEnd }
{}

/// States that a trial that ends is a general's run of the program, in which the board answers each request. The run
/// makes exactly the trial's accesses, and they change the board's words to those at the end of the trial.
pub fn trials_are_runs()
    ensures { TrialsAreRuns }
{}

/// States that every context in a campaign is the context of a setting, which a trial can use. The setting has the
/// general's labels, the campaign's bound and the orders that he took.
pub fn contexts_are_settings()
    ensures { ContextsAreSettings }
{}
