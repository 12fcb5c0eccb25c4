//! States laws of traces and of notes on slips (calls that set no order). Each function does nothing, and its
//! contract is the law.
ghost use Rattle.trial.specs.TraceLaws.{ReasonsHold, TracesAreTrials};

/// States that a trace describes its trial. A trace has a line for each step, which shows the state before the step.
/// The last line shows the program's exit value.
pub fn traces_are_trials()
    ensures { TracesAreTrials }
{}

/// States that the reasons in notes on calls that set no order are true. If another general than the sender gets no
/// order for a label, he is on this label. If `send_row` sets none for a label although orders were passed, nobody
/// receives the label.
pub fn reasons_hold()
    ensures { ReasonsHold }
{}
