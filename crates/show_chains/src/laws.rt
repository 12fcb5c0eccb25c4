//! States laws of diagrams of signed campaigns. Each function does nothing, and its contract is the law.
ghost use Rattle.show_chains.specs.Laws.{OnlyTraitorsDiffer, RowsAreExact, SignedDiagramsAreElements, StrokesAreExact};

/// States that a diagram is always one XML element followed by a line feed.
pub fn signed_diagrams_are_elements()
    ensures { SignedDiagramsAreElements }
{}

/// States that in a finished campaign only traitors send chains that a loyal general would not send, or withhold chains
/// that he would send.
pub fn only_traitors_differ()
    ensures { OnlyTraitorsDiffer }
{}

/// States which strokes a signed campaign's diagram has. A stroke is for the chains with one order from one sender to
/// one receiver in a round. A chain is in exactly one stroke if it was sent, or if a loyal general in the sender's
/// place would have sent it. Any other chain is in no stroke. A stroke is marked as differing exactly if a loyal
/// general would not have done the same.
pub fn strokes_are_exact()
    ensures { StrokesAreExact }
{}

/// States which rows are drawn in the receivers' lists below each band. A row is for one stroke, and it is a lie if a
/// loyal general would not have done the same. Rows are numbered from 0, and the first ones are drawn. Each general who
/// lies has a row that is drawn. If a lie is left out for lack of room, no honest row is drawn. The counts of rows and
/// lies left out are exact.
pub fn rows_are_exact()
    ensures { RowsAreExact }
{}
