//! Laws of diagrams. Each function does nothing, and its contract is the law.
ghost use Rattle.show_diagram.specs.Laws.{DiagramsAreElements, OnlyTraitorsDiffer, RowsAreExact, StrokesAreExact};

/// States that every diagram is one XML element followed by a line feed, for any message table and chronicle.
pub fn diagrams_are_elements()
    ensures { DiagramsAreElements }
{}

/// States that in a finished campaign only strokes of traitors are drawn in red. A message's `differs` is true
/// exactly if the sender did not send the order that he took. (The commander takes the order that he was given.)
pub fn only_traitors_differ()
    ensures { OnlyTraitorsDiffer }
{}

/// States that the messages to a lieutenant are grouped into strokes. Messages are in the same group if they have the
/// same round, sender, order (or none, if nothing was sent) and `differs`. There is exactly one stroke for each
/// group, and no other stroke to the lieutenant. The stroke's `labels` is the number of labels of its group.
pub fn strokes_are_exact()
    ensures { StrokesAreExact }
{}

/// States which strokes are drawn if a lieutenant's list for a round is longer than its room of 24 rows. A lie is a
/// stroke that a loyal general would not send. The rows of a list are numbered from 0, and the first 24 are drawn. If
/// a lie is left out, no honest row is drawn, and every general who lies has a row that is drawn. The number of rows
/// that are reported as left out is the number of rows that are not drawn.
pub fn rows_are_exact()
    ensures { RowsAreExact }
{}
