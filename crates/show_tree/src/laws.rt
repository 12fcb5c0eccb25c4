//! Laws of the trees that are drawn. Each function does nothing, and its contract is the law.
ghost use Rattle.show_tree.specs.Folds.{FoldsAreAlike};
ghost use Rattle.show_tree.specs.Laws.{OutcomesAreExplained, PicturesAreElements};

/// States that the outcome that a picture shows at a label is the outcome of the list in `book::explain`.
pub fn outcomes_are_explained()
    ensures { OutcomesAreExplained }
{}

/// States that every picture in SVG is one XML element followed by a line feed.
pub fn pictures_are_elements()
    ensures { PicturesAreElements }
{}

/// States what a picture means by labels that are folded into a label. The number that it shows is the number of all
/// labels that extend this one. For each of them the lieutenant received the same order as for the label, none of
/// them is a lie, and each has the same outcome.
pub fn folds_are_alike()
    ensures { FoldsAreAlike }
{}
