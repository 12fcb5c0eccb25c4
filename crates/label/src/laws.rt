//! States laws of labels, their lists, and the recursion of OM(m) over them. Each function does nothing, and its
//! contract is the law.
ghost use Rattle.label.specs.Laws.{ChildrenStand, DecisionsReadOwn, LabelsAreCounted, LabelsAreExact, LabelsAscend, LabelsDiffer, LevelsDecide};

/// States that the list of labels of a given length contains exactly the labels of this length that a given lieutenant
/// is not on.
pub fn labels_are_exact()
    ensures { LabelsAreExact }
{}

/// States that the list of labels of a given length contains no label twice.
pub fn labels_differ()
    ensures { LabelsDiffer }
{}

/// States that the list of labels of a given length is in lexicographic order, ascending.
pub fn labels_ascend()
    ensures { LabelsAscend }
{}

/// States how many labels of each length there are: one of length 1. For each further length it is the previous
/// number times the number of generals who may be appended.
pub fn labels_are_counted()
    ensures { LabelsAreCounted }
{}

/// States that the labels that extend a label by one general (its children) are next to each other in the list of
/// labels of their length.
pub fn children_stand()
    ensures { ChildrenStand }
{}

/// States that a general's decision depends only on the messages that he received.
pub fn decisions_read_own()
    ensures { DecisionsReadOwn }
{}

/// States how a general decides about a label: he combines his decisions about its children, the labels that extend
/// it by one general. He inserts his own value among them, at his own position.
pub fn levels_decide()
    ensures { LevelsDecide }
{}
