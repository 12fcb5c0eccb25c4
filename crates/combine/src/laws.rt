//! States laws of the decision rules. Each function does nothing, and its contract is the law.
ghost use Rattle.combine.specs.Names.{NamesAreWords};
ghost use Rattle.combine.specs.Rule.{MedianIsMiddle, NoMajorityIsRetreat, OutcomesCombine};

/// States that the majority rule results in RETREAT, 0, if no order makes up more than half of the list. For example,
/// this is so if two orders are equally frequent.
pub fn no_majority_is_retreat()
    ensures { NoMajorityIsRetreat }
{}

/// States that the median of a list of n orders is the order with index n / 2, rounded down, in the sorted list.
/// Indices begin at 0, and the list is not empty.
pub fn median_is_middle()
    ensures { MedianIsMiddle }
{}

/// States that every rule has exactly one name, that the name consists of lower-case letters, and that parsing it
/// gives the rule. The list `ALL` has each rule once, and exactly one rule is the default.
pub fn names_are_words()
    ensures { NamesAreWords }
{}

/// States that the order in a rule's outcome is the order to which the rule combines the list.
pub fn outcomes_combine()
    ensures { OutcomesCombine }
{}
