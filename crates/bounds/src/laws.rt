//! Laws of the number of traitors that can be tolerated. Each function does nothing, and its contract is the law.
ghost use Rattle.bounds.specs.Denial.{DenialBreaks};
ghost use Rattle.bounds.specs.Division.{DivisionBreaks};
ghost use Rattle.bounds.specs.Stories.{StoriesAreAdmissible, StoriesBreak};
ghost use Rattle.bounds.specs.Tightness.{BoundIsTight, OmIsDecisionRule};
ghost use Rattle.bounds.specs.Tolerance.{BoundIsTolerable, ToleranceHolds, ToleranceIsExact};
ghost use Rattle.bounds.specs.TwoOrders.{TwoOrderRulesAgree};

/// States that the bound is tight: if there are at least three and at most 3m generals, every decision rule breaks
/// IC1 or IC2 in some campaign. In this campaign at most m generals are traitors, and all loyal generals are
/// faithful.
pub fn bound_is_tight()
    ensures { BoundIsTight }
{}

/// States that OM(m) is a decision rule, whatever function combines the orders, so that the law `bound_is_tight`
/// applies to it.
pub fn om_is_decision_rule()
    ensures { OmIsDecisionRule }
{}

/// States what holds in each of the three stories if there are at least three generals and at most 3m. The loyal
/// generals are faithful, and 1 to m generals are traitors. A lieutenant of group 1 receives the same messages in the
/// first two stories, and one of group 2 in the last two.
pub fn stories_are_admissible()
    ensures { StoriesAreAdmissible }
{}

/// States that every decision rule breaks IC1 or IC2 in one of the three stories, if there are at least three
/// generals and at most 3m.
pub fn stories_break()
    ensures { StoriesBreak }
{}

/// States that OM(m), with any rule that returns the order of a majority, tolerates k traitors among n generals if k is
/// 0, or if k is at most m and n is more than 2k + m.
pub fn tolerance()
    ensures { ToleranceHolds }
{}

/// States that m traitors among more than 3m generals, the bound of the agreement theorem, are within the tolerance
/// of OM(m).
pub fn bound_is_tolerable()
    ensures { BoundIsTolerable }
{}

/// States that with the majority rule, no loyal lieutenant obeys a loyal commander if k lieutenants deny his order.
/// This needs at most 2k + m generals, and k and m must be at least 1.
pub fn denial_breaks()
    ensures { DenialBreaks }
{}

/// States that with the majority rule, a chain of m + 1 traitors, the commander first, breaks IC1. This needs at
/// least 2m generals, of whom at least two are loyal.
pub fn division_breaks()
    ensures { DivisionBreaks }
{}

/// States that the tolerance is exact: among at least three generals, OM(m) with the majority rule tolerates only the
/// numbers of traitors that the law `tolerance` names.
pub fn tolerance_is_exact()
    ensures { ToleranceIsExact }
{}

/// States that agreement within the tolerance holds for a rule that is right only on lists of 0 and 1, if every
/// general takes 0 or 1.
pub fn two_order_rules_agree()
    ensures { TwoOrderRulesAgree }
{}
