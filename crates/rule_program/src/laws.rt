//! Laws of rule programs. Each function does nothing, and its contract is the law.
ghost use Rattle.rule_program.specs.Laws.{CertifiedRulesAgree, ProgramsReturnTwoOrders};

/// States that a program that keeps majorities suffices for agreement: among at most one general more than its lists
/// have orders, OM(m) with the program tolerates k traitors within the tolerance, if everyone takes only the orders 0
/// and 1.
pub fn certified_rules_agree()
    ensures { CertifiedRulesAgree }
{}

/// States that a program combines every list to 0 or 1.
pub fn programs_return_two_orders()
    ensures { ProgramsReturnTwoOrders }
{}
