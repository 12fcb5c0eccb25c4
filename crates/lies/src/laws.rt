//! Laws of the search. Each function does nothing, and its contract is the law.
ghost use Rattle.lies.specs.TwoOrders.{RulesProject, TwoOrdersSuffice};

/// States that for any two orders, each rule of campaigns commutes with a map to 0 and 1 that keeps them apart, and that
/// it returns 0 or 1 for lists of 0 and 1.
pub fn rules_project()
    ensures { RulesProject }
{}

/// States that the loyal lieutenants always agree by a rule of campaigns if they agree whenever all orders are 0 or 1.
pub fn two_orders_suffice()
    ensures { TwoOrdersSuffice }
{}
