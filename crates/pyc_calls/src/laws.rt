//! Laws of the types of calls.

ghost use Rattle.pyc_calls.specs.Laws.{DeeperGivesTheSame, IsDeepEnough};

/// How many calls may lie one in another is no part of the rule: over answers by which only the classes of a list have
/// a `__call__`, the definition comes to the same at any two depths above the length of the list.
pub fn deeper_gives_the_same()
    ensures { DeeperGivesTheSame }
{}

/// Over such answers a call comes to what it comes to at any depth above the length of the list.
pub fn is_deep_enough()
    ensures { IsDeepEnough }
{}
