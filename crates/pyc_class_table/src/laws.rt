//! Laws of the orders, proved for all declared classes.

ghost use Rattle.pyc_class_table.specs.MroLaws.{BeginsWithItself, HoldsEachOnce, KeepsMros};
ghost use Rattle.pyc_class_table.specs.MroLaws.{BuiltinsFollowTheRule, MrosAreOrderly};

/// A known order begins with its class and holds each class once.
pub fn classes_once()
    ensures first { BeginsWithItself }
    ensures once { HoldsEachOnce }
{}

/// In a known order each class stands before its own ancestors: its order is known too, and stands there in the same
/// sequence.
pub fn orders_kept()
    ensures { KeepsMros }
{}

/// The builtin orders are those that the rule for declared classes gives the builtin ones.
pub fn builtin_orders()
    ensures { BuiltinsFollowTheRule }
{}

/// The orders meet what the laws of assignability ask: a known one holds its class and the order of each class in it,
/// and the builtin classes have theirs.
pub fn orders_are_orderly()
    ensures { MrosAreOrderly }
{}
