//! A law of the builtin classes, proved for each of them.

ghost use Rattle.pyc_builtins.specs.MroTable.{FollowTheBases};

/// The order of each builtin class begins with the class itself and goes on with the order of its base.
pub fn builtin_orders()
    ensures { FollowTheBases }
{}
