//! Laws of assignability, proved for all orders and types.
ghost use Rattle.pyc_types.specs.Laws.{AgreeingMrosAnswerAlike, AnyPartHolds};
ghost use Rattle.pyc_types.specs.MroLaws.{BuiltinMrosAreOrderly, IsReflexive, IsTransitive};
ghost use Rattle.pyc_types.specs.Ways.{MeetsTheRules};

/// `assignable` answers yes exactly where the written rules lead.
pub fn rules()
    ensures { MeetsTheRules }
{}

/// Replacing any part of either type by Any never turns yes into no.
pub fn any_part()
    ensures { AnyPartHolds }
{}

/// Two orders that agree on the classes written in two types give the same answer.
pub fn agreeing_orders()
    ensures { AgreeingMrosAnswerAlike }
{}

/// A type is assignable to itself, where no module stands in it and its callables have their parameters in the order in
/// which Python has them written, no two of one name.
pub fn reflexive()
    ensures { IsReflexive }
{}

/// What is assignable to a type is assignable to all that this one is assignable to, where no Any, no callable and no
/// class of unknown order stands in the three, each known order holds the orders of its classes, and the builtin
/// classes have theirs.
pub fn transitive()
    ensures { IsTransitive }
{}

/// The orders of the builtin classes meet what `reflexive` and `transitive` ask of orders.
pub fn builtin_orders_are_orderly()
    ensures { BuiltinMrosAreOrderly }
{}
