//! Laws of narrowing, proved for all values: of what a value is before a test, an assignment or a join, it is after it.

ghost use Rattle.pyc_narrowing_laws.specs.ConditionLaws.{NarrowedTypesAreRight, SplitKeeps};
ghost use Rattle.pyc_narrowing_laws.specs.StateLaws.{AssignedKeeps, DroppedKeeps, JoinedKeeps, NothingNarrowedIsMet};
ghost use Rattle.pyc_narrowing_laws.specs.StateLaws.{WithPlaceKeeps};
ghost use Rattle.pyc_narrowing_laws.specs.TestLaws.{ComparisonKeeps, InstanceTestKeeps, TruthKeeps};
ghost use Rattle.pyc_narrowing_laws.specs.TypeLaws.{BuiltinValuesMeetThePremises, NarrowAwayKeeps, NarrowToKeeps};
ghost use Rattle.pyc_narrowing_laws.specs.TypeLaws.{NoneKeeps, RulesLoseValues, UnionIsItsItems, UnionKeeps};
ghost use Rattle.pyc_narrowing_laws.specs.TypeLaws.{WithoutNoneKeeps};

/// A value of one of some types is of their union, and a value is of a type just where it is of one of its items.
pub fn unions()
    ensures kept { UnionKeeps }
    ensures items { UnionIsItsItems }
{}

/// A value of a type is of the type without None, unless it is None. If it is None, it is of what `is None` leaves.
pub fn none_tests()
    ensures refused { WithoutNoneKeeps }
    ensures accepted { NoneKeeps }
{}

/// A value of a type of which `isinstance` says yes is of the type that `narrow_to` leaves, if of each two classes of
/// which it is an instance one stands in the order of the other. It has to be of an item that is neither None nor a
/// module. If it is an int that stands for a `float`, one of the classes has to be `int`.
pub fn accepted_instances()
    ensures { NarrowToKeeps }
{}

/// A value of a type of which `isinstance` says no is of the type that `narrow_away` leaves, if its class has a known
/// order, each known order holds the orders of its classes, and the builtin classes have theirs. If it is an int that
/// stands for a `float`, none of the classes may be `float`.
pub fn refused_instances()
    ensures { NarrowAwayKeeps }
{}

/// The instances of a builtin class meet what the two laws of `isinstance` ask of a value, by the builtin orders.
pub fn builtin_values()
    ensures { BuiltinValuesMeetThePremises }
{}

/// The rules of `isinstance` lose values that the two laws leave out: None where `object` is tested, and an int that
/// stands for a `float` where `bool` or `float` is tested.
pub fn lost_values()
    ensures { RulesLoseValues }
{}

/// All values meet the state in which no place is narrowed. Values that meet a state meet it with a place narrowed to
/// a type of the place's value.
pub fn narrowed_places()
    ensures nothing { NothingNarrowedIsMet }
    ensures one { WithPlaceKeeps }
{}

/// Where two ways meet, values that met the state of either way meet the joined state.
pub fn joined_ways()
    ensures { JoinedKeeps }
{}

/// An assignment to a place changes the values of that place and of those below it. Values that met a state before it
/// meet the state after it, once these places are dropped, and also with the place narrowed to a type of its new
/// value.
pub fn assigned_places()
    ensures dropped { DroppedKeeps }
    ensures narrowed { AssignedKeeps }
{}

/// Values that meet a state meet the state after a test of a place, if its value is of its type and the test comes to
/// what it says of the value: its truth, a comparison with None, or `isinstance` by some classes.
pub fn tested_places()
    ensures truth { TruthKeeps }
    ensures none { ComparisonKeeps }
    ensures instances { InstanceTestKeeps }
{}

/// Values that meet a state meet the state where a condition holds, if it may hold of them, and the state where it
/// does not, if it may not: by `not`, `and`, `or`, literals, places, comparisons with None and `isinstance`. What is
/// looked up of a place has to be a type of its value, and the values have to be such as the laws of `isinstance`
/// ask.
pub fn conditions()
    ensures { SplitKeeps }
{}

/// What is looked up of a place is a type of its value, if it is the type to which the place is narrowed, else that
/// with which it is declared, and each value is of the declared type of its place.
pub fn looked_up_types()
    ensures { NarrowedTypesAreRight }
{}
