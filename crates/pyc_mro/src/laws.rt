//! Laws of the orders, proved for all tables.

ghost use Rattle.pyc_mro.specs.MroLaws.{CyclesAreReported, HasEnoughDepth};
ghost use Rattle.pyc_mro.specs.MroLaws.{KeepsMros, KeepsWrittenBases, HoldsItself, HoldsMros};
ghost use Rattle.pyc_mro.specs.MroLaws.{KnownAreOfTheTable, BeginsWithItself, HoldsAncestors, HoldsEachOnce};

/// The order of each class of a table begins with the class. A known one is that of a class of the table, and holds
/// exactly the class and its ancestors, each once.
pub fn ancestors()
    ensures within { KnownAreOfTheTable }
    ensures first { BeginsWithItself }
    ensures held { HoldsAncestors }
    ensures once { HoldsEachOnce }
{}

/// In a known order each class stands before its own ancestors: its order is known too, and stands there in the same
/// sequence.
pub fn orders_kept()
    ensures { KeepsMros }
{}

/// In a known order the bases of the class stand in the sequence in which they are written.
pub fn written_bases_kept()
    ensures { KeepsWrittenBases }
{}

/// A known order holds its class and the order of each class in it.
pub fn orders_held()
    ensures itself { HoldsItself }
    ensures others { HoldsMros }
{}

/// An order is reported as a cycle exactly where its class is its own ancestor, however long the way back; and no class
/// has another order by going to bases more often than the definition does.
pub fn unknown_orders()
    ensures cycles { CyclesAreReported }
    ensures depth { HasEnoughDepth }
{}
