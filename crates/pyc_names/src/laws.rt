//! Laws of what names stand for, proved for all files.

ghost use Rattle.pyc_names.specs.CarryLaws.{FollowCarriesOver, MoreStepsChangeNothing, OnRingCarriesOver};
ghost use Rattle.pyc_names.specs.CarryLaws.{StepsCarryOver};
ghost use Rattle.pyc_names.specs.Rings.{RingsAreCycles, RingsAreReported, RingsStayRings, ReportedRingsAreRings};

/// A name on a ring is a cycle, wherever on the ring following begins; what it leads to is on the same ring; and
/// exactly the names on a ring are reported to be on one.
pub fn rings()
    ensures cycles { RingsAreCycles }
    ensures around { RingsStayRings }
    ensures reported { ReportedRingsAreRings }
    ensures all_reported { RingsAreReported }
{}

/// Following comes to the same among other files, where each step does that looks at nothing that differs.
pub fn carry_over()
    ensures steps { MoreStepsChangeNothing }
    ensures one { StepsCarryOver }
    ensures follow { FollowCarriesOver }
    ensures on_ring { OnRingCarriesOver }
{}
