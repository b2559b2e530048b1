//! Laws of readings, proved for all of them.

ghost use Rattle.pyc_reading.specs.Traces.{RunsAreFolds};
ghost use Rattle.pyc_reading.specs.Frames.{Frame};
ghost use Rattle.pyc_reading.specs.Listings.{EachIsListed, ReportedIsListed};

/// What comes of a reading depends on the answers to the keys that it asks, and on nothing else.
pub fn frame()
    ensures { Frame }
{}

/// To perform a reading is to come to its result, to ask its keys in turn and to report what it reports.
pub fn performed()
    ensures { RunsAreFolds }
{}

/// A reading reports its diagnostics, and of each row of obligations that it lists the first that does not hold. So an
/// obligation alone in its row is reported exactly where its type is not assignable by the written rules.
pub fn reported_is_listed()
    ensures reported { ReportedIsListed }
    ensures each { EachIsListed }
{}
