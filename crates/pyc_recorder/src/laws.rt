//! Laws of the keys that readings ask, proved for all of them.

ghost use Rattle.pyc_recorder.specs.ReadLists.{AskedAreTheList, OneListAlone};

/// The keys that a reading asks, each once and in the order in which they are first asked, are the one list in which
/// each key is the one that is lacking over the answers to those before it, and over the answers to all of which the
/// reading comes to what it reports.
pub fn asked_are_the_list()
    ensures is { AskedAreTheList }
    ensures only { OneListAlone }
{}
