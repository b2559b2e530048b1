//! Laws of messages in order, proved for all messages.

ghost use Rattle.pyc_report.specs.FoundLaws.{AreFoundWhereReported, AreInOrder, AreOnce, AreReported};

/// What is found is what was reported: each found message is one that was reported; a line, code and text is found
/// where one is reported, and nowhere else, and once; and each message stands before those after it by line, column,
/// code and text.
pub fn found_is_reported()
    ensures reported { AreReported }
    ensures found { AreFoundWhereReported }
    ensures once { AreOnce }
    ensures ordered { AreInOrder }
{}
