//! A law of blocks, proved for all lines.

ghost use Rattle.pyc_parse.specs.Misplaced.{FaultsAreFirstMisplaced};

/// Lines have a tree exactly where none of them is misplaced, and their fault is reported at the first one that is.
pub fn misplaced_lines()
    ensures { FaultsAreFirstMisplaced }
{}
