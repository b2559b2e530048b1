//! A law of the grammar of lines, proved for all tokens and trees.

ghost use Rattle.pyc_line.specs.ReadsExactly.{ReadsExactly};

/// The grammar reads tokens as a line exactly where that line is well-formed, is at most 1,000 nodes high, and has just
/// those tokens.
pub fn trees()
    ensures { ReadsExactly }
{}
