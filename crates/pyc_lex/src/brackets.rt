//! Open brackets.

use pyc_token::Bracket;

/// An open bracket with its physical line.
#[derive(Clone, Copy, Debug, PartialEq, Eq)]
pub(crate) struct Opened {
    pub bracket: Bracket,
    pub line: usize,
}
