//! Logical lines and ignore comments, as the scan of a source text gives them.

ghost use Rattle.std.specs.Prelude.{◌<◌, vec_len};

use pyc_token::{Span, Token};

/// The tokens of a logical line, of which there is at least one, and how many entries the stack of indents has above
/// its first.
#[derive(Debug, Drop)]
pub struct LogicalLine {
    pub indent: usize,
    pub tokens: Vec<Token>,
    pub ghost not_empty: { 0 < vec_len tokens },
}

/// Which errors an ignore comment suppresses.
#[derive(Debug, Drop)]
pub enum Codes {
    /// All of them.
    All,
    /// Those of the codes at these spans.
    Listed(Vec<Span>),
}

/// An ignore comment with its physical line, counted from 1.
#[derive(Debug, Drop)]
pub struct Ignore {
    pub line: usize,
    pub codes: Codes,
}

/// The logical lines and the ignore comments of a source, both in text order, and whether an ignore comment of all
/// errors stands before the first logical line.
#[derive(Debug, Drop)]
pub struct Scan {
    pub lines: Vec<LogicalLine>,
    pub ignores: Vec<Ignore>,
    pub whole_file: bool,
}
