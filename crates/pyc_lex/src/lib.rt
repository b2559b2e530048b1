//! The lexical analysis of a Python source text: its logical lines with their tokens and its ignore comments, or its
//! first fault.
#![tactic(auto)]

mod brackets;
mod fault;
mod ignores;
mod indents;
mod lines;
mod logical_lines;
mod positions;
mod reader;
mod stack;

pub use fault::LexFault;
pub use lines::{ident, scan};
pub use logical_lines::{Codes, Ignore, LogicalLine, Scan};
pub use pyc_token::{
    Arithmetic, Bracket, Comparison, Delimiter, Keyword, Kind, Number, Prefix, Span, Token, Word,
};
