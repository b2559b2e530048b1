//! The tokens of a Python source text: the longest lexeme is cut off the front of a text.
#![tactic(auto)]

mod characters;
mod lexeme;
mod names;
mod numbers;
mod operators;
mod strings;
mod tokens;

pub use characters::byte_at;
pub use lexeme::{CutFault, Lexeme, cut_first_lexeme};
pub use names::kind_of_name;
pub use tokens::{
    Arithmetic, Bracket, Comparison, Delimiter, Keyword, Kind, Number, Prefix, Span, Token, Word,
};
