//! The grammar of simple statements, headers and lines, over the function that reads expressions.
#![tactic(auto)]

mod headers;
mod imports;
mod lines;
mod names;
mod rules;
mod statements;

pub use rules::StatementRules;
