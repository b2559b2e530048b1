//! The tree of a logical line, or what is wrong with it.
#![tactic(auto)]

mod fault;
pub mod laws;
mod line_parser;

pub use fault::{ParseFault, What, line_number};
pub use line_parser::parse_line;
