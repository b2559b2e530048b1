//! Builds trees of statements, headers and lines, each with its height.
#![tactic(auto)]

pub mod built_line;
pub mod built_statement;

pub use built_line::{BuiltHeader, BuiltLine};
pub use built_statement::{BuiltChain, BuiltSimpleStatement, BuiltSimpleStatements};
