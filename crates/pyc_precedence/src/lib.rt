//! The grammar of expressions, by their precedence.
#![tactic(auto)]

mod calls;
mod comparisons;
mod displays;
mod operands;
mod operators;
pub mod rules;

pub use rules::{ExpressionRules, expr};
