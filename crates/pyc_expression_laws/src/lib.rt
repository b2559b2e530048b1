//! The table of reads: what the parts of expressions ask of the files of a workspace, a law for each row; and that
//! expressions ask files alone, nothing of a builtin class or of a fixed module. All laws are proved for all answers.
#![tactic(auto)]

pub mod attributes;
pub mod calls;
pub mod expressions;
pub mod items;
pub mod keys;
pub mod names;
pub mod obligations;
pub mod operators;
pub mod rules;
pub mod tests;
