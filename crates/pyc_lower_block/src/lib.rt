//! The abstract statements that blocks of the grammar are.
#![tactic(auto)]

mod blocks;
mod ending;
mod forms;
mod suspension;

pub use blocks::into_statements;
pub use suspension::statements_suspend;
