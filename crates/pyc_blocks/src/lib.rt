//! Blocks of statements, over a parameter that checks what is no block: branches, loops, `try` and `with`.
#![tactic(auto)]

mod blocks;
mod flows;
mod parts;
mod rules;
mod statements;
mod trying;

pub use parts::PartReader;
pub use statements::read_statements;
