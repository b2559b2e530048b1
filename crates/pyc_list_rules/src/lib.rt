//! The grammar of items and of lists of them, over the function that reads expressions.
#![tactic(auto)]

mod comprehensions;
mod items;
mod lists;
mod parameters;
mod rules;
mod yields;

pub use rules::ItemRules;
