//! Subscripts and iteration.
#![tactic(auto)]

mod chosen;
mod indexing;
mod iterating;
mod messages;
mod owners;
mod subscripts;

pub use iterating::infer_iteration;
pub use subscripts::{item_of, subscript};
