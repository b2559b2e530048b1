//! What a condition says of the places that stand in it.
#![tactic(auto)]

mod calls;
mod classes;
mod comparisons;
mod literals;
mod looking;
mod narrowed;
mod split_states;
mod splitting;
mod truth;

pub use looking::InferOperand;
pub use split_states::SplitStates;
pub use splitting::split;
