//! The types of functions.
#![tactic(auto)]

mod signature;

pub use signature::read_function;
