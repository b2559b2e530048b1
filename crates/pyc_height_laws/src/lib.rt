//! The law that no expression of a source is higher than expressions are read deep.
#![tactic(auto)]

pub mod laws;
