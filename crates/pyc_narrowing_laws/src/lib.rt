//! Laws of what narrowing keeps of the values of places.
#![tactic(auto)]

pub mod laws;
