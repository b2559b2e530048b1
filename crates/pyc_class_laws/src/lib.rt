//! Laws of the orders of classes by the bases that are written.
#![tactic(auto)]

pub mod laws;
