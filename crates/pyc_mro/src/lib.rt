//! The method resolution order of each class of a table.
#![tactic(auto)]

mod ancestors;
mod counting;
pub mod laws;
mod linear;
mod merging;
mod orders;
mod stored;
mod table;
mod tails;

pub use orders::{Mro, MroTable};
pub use table::Base;
