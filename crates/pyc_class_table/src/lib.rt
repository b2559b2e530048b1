//! The classes that the files of a session declare, with the order of each.
#![tactic(auto)]

mod class_entry;
mod class_table;
mod entries;
pub mod laws;
mod numbered;
mod stored_order;

pub use class_entry::{ClassEntry, WrittenBase};
pub use class_table::ClassTable;
