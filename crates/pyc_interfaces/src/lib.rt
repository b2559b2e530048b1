//! When two files have the same interface, and that positions change no answer.
#![tactic(auto)]

mod changes;
mod class_changes;
mod class_heads;
mod file_changes;
mod home;
pub mod laws;
mod module_changes;
mod named;
mod orders;
mod same_bindings;
mod same_classes;
mod same_expressions;
mod same_heads;
mod sameness;

pub use changes::{Common, RevisedWorld, revised_world};
pub use sameness::same_interface;
