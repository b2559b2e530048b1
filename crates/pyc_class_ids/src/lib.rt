//! Classes of annotated Python, and the order of each.
#![tactic(auto)]

mod builtin_class;
mod class_id;
mod order;

pub use builtin_class::BuiltinClass;
pub use class_id::{ClassId, InstanceForm};
pub use order::{Lin, Lins, UnknownMro};
