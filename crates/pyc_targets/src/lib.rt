//! What targets of assignments take: names of a module, attributes and items of subscripts.
#![tactic(auto)]

mod attribute_targets;
mod item_targets;
mod members;
mod messages;
mod name_targets;
mod target_type;

pub use attribute_targets::attribute_want;
pub use item_targets::IndexedTarget;
pub use name_targets::{declared_type, declares_at};
pub use target_type::TargetType;
