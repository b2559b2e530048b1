//! The attributes of values.
#![tactic(auto)]

mod binding;
mod found;
mod messages;
mod modules;
mod values;

pub use binding::{through_class, through_instance, without_first};
pub use found::{FoundAttribute, item_attribute};
pub use messages::{no_attribute, no_item_attribute};
pub use values::attribute;
