//! The types of list, dict, tuple and set displays, and what their items are reported to be; those of `and`, `or` and
//! conditional expressions by the types of their parts.
#![tactic(auto)]

mod built;
mod dicts;
mod expecting;
mod items;
mod joins;
mod lists;
mod messages;
mod tuples;

pub use built::tuple_type;
pub use dicts::dict_display;
pub use joins::{and_type, conditional_type, or_type};
pub use lists::list_display;
pub use tuples::{set_display, tuple_display};
