//! What names and literals in expressions are.
#![tactic(auto)]

mod builtin_values;
mod literals;
mod names;
mod scope;

pub use literals::constant_type;
pub use names::{answered_value, fixed_value, resolve_name};
pub use scope::{Local, Scope};
