//! What tokens are in abstract trees: texts, positions, names, literals and operators.
#![tactic(auto)]

mod constants;
mod names;
mod operators;
mod origin;
mod quotes;
mod role;

pub use constants::{comprehension, is_plain, number_constant, strings_constant, word_constant};
pub use names::Names;
pub use operators::{augmented_operator, comparison_operator, operation, unary_operator};
pub use origin::{Origin, text_at};
pub use quotes::{Quotes, Unread};
pub use role::Role;
