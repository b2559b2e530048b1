//! The abstract expressions that trees of the grammar are.
#![tactic(auto)]

mod build;
mod lower;

pub use lower::Lowering;
pub use pyc_lower_atom::{
    Names, Origin, Quotes, Role, Unread, augmented_operator, comparison_operator, comprehension,
    is_plain, number_constant, operation, strings_constant, text_at, unary_operator, word_constant,
};
