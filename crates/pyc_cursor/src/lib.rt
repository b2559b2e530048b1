//! A cursor over the tokens of a logical line, and tests of their kinds and of the forms of trees.
#![tactic(auto)]

mod cursor;
mod forms;
mod kinds;

pub use cursor::Cursor;
pub use forms::{
    context_in, display_kind_of, empty_display_kind, fits, is_at, is_element, may_end, next_context,
};
pub use kinds::{
    begins, begins_comprehension, begins_expression, infix_precedence, is_augmented, is_bytes,
    is_colon, is_comparison, is_comprehension, is_double_star, is_name, is_star, is_string,
    right_precedence, same_kind,
};
