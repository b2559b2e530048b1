//! What annotations are written as, before it is known what their names mean.
#![tactic(auto)]

mod forms;
mod writing;

pub use forms::{ArgumentShape, DottedName, TypeArgument, TypeExpr};
pub use writing::{dotted_names, innermost, type_expr};
