//! What expressions are: their types, and which modules or special forms they are, in a state of what is known of
//! places; what conditions say of places.
#![tactic(auto)]

mod inferring;
pub mod laws;
mod types;

pub use inferring::{
    Inferred, condition, infer, infer_index, infer_type, read, split, value_at_depth,
};
pub use pyc_expr_forms::{Context, InferValue};
