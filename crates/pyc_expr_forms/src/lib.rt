//! What expressions of each form are, by what their parts are: names and attributes, operators, subscripts, `and` and
//! `or`, conditional expressions and calls, in a state of what is known of places.
#![tactic(auto)]

mod call_values;
mod choices;
mod context;
pub mod laws;
mod method_caller;
mod names;
mod operations;
mod parts;
mod revealing;
mod subscripting;

pub use call_values::call_type;
pub use choices::{boolean_type, choice_type};
pub use context::Context;
pub use method_caller::MethodCaller;
pub use names::{attribute_value, name_value};
pub use operations::{binary_type, compare_type, unary_type};
pub use parts::{InState, InferValue, Looking, infer_freely, type_in};
pub use subscripting::{index_type, infer_optional, subscript_type};
