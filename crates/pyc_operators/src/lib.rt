//! Operators: what they give, by a table for builtin types and by methods for users' classes, and what is reported
//! where there is no such operation.
#![tactic(auto)]

mod binary_operator;
mod made;
mod messages;
mod methods;
mod operation;
mod pairs;
mod results;
mod sorts;
mod table;
mod unary_operator;

pub use binary_operator::BinaryOperands;
pub use methods::CallsMethods;
pub use operation::in_place_method;
pub use unary_operator::unary;
