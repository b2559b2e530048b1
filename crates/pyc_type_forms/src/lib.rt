//! The forms of the types of annotated Python.
#![tactic(auto)]

mod distinct;
mod equality;
mod instances;
mod narrowing;
mod size;
mod text;
mod types;
mod unions;

pub use equality::same_type;
pub use instances::instance_of;
pub use narrowing::{narrow_away, narrow_to, without_none};
pub use text::show;
pub use types::{DictTypes, Param, ParamKind, Params, Signature, Ty};
pub use unions::{items_of, union_of};
