//! The builtin classes of Python with their orders and members, and what the names of Python's builtins stand for.
#![tactic(auto)]

mod builtin;
mod builtins;
mod chains;
pub mod laws;
mod member_types;
mod members;
mod names;
mod tables;

pub use builtin::Builtin;
pub use builtins::Builtins;
pub use member_types::member_type;
pub use members::{FoundMember, Member, MethodResult, builtin_member, is_dunder, own_member};
pub use names::{BuiltinName, FunctionResult, builtin_name};
