//! The type of a call by the type of what is called, and what is reported where that cannot be called.
#![tactic(auto)]

mod caller;
mod calls;
mod constructors;
pub mod laws;
mod methods;
mod plain_calls;
mod refusals;
mod remembered;
mod walks;

pub use calls::UnreadCall;
pub use methods::infer_method_call;
