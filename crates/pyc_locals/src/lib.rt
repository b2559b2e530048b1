//! The locals of functions, what is known of them and of places at points of bodies, and the places that statements
//! assign.
#![tactic(auto)]

mod dropping;
mod flow_states;
mod handlers;
mod imports;
mod locals;
mod statements;
mod targets;

pub use dropping::drop_places;
pub use flow_states::FlowState;
pub use handlers::push_handlers;
pub use locals::{LocalType, Locals};
pub use statements::{assigned_places, push_assigned};
pub use targets::push_target;
