//! Places whose types conditions narrow, and what is known of them at a point of a body.
#![tactic(auto)]

mod joining;
mod lookup;
mod narrowings;
mod places;
mod states;
mod targets;

pub use joining::join;
pub use narrowings::{Narrowing, Narrowings};
pub use places::{Place, is_at_or_below, name_place, place_of};
pub use states::State;
pub use targets::target_place;
