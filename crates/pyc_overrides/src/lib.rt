//! What is reported where a class declares a name that an ancestor declares as well, and its type does not go to the
//! ancestor's.
#![tactic(auto)]

mod ancestors;
mod messages;
mod names;
mod overrides;
mod parameters;
mod places;
mod signatures;
mod subclass;

pub use overrides::read_overrides;
