//! Which parameter each argument of a call fills.
#![tactic(auto)]

mod filling;
mod kinds;
mod lookup;
mod matching;
mod unfilled;

pub use filling::{Fill, Given, Match};
pub use matching::matched;
pub use unfilled::{MissingArgument, missing};
