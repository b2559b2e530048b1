//! Assignments: what is reported of them, and what is known of locals and places after them.
#![tactic(auto)]

mod annotated;
mod assigning;
mod assignments;
mod messages;
mod reading;
mod singles;
mod storing;
mod unpacking;

pub use annotated::annotated_assignment;
pub use assigning::Assigner;
pub use assignments::assignment;
pub use reading::{AssignmentOutcome, InferAssignment};
pub use singles::outcome;
pub use storing::{AssignedValue, assignment_required};
