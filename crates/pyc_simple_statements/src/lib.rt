//! Statements that are no blocks, and the heads of compound statements, in the bodies in which they stand.
#![tactic(auto)]

mod augmented;
mod catching;
mod deleting;
mod expressions;
mod heads;
mod parts;
mod raising;
mod reader;
mod returning;
mod target_types;

pub use parts::BodyParts;
