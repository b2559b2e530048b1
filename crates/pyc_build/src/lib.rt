//! Builds trees of expressions, each with its height, which is refused past the limit.
#![tactic(auto)]

pub mod built;
mod chains;
mod error;
mod growth;
mod pieces;
mod pieces_so_far;
mod target;

pub use built::{
    Built, BuiltComprehensions, BuiltLinks, BuiltOption, BuiltPieces, BuiltTail, MAX_HEIGHT, boxed,
    taller,
};
pub use chains::{BuiltComprehension, BuiltLink};
pub use error::ParseError;
pub use growth::append;
pub use pieces::ends_without_comma;
pub use pieces_so_far::{Listed, PiecesSoFar, separate_single};
pub use target::is_single_target;
