//! The arguments of calls: how they are read, which parameters they fill, and what is reported where they do not fit.
#![tactic(auto)]

mod argument_matching;
mod arguments;
mod filling;
mod reporting;
mod required_argument;
mod texts;

pub use argument_matching::{match_arguments, match_listed};
pub use arguments::{Arguments, ReadArgument, push_read, read_all, read_once};
pub use reporting::{Call, CalleeName, owner_name};
