//! The state of a session and the commands that change, check and report it.
#![tactic(auto)]

mod command;
mod daemon;
mod ending;
mod keep;
pub mod laws;
mod memory_source;
mod refusal;
mod sources;
mod status;

pub use command::{Command, LONGEST_LINE, MOST_DIGITS, parse};
pub use daemon::{Daemon, LARGEST_FILE, MOST_FILES};
pub use ending::{End, RunFault};
pub use keep::Keep;
pub use memory_source::MemorySource;
pub use pyc_iface::{Options, TURNS};
pub use refusal::Refusal;
pub use sources::{FetchFault, MOST_FETCHED, Sources};
pub use status::Status;
