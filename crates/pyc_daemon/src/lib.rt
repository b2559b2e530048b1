//! The daemon: a session over a reader, a writer and sources, from its first command to its end.
#![tactic(auto)]

mod counted;
mod engine;
mod input;
mod read_buffer;
mod reply;
mod serving;
mod writing;

pub use counted::Counted;
pub use engine::run;
pub use pyc_session::{
    Daemon, End, FetchFault, Keep, LARGEST_FILE, MOST_FETCHED, MOST_FILES, MemorySource, Options,
    Refusal, RunFault, Sources, Status, TURNS,
};
pub use writing::{write_bytes, write_parts};
