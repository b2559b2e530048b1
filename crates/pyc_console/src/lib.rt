//! What the program does, over any streams and source: a session with its status, or one check of files; the disk as a
//! source; and the command line, the texts of its words and what they ask for.
#![tactic(auto)]

mod checking;
mod disk;
mod sessions;
mod text;
mod words;

pub use checking::{CheckFault, check_files, check_status};
pub use disk::{Disk, first_bytes};
pub use pyc_daemon::{Counted, RunFault};
pub use pyc_iface::{Options, TURNS};
pub use sessions::{session, session_status};
pub use text::word_text;
pub use words::{Job, Usage, read_words};
