//! The files of a session: their paths and trees, their order, and the report on checks of their units.
#![tactic(auto)]

mod file;
mod files;
mod fresh;
pub mod laws;
mod module_counts;
mod path;
mod workspace;

pub use file::File;
pub use files::Files;
pub use fresh::{interfaces_of, report};
pub use path::{LONGEST_PATH, is_file_path};
pub use pyc_body::{Checked, Meter};
pub use workspace::Workspace;
