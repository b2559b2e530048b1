//! Laws of reports by the messages of the files.
#![tactic(auto)]

pub mod laws;
