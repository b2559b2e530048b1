//! What was found in files, and what is printed of it.

use crate::message::Message;

/// What was found in one file: its path as it is printed, and its messages in any order, all borrowed.
#[derive(Debug, Drop)]
pub struct Found<'a> {
    pub path: &'a str,
    pub messages: Vec<&'a Message>,
}

/// What is printed for the files that were checked.
#[derive(Debug, Drop)]
pub struct Report {
    /// The messages and the summary, each line with its line end.
    pub text: String,
    /// Whether there is no error.
    pub clean: bool,
}
