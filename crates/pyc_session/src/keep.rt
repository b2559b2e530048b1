//! Whether a file is added or changed.

/// How a file is kept whose bytes come with the command.
#[derive(Clone, Copy, Debug, PartialEq, Eq)]
pub enum Keep {
    /// As a new file.
    Add,
    /// In place of the bytes of a file that is present.
    Change,
}
