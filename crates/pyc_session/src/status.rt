//! What `status` answers with.

/// What `status` says of the last completed check.
#[derive(Clone, Copy, Debug, PartialEq, Eq)]
pub struct Status {
    /// How many files it checked.
    pub files: usize,
    /// How many units they have.
    pub bodies: usize,
    /// How many units it examined.
    pub rechecked: usize,
}
