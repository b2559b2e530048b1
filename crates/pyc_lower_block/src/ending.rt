//! The clauses that end a statement.

/// A clause that ends a statement.
#[derive(Clone, Copy, Debug, PartialEq, Eq)]
pub enum Ending {
    Else,
    Finally,
}
