//! Where a part of a source stands.

/// Where a part begins: the physical line of its first token, and the column of that token in characters, both from 1.
#[derive(Clone, Copy, Debug, PartialEq, Eq)]
pub struct Position {
    pub line: u32,
    pub column: u32,
}
