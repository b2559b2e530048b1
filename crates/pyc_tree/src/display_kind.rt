//! What a display or a comprehension makes.

/// What a display or a comprehension makes.
#[derive(Clone, Copy, Debug, PartialEq, Eq)]
pub enum DisplayKind {
    /// A tuple; of a comprehension, a generator.
    Tuple,
    List,
    Set,
    Dict,
}
