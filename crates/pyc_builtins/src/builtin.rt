//! The types of literals.

/// The type of `None`, or a builtin class whose instances are the type.
#[derive(Clone, Copy, Debug, PartialEq, Eq)]
pub enum Builtin {
    Int,
    Str,
    Bool,
    Float,
    Bytes,
    None,
}
