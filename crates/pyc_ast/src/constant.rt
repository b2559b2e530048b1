//! Literals, and what is not looked into.

/// A literal. The values of numbers and the texts of strings are left out, but for a number that is one digit.
#[derive(Clone, Copy, Debug, PartialEq, Eq)]
pub enum Constant {
    None,
    True,
    False,
    /// `...`
    Ellipsis,
    /// An integer, with its value where it is spelled as one decimal digit.
    Integer(Option<u8>),
    Float,
    Imaginary,
    /// A string, or strings one after another that join.
    Str,
    /// A formatted string, or strings one after another that join, of which at least one is formatted.
    FormattedStr,
    Bytes,
}

/// An expression that is not looked into.
#[derive(Clone, Copy, Debug, PartialEq, Eq)]
pub enum Unchecked {
    Lambda,
    Generator,
    ListComprehension,
    SetComprehension,
    DictComprehension,
}
