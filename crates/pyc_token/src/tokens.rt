//! Tokens of a source text.

/// Bytes of a source, from `start` up to `end`, counted from 0 at the source's first byte.
#[derive(Clone, Copy, Debug, PartialEq, Eq)]
pub struct Span {
    pub start: usize,
    pub end: usize,
}

/// A reserved word.
#[derive(Clone, Copy, Debug, PartialEq, Eq)]
pub enum Keyword {
    And,
    As,
    Assert,
    Async,
    Await,
    Break,
    Class,
    Continue,
    Def,
    Del,
    Elif,
    Else,
    Except,
    False,
    Finally,
    For,
    From,
    Global,
    If,
    Import,
    In,
    Is,
    Lambda,
    None,
    Nonlocal,
    Not,
    Or,
    Pass,
    Raise,
    Return,
    True,
    Try,
    While,
    With,
    Yield,
}

/// Which of the words that are keywords in some places alone a name is, in Normalization Form KC.
#[derive(Clone, Copy, Debug, PartialEq, Eq)]
pub enum Word {
    /// None of them.
    Other,
    Match,
    Case,
    Type,
}

/// What a number is.
#[derive(Clone, Copy, Debug, PartialEq, Eq)]
pub enum Number {
    /// Digits of a base alone.
    Integer,
    /// Decimal digits with a point or an exponent.
    Float,
    /// Decimal digits with a `j` after them, perhaps with a point or an exponent.
    Imaginary,
}

/// The prefix of a string, in either case.
#[derive(Clone, Copy, Debug, PartialEq, Eq)]
pub enum Prefix {
    /// No prefix.
    Plain,
    /// `u`
    Unicode,
    /// `r`
    Raw,
    /// `b`
    Bytes,
    /// `br` or `rb`
    RawBytes,
    /// `f`
    Format,
    /// `fr` or `rf`
    RawFormat,
}

/// An operator on two values that an augmented assignment may have before its `=`.
#[derive(Clone, Copy, Debug, PartialEq, Eq)]
pub enum Arithmetic {
    Plus,
    Minus,
    Star,
    Slash,
    DoubleSlash,
    Percent,
    At,
    Ampersand,
    Bar,
    Caret,
    LeftShift,
    RightShift,
    DoubleStar,
}

/// An operator that compares two values.
#[derive(Clone, Copy, Debug, PartialEq, Eq)]
pub enum Comparison {
    Less,
    Greater,
    LessEqual,
    GreaterEqual,
    /// `==`
    Equal,
    NotEqual,
}

/// A sort of brackets.
#[derive(Clone, Copy, Debug, PartialEq, Eq)]
pub enum Bracket {
    /// `(` and `)`
    Round,
    /// `[` and `]`
    Square,
    /// `{` and `}`
    Curly,
}

/// A delimiter, or an operator of none of the groups above.
#[derive(Clone, Copy, Debug, PartialEq, Eq)]
pub enum Delimiter {
    Comma,
    Colon,
    Dot,
    Semicolon,
    /// `=`
    Equal,
    /// `->`
    Arrow,
    /// `:=`
    ColonEqual,
    /// `...`
    Ellipsis,
    Tilde,
}

/// What a token is.
#[derive(Clone, Copy, Debug, PartialEq, Eq)]
pub enum Kind {
    /// An identifier that is no keyword.
    Name(Word),
    Keyword(Keyword),
    Number(Number),
    /// A string literal, its prefix and its quotes included.
    String(Prefix),
    /// An operator on two values, as `+`.
    Arithmetic(Arithmetic),
    /// The operator of an augmented assignment, as `+=`.
    Augmented(Arithmetic),
    Comparison(Comparison),
    Open(Bracket),
    Close(Bracket),
    Delimiter(Delimiter),
}

/// A token with its position: its bytes, its physical line and its column in characters, both from 1.
#[derive(Clone, Copy, Debug, PartialEq, Eq)]
pub struct Token {
    pub kind: Kind,
    pub span: Span,
    pub line: usize,
    pub column: usize,
}
