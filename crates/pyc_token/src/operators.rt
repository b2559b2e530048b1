//! Operators and delimiters, by the byte that they begin with.

ghost use Rattle.std.specs.Prelude.{◌≡◌, ◌<◌, ◌≤◌, length, map, IfSome};
ghost use Rattle.pyc_token.specs.Operators as spec;

use crate::characters::byte_at;
use crate::tokens::{Arithmetic, Bracket, Comparison, Delimiter, Kind};

/// The operators that begin with `*`, longest first.
const STAR: [(&[u8], Kind); 4] = [
    (b"**=", Kind::Augmented(Arithmetic::DoubleStar)),
    (b"**", Kind::Arithmetic(Arithmetic::DoubleStar)),
    (b"*=", Kind::Augmented(Arithmetic::Star)),
    (b"*", Kind::Arithmetic(Arithmetic::Star)),
];

/// The operators that begin with `/`, longest first.
const SLASH: [(&[u8], Kind); 4] = [
    (b"//=", Kind::Augmented(Arithmetic::DoubleSlash)),
    (b"//", Kind::Arithmetic(Arithmetic::DoubleSlash)),
    (b"/=", Kind::Augmented(Arithmetic::Slash)),
    (b"/", Kind::Arithmetic(Arithmetic::Slash)),
];

/// The operators that begin with `>`, longest first.
const GREATER: [(&[u8], Kind); 4] = [
    (b">>=", Kind::Augmented(Arithmetic::RightShift)),
    (b">>", Kind::Arithmetic(Arithmetic::RightShift)),
    (b">=", Kind::Comparison(Comparison::GreaterEqual)),
    (b">", Kind::Comparison(Comparison::Greater)),
];

/// The operators that begin with `<`, longest first.
const LESS: [(&[u8], Kind); 4] = [
    (b"<<=", Kind::Augmented(Arithmetic::LeftShift)),
    (b"<<", Kind::Arithmetic(Arithmetic::LeftShift)),
    (b"<=", Kind::Comparison(Comparison::LessEqual)),
    (b"<", Kind::Comparison(Comparison::Less)),
];

/// The operators that begin with `.`, longest first.
const DOT: [(&[u8], Kind); 2] = [
    (b"...", Kind::Delimiter(Delimiter::Ellipsis)),
    (b".", Kind::Delimiter(Delimiter::Dot)),
];

/// The operators that begin with `-`, longest first.
const MINUS: [(&[u8], Kind); 3] = [
    (b"->", Kind::Delimiter(Delimiter::Arrow)),
    (b"-=", Kind::Augmented(Arithmetic::Minus)),
    (b"-", Kind::Arithmetic(Arithmetic::Minus)),
];

/// The operators that begin with `:`, longest first.
const COLON: [(&[u8], Kind); 2] = [
    (b":=", Kind::Delimiter(Delimiter::ColonEqual)),
    (b":", Kind::Delimiter(Delimiter::Colon)),
];

/// The operators that begin with `=`, longest first.
const EQUAL: [(&[u8], Kind); 2] = [
    (b"==", Kind::Comparison(Comparison::Equal)),
    (b"=", Kind::Delimiter(Delimiter::Equal)),
];

/// The operators that begin with `!`, longest first.
const EXCLAMATION: [(&[u8], Kind); 1] = [(b"!=", Kind::Comparison(Comparison::NotEqual))];

/// The operators that begin with `+`, longest first.
const PLUS: [(&[u8], Kind); 2] = [
    (b"+=", Kind::Augmented(Arithmetic::Plus)),
    (b"+", Kind::Arithmetic(Arithmetic::Plus)),
];

/// The operators that begin with `%`, longest first.
const PERCENT: [(&[u8], Kind); 2] = [
    (b"%=", Kind::Augmented(Arithmetic::Percent)),
    (b"%", Kind::Arithmetic(Arithmetic::Percent)),
];

/// The operators that begin with `@`, longest first.
const AT: [(&[u8], Kind); 2] = [
    (b"@=", Kind::Augmented(Arithmetic::At)),
    (b"@", Kind::Arithmetic(Arithmetic::At)),
];

/// The operators that begin with `&`, longest first.
const AMPERSAND: [(&[u8], Kind); 2] = [
    (b"&=", Kind::Augmented(Arithmetic::Ampersand)),
    (b"&", Kind::Arithmetic(Arithmetic::Ampersand)),
];

/// The operators that begin with `|`, longest first.
const BAR: [(&[u8], Kind); 2] = [
    (b"|=", Kind::Augmented(Arithmetic::Bar)),
    (b"|", Kind::Arithmetic(Arithmetic::Bar)),
];

/// The operators that begin with `^`, longest first.
const CARET: [(&[u8], Kind); 2] = [
    (b"^=", Kind::Augmented(Arithmetic::Caret)),
    (b"^", Kind::Arithmetic(Arithmetic::Caret)),
];

/// The operators that begin with `~`, longest first.
const TILDE: [(&[u8], Kind); 1] = [(b"~", Kind::Delimiter(Delimiter::Tilde))];

/// The operators that begin with `(`, longest first.
const OPEN_ROUND: [(&[u8], Kind); 1] = [(b"(", Kind::Open(Bracket::Round))];

/// The operators that begin with `)`, longest first.
const CLOSE_ROUND: [(&[u8], Kind); 1] = [(b")", Kind::Close(Bracket::Round))];

/// The operators that begin with `[`, longest first.
const OPEN_SQUARE: [(&[u8], Kind); 1] = [(b"[", Kind::Open(Bracket::Square))];

/// The operators that begin with `]`, longest first.
const CLOSE_SQUARE: [(&[u8], Kind); 1] = [(b"]", Kind::Close(Bracket::Square))];

/// The operators that begin with `{`, longest first.
const OPEN_CURLY: [(&[u8], Kind); 1] = [(b"{", Kind::Open(Bracket::Curly))];

/// The operators that begin with `}`, longest first.
const CLOSE_CURLY: [(&[u8], Kind); 1] = [(b"}", Kind::Close(Bracket::Curly))];

/// The operators that begin with `,`, longest first.
const COMMA: [(&[u8], Kind); 1] = [(b",", Kind::Delimiter(Delimiter::Comma))];

/// The operators that begin with `;`, longest first.
const SEMICOLON: [(&[u8], Kind); 1] = [(b";", Kind::Delimiter(Delimiter::Semicolon))];

/// The first operator of the table whose spelling begins a text, and its length.
fn operator_in(mut table: &[(&[u8], Kind)], text: &[u8]) -> Option<(Kind, usize)>
    ensures value { result ≡ spec.operator_in (map (λ entry. (entry.0.now, entry.1)) table.entry.now) text.now }
    ensures within { IfSome result (λ found. found.1 ≤ length text.now) }
{
    while let [entry, rest @ ..] = table {
        if text.starts_with(entry.0) {
            return Some((entry.1, entry.0.len()));
        }
        table = rest;
    }
    None
}

/// The longest operator at the front of a text, and its length.
pub(crate) fn operator_at(text: &[u8]) -> Option<(Kind, usize)>
    ensures value { result ≡ spec.operator_at text.now }
    ensures within { IfSome result (λ found. found.1 ≤ length text.now) }
{
    match byte_at(text, 0) {
        b'*' => operator_in(&STAR, text),
        b'/' => operator_in(&SLASH, text),
        b'>' => operator_in(&GREATER, text),
        b'<' => operator_in(&LESS, text),
        b'.' => operator_in(&DOT, text),
        b'-' => operator_in(&MINUS, text),
        b':' => operator_in(&COLON, text),
        b'=' => operator_in(&EQUAL, text),
        b'!' => operator_in(&EXCLAMATION, text),
        b'+' => operator_in(&PLUS, text),
        b'%' => operator_in(&PERCENT, text),
        b'@' => operator_in(&AT, text),
        b'&' => operator_in(&AMPERSAND, text),
        b'|' => operator_in(&BAR, text),
        b'^' => operator_in(&CARET, text),
        b'~' => operator_in(&TILDE, text),
        b'(' => operator_in(&OPEN_ROUND, text),
        b')' => operator_in(&CLOSE_ROUND, text),
        b'[' => operator_in(&OPEN_SQUARE, text),
        b']' => operator_in(&CLOSE_SQUARE, text),
        b'{' => operator_in(&OPEN_CURLY, text),
        b'}' => operator_in(&CLOSE_CURLY, text),
        b',' => operator_in(&COMMA, text),
        b';' => operator_in(&SEMICOLON, text),
        _ => None,
    }
}
