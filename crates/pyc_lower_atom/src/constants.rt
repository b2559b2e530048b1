//! The literals that tokens spell, and the comprehensions.

ghost use Rattle.std.specs.Prelude.{◌≡◌};
ghost use Rattle.std.specs.List.{list_any};
ghost use Rattle.pyc_lower_atom.specs.Constants as spec;

use pyc_ast::{Constant, Unchecked};
use pyc_token::{Keyword, Kind, Number, Prefix, Token};
use pyc_tree::DisplayKind;

/// The value of a decimal digit that stands alone.
fn digit_of(text: &[u8]) -> Option<u8>
    ensures { result ≡ spec.digit_of text.now }
{
    match text {
        [byte] if 48 <= *byte && *byte <= 57 => Some(*byte - 48),
        _ => None,
    }
}

/// A number, by its token's kind and text.
pub fn number_constant(kind: Kind, text: &[u8]) -> Constant
    ensures { result ≡ spec.number_constant kind text.now }
{
    match kind {
        Kind::Number(Number::Integer) => Constant::Integer(digit_of(text)),
        Kind::Number(Number::Float) => Constant::Float,
        Kind::Number(Number::Imaginary) => Constant::Imaginary,
        _ => Constant::Ellipsis,
    }
}

/// A constant, by its token's kind.
pub fn word_constant(kind: Kind) -> Constant
    ensures { result ≡ spec.word_constant kind }
{
    match kind {
        Kind::Keyword(Keyword::None) => Constant::None,
        Kind::Keyword(Keyword::True) => Constant::True,
        Kind::Keyword(Keyword::False) => Constant::False,
        _ => Constant::Ellipsis,
    }
}

/// Whether a string is formatted.
fn is_formatted(kind: Kind) -> bool
    ensures { result ≡ spec.is_formatted kind }
{
    matches!(kind, Kind::String(Prefix::Format | Prefix::RawFormat))
}

/// Whether a string is of bytes.
fn is_bytes(kind: Kind) -> bool
    ensures { result ≡ spec.is_bytes kind }
{
    matches!(kind, Kind::String(Prefix::Bytes | Prefix::RawBytes))
}

/// Whether one of these strings is formatted.
fn any_formatted(strings: &[Token]) -> bool
    ensures { result ≡ list_any (λ token. spec.is_formatted token.kind) strings.now }
{
    strings.iter().any(
        |token: &Token| -> bool
            ensures { result ≡ spec.is_formatted token.now.kind }
        { is_formatted(token.kind) },
    )
}

/// Strings one after another, the first of this kind.
pub fn strings_constant(first: Kind, more: &[Token]) -> Constant
    ensures { result ≡ spec.strings_constant first more.now }
{
    if is_bytes(first) {
        Constant::Bytes
    } else if is_formatted(first) || any_formatted(more) {
        Constant::FormattedStr
    } else {
        Constant::Str
    }
}

/// Whether a string has no prefix.
pub fn is_plain(kind: Kind) -> bool
    ensures { result ≡ spec.is_plain kind }
{
    matches!(kind, Kind::String(Prefix::Plain))
}

/// A comprehension in brackets, by what it makes.
pub fn comprehension(made: DisplayKind) -> Unchecked
    ensures { result ≡ spec.comprehension made }
{
    match made {
        DisplayKind::Tuple => Unchecked::Generator,
        DisplayKind::List => Unchecked::ListComprehension,
        DisplayKind::Set => Unchecked::SetComprehension,
        DisplayKind::Dict => Unchecked::DictComprehension,
    }
}
