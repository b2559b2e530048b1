//! Why a source has no tree.

ghost use Rattle.std.specs.Prelude.{◌≡◌, if◌then◌else◌, true, false};
ghost use Rattle.pyc_token.specs.declared.tokens.Delimiter.TheVariants as delimiter;
ghost use Rattle.pyc_token.specs.declared.tokens.Kind.TheVariants as kind;
ghost use Rattle.pyc_line.specs.LineFault as spec;

use pyc_cursor::same_kind;
use pyc_token::{Arithmetic, Delimiter, Keyword, Kind, Token, Word};

/// What is wrong with a line, or with a block.
#[derive(Clone, Copy, Debug, PartialEq, Eq)]
pub enum What {
    /// A line is none of the language.
    Line,
    /// A block is missing, or a line stands where it may not.
    Block,
    /// A line is of the language, and of a form that is left out here.
    OutsideProfile,
    /// A growth was refused; this says nothing of the source.
    Memory,
}

/// What is wrong, and the physical line on which it is reported, counted from 1; 0 where no line is reported.
#[derive(Clone, Copy, Debug, PartialEq, Eq)]
pub struct ParseFault {
    pub line: usize,
    pub what: What,
}

/// Whether a line has a token of this kind.
fn has(kind: Kind, tokens: &[Token]) -> bool
    ensures { result ≡ spec.has kind tokens.now }
{
    tokens.iter().any(|token| same_kind(token.kind, kind))
}

/// Whether a line begins with a token of this kind.
fn begins_with(kind: Kind, tokens: &[Token]) -> bool
    ensures { result ≡ spec.begins_with kind tokens.now }
{
    match tokens {
        [first, ..] => same_kind(first.kind, kind),
        [] => false,
    }
}

/// Whether a line ends with `import *`.
fn ends_with_star_import(tokens: &[Token]) -> bool
    ensures { result ≡ spec.ends_with_star_import tokens.now }
{
    match tokens {
        [.., word, star] => {
            same_kind(word.kind, Kind::Keyword(Keyword::Import))
                && same_kind(star.kind, Kind::Arithmetic(Arithmetic::Star))
        }
        _ => false,
    }
}

/// Whether a line begins with `def` or `async def`.
fn begins_function(tokens: &[Token]) -> bool
    ensures { result ≡ spec.begins_function tokens.now }
{
    match tokens {
        [first, second, ..] => {
            same_kind(first.kind, Kind::Keyword(Keyword::Def))
                || (same_kind(first.kind, Kind::Keyword(Keyword::Async))
                    && same_kind(second.kind, Kind::Keyword(Keyword::Def)))
        }
        [first] => same_kind(first.kind, Kind::Keyword(Keyword::Def)),
        [] => false,
    }
}

/// Whether a token is the name `match`, `case` or `type`.
fn is_soft_keyword(kind: Kind) -> bool
    ensures { result ≡ spec.is_soft_keyword kind }
{
    match kind {
        Kind::Name(word) => !matches!(word, Word::Other),
        _ => false,
    }
}

/// Whether a line begins with one of these names.
fn begins_soft(tokens: &[Token]) -> bool
    ensures { result ≡ spec.begins_soft tokens.now }
{
    match tokens {
        [first, ..] => is_soft_keyword(first.kind),
        [] => false,
    }
}

/// Whether a line without a tree is a form of Python that is left out: an assignment expression, a star import,
/// parameters by position alone, a `match` statement or a `type` statement.
#[tactic(auto, unfolding(crate::specs::LineFault::is_outside_profile))]
fn is_outside_profile(tokens: &[Token]) -> bool
    ensures { result ≡ spec.is_outside_profile tokens.now }
{
    has(Kind::Delimiter(Delimiter::ColonEqual), tokens)
        || (begins_with(Kind::Keyword(Keyword::From), tokens) && ends_with_star_import(tokens))
        || (begins_function(tokens) && has(Kind::Arithmetic(Arithmetic::Slash), tokens))
        || begins_soft(tokens)
}

/// What is wrong with a line that has no tree.
pub fn line_fault(tokens: &[Token]) -> What
    ensures { result ≡ spec.fault_of tokens.now }
{
    if is_outside_profile(tokens) {
        What::OutsideProfile
    } else {
        What::Line
    }
}

/// The physical line of a line's first token, 0 where there is none.
pub fn line_number(tokens: &[Token]) -> usize
    ensures { result ≡ spec.number_of tokens.now }
{
    match tokens {
        [first, ..] => first.line,
        [] => 0,
    }
}
