//! Tests of the kinds of tokens, and how tightly operators bind.
#![tactic(auto)]

ghost use Rattle.std.specs.Prelude.{◌≡◌};
ghost use Rattle.pyc_tree.specs.Kinds as spec;
ghost use Rattle.pyc_tree.specs.Precedence as precedences;
ghost use Rattle.pyc_tree.specs.ListContexts as list_contexts;
ghost use Rattle.pyc_build.specs.Turns as turns;
ghost use Rattle.pyc_tree.specs.Well as well;
ghost use Rattle.pyc_tree.specs.WellLines as well_lines;

use pyc_token::{Arithmetic, Bracket, Delimiter, Keyword, Kind, Prefix};
use pyc_tree::ListContext;

/// Whether two kinds are one.
#[tactic(auto, unfolding(pyc_tree::specs::Kinds::same_kind))]
pub fn same_kind(a: Kind, b: Kind) -> bool
    ensures { result ≡ spec.same_kind a b }
{
    match (a, b) {
        (Kind::Name(a), Kind::Name(b)) => a == b,
        (Kind::Keyword(a), Kind::Keyword(b)) => a == b,
        (Kind::Number(a), Kind::Number(b)) => a == b,
        (Kind::String(a), Kind::String(b)) => a == b,
        (Kind::Arithmetic(a), Kind::Arithmetic(b)) => a == b,
        (Kind::Augmented(a), Kind::Augmented(b)) => a == b,
        (Kind::Comparison(a), Kind::Comparison(b)) => a == b,
        (Kind::Open(a), Kind::Open(b)) => a == b,
        (Kind::Close(a), Kind::Close(b)) => a == b,
        (Kind::Delimiter(a), Kind::Delimiter(b)) => a == b,
        _ => false,
    }
}

/// Whether a token is an identifier.
pub fn is_name(kind: Kind) -> bool
    ensures { result ≡ spec.is_name kind }
{
    matches!(kind, Kind::Name(_))
}

/// Whether a token begins a clause of a comprehension.
pub fn begins_comprehension(kind: Kind) -> bool
    ensures { result ≡ spec.begins_comprehension kind }
{
    matches!(
        kind,
        Kind::Keyword(Keyword::For) | Kind::Keyword(Keyword::Async)
    )
}

/// The precedence of an operator's right operand, at least.
fn operator_right(operator: Arithmetic) -> u8
    ensures { result ≡ precedences.operator_right operator }
{
    match operator {
        Arithmetic::Bar => 7,
        Arithmetic::Caret => 8,
        Arithmetic::Ampersand => 9,
        Arithmetic::LeftShift | Arithmetic::RightShift => 10,
        Arithmetic::Plus | Arithmetic::Minus => 11,
        Arithmetic::Star
        | Arithmetic::At
        | Arithmetic::Slash
        | Arithmetic::DoubleSlash
        | Arithmetic::Percent
        | Arithmetic::DoubleStar => 12,
    }
}

/// The precedence of an operator between two operands.
fn operator_precedence(operator: Arithmetic) -> u8
    ensures { result ≡ precedences.operator_precedence operator }
{
    match operator {
        Arithmetic::Bar => 6,
        Arithmetic::Caret => 7,
        Arithmetic::Ampersand => 8,
        Arithmetic::LeftShift | Arithmetic::RightShift => 9,
        Arithmetic::Plus | Arithmetic::Minus => 10,
        Arithmetic::Star
        | Arithmetic::At
        | Arithmetic::Slash
        | Arithmetic::DoubleSlash
        | Arithmetic::Percent => 11,
        Arithmetic::DoubleStar => 13,
    }
}

/// The precedence of what a word makes with an expression before it, 0 where it makes nothing.
fn word_precedence(word: Keyword) -> u8
    ensures { result ≡ precedences.word_precedence word }
{
    match word {
        Keyword::If => 1,
        Keyword::Or => 2,
        Keyword::And => 3,
        Keyword::In | Keyword::Is | Keyword::Not => 5,
        _ => 0,
    }
}

/// The precedence of what a token makes with an expression before it, 0 where it makes nothing.
pub fn infix_precedence(kind: Kind) -> u8
    ensures { result ≡ precedences.infix_precedence kind }
{
    match kind {
        Kind::Keyword(word) => word_precedence(word),
        Kind::Arithmetic(operator) => operator_precedence(operator),
        Kind::Comparison(_) => 5,
        Kind::Open(Bracket::Round) | Kind::Open(Bracket::Square) => 15,
        Kind::Delimiter(Delimiter::Dot) => 15,
        _ => 0,
    }
}

/// The precedence of the expression after an operator between two operands, at least, 0 where it is none.
pub fn right_precedence(kind: Kind) -> u8
    ensures { result ≡ precedences.right_precedence kind }
{
    match kind {
        Kind::Keyword(Keyword::Or) => 3,
        Kind::Keyword(Keyword::And) => 4,
        Kind::Arithmetic(operator) => operator_right(operator),
        _ => 0,
    }
}

/// Whether a token is `:`.
pub fn is_colon(kind: Kind) -> bool
    ensures { result ≡ list_contexts.is_colon kind }
{
    matches!(kind, Kind::Delimiter(Delimiter::Colon))
}

/// Whether a token may begin an expression.
pub fn begins_expression(kind: Kind) -> bool
    ensures { result ≡ spec.begins_expression kind }
{
    match kind {
        Kind::Name(_) | Kind::Number(_) | Kind::String(_) | Kind::Open(_) => true,
        Kind::Keyword(word) => matches!(
            word,
            Keyword::False
                | Keyword::None
                | Keyword::True
                | Keyword::Not
                | Keyword::Await
                | Keyword::Lambda
        ),
        Kind::Arithmetic(operator) => matches!(operator, Arithmetic::Plus | Arithmetic::Minus),
        Kind::Delimiter(delimiter) => {
            matches!(delimiter, Delimiter::Tilde | Delimiter::Ellipsis)
        }
        _ => false,
    }
}

/// The precedence of what an operator makes before its operand, and of that operand at least; 0 where it is none.
pub fn prefix_precedence(kind: Kind) -> u8
    ensures { result ≡ precedences.prefix_precedence kind }
{
    match kind {
        Kind::Keyword(Keyword::Not) => 4,
        Kind::Arithmetic(Arithmetic::Plus) | Kind::Arithmetic(Arithmetic::Minus) => 12,
        Kind::Delimiter(Delimiter::Tilde) => 12,
        _ => 0,
    }
}

/// Whether a token compares what stands before it, perhaps as the first word of two.
pub fn is_comparison(kind: Kind) -> bool
    ensures { result ≡ spec.is_comparison kind }
{
    match kind {
        Kind::Comparison(_) => true,
        Kind::Keyword(word) => matches!(word, Keyword::In | Keyword::Is | Keyword::Not),
        _ => false,
    }
}

/// Whether a token is `*`.
pub fn is_star(kind: Kind) -> bool
    ensures { result ≡ list_contexts.is_star kind }
{
    matches!(kind, Kind::Arithmetic(Arithmetic::Star))
}

/// Whether a token is `**`.
pub fn is_double_star(kind: Kind) -> bool
    ensures { result ≡ list_contexts.is_double_star kind }
{
    matches!(kind, Kind::Arithmetic(Arithmetic::DoubleStar))
}

/// Whether a token is a string literal.
pub fn is_string(kind: Kind) -> bool
    ensures { result ≡ spec.is_string kind }
{
    matches!(kind, Kind::String(_))
}

/// Whether a token may begin an item in a context.
pub fn begins(here: ListContext, kind: Kind) -> bool
    ensures { result ≡ list_contexts.begins here kind }
{
    match here {
        ListContext::Items | ListContext::Targets | ListContext::Set => begins_expression(kind)
            || is_star(kind),
        ListContext::Subscript => begins_expression(kind) || is_colon(kind),
        ListContext::WithItems => begins_expression(kind),
        ListContext::Parameters(_) => is_name(kind) || is_star(kind) || is_double_star(kind),
        ListContext::AfterStar(_) => is_name(kind),
        ListContext::KeywordOnly(_) => is_name(kind) || is_double_star(kind),
        ListContext::Ended => false,
        ListContext::Braces
        | ListContext::Entries
        | ListContext::Arguments
        | ListContext::KeywordArguments
        | ListContext::LastArguments => {
            begins_expression(kind) || is_star(kind) || is_double_star(kind)
        }
    }
}

/// Whether a token begins a clause of a comprehension, `if` too.
pub fn is_comprehension(kind: Kind) -> bool
    ensures { result ≡ turns.is_comprehension kind }
{
    match kind {
        Kind::Keyword(word) => matches!(word, Keyword::For | Keyword::Async | Keyword::If),
        _ => false,
    }
}

/// Whether a token is a string literal of bytes.
pub fn is_bytes(kind: Kind) -> bool
    ensures { result ≡ well.is_bytes kind }
{
    match kind {
        Kind::String(prefix) => matches!(prefix, Prefix::Bytes | Prefix::RawBytes),
        _ => false,
    }
}

/// Whether a token is a dot before a module, or three.
pub fn is_dot(kind: Kind) -> bool
    ensures { result ≡ well_lines.is_dot kind }
{
    matches!(
        kind,
        Kind::Delimiter(Delimiter::Dot) | Kind::Delimiter(Delimiter::Ellipsis)
    )
}

/// Whether a token is the operator of an augmented assignment.
pub fn is_augmented(kind: Kind) -> bool
    ensures { result ≡ well_lines.is_augmented kind }
{
    matches!(kind, Kind::Augmented(_))
}
