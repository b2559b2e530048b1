//! The operators that tokens spell.

ghost use Rattle.std.specs.Prelude.{◌≡◌, IfOk};
ghost use Rattle.pyc_ast.specs.ExprView.{expr_of, form_of};
ghost use Rattle.pyc_lower_atom.specs.Operators as spec;

use pyc_ast::{BooleanOperator, ComparisonOperator, Expr, Form, Operator, UnaryOperator};
use pyc_token::{Arithmetic, Comparison, Delimiter, Keyword, Kind};

/// The operator between two operands.
fn arithmetic(sign: Arithmetic) -> Operator
    ensures { result ≡ spec.arithmetic sign }
{
    match sign {
        Arithmetic::Plus => Operator::Add,
        Arithmetic::Minus => Operator::Sub,
        Arithmetic::Star => Operator::Mult,
        Arithmetic::Slash => Operator::Div,
        Arithmetic::DoubleSlash => Operator::FloorDiv,
        Arithmetic::Percent => Operator::Mod,
        Arithmetic::At => Operator::MatMult,
        Arithmetic::Ampersand => Operator::BitAnd,
        Arithmetic::Bar => Operator::BitOr,
        Arithmetic::Caret => Operator::BitXor,
        Arithmetic::LeftShift => Operator::LShift,
        Arithmetic::RightShift => Operator::RShift,
        Arithmetic::DoubleStar => Operator::Pow,
    }
}

/// The operator of an augmented assignment, by its token's kind.
pub fn augmented_operator(kind: Kind) -> Operator
    ensures { result ≡ spec.augmented_operator kind }
{
    match kind {
        Kind::Augmented(sign) => arithmetic(sign),
        _ => Operator::Add,
    }
}

/// The operator before an operand, by its token's kind.
pub fn unary_operator(kind: Kind) -> UnaryOperator
    ensures { result ≡ spec.unary_operator kind }
{
    match kind {
        Kind::Keyword(Keyword::Not) => UnaryOperator::Not,
        Kind::Arithmetic(Arithmetic::Minus) => UnaryOperator::USub,
        Kind::Delimiter(Delimiter::Tilde) => UnaryOperator::Invert,
        _ => UnaryOperator::UAdd,
    }
}

/// An operator between two operands, by its token's kind.
pub fn operation(kind: Kind, left: Box<Expr>, right: Box<Expr>) -> Form
    ensures { form_of result ≡ spec.operation kind (expr_of left.value) (expr_of right.value) }
{
    match kind {
        Kind::Keyword(Keyword::And) => Form::Boolean {
            operator: BooleanOperator::And,
            left,
            right,
        },
        Kind::Keyword(Keyword::Or) => Form::Boolean {
            operator: BooleanOperator::Or,
            left,
            right,
        },
        Kind::Arithmetic(sign) => Form::Binary {
            operator: arithmetic(sign),
            left,
            right,
        },
        _ => Form::Binary {
            operator: Operator::Add,
            left,
            right,
        },
    }
}

fn than_operator(sign: Comparison) -> ComparisonOperator
    ensures { result ≡ spec.than_operator sign }
{
    match sign {
        Comparison::Less => ComparisonOperator::Lt,
        Comparison::Greater => ComparisonOperator::Gt,
        Comparison::LessEqual => ComparisonOperator::LtE,
        Comparison::GreaterEqual => ComparisonOperator::GtE,
        Comparison::Equal => ComparisonOperator::Eq,
        Comparison::NotEqual => ComparisonOperator::NotEq,
    }
}

/// The operator of a comparison, by the kind of its first word, and whether it has a second.
pub fn comparison_operator(kind: Kind, has_second: bool) -> ComparisonOperator
    ensures { result ≡ spec.comparison_operator kind has_second }
{
    match kind {
        Kind::Comparison(sign) => than_operator(sign),
        Kind::Keyword(Keyword::In) => ComparisonOperator::In,
        Kind::Keyword(Keyword::Not) => ComparisonOperator::NotIn,
        Kind::Keyword(Keyword::Is) => {
            if has_second {
                ComparisonOperator::IsNot
            } else {
                ComparisonOperator::Is
            }
        }
        _ => ComparisonOperator::Eq,
    }
}
