//! Operations, how each is written, and the methods that they call.

ghost use Rattle.std.specs.Prelude.{◌≡◌};
ghost use Rattle.pyc_operators.specs.Operations as spec;

use pyc_ast::{ComparisonOperator, Operator, UnaryOperator};

/// An operation on two operands whose result goes by their types.
#[derive(Clone, Copy, Debug)]
pub(crate) enum Operation {
    /// An arithmetic or bitwise operation.
    Arithmetic(Operator),
    /// A comparison of two values in order.
    Mro(OrderComparison),
}

/// A comparison of two values in order.
#[derive(Clone, Copy, Debug)]
pub(crate) enum OrderComparison {
    /// `<`
    Lt,
    /// `>`
    Gt,
    /// `<=`
    LtE,
    /// `>=`
    GtE,
}

/// The comparison in order that a comparison is, if it is one.
pub(crate) fn order_comparison(operator: ComparisonOperator) -> Option<OrderComparison>
    ensures { result ≡ spec.order_comparison operator }
{
    match operator {
        ComparisonOperator::Lt => Some(OrderComparison::Lt),
        ComparisonOperator::Gt => Some(OrderComparison::Gt),
        ComparisonOperator::LtE => Some(OrderComparison::LtE),
        ComparisonOperator::GtE => Some(OrderComparison::GtE),
        _ => None,
    }
}

/// How an operation is written.
pub(crate) fn symbol(operation: Operation) -> &'static str
    ensures { result.now ≡ spec.symbol operation }
{
    match operation {
        Operation::Arithmetic(operator) => operator_symbol(operator),
        Operation::Mro(comparison) => comparison_symbol(comparison),
    }
}

/// How an operator is written.
fn operator_symbol(operator: Operator) -> &'static str
    ensures { result.now ≡ spec.operator_symbol operator }
{
    match operator {
        Operator::Add => "+",
        Operator::Sub => "-",
        Operator::Mult => "*",
        Operator::MatMult => "@",
        Operator::Div => "/",
        Operator::FloorDiv => "//",
        Operator::Mod => "%",
        Operator::Pow => "**",
        Operator::LShift => "<<",
        Operator::RShift => ">>",
        Operator::BitAnd => "&",
        Operator::BitOr => "|",
        Operator::BitXor => "^",
    }
}

/// How a comparison in order is written.
fn comparison_symbol(comparison: OrderComparison) -> &'static str
    ensures { result.now ≡ spec.comparison_symbol comparison }
{
    match comparison {
        OrderComparison::Lt => "<",
        OrderComparison::Gt => ">",
        OrderComparison::LtE => "<=",
        OrderComparison::GtE => ">=",
    }
}

/// The method that an operation calls on its left operand.
pub(crate) fn method_name(operation: Operation) -> &'static str
    ensures { result.now ≡ spec.method_name operation }
{
    match operation {
        Operation::Arithmetic(operator) => operator_method(operator),
        Operation::Mro(comparison) => comparison_method(comparison),
    }
}

/// The method that an operator calls.
fn operator_method(operator: Operator) -> &'static str
    ensures { result.now ≡ spec.operator_method operator }
{
    match operator {
        Operator::Add => "__add__",
        Operator::Sub => "__sub__",
        Operator::Mult => "__mul__",
        Operator::MatMult => "__matmul__",
        Operator::Div => "__truediv__",
        Operator::FloorDiv => "__floordiv__",
        Operator::Mod => "__mod__",
        Operator::Pow => "__pow__",
        Operator::LShift => "__lshift__",
        Operator::RShift => "__rshift__",
        Operator::BitAnd => "__and__",
        Operator::BitOr => "__or__",
        Operator::BitXor => "__xor__",
    }
}

/// The method that a comparison in order calls.
fn comparison_method(comparison: OrderComparison) -> &'static str
    ensures { result.now ≡ spec.comparison_method comparison }
{
    match comparison {
        OrderComparison::Lt => "__lt__",
        OrderComparison::Gt => "__gt__",
        OrderComparison::LtE => "__le__",
        OrderComparison::GtE => "__ge__",
    }
}

/// The method that an augmented assignment calls on its target, where the target has one.
pub fn in_place_method(operator: Operator) -> &'static str
    ensures { result.now ≡ spec.in_place_method operator }
{
    match operator {
        Operator::Add => "__iadd__",
        Operator::Sub => "__isub__",
        Operator::Mult => "__imul__",
        Operator::MatMult => "__imatmul__",
        Operator::Div => "__itruediv__",
        Operator::FloorDiv => "__ifloordiv__",
        Operator::Mod => "__imod__",
        Operator::Pow => "__ipow__",
        Operator::LShift => "__ilshift__",
        Operator::RShift => "__irshift__",
        Operator::BitAnd => "__iand__",
        Operator::BitOr => "__ior__",
        Operator::BitXor => "__ixor__",
    }
}

/// A unary operation whose result goes by the type of its operand.
#[derive(Clone, Copy, Debug)]
pub(crate) enum UnaryOperation {
    /// `+`
    Plus,
    /// `-`
    Minus,
    /// `~`
    Invert,
}

/// The unary operation that a unary operator is; `not` is none.
pub(crate) fn unary_operation(operator: UnaryOperator) -> Option<UnaryOperation>
    ensures { result ≡ spec.unary_operation operator }
{
    match operator {
        UnaryOperator::UAdd => Some(UnaryOperation::Plus),
        UnaryOperator::USub => Some(UnaryOperation::Minus),
        UnaryOperator::Invert => Some(UnaryOperation::Invert),
        UnaryOperator::Not => None,
    }
}

/// How a unary operation is written.
pub(crate) fn unary_symbol(operation: UnaryOperation) -> &'static str
    ensures { result.now ≡ spec.unary_symbol operation }
{
    match operation {
        UnaryOperation::Plus => "+",
        UnaryOperation::Minus => "-",
        UnaryOperation::Invert => "~",
    }
}

/// The method that a unary operation calls on its operand.
pub(crate) fn unary_method(operation: UnaryOperation) -> &'static str
    ensures { result.now ≡ spec.unary_method operation }
{
    match operation {
        UnaryOperation::Plus => "__pos__",
        UnaryOperation::Minus => "__neg__",
        UnaryOperation::Invert => "__invert__",
    }
}
