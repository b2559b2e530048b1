//! What operations on builtin types give: the table, row by row.

ghost use Rattle.std.specs.Prelude.{◌≡◌};
ghost use Rattle.pyc_operators.specs.Table as spec;

use crate::operation::{Operation, UnaryOperation};
use pyc_ast::Operator;

/// The sort of an operand, as the table tells operands apart.
#[derive(Clone, Copy, Debug)]
pub(crate) enum Sort {
    /// Any, or an instance of a class of unknown order.
    Any,
    None,
    Bool,
    Int,
    Float,
    Str,
    Bytes,
    List,
    Dict,
    /// A tuple with these items.
    Tuple,
    /// A tuple of any length.
    TupleOf,
    /// A class object.
    Class,
    /// No row of the table is for it.
    Other,
}

/// What an operation gives.
#[derive(Clone, Copy, Debug)]
pub(crate) enum Given {
    Any,
    Bool,
    Int,
    Float,
    Str,
    Bytes,
    /// The type of the left operand.
    Left,
    /// The type of the right operand.
    Right,
    /// A list of the items of both.
    Lists,
    /// A tuple with the items of the one and then of the other.
    Tuples,
    /// A tuple of any length and of any items.
    AnyTuple,
    /// The type of both where they are one, else a dictionary of any keys and values.
    Dicts,
    /// Nothing: there is no such operation.
    Nothing,
}

/// Whether operands of a sort are of type bool or int.
fn is_whole(sort: Sort) -> bool
    ensures { result ≡ spec.is_whole sort }
{
    matches!(sort, Sort::Bool | Sort::Int)
}

/// Whether they are numbers.
fn is_number(sort: Sort) -> bool
    ensures { result ≡ spec.is_number sort }
{
    matches!(sort, Sort::Bool | Sort::Int | Sort::Float)
}

/// Whether they are tuples.
fn is_tuple(sort: Sort) -> bool
    ensures { result ≡ spec.is_tuple sort }
{
    matches!(sort, Sort::Tuple | Sort::TupleOf)
}

/// Whether they stand for a type in a union of types.
fn is_type(sort: Sort) -> bool
    ensures { result ≡ spec.is_type sort }
{
    matches!(sort, Sort::Class | Sort::None)
}

/// What an operation on two operands gives.
pub(crate) fn gives(operation: Operation, left: Sort, right: Sort) -> Given
    ensures { result ≡ spec.gives operation left right }
{
    match operation {
        Operation::Arithmetic(operator) => arithmetic(operator, left, right),
        Operation::Mro(_) => compare_in_order(left, right),
    }
}

/// What an arithmetic or bitwise operation gives.
fn arithmetic(operator: Operator, left: Sort, right: Sort) -> Given
    ensures { result ≡ spec.arithmetic operator left right }
{
    if is_whole(left) && is_whole(right) {
        of_whole(operator, left, right)
    } else if is_number(left) && is_number(right) {
        of_numbers(operator)
    } else {
        of_others(operator, left, right)
    }
}

/// Two of bool and int.
fn of_whole(operator: Operator, left: Sort, right: Sort) -> Given
    ensures { result ≡ spec.of_whole operator left right }
{
    match operator {
        Operator::Add | Operator::Sub | Operator::Mult | Operator::FloorDiv | Operator::Mod => {
            Given::Int
        }
        Operator::Div => Given::Float,
        Operator::LShift | Operator::RShift => Given::Int,
        Operator::BitAnd | Operator::BitOr | Operator::BitXor => of_bits(left, right),
        Operator::Pow => Given::Any,
        Operator::MatMult => Given::Nothing,
    }
}

/// Two of bool and int, bit by bit.
fn of_bits(left: Sort, right: Sort) -> Given
    ensures { result ≡ spec.of_bits left right }
{
    match (left, right) {
        (Sort::Bool, Sort::Bool) => Given::Bool,
        _ => Given::Int,
    }
}

/// Two numbers, one of them a float.
fn of_numbers(operator: Operator) -> Given
    ensures { result ≡ spec.of_numbers operator }
{
    match operator {
        Operator::Add
        | Operator::Sub
        | Operator::Mult
        | Operator::Div
        | Operator::FloorDiv
        | Operator::Mod => Given::Float,
        Operator::Pow => Given::Any,
        _ => Given::Nothing,
    }
}

/// Operands that are not both numbers.
fn of_others(operator: Operator, left: Sort, right: Sort) -> Given
    ensures { result ≡ spec.of_others operator left right }
{
    match operator {
        Operator::Add => added(left, right),
        Operator::Mod => formatted(left),
        Operator::Mult => multiplied(left, right),
        Operator::BitOr => alternatives(left, right),
        _ => Given::Nothing,
    }
}

/// `+`
fn added(left: Sort, right: Sort) -> Given
    ensures { result ≡ spec.added left right }
{
    match (left, right) {
        (Sort::Str, Sort::Str) => Given::Str,
        (Sort::Bytes, Sort::Bytes) => Given::Bytes,
        (Sort::List, Sort::List) => Given::Lists,
        (Sort::Tuple, Sort::Tuple) => Given::Tuples,
        _ => added_tuples(left, right),
    }
}

/// `+`, where the lengths of tuples are not known.
fn added_tuples(left: Sort, right: Sort) -> Given
    ensures { result ≡ spec.added_tuples left right }
{
    if is_tuple(left) && is_tuple(right) {
        Given::AnyTuple
    } else {
        Given::Nothing
    }
}

/// `%`, with anything on the right.
fn formatted(left: Sort) -> Given
    ensures { result ≡ spec.formatted left }
{
    match left {
        Sort::Str => Given::Str,
        Sort::Bytes => Given::Bytes,
        _ => Given::Nothing,
    }
}

/// `*`
fn multiplied(left: Sort, right: Sort) -> Given
    ensures { result ≡ spec.multiplied left right }
{
    if is_whole(right) {
        repeated(left, right)
    } else if is_whole(left) {
        repeated_right(right)
    } else {
        Given::Nothing
    }
}

/// `*`, with bool or int on the right.
fn repeated(left: Sort, right: Sort) -> Given
    ensures { result ≡ spec.repeated left right }
{
    match left {
        Sort::Str => Given::Str,
        Sort::Bytes => Given::Bytes,
        Sort::List => Given::Left,
        Sort::Tuple | Sort::TupleOf => repeated_tuple(right),
        _ => Given::Nothing,
    }
}

/// A tuple times bool or int.
fn repeated_tuple(right: Sort) -> Given
    ensures { result ≡ spec.repeated_tuple right }
{
    match right {
        Sort::Int => Given::AnyTuple,
        _ => Given::Nothing,
    }
}

/// `*`, with bool or int on the left.
fn repeated_right(right: Sort) -> Given
    ensures { result ≡ spec.repeated_right right }
{
    match right {
        Sort::Str => Given::Str,
        Sort::Bytes => Given::Bytes,
        Sort::List => Given::Right,
        _ => Given::Nothing,
    }
}

/// `|`
fn alternatives(left: Sort, right: Sort) -> Given
    ensures { result ≡ spec.alternatives left right }
{
    match (left, right) {
        (Sort::Dict, Sort::Dict) => Given::Dicts,
        _ => types_joined(left, right),
    }
}

/// `|` of what stands for types.
fn types_joined(left: Sort, right: Sort) -> Given
    ensures { result ≡ spec.types_joined left right }
{
    if is_type(left) && is_type(right) {
        Given::Any
    } else {
        Given::Nothing
    }
}

/// What a comparison in order gives.
fn compare_in_order(left: Sort, right: Sort) -> Given
    ensures { result ≡ spec.compare_in_order left right }
{
    if is_number(left) && is_number(right) {
        Given::Bool
    } else {
        compare_others(left, right)
    }
}

/// What a comparison in order of operands that are not both numbers gives.
fn compare_others(left: Sort, right: Sort) -> Given
    ensures { result ≡ spec.compare_others left right }
{
    match (left, right) {
        (Sort::Str, Sort::Str) => Given::Bool,
        (Sort::Bytes, Sort::Bytes) => Given::Bool,
        (Sort::List, Sort::List) => Given::Bool,
        _ => compare_tuples(left, right),
    }
}

/// What a comparison in order of tuples gives.
fn compare_tuples(left: Sort, right: Sort) -> Given
    ensures { result ≡ spec.compare_tuples left right }
{
    if is_tuple(left) && is_tuple(right) {
        Given::Bool
    } else {
        Given::Nothing
    }
}

/// What an operation gives where the right operand is an instance of a user's class and the left one, of this sort, has
/// no method for it.
pub(crate) fn given_with_user(operation: Operation, left: Sort) -> Given
    ensures { result ≡ spec.given_with_user operation left }
{
    match operation {
        Operation::Arithmetic(Operator::Mod) => formatted_with_user(left),
        _ => Given::Any,
    }
}

/// `%`, with an instance of a user's class on the right.
fn formatted_with_user(left: Sort) -> Given
    ensures { result ≡ spec.formatted_with_user left }
{
    match left {
        Sort::Str => Given::Str,
        Sort::Bytes => Given::Bytes,
        _ => Given::Any,
    }
}

/// What a unary operation gives.
pub(crate) fn unary_given(operation: UnaryOperation, operand: Sort) -> Given
    ensures { result ≡ spec.unary_given operation operand }
{
    match operand {
        Sort::Bool | Sort::Int => Given::Int,
        Sort::Float => of_float(operation),
        _ => Given::Nothing,
    }
}

/// What a unary operation on a float gives.
fn of_float(operation: UnaryOperation) -> Given
    ensures { result ≡ spec.of_float operation }
{
    match operation {
        UnaryOperation::Plus | UnaryOperation::Minus => Given::Float,
        UnaryOperation::Invert => Given::Nothing,
    }
}
