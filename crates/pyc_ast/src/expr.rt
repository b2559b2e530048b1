//! Expressions.

use crate::constant::{Constant, Unchecked};
use crate::operator::{BooleanOperator, ComparisonOperator, Operator, UnaryOperator};
use crate::position::Position;
use crate::text::Text;

/// An expression: where it begins, its parentheses included, where it begins within them, and what it is.
#[cycle(expr)]
pub struct Expr {
    pub at: Position,
    pub inside: Position,
    pub form: Form,
}

/// Written out: the crates above call it, where what `derive` writes would be made and proved in each of them.
impl Drop for Expr {
    #[cycle(expr)]
    fn drop(self) {
        let Expr {
            at: _,
            inside: _,
            form,
        } = self;
        drop(form);
    }
}

/// What an expression is.
#[cycle(expr)]
pub enum Form {
    Name(Text),
    Constant(Constant),
    /// A string that may be an annotation and spells an expression: each part of that stands at the string's position.
    StringAnnotation(Box<Expr>),
    Tuple(Vec<Element>),
    List(Vec<Element>),
    Set(Vec<Element>),
    Dict(Vec<DictItem>),
    Unchecked(Unchecked),
    Attribute {
        value: Box<Expr>,
        name: Text,
    },
    Call {
        callee: Box<Expr>,
        arguments: Vec<Argument>,
    },
    Subscript {
        value: Box<Expr>,
        index: Box<Index>,
    },
    Unary {
        operator: UnaryOperator,
        operand: Box<Expr>,
    },
    Binary {
        operator: Operator,
        left: Box<Expr>,
        right: Box<Expr>,
    },
    Boolean {
        operator: BooleanOperator,
        left: Box<Expr>,
        right: Box<Expr>,
    },
    /// A chain of comparisons: its first operand, and those after it with their operators.
    Compare {
        left: Box<Expr>,
        rest: Vec<Comparison>,
    },
    /// `body if test else orelse`
    Conditional {
        test: Box<Expr>,
        body: Box<Expr>,
        orelse: Box<Expr>,
    },
    Await(Box<Expr>),
    Yield(OptionalExpr),
    YieldFrom(Box<Expr>),
}

/// Written out: the crates above call it, where what `derive` writes would be made and proved in each of them.
impl Drop for Form {
    #[cycle(expr)]
    fn drop(self) {
        match self {
            Form::Name(part) => drop(part),
            Form::StringAnnotation(part) => drop(part),
            Form::Tuple(part) => drop(part),
            Form::List(part) => drop(part),
            Form::Set(part) => drop(part),
            Form::Dict(part) => drop(part),
            Form::Attribute { value, name } => {
                drop(value);
                drop(name);
            }
            Form::Call { callee, arguments } => {
                drop(callee);
                drop(arguments);
            }
            Form::Subscript { value, index } => {
                drop(value);
                drop(index);
            }
            Form::Unary {
                operator: _,
                operand,
            } => drop(operand),
            Form::Binary {
                operator: _,
                left,
                right,
            } => {
                drop(left);
                drop(right);
            }
            Form::Boolean {
                operator: _,
                left,
                right,
            } => {
                drop(left);
                drop(right);
            }
            Form::Compare { left, rest } => {
                drop(left);
                drop(rest);
            }
            Form::Conditional { test, body, orelse } => {
                drop(test);
                drop(body);
                drop(orelse);
            }
            Form::Await(part) => drop(part),
            Form::Yield(part) => drop(part),
            Form::YieldFrom(part) => drop(part),
            Form::Constant(_) | Form::Unchecked(_) => {}
        }
    }
}

/// An expression, or none.
#[cycle(expr)]
#[derive(Drop)]
pub enum OptionalExpr {
    Absent,
    Present(Box<Expr>),
}

/// An item of a tuple, a list or a set, perhaps after `*`.
#[cycle(expr)]
#[derive(Drop)]
pub struct Element {
    pub is_starred: bool,
    pub value: Expr,
}

/// An item of a dictionary.
#[cycle(expr)]
#[derive(Drop)]
pub enum DictItem {
    Entry { key: Expr, value: Expr },
    /// What stands after `**`.
    Unpacking(Expr),
}

/// An argument of a call: where it begins, how it is given, and its value.
#[cycle(expr)]
#[derive(Drop)]
pub struct Argument {
    pub at: Position,
    pub kind: ArgumentKind,
    pub value: Expr,
}

/// How an argument is given.
#[derive(Debug, Drop)]
pub enum ArgumentKind {
    Positional,
    /// After `*`.
    Starred,
    /// By the name of its parameter.
    Keyword(Text),
    /// After `**`.
    DoubleStarred,
}

/// A comparison of a chain: its operator and its right operand.
#[cycle(expr)]
#[derive(Drop)]
pub struct Comparison {
    pub operator: ComparisonOperator,
    pub right: Expr,
}

/// What stands between the brackets of a subscript, and where it begins.
#[cycle(expr)]
#[derive(Drop)]
pub struct Index {
    pub at: Position,
    pub form: IndexForm,
}

/// What stands between the brackets of a subscript.
#[cycle(expr)]
#[derive(Drop)]
pub enum IndexForm {
    Item(Expr),
    Slice {
        lower: OptionalExpr,
        upper: OptionalExpr,
        step: OptionalExpr,
    },
    /// Indices with commas.
    Indices(Vec<Index>),
}
