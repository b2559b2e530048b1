//! The parameters of a function.

use crate::expr::Expr;
use crate::position::Position;
use crate::text::Text;

/// A parameter: where it begins, how it is filled, its name, its annotation and its default.
#[derive(Drop)]
pub struct Parameter {
    pub at: Position,
    pub kind: ParameterKind,
    pub name: Text,
    pub annotation: Option<Box<Expr>>,
    pub default: Option<Box<Expr>>,
}

/// How a parameter is filled.
#[derive(Clone, Copy, Debug, PartialEq, Eq)]
pub enum ParameterKind {
    /// By an argument at its place or of its name.
    Plain,
    /// `*name`: by the arguments at places that are left.
    Star,
    /// By an argument of its name alone.
    KeywordOnly,
    /// `**name`: by the arguments of names that are left.
    DoubleStar,
}
