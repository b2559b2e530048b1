//! What an annotation is written as.

use pyc_ast::{Position, Text};

/// Names joined by dots: where the first of them begins, and the names.
#[derive(Drop)]
pub struct DottedName {
    pub at: Position,
    pub names: Vec<Text>,
}

/// An annotation as it is written.
#[cycle(type_expr)]
pub enum TypeExpr {
    /// `None`
    None,
    /// A name, and where it begins, its parentheses included.
    Name {
        at: Position,
        name: DottedName,
    },
    /// `first | .. | last`, with what stands between them.
    Union {
        first: Box<TypeExpr>,
        between: Vec<TypeExpr>,
        last: Box<TypeExpr>,
    },
    /// A name with arguments in brackets, and whether it is subscripted more than once.
    Subscript {
        at: Position,
        name: DottedName,
        is_nested: bool,
        arguments: Vec<TypeArgument>,
    },
    /// Any other expression.
    Wrong(Position),
}

/// Written out: the crates above call it, where what `derive` writes would be made and proved in each of them.
impl Drop for TypeExpr {
    #[cycle(type_expr)]
    fn drop(self) {
        match self {
            TypeExpr::Name { at: _, name } => drop(name),
            TypeExpr::Union {
                first,
                between,
                last,
            } => {
                drop(first);
                drop(between);
                drop(last);
            }
            TypeExpr::Subscript {
                at: _,
                name,
                is_nested: _,
                arguments,
            } => {
                drop(name);
                drop(arguments);
            }
            TypeExpr::None | TypeExpr::Wrong(_) => {}
        }
    }
}

/// An argument in brackets: what it is as a type, and its shape.
#[cycle(type_expr)]
#[derive(Drop)]
pub struct TypeArgument {
    pub written: TypeExpr,
    pub shape: ArgumentShape,
}

/// The shape of an argument in brackets.
#[cycle(type_expr)]
#[derive(Drop)]
pub enum ArgumentShape {
    /// `...`
    Ellipsis,
    /// A list display of types.
    List(Vec<TypeExpr>),
    Other,
}
