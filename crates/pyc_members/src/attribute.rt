//! The attributes that a class's methods give its instances.

use pyc_ast::{AnnotatedAssignment, Expr, FunctionDefinition, Position, Text};
use std::rc::Rc;

/// An attribute that a method gives its instance, as a target `self.x`: its name, where the target begins, its
/// parentheses included, what gives it its type, and the head of the method. Its parts of the tree are shared with it.
#[derive(Drop)]
pub struct SelfAttribute {
    pub name: Text,
    pub at: Position,
    pub form: AttributeForm,
    pub method: Rc<FunctionDefinition>,
}

/// What gives an attribute its type.
#[derive(Drop)]
pub enum AttributeForm {
    Annotated(Rc<AnnotatedAssignment>),
    /// The value of an assignment, of which the attribute is a target by itself.
    Assigned(Rc<Expr>),
    /// An item of a value, or what a `for` or a `with` assigns.
    Other,
}
