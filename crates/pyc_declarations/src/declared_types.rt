//! The types of literals, and those that they give variables.

ghost use Rattle.std.specs.Prelude.{◌≡◌};
ghost use Rattle.pyc_ast.specs.ExprView.{expr_of};
ghost use Rattle.pyc_declarations.specs.DeclaredTypes as spec;
ghost use Rattle.pyc_type_forms.specs.TypeView.{ty_of};

use pyc_ast::{Constant, Expr, Form};
use pyc_types::{Builtin, BuiltinClass, ClassId, Ty};

/// The type of a value that is one literal. It takes no memory.
pub fn literal_type(value: &Expr) -> Option<Builtin>
    ensures { result ≡ spec.literal_type (expr_of value.now) }
{
    match &value.form {
        Form::Constant(constant) => constant_type(*constant),
        Form::StringAnnotation(_) => Some(Builtin::Str),
        _ => None,
    }
}

/// The type of a constant.
fn constant_type(constant: Constant) -> Option<Builtin>
    ensures { result ≡ spec.constant_type constant }
{
    match constant {
        Constant::None => Some(Builtin::None),
        Constant::True | Constant::False => Some(Builtin::Bool),
        Constant::Integer(_) => Some(Builtin::Int),
        Constant::Float => Some(Builtin::Float),
        Constant::Str | Constant::FormattedStr => Some(Builtin::Str),
        Constant::Bytes => Some(Builtin::Bytes),
        Constant::Ellipsis | Constant::Imaginary => None,
    }
}

/// The type that a value gives the variable that it initialises: that of a literal but for `None`, else Any. It takes
/// no memory.
pub fn initialiser_type(value: &Expr) -> Ty
    ensures { ty_of result ≡ spec.initialiser_type (expr_of value.now) }
{
    type_or_any(initialiser(literal_type(value)))
}

/// The type that a value of this type gives the variable that it initialises.
fn initialiser(found: Option<Builtin>) -> Option<Builtin>
    ensures { result ≡ spec.initialiser found }
{
    match found {
        Some(Builtin::None) => None,
        _ => found,
    }
}

/// A type, or Any where none is known.
fn type_or_any(found: Option<Builtin>) -> Ty
    ensures { ty_of result ≡ spec.type_or_any found }
{
    match found {
        Some(Builtin::Int) => Ty::Instance(ClassId::builtin(BuiltinClass::Int)),
        Some(Builtin::Str) => Ty::Instance(ClassId::builtin(BuiltinClass::Str)),
        Some(Builtin::Bool) => Ty::Instance(ClassId::builtin(BuiltinClass::Bool)),
        Some(Builtin::Float) => Ty::Instance(ClassId::builtin(BuiltinClass::Float)),
        Some(Builtin::Bytes) => Ty::Instance(ClassId::builtin(BuiltinClass::Bytes)),
        Some(Builtin::None) => Ty::None,
        None => Ty::Any,
    }
}
