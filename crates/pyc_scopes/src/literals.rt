//! The types of literals.

ghost use Rattle.std.specs.Prelude.{◌≡◌};
ghost use Rattle.pyc_scopes.specs.Literals as spec;
ghost use Rattle.pyc_class_ids.specs.Class.{builtin};
ghost use Rattle.pyc_type_forms.specs.Types as plain;
ghost use Rattle.pyc_type_forms.specs.TypeView.{ty_of};

use pyc_ast::Constant;
use pyc_class_ids::{BuiltinClass, ClassId};
use pyc_type_forms::Ty;

/// The type of a literal. It takes no memory.
pub fn constant_type(constant: Constant) -> Ty
    ensures { ty_of result ≡ spec.constant_type constant }
{
    match constant {
        Constant::None => Ty::None,
        Constant::True => instance(BuiltinClass::Bool),
        Constant::False => instance(BuiltinClass::Bool),
        Constant::Ellipsis => Ty::Any,
        Constant::Integer(_) => instance(BuiltinClass::Int),
        Constant::Float => instance(BuiltinClass::Float),
        Constant::Imaginary => Ty::Any,
        Constant::Str => instance(BuiltinClass::Str),
        Constant::FormattedStr => instance(BuiltinClass::Str),
        Constant::Bytes => instance(BuiltinClass::Bytes),
    }
}

/// The instances of a builtin class.
pub(crate) fn instance(class: BuiltinClass) -> Ty
    ensures { ty_of result ≡ plain.instance (builtin class) }
{
    Ty::Instance(ClassId::builtin(class))
}
