//! What Python's builtins are in expressions.

ghost use Rattle.std.specs.Prelude.{◌≡◌, IfOk};
ghost use Rattle.pyc_obligations.specs.Values.{plain_value};
ghost use Rattle.pyc_obligations.specs.ValueView.{special_form_of, value_of};
ghost use Rattle.pyc_scopes.specs.NamedValues as spec;
ghost use Rattle.pyc_type_forms.specs.Types as plain;
ghost use Rattle.pyc_type_forms.specs.TypeView.{ty_of};

use crate::literals::instance;
use pyc_builtins::{BuiltinName, FunctionResult};
use pyc_class_ids::{BuiltinClass, ClassId};
use pyc_obligations::{SpecialForm, Value};
use pyc_type_forms::{Params, Signature, Ty};
use std::alloc::{AllocError, Global};
use std::rc::Rc;

/// A builtin of this name.
pub(crate) fn builtin_value(
    alloc: Global,
    name: &str,
    found: BuiltinName,
) -> Result<Value, AllocError>
    ensures { IfOk result (λ value. value_of value ≡ spec.builtin_value name.now found) }
{
    match found {
        BuiltinName::Class(class) => Ok(Value::plain(Ty::Class(ClassId::builtin(class)))),
        BuiltinName::Function(given) => {
            let ty = function_type(alloc, given)?;
            Ok(Value {
                ty,
                special_form: function_special_form(name),
            })
        }
        BuiltinName::RevealType => Ok(Value {
            ty: Ty::Any,
            special_form: SpecialForm::RevealType,
        }),
        BuiltinName::Any => Ok(Value::plain(Ty::Any)),
    }
}

/// Which thing a builtin function of this name is.
fn function_special_form(name: &str) -> SpecialForm
    ensures { special_form_of result ≡ spec.function_special_form name.now }
{
    if name == "isinstance" {
        SpecialForm::IsInstance
    } else {
        SpecialForm::Plain
    }
}

/// The type of a builtin function.
fn function_type(alloc: Global, given: FunctionResult) -> Result<Ty, AllocError>
    ensures { IfOk result (λ ty. ty_of ty ≡ plain.callable plain.dots (spec.result_type given)) }
{
    let given = result_type(alloc, given)?;
    any_callable(alloc, given)
}

/// What takes any arguments and gives this.
fn any_callable(alloc: Global, given: Ty) -> Result<Ty, AllocError>
    ensures { IfOk result (λ ty. ty_of ty ≡ plain.callable plain.dots (ty_of given)) }
{
    let signature = Signature {
        params: Params::Dots,
        result: given,
    };
    Ok(Ty::Callable(Rc::new(alloc, signature)?))
}

/// What a call of a builtin function gives.
fn result_type(alloc: Global, given: FunctionResult) -> Result<Ty, AllocError>
    ensures { IfOk result (λ ty. ty_of ty ≡ spec.result_type given) }
{
    match given {
        FunctionResult::Int => Ok(instance(BuiltinClass::Int)),
        FunctionResult::Str => Ok(instance(BuiltinClass::Str)),
        FunctionResult::Bool => Ok(instance(BuiltinClass::Bool)),
        FunctionResult::None => Ok(Ty::None),
        FunctionResult::ListOfAny => Ok(Ty::List(Rc::new(alloc, Ty::Any)?)),
    }
}
