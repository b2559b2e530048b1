//! The sorts of operands.

ghost use Rattle.std.specs.Prelude.{◌≡◌};
ghost use Rattle.pyc_class_ids.specs.Mro.{order_of};
ghost use Rattle.pyc_reading.specs.Owing.{order_in};
ghost use Rattle.pyc_operators.specs.Sorts as spec;
ghost use Rattle.pyc_reading.specs.AnswerView.{answer_in, class_order_of};
ghost use Rattle.pyc_reading.specs.Traces.{Performs};
ghost use Rattle.pyc_type_forms.specs.TypeView.{ty_of};

use crate::table::Sort;
use pyc_class_ids::{BuiltinClass, ClassId, Lin};
use pyc_obligations::AskTypes;
use pyc_reading::{Answer, Key, MroAnswer};
use pyc_type_forms::Ty;
use std::alloc::{AllocError, Global};

/// The sort of a type by itself.
pub(crate) fn sort_of(ty: &Ty) -> Sort
    ensures { result ≡ spec.sort_of (ty_of ty.now) }
{
    match ty {
        Ty::Any => Sort::Any,
        Ty::None => Sort::None,
        Ty::Instance(class) => class_sort(class),
        Ty::Class(_) => Sort::Class,
        Ty::List(_) => Sort::List,
        Ty::Dict(_) => Sort::Dict,
        Ty::Tuple(_) => Sort::Tuple,
        Ty::TupleOf(_) => Sort::TupleOf,
        Ty::Module(_) | Ty::Union(_) | Ty::Callable(_) => Sort::Other,
    }
}

/// The sort of the instances of a class by itself.
fn class_sort(class: &ClassId) -> Sort
    ensures { result ≡ spec.class_sort class.now }
{
    match class.as_builtin() {
        Some(builtin) => builtin_sort(builtin),
        None => Sort::Other,
    }
}

/// The sort of the instances of a builtin class.
fn builtin_sort(class: BuiltinClass) -> Sort
    ensures { result ≡ spec.builtin_sort class }
{
    match class {
        BuiltinClass::Bool => Sort::Bool,
        BuiltinClass::Int => Sort::Int,
        BuiltinClass::Float => Sort::Float,
        BuiltinClass::Str => Sort::Str,
        BuiltinClass::Bytes => Sort::Bytes,
        _ => Sort::Other,
    }
}

/// Whether a type has the instances of a user's class.
pub(crate) fn is_user(ty: &Ty) -> bool
    ensures { result ≡ spec.is_user (ty_of ty.now) }
{
    match ty {
        Ty::Instance(class) => is_user_class(class),
        _ => false,
    }
}

/// Whether a class is a user's.
fn is_user_class(class: &ClassId) -> bool
    ensures { result ≡ spec.is_user_class class.now }
{
    class.as_builtin().is_none()
}

/// The sort of an operand: that of an instance of a user's class goes by the order of the class, which is asked. The
/// only error is that memory runs out.
pub(crate) fn operand_sort<N: AskTypes>(
    alloc: Global,
    recorder: &mut N,
    operand: &Ty,
) -> Result<Sort, AllocError>
    ensures { Performs (λ s. s) (spec.operand_sort (ty_of operand.now)) (N.trace recorder.old) result
        (N.trace recorder.new) }
{
    match operand {
        Ty::Instance(class) => instance_sort(alloc, recorder, class),
        _ => Ok(sort_of(operand)),
    }
}

/// The sort of an operand that is an instance of a class.
fn instance_sort<N: AskTypes>(
    alloc: Global,
    recorder: &mut N,
    class: &ClassId,
) -> Result<Sort, AllocError>
    ensures { Performs (λ s. s) (spec.instance_sort class.now) (N.trace recorder.old) result (N.trace recorder.new) }
{
    if class.as_builtin().is_some() {
        return Ok(class_sort(class));
    }
    let key = Key::Class(class.clone()?);
    let answer = recorder.ask(alloc, key)?;
    Ok(answered_sort(answer))
}

/// What the instances of a class count as, by the order that an answer gives.
fn answered_sort(answer: Answer) -> Sort
    ensures { result ≡ spec.ordered_sort (order_in (answer_in answer)) }
{
    match answer {
        Answer::Mro(order) => ordered_sort(&order),
        _ => Sort::Any,
    }
}

/// What the instances of a class of this order count as.
fn ordered_sort(order: &MroAnswer) -> Sort
    ensures { result ≡ spec.ordered_sort (class_order_of order.now) }
{
    let order = Lin {
        classes: &order.classes,
        unknown: order.unknown,
        has_call: order.has_call,
    };
    if order.is_unknown() {
        Sort::Any
    } else {
        counted_sort(&order)
    }
}

/// What the instances of a class count as whose order is known.
fn counted_sort(order: &Lin<'_>) -> Sort
    ensures { result ≡ spec.counted_sort (order_of order.now) }
{
    if order.contains_builtin(BuiltinClass::Int) {
        Sort::Int
    } else if order.contains_builtin(BuiltinClass::Float) {
        Sort::Float
    } else if order.contains_builtin(BuiltinClass::Str) {
        Sort::Str
    } else if order.contains_builtin(BuiltinClass::Bytes) {
        Sort::Bytes
    } else {
        Sort::Other
    }
}

/// Whether operands of a sort count as Any.
pub(crate) fn is_any(sort: Sort) -> bool
    ensures { result ≡ spec.is_any sort }
{
    matches!(sort, Sort::Any)
}
