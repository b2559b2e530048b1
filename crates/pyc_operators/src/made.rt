//! The types that operations give.

ghost use Rattle.std.specs.Prelude.{◌≡◌, ◌++◌, IfOk, OnOk, option_map, map};
ghost use Rattle.pyc_builtins.specs.MemberTypes.{item_of};
ghost use Rattle.pyc_class_ids.specs.Class.{builtin};
ghost use Rattle.pyc_operators.specs.Made as spec;
ghost use Rattle.pyc_type_forms.specs.Types.{any, dict, instance};
ghost use Rattle.pyc_type_forms.specs.TypeView.{ty_of, row};

use crate::table::Given;
use pyc_class_ids::{BuiltinClass, ClassId};
use pyc_type_forms::{DictTypes, Ty, same_type, union_of};
use std::alloc::{AllocError, Global};
use std::rc::Rc;

/// The type that an operation gives on operands of these types; none where there is no such operation. The only error
/// is that memory runs out.
pub(crate) fn made(
    alloc: Global,
    given: Given,
    left: &Ty,
    right: &Ty,
) -> Result<Option<Ty>, AllocError>
    ensures { IfOk result (λ ty. option_map ty_of ty ≡ spec.made given (ty_of left.now) (ty_of right.now)) }
{
    Ok(match given {
        Given::Any => Some(Ty::Any),
        Given::Bool => Some(instance(BuiltinClass::Bool)),
        Given::Int => Some(instance(BuiltinClass::Int)),
        Given::Float => Some(instance(BuiltinClass::Float)),
        Given::Str => Some(instance(BuiltinClass::Str)),
        Given::Bytes => Some(instance(BuiltinClass::Bytes)),
        Given::Left => Some(left.clone()?),
        Given::Right => Some(right.clone()?),
        Given::Lists => Some(joined_lists(alloc, left, right)?),
        Given::Tuples => Some(joined_tuples(alloc, left, right)?),
        Given::AnyTuple => Some(Ty::TupleOf(Rc::new(alloc, Ty::Any)?)),
        Given::Dicts => Some(joined_dicts(alloc, left, right)?),
        Given::Nothing => None,
    })
}

/// The instances of a builtin class. Takes no memory.
pub(crate) fn instance(class: BuiltinClass) -> Ty
    ensures { ty_of result ≡ instance (builtin class) }
{
    Ty::Instance(ClassId::builtin(class))
}

/// The type of the items of a list; Any for any other type.
fn item_of(ty: &Ty) -> Result<Ty, AllocError>
    ensures { IfOk result (λ item. ty_of item ≡ item_of (ty_of ty.now)) }
{
    match ty {
        Ty::List(item) => (**item).clone(),
        _ => Ok(Ty::Any),
    }
}

/// A list of the items of two lists.
fn joined_lists(alloc: Global, left: &Ty, right: &Ty) -> Result<Ty, AllocError>
    ensures { IfOk result (λ ty. ty_of ty ≡ spec.joined_lists (ty_of left.now) (ty_of right.now)) }
{
    let items = [item_of(left)?, item_of(right)?];
    let item = union_of(alloc, &items)?;
    Ok(Ty::List(Rc::new(alloc, item)?))
}

/// A tuple with the items of one tuple and then of another.
fn joined_tuples(alloc: Global, left: &Ty, right: &Ty) -> Result<Ty, AllocError>
    ensures { IfOk result (λ ty. ty_of ty ≡ spec.joined_tuples (ty_of left.now) (ty_of right.now)) }
{
    let mut items = Vec::new(alloc);
    add_places(&mut items, left)?;
    add_places(&mut items, right)?;
    Ok(Ty::Tuple(Rc::new(alloc, items)?))
}

/// Adds the items of a tuple.
fn add_places(out: &mut Vec<Ty>, ty: &Ty) -> Result<(), AllocError>
    ensures { OnOk result (map ty_of out.new.items ≡ map ty_of out.old.items ++ spec.places_of (ty_of ty.now)) }
{
    match ty {
        Ty::Tuple(items) => add_each(out, items),
        _ => Ok(()),
    }
}

/// Adds types.
fn add_each(out: &mut Vec<Ty>, types: &[Ty]) -> Result<(), AllocError>
    ensures { OnOk result (map ty_of out.new.items ≡ map ty_of out.old.items ++ map ty_of types.now) }
{
    for ty in types {
        out.push(ty.clone()?)?;
    }
    Ok(())
}

/// The type of two dictionaries where it is one, else a dictionary of any keys and values.
fn joined_dicts(alloc: Global, left: &Ty, right: &Ty) -> Result<Ty, AllocError>
    ensures { IfOk result (λ ty. ty_of ty ≡ spec.joined_dicts (ty_of left.now) (ty_of right.now)) }
{
    if same_type(left, right) {
        left.clone()
    } else {
        any_dict(alloc)
    }
}

/// A dictionary of any keys and values.
fn any_dict(alloc: Global) -> Result<Ty, AllocError>
    ensures { IfOk result (λ ty. ty_of ty ≡ dict any any) }
{
    let types = DictTypes {
        key: Ty::Any,
        value: Ty::Any,
    };
    Ok(Ty::Dict(Rc::new(alloc, types)?))
}
