//! The types that displays are of.

ghost use Rattle.std.specs.Prelude.{◌≡◌, ◌∷◌, [], false, IfOk, map};
ghost use Rattle.pyc_displays.specs.Displays as spec;
ghost use Rattle.pyc_displays.specs.Views.{entry_in, entry_types_in};
ghost use Rattle.pyc_type_forms.specs.TypeView.{ty_of, tys_of};
ghost use Rattle.pyc_type_forms.specs.Types.{any, list, dict, tuple, tuple_of};
ghost use Rattle.pyc_type_forms.specs.Unions.{any_if_too_large, items_of};

use crate::dicts::EntryTypes;
use pyc_type_forms::{DictTypes, Ty, union_of};
use std::alloc::{AllocError, Global};
use std::rc::Rc;

/// `list[item]`
pub(crate) fn list_of(alloc: Global, item: Ty) -> Result<Ty, AllocError>
    ensures { IfOk result (λ ty. ty_of ty ≡ list (ty_of item)) }
{
    Ok(Ty::List(Rc::new(alloc, item)?))
}

/// A list of items of these types: of Any where they are not all known.
pub(crate) fn list_type(alloc: Global, is_open: bool, types: &[Ty]) -> Result<Ty, AllocError>
    ensures { IfOk result (λ ty. ty_of ty ≡ spec.list_type is_open (map ty_of types.now)) }
{
    if is_open {
        list_of(alloc, Ty::Any)
    } else {
        let list = list_of(alloc, union_of(alloc, types)?)?;
        any_if_too_large(alloc, list)
    }
}

/// `dict[key, value]`
pub(crate) fn dict_of(alloc: Global, types: DictTypes) -> Result<Ty, AllocError>
    ensures { IfOk result (λ ty. ty_of ty ≡ dict (entry_in types).key (entry_in types).value) }
{
    Ok(Ty::Dict(Rc::new(alloc, types)?))
}

/// A dictionary with keys and values of these types: of Any where they are not all known.
pub(crate) fn dict_type(alloc: Global, is_open: bool, types: &EntryTypes) -> Result<Ty, AllocError>
    ensures { IfOk result (λ ty. ty_of ty ≡ spec.dict_type is_open (entry_types_in types.now)) }
{
    if is_open {
        any_dict(alloc)
    } else {
        joined_dict(alloc, types)
    }
}

/// A dictionary with keys and values of type Any.
fn any_dict(alloc: Global) -> Result<Ty, AllocError>
    ensures { IfOk result (λ ty. ty_of ty ≡ dict any any) }
{
    let types = DictTypes {
        key: Ty::Any,
        value: Ty::Any,
    };
    dict_of(alloc, types)
}

/// A dictionary with keys and values of these types.
fn joined_dict(alloc: Global, types: &EntryTypes) -> Result<Ty, AllocError>
    ensures { IfOk result (λ ty. ty_of ty ≡ spec.dict_type false (entry_types_in types.now)) }
{
    let joined = DictTypes {
        key: union_of(alloc, &types.keys)?,
        value: union_of(alloc, &types.values)?,
    };
    let dict = dict_of(alloc, joined)?;
    any_if_too_large(alloc, dict)
}

/// `tuple[..]` with these places
fn tuple_with(alloc: Global, places: Vec<Ty>) -> Result<Ty, AllocError>
    ensures { IfOk result (λ ty. ty_of ty ≡ tuple (tys_of (map ty_of places.items))) }
{
    Ok(Ty::Tuple(Rc::new(alloc, places)?))
}

/// A tuple of items of these types: one of any length where some stand after `*`. The only error is that memory runs
/// out.
pub fn tuple_type(alloc: Global, is_starred: bool, types: Vec<Ty>) -> Result<Ty, AllocError>
    ensures { IfOk result (λ ty. ty_of ty ≡ spec.tuple_type is_starred (map ty_of types.items)) }
{
    if is_starred {
        any_tuple(alloc)
    } else {
        let tuple = tuple_with(alloc, types)?;
        any_if_too_large(alloc, tuple)
    }
}

/// `tuple[Any, ...]`
fn any_tuple(alloc: Global) -> Result<Ty, AllocError>
    ensures { IfOk result (λ ty. ty_of ty ≡ tuple_of any) }
{
    Ok(Ty::TupleOf(Rc::new(alloc, Ty::Any)?))
}

/// A type that is no union, or Any where it is too large.
fn any_if_too_large(alloc: Global, ty: Ty) -> Result<Ty, AllocError>
    requires { items_of (ty_of ty) ≡ ty_of ty ∷ [] }
    ensures { IfOk result (λ found. ty_of found ≡ any_if_too_large (ty_of ty)) }
{
    let types = vec![in alloc; ty]?;
    union_of(alloc, &types)
}
