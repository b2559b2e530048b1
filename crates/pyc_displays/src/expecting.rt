//! What is expected of displays and of their parts.

ghost use Rattle.std.specs.Prelude.{◌≡◌, ◌++◌, IfOk, OnOk, false, map, option_map};
ghost use Rattle.std.specs.List.{flat_map};
ghost use Rattle.pyc_displays.specs.Expecting as spec;
ghost use Rattle.pyc_displays.specs.Views.{entry_in};
ghost use Rattle.pyc_type_forms.specs.TypeView.{ty_of};
ghost use Rattle.pyc_type_forms.specs.Unions.{items_of};

use pyc_type_forms::{DictTypes, Ty, items_of};
use std::alloc::{AllocError, Global};

/// The kinds of displays of which a type can be expected.
#[derive(Clone, Copy, Debug, PartialEq, Eq)]
pub(crate) enum DisplayKind {
    List,
    Dict,
    Tuple,
}

/// What is expected of each item of a list display. The only error is that memory runs out.
pub(crate) fn expected_item(alloc: Global, want: Option<&Ty>) -> Result<Option<Ty>, AllocError>
    ensures { IfOk result (λ item. option_map ty_of item
        ≡ spec.expected_item (option_map (λ ty. ty_of ty.now) want.entry)) }
{
    match expected(alloc, DisplayKind::List, want)? {
        Some(ty) => list_item(&ty),
        None => Ok(None),
    }
}

/// What is expected of each entry of a dict display. The only error is that memory runs out.
pub(crate) fn expected_entry(
    alloc: Global,
    want: Option<&Ty>,
) -> Result<Option<DictTypes>, AllocError>
    ensures { IfOk result (λ entry. option_map entry_in entry
        ≡ spec.expected_entry (option_map (λ ty. ty_of ty.now) want.entry)) }
{
    match expected(alloc, DisplayKind::Dict, want)? {
        Some(ty) => dict_entry_types(&ty),
        None => Ok(None),
    }
}

/// What is expected of each place of a tuple display of so many items: nothing where one stands after `*`. The only
/// error is that memory runs out.
pub(crate) fn expected_places(
    alloc: Global,
    is_starred: bool,
    count: usize,
    want: Option<&Ty>,
) -> Result<Vec<Ty>, AllocError>
    ensures { IfOk result (λ places. map ty_of places.items
        ≡ spec.expected_places is_starred count (option_map (λ ty. ty_of ty.now) want.entry)) }
{
    if is_starred {
        Ok(Vec::new(alloc))
    } else {
        known_places(alloc, count, want)
    }
}

/// What is expected of each of the `count` places of a tuple display, where no item is starred.
fn known_places(alloc: Global, count: usize, want: Option<&Ty>) -> Result<Vec<Ty>, AllocError>
    ensures { IfOk result (λ places. map ty_of places.items
        ≡ spec.expected_places false count (option_map (λ ty. ty_of ty.now) want.entry)) }
{
    match expected(alloc, DisplayKind::Tuple, want)? {
        Some(ty) => tuple_places(alloc, count, &ty),
        None => Ok(Vec::new(alloc)),
    }
}

/// What is expected of a display of a kind: of a union the item that such displays are of, if there is just one.
fn expected(alloc: Global, kind: DisplayKind, want: Option<&Ty>) -> Result<Option<Ty>, AllocError>
    ensures { IfOk result (λ found. option_map ty_of found
        ≡ spec.expected kind (option_map (λ ty. ty_of ty.now) want.entry)) }
{
    match want {
        Some(ty) => only_of(alloc, kind, ty),
        None => Ok(None),
    }
}

/// The one item of a type that the displays of a kind are of, if there is just one.
fn only_of(alloc: Global, kind: DisplayKind, ty: &Ty) -> Result<Option<Ty>, AllocError>
    ensures { IfOk result (λ found. option_map ty_of found
        ≡ spec.only (flat_map (spec.if_of kind) (items_of (ty_of ty.now)))) }
{
    let items = items_of(alloc, ty)?;
    let mut found = Vec::new(alloc);
    for item in &items {
        add_if_of(&mut found, kind, item)?;
    }
    only(&found)
}

/// Adds a type, if the displays of a kind are of its form.
fn add_if_of(found: &mut Vec<Ty>, kind: DisplayKind, ty: &Ty) -> Result<(), AllocError>
    ensures { OnOk result (map ty_of found.new.items
        ≡ map ty_of found.old.items ++ spec.if_of kind (ty_of ty.now)) }
{
    if is_of(kind, ty) {
        found.push(ty.clone()?)?;
    }
    Ok(())
}

/// Whether the displays of a kind are of a type of this form.
fn is_of(kind: DisplayKind, ty: &Ty) -> bool
    ensures { result ≡ spec.is_of kind (ty_of ty.now) }
{
    match kind {
        DisplayKind::List => matches!(ty, Ty::List(_)),
        DisplayKind::Dict => matches!(ty, Ty::Dict(_)),
        DisplayKind::Tuple => matches!(ty, Ty::Tuple(_) | Ty::TupleOf(_)),
    }
}

/// The one of some types, if there is just one.
fn only(types: &[Ty]) -> Result<Option<Ty>, AllocError>
    ensures { IfOk result (λ found. option_map ty_of found ≡ spec.only (map ty_of types.now)) }
{
    match types {
        [ty] => Ok(Some(ty.clone()?)),
        _ => Ok(None),
    }
}

/// The type of the items of a list.
fn list_item(ty: &Ty) -> Result<Option<Ty>, AllocError>
    ensures { IfOk result (λ item. option_map ty_of item ≡ spec.list_item (ty_of ty.now)) }
{
    match ty {
        Ty::List(item) => Ok(Some((**item).clone()?)),
        _ => Ok(None),
    }
}

/// The types of the entries of a dictionary.
fn dict_entry_types(ty: &Ty) -> Result<Option<DictTypes>, AllocError>
    ensures { IfOk result (λ entry. option_map entry_in entry ≡ spec.dict_entry_types (ty_of ty.now)) }
{
    match ty {
        Ty::Dict(types) => Ok(Some(DictTypes {
            key: types.key.clone()?,
            value: types.value.clone()?,
        })),
        _ => Ok(None),
    }
}

/// The types of the places of a tuple with so many.
fn tuple_places(alloc: Global, count: usize, ty: &Ty) -> Result<Vec<Ty>, AllocError>
    ensures { IfOk result (λ places. map ty_of places.items ≡ spec.tuple_places count (ty_of ty.now)) }
{
    match ty {
        Ty::Tuple(places) => if_as_many(alloc, count, places),
        _ => Ok(Vec::new(alloc)),
    }
}

/// These types, if they are so many.
fn if_as_many(alloc: Global, count: usize, types: &[Ty]) -> Result<Vec<Ty>, AllocError>
    ensures { IfOk result (λ places. map ty_of places.items ≡ spec.if_as_many count (map ty_of types.now)) }
{
    if types.len() == count {
        copy_types(alloc, types)
    } else {
        Ok(Vec::new(alloc))
    }
}

/// A copy of `types`.
fn copy_types(alloc: Global, types: &[Ty]) -> Result<Vec<Ty>, AllocError>
    ensures { IfOk result (λ copies. map ty_of copies.items ≡ map ty_of types.now) }
{
    let mut copies = Vec::with_capacity(alloc, types.len())?;
    for ty in types {
        copies.push(ty.clone()?)?;
    }
    Ok(copies)
}
