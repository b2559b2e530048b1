//! Unions.

ghost use Rattle.std.specs.Prelude.{◌≡◌, ◌++◌, [], ◌∷◌, IfOk, OnOk, map};
ghost use Rattle.pyc_type_forms.specs.TypeView.{ty_of, row};
ghost use Rattle.pyc_type_forms.specs.Unions as spec;

use crate::Ty;
use crate::distinct::without_repeats;
use crate::equality::same_type;
use crate::size::is_at_most;
use std::alloc::{AllocError, Global};
use std::rc::Rc;

/// The largest size that a type has which a union forms.
const MOST_TYPES: u32 = 1000;

/// The union of some types: flat, without repeats, in the order in which they are first seen. One type is itself, and a
/// union that is built of more than 1,000 types is Any. The only error is that memory runs out.
pub fn union_of(alloc: Global, types: &[Ty]) -> Result<Ty, AllocError>
    ensures { IfOk result (λ union. ty_of union ≡ spec.union_of (map ty_of types.now)) }
{
    let mut items = Vec::new(alloc);
    add_row_items(&mut items, types)?;
    let union = joined(alloc, without_repeats(alloc, &items)?)?;
    any_if_too_large(&union)
}

/// The items of a type: those of the items of a union, else the type itself.
pub fn items_of(alloc: Global, ty: &Ty) -> Result<Vec<Ty>, AllocError>
    ensures { IfOk result (λ items. map ty_of items.items ≡ spec.items_of (ty_of ty.now)) }
{
    let mut items = Vec::new(alloc);
    add_items(&mut items, ty)?;
    Ok(items)
}

/// Adds the items of a type.
#[cycle(items)]
fn add_items(out: &mut Vec<Ty>, ty: &Ty) -> Result<(), AllocError>
    ensures { OnOk result (map ty_of out.new.items ≡ map ty_of out.old.items ++ spec.items_of (ty_of ty.now)) }
{
    match ty {
        Ty::Union(items) => add_row_items(out, items),
        _ => add(out, ty),
    }
}

/// Adds the items of the types of a row.
#[cycle(items)]
fn add_row_items(out: &mut Vec<Ty>, types: &[Ty]) -> Result<(), AllocError>
    ensures { OnOk result (map ty_of out.new.items ≡ map ty_of out.old.items ++ spec.row_items (row types.now)) }
{
    for ty in types {
        add_items(out, ty)?;
    }
    Ok(())
}

/// Adds a type.
pub(crate) fn add(out: &mut Vec<Ty>, ty: &Ty) -> Result<(), AllocError>
    ensures { OnOk result (map ty_of out.new.items ≡ map ty_of out.old.items ++ ty_of ty.now ∷ []) }
{
    out.push(ty.clone()?)?;
    Ok(())
}

/// Adds those of some types that are not there, in order.
pub(crate) fn add_new(kept: &mut Vec<Ty>, types: &[Ty]) -> Result<(), AllocError>
    ensures { OnOk result (map ty_of kept.new.items
        ≡ spec.with_items (map ty_of kept.old.items) (map ty_of types.now)) }
{
    for ty in types {
        add_if_new(kept, ty)?;
    }
    Ok(())
}

/// Adds a type, unless it is there.
pub(crate) fn add_if_new(kept: &mut Vec<Ty>, ty: &Ty) -> Result<(), AllocError>
    ensures { OnOk result (map ty_of kept.new.items ≡ spec.with_item (map ty_of kept.old.items) (ty_of ty.now)) }
{
    if is_among(kept, ty) {
        Ok(())
    } else {
        add(kept, ty)
    }
}

/// Whether a type is one of these.
fn is_among(types: &[Ty], ty: &Ty) -> bool
    ensures { result ≡ spec.is_among (map ty_of types.now) (ty_of ty.now) }
{
    for other in types {
        if same_type(other, ty) {
            return true;
        }
    }
    false
}

/// One type is itself, and else a union.
fn joined(alloc: Global, types: Vec<Ty>) -> Result<Ty, AllocError>
    ensures { IfOk result (λ ty. ty_of ty ≡ spec.joined (map ty_of types.items)) }
{
    if types.len() == 1 {
        return types[0].clone();
    }
    Ok(Ty::Union(Rc::new(alloc, types)?))
}

/// A type that is not too large, else Any.
fn any_if_too_large(ty: &Ty) -> Result<Ty, AllocError>
    ensures { IfOk result (λ any_if_too_large. ty_of any_if_too_large ≡ spec.any_if_too_large (ty_of ty.now)) }
{
    if is_at_most(ty, MOST_TYPES) {
        ty.clone()
    } else {
        Ok(Ty::Any)
    }
}
