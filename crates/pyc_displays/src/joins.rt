//! The types of `and`, `or` and conditional expressions, by those of their parts.

ghost use Rattle.std.specs.Prelude.{◌≡◌, ◌++◌, ◌∷◌, [], IfOk, OnOk, Some, map, option_map};
ghost use Rattle.pyc_displays.specs.Joins as spec;
ghost use Rattle.pyc_type_forms.specs.TypeView.{ty_of};

use pyc_type_forms::{Ty, union_of, without_none};
use std::alloc::{AllocError, Global};

/// The type of `left and right`, by those of both: none of a right side that is never read. The only error is that
/// memory runs out.
pub fn and_type(alloc: Global, left: Ty, right: Option<Ty>) -> Result<Ty, AllocError>
    ensures { IfOk result (λ ty. ty_of ty ≡ spec.and_type (ty_of left) (option_map ty_of right)) }
{
    match right {
        Some(right) => union_of_two(alloc, left, right),
        None => Ok(left),
    }
}

/// The type of `left or right`, by those of both: none of a right side that is never read. The only error is that
/// memory runs out.
pub fn or_type(alloc: Global, left: Ty, right: Option<Ty>) -> Result<Ty, AllocError>
    ensures { IfOk result (λ ty. ty_of ty ≡ spec.or_type (ty_of left) (option_map ty_of right)) }
{
    match right {
        Some(right) => union_without_none(alloc, &left, right),
        None => Ok(left),
    }
}

/// The type of `body if test else orelse`, by those of both arms: none of an arm that is never read. The only error is
/// that memory runs out.
pub fn conditional_type(
    alloc: Global,
    body: Option<Ty>,
    orelse: Option<Ty>,
) -> Result<Ty, AllocError>
    ensures { IfOk result (λ ty. ty_of ty ≡ spec.conditional_type (option_map ty_of body) (option_map ty_of orelse)) }
{
    let mut types = Vec::new(alloc);
    push_some(&mut types, body)?;
    push_some(&mut types, orelse)?;
    union_or_any(alloc, &types)
}

/// The union of two types.
fn union_of_two(alloc: Global, left: Ty, right: Ty) -> Result<Ty, AllocError>
    ensures { IfOk result (λ ty. ty_of ty ≡ spec.and_type (ty_of left) (Some (ty_of right))) }
{
    let mut types = Vec::with_capacity(alloc, 2)?;
    types.push(left)?;
    types.push(right)?;
    union_of(alloc, &types)
}

/// The union of a type without None and another.
fn union_without_none(alloc: Global, left: &Ty, right: Ty) -> Result<Ty, AllocError>
    ensures { IfOk result (λ ty. ty_of ty ≡ spec.or_type (ty_of left.now) (Some (ty_of right))) }
{
    let mut types = Vec::with_capacity(alloc, 2)?;
    push_some(&mut types, without_none(alloc, left)?)?;
    types.push(right)?;
    union_of(alloc, &types)
}

/// Adds a type, if there is one.
fn push_some(types: &mut Vec<Ty>, ty: Option<Ty>) -> Result<(), AllocError>
    ensures { OnOk result (map ty_of types.new.items
        ≡ map ty_of types.old.items ++ spec.if_some (option_map ty_of ty)) }
{
    if let Some(ty) = ty {
        types.push(ty)?;
    }
    Ok(())
}

/// The union of some types: Any where there are none.
fn union_or_any(alloc: Global, types: &[Ty]) -> Result<Ty, AllocError>
    ensures { IfOk result (λ ty. ty_of ty ≡ spec.union_or_any (map ty_of types.now)) }
{
    if types.is_empty() {
        Ok(Ty::Any)
    } else {
        union_of(alloc, types)
    }
}
