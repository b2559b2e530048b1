//! Iteration.

ghost use Rattle.std.specs.Prelude.{◌≡◌, IfOk, [], map};
ghost use Rattle.std.specs.declared.vec.Vec.{Vec};
ghost use Rattle.pyc_subscripts.specs.Iteration as spec;
ghost use Rattle.pyc_subscripts.specs.OwnerView.{owner_of};
ghost use Rattle.pyc_reading.specs.Traces.{Performs};
ghost use Rattle.pyc_type_forms.specs.TypeView.{row, ty_of};
ghost use Rattle.pyc_type_forms.specs.Unions as unions;

use crate::messages::{item_not_iterable, not_iterable};
use crate::owners::{Owner, iterable};
use pyc_ast::Position;
use pyc_class_ids::{BuiltinClass, ClassId};
use pyc_obligations::AskTypes;
use pyc_type_forms::{Ty, items_of, union_of};
use std::alloc::{AllocError, Global};

/// The type of the items of an iteration of a value of a type, in an expression that begins at a position: where it is
/// not iterable that is reported, for each such item of a union, and it is Any. The only error is that memory runs out.
pub fn infer_iteration<N: AskTypes>(
    alloc: Global,
    recorder: &mut N,
    at: Position,
    ty: &Ty,
) -> Result<Ty, AllocError>
    ensures { Performs ty_of (spec.infer_iteration at (ty_of ty.now)) (N.trace recorder.old) result
        (N.trace recorder.new) }
{
    match ty {
        Ty::Union(_) => infer_union_iteration(alloc, recorder, at, ty),
        _ => infer_single_iteration(alloc, recorder, at, ty),
    }
}

/// The items of an iteration of a type that is no union.
#[tactic(auto, using(crate::proofs::Steps::performing), unfolding(crate::specs::Iteration::infer_single_iteration))]
fn infer_single_iteration<N: AskTypes>(
    alloc: Global,
    recorder: &mut N,
    at: Position,
    ty: &Ty,
) -> Result<Ty, AllocError>
    ensures { Performs ty_of (spec.infer_single_iteration at (ty_of ty.now)) (N.trace recorder.old) result
        (N.trace recorder.new) }
{
    let owner = iterable(alloc, recorder, ty)?;
    infer_part_by_owner(alloc, recorder, at, ty, owner)
}

/// The items of an iteration of `ty`, which is no union, by its `owner`.
#[tactic(auto, using(crate::proofs::Steps::performing), unfolding(crate::specs::Iteration::infer_part_by_owner))]
fn infer_part_by_owner<N: AskTypes>(
    alloc: Global,
    recorder: &mut N,
    at: Position,
    ty: &Ty,
    owner: Owner,
) -> Result<Ty, AllocError>
    ensures { Performs ty_of (spec.infer_part_by_owner at (ty_of ty.now) (owner_of owner)) (N.trace recorder.old) result
        (N.trace recorder.new) }
{
    let part = part_by(alloc, recorder, at, ty, owner)?;
    limited_part(alloc, part)
}

/// One type as a union is: Any where it is too large.
fn limited_part(alloc: Global, part: Ty) -> Result<Ty, AllocError>
    ensures { IfOk result (λ ty. ty_of ty ≡ spec.limited_part (ty_of part)) }
{
    union_of(alloc, &[part])
}

/// The items of an iteration, by what it goes by.
fn part_by<N: AskTypes>(
    alloc: Global,
    recorder: &mut N,
    at: Position,
    ty: &Ty,
    owner: Owner,
) -> Result<Ty, AllocError>
    ensures { Performs ty_of (spec.part_by at (ty_of ty.now) (owner_of owner)) (N.trace recorder.old) result
        (N.trace recorder.new) }
{
    match owner {
        Owner::Unknown => Ok(Ty::Any),
        Owner::Method(_) => Ok(Ty::Any),
        Owner::Builtin(found) => builtin_item_type(alloc, &found),
        Owner::Nothing => not_iterable(alloc, recorder, at, ty),
    }
}

/// What an iteration of a builtin type gives.
fn builtin_item_type(alloc: Global, ty: &Ty) -> Result<Ty, AllocError>
    ensures { IfOk result (λ part. ty_of part ≡ spec.builtin_item_type (ty_of ty.now)) }
{
    match ty {
        Ty::Instance(class) => Ok(text_part(class)),
        Ty::List(item) => copy_type(item),
        Ty::Dict(types) => copy_type(&types.key),
        Ty::Tuple(items) => fixed_part(alloc, items),
        Ty::TupleOf(item) => copy_type(item),
        _ => Ok(Ty::Any),
    }
}

/// A copy of `ty`.
fn copy_type(ty: &Ty) -> Result<Ty, AllocError>
    ensures { IfOk result (λ copy. ty_of copy ≡ ty_of ty.now) }
{
    ty.clone()
}

/// What an iteration of a string or of bytes gives.
fn text_part(class: &ClassId) -> Ty
    ensures { ty_of result ≡ spec.text_part class.now }
{
    match class.as_builtin() {
        Some(BuiltinClass::Str) => Ty::Instance(ClassId::builtin(BuiltinClass::Str)),
        Some(BuiltinClass::Bytes) => Ty::Instance(ClassId::builtin(BuiltinClass::Int)),
        _ => Ty::Any,
    }
}

/// The items of a fixed tuple.
fn fixed_part(alloc: Global, items: &[Ty]) -> Result<Ty, AllocError>
    ensures { IfOk result (λ part. ty_of part ≡ spec.fixed_part (row items.now)) }
{
    if items.is_empty() {
        Ok(Ty::Any)
    } else {
        union_of(alloc, items)
    }
}

/// The items of an iteration of a union.
#[tactic(auto, using(crate::proofs::Steps::performing), unfolding(crate::specs::Iteration::infer_union_iteration))]
fn infer_union_iteration<N: AskTypes>(
    alloc: Global,
    recorder: &mut N,
    at: Position,
    whole: &Ty,
) -> Result<Ty, AllocError>
    ensures { Performs ty_of (spec.infer_union_iteration at (ty_of whole.now) (unions.items_of (ty_of whole.now)))
        (N.trace recorder.old) result (N.trace recorder.new) }
{
    let items = items_of(alloc, whole)?;
    let found = all_parts(alloc, recorder, at, whole, &items)?;
    union_of(alloc, &found)
}

/// The items of an iteration of each item of a union, in turn.
#[tactic(auto, using(crate::proofs::Steps::performing), unfolding(crate::specs::Iteration::infer_more_parts))]
fn all_parts<N: AskTypes>(
    alloc: Global,
    recorder: &mut N,
    at: Position,
    whole: &Ty,
    items: &[Ty],
) -> Result<Vec<Ty>, AllocError>
    ensures { Performs (λ (found : Vec Ty Global). map ty_of found.items)
        (spec.infer_more_parts at (ty_of whole.now) [] (map ty_of items.now)) (N.trace recorder.old) result
        (N.trace recorder.new) }
{
    let mut found = Vec::with_capacity(alloc, items.len())?;
    for item in items {
        let part = union_part(alloc, recorder, at, whole, item)?;
        found.push(part)?;
    }
    Ok(found)
}

/// The items of an iteration of an item of a union.
#[tactic(auto, using(crate::proofs::Steps::performing), unfolding(crate::specs::Iteration::union_part))]
fn union_part<N: AskTypes>(
    alloc: Global,
    recorder: &mut N,
    at: Position,
    whole: &Ty,
    item: &Ty,
) -> Result<Ty, AllocError>
    ensures { Performs ty_of (spec.union_part at (ty_of whole.now) (ty_of item.now)) (N.trace recorder.old) result
        (N.trace recorder.new) }
{
    let owner = iterable(alloc, recorder, item)?;
    item_part(alloc, recorder, at, whole, item, owner)
}

/// The items of an iteration of `item`, an item of the union `whole`, by its `owner`.
fn item_part<N: AskTypes>(
    alloc: Global,
    recorder: &mut N,
    at: Position,
    whole: &Ty,
    item: &Ty,
    owner: Owner,
) -> Result<Ty, AllocError>
    ensures { Performs ty_of (spec.item_part at (ty_of whole.now) (ty_of item.now) (owner_of owner))
        (N.trace recorder.old) result (N.trace recorder.new) }
{
    match owner {
        Owner::Unknown => Ok(Ty::Any),
        Owner::Method(_) => Ok(Ty::Any),
        Owner::Builtin(found) => builtin_item_type(alloc, &found),
        Owner::Nothing => item_not_iterable(alloc, recorder, at, whole, item),
    }
}
