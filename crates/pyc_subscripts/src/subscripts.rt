//! Subscripts.

ghost use Rattle.std.specs.Prelude.{◌≡◌, IfOk, OnOk, map, option_map};
ghost use Rattle.pyc_ast.specs.ExprView.{index_of};
ghost use Rattle.pyc_subscripts.specs.OwnerView.{items_in, owner_of};
ghost use Rattle.pyc_subscripts.specs.Subscripts as spec;
ghost use Rattle.pyc_reading.specs.Traces.{Performs};
ghost use Rattle.pyc_type_forms.specs.TypeView.{ty_of};

use crate::indexing::builtin_item;
use crate::messages::not_indexable;
use crate::owners::{Owner, subscript_owner};
use pyc_ast::{Index, Position};
use pyc_obligations::AskTypes;
use pyc_type_forms::{Ty, items_of, union_of};
use std::alloc::{AllocError, Global};

/// The types of items, and whether one has none.
#[derive(Debug, Drop)]
pub(crate) struct Items {
    pub(crate) types: Vec<Ty>,
    pub(crate) is_failed: bool,
}

/// The type of a subscript of a value of a type by an index of a type, in an expression that begins at a position:
/// where it is not there that is reported, once for a whole union, and it is Any. The only error is that memory runs
/// out.
#[tactic(auto, using(crate::proofs::Steps::performing), unfolding(crate::specs::Subscripts::subscript))]
pub fn subscript<N: AskTypes>(
    alloc: Global,
    recorder: &mut N,
    at: Position,
    index: &Index,
    got: &Ty,
    ty: &Ty,
) -> Result<Ty, AllocError>
    ensures { Performs ty_of (spec.subscript at (index_of index.now) (ty_of got.now) (ty_of ty.now))
        (N.trace recorder.old)
        result (N.trace recorder.new) }
{
    let types = items_of(alloc, ty)?;
    let found = all_items(alloc, recorder, at, index, got, &types)?;
    finish_union(alloc, recorder, at, ty, &found)
}

/// The items of types, in turn.
#[tactic(auto, using(crate::proofs::Steps::performing), unfolding(crate::specs::Subscripts::more_items))]
fn all_items<N: AskTypes>(
    alloc: Global,
    recorder: &mut N,
    at: Position,
    index: &Index,
    got: &Ty,
    types: &[Ty],
) -> Result<Items, AllocError>
    ensures { Performs items_in
        (spec.more_items at (index_of index.now) (ty_of got.now) spec.no_items (map ty_of types.now))
        (N.trace recorder.old) result (N.trace recorder.new) }
{
    let mut found = Items {
        types: Vec::with_capacity(alloc, types.len())?,
        is_failed: false,
    };
    for ty in types {
        let item = item_of(alloc, recorder, at, index, got, ty)?;
        push_item(&mut found, item)?;
    }
    Ok(found)
}

/// Adds an item, if there is one.
fn push_item(found: &mut Items, item: Option<Ty>) -> Result<(), AllocError>
    ensures { OnOk result (items_in found.new ≡ spec.with_item (items_in found.old) (option_map ty_of item)) }
{
    match item {
        Some(ty) => found.types.push(ty)?,
        None => found.is_failed = true,
    }
    Ok(())
}

/// The item that a type, other than a union, has under an index of a type, in an expression that begins at a position,
/// or None where it cannot be indexed, which is left to tell. The only error is that memory runs out.
#[tactic(auto, using(crate::proofs::Steps::performing), unfolding(crate::specs::Subscripts::item_of))]
pub fn item_of<N: AskTypes>(
    alloc: Global,
    recorder: &mut N,
    at: Position,
    index: &Index,
    got: &Ty,
    ty: &Ty,
) -> Result<Option<Ty>, AllocError>
    ensures { Performs (option_map ty_of) (spec.item_of at (index_of index.now) (ty_of got.now) (ty_of ty.now))
        (N.trace recorder.old) result (N.trace recorder.new) }
{
    let owner = subscript_owner(alloc, recorder, ty)?;
    infer_item_by_owner(alloc, recorder, at, index, got, owner)
}

/// What a subscript gives by what it goes by.
fn infer_item_by_owner<N: AskTypes>(
    alloc: Global,
    recorder: &mut N,
    at: Position,
    index: &Index,
    got: &Ty,
    owner: Owner,
) -> Result<Option<Ty>, AllocError>
    ensures { Performs (option_map ty_of) (spec.infer_item_by_owner at (index_of index.now) (ty_of got.now)
        (owner_of owner))
        (N.trace recorder.old) result (N.trace recorder.new) }
{
    match owner {
        Owner::Unknown => Ok(Some(Ty::Any)),
        Owner::Method(given) => Ok(Some(given)),
        Owner::Builtin(ty) => builtin_item(alloc, recorder, at, index, got, &ty),
        Owner::Nothing => Ok(None),
    }
}

/// The type of items, where each has one.
fn finish_union<N: AskTypes>(
    alloc: Global,
    recorder: &mut N,
    at: Position,
    ty: &Ty,
    found: &Items,
) -> Result<Ty, AllocError>
    ensures { Performs ty_of (spec.finish_union at (ty_of ty.now) (items_in found.now)) (N.trace recorder.old) result
        (N.trace recorder.new) }
{
    if found.is_failed {
        not_indexable(alloc, recorder, at, ty)
    } else {
        union_of(alloc, &found.types)
    }
}
