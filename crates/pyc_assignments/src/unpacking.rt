//! What the targets of a tuple or a list of targets get.

ghost use Rattle.std.specs.Prelude.{◌≡◌, IfOk, map, option_map};
ghost use Rattle.pyc_assignments.specs.Unpacking as spec;
ghost use Rattle.pyc_assignments.specs.Views.{shares_in};
ghost use Rattle.pyc_ast.specs.Targets.{target_elements};
ghost use Rattle.pyc_ast.specs.TargetView.{target_element_of};
ghost use Rattle.pyc_subscripts.specs.Chosen as chosen;
ghost use Rattle.pyc_reading.specs.Traces.{Performs};
ghost use Rattle.pyc_type_forms.specs.TypeView.{row, ty_of};

use crate::messages::{too_few, too_many};
use pyc_ast::{Position, TargetElement};
use pyc_obligations::AskTypes;
use pyc_subscripts::infer_iteration;
use pyc_type_forms::Ty;
use std::alloc::{AllocError, Global};

/// What targets get.
#[derive(Debug, Drop)]
pub(crate) enum Shares {
    /// Each the same type.
    Each(Ty),
    /// Each its place of a tuple.
    Places(Ty),
}

/// Whether a target stands after `*`.
pub(crate) fn has_starred(elements: &[TargetElement]) -> bool
    ensures { result ≡ spec.has_starred (target_elements (map target_element_of elements.now)) }
{
    for element in elements {
        if element.is_starred {
            return true;
        }
    }
    false
}

/// How many targets there are.
pub(crate) fn target_count(elements: &[TargetElement]) -> usize
    ensures { result ≡ spec.target_count (target_elements (map target_element_of elements.now)) }
{
    elements.len()
}

/// What so many targets get of a value of a type that begins at a position: Any where one stands after `*`.
pub(crate) fn shares_of<N: AskTypes>(
    alloc: Global,
    recorder: &mut N,
    at: Position,
    is_starred: bool,
    expected: usize,
    ty: &Ty,
) -> Result<Shares, AllocError>
    ensures { Performs shares_in (spec.shares_of at is_starred expected (ty_of ty.now)) (N.trace recorder.old) result
        (N.trace recorder.new) }
{
    if is_starred {
        Ok(Shares::Each(Ty::Any))
    } else {
        shares_by_type(alloc, recorder, at, expected, ty)
    }
}

/// What each of `expected` targets gets of a value of type `ty`, where no target is starred.
fn shares_by_type<N: AskTypes>(
    alloc: Global,
    recorder: &mut N,
    at: Position,
    expected: usize,
    ty: &Ty,
) -> Result<Shares, AllocError>
    ensures { Performs shares_in (spec.shares_by_type at expected (ty_of ty.now)) (N.trace recorder.old) result
        (N.trace recorder.new) }
{
    match ty {
        Ty::Tuple(items) => tuple_shares(alloc, recorder, at, row_length(items), expected, ty),
        _ => iterated_shares(alloc, recorder, at, ty),
    }
}

/// How many types a row has.
fn row_length(items: &[Ty]) -> usize
    ensures { result ≡ chosen.row_length (row items.now) }
{
    items.len()
}

/// The places of a tuple with so many.
fn tuple_shares<N: AskTypes>(
    alloc: Global,
    recorder: &mut N,
    at: Position,
    provided: usize,
    expected: usize,
    ty: &Ty,
) -> Result<Shares, AllocError>
    ensures { Performs shares_in (spec.tuple_shares at provided expected (ty_of ty.now)) (N.trace recorder.old) result
        (N.trace recorder.new) }
{
    if provided == expected {
        Ok(Shares::Places(ty.clone()?))
    } else {
        unequal_shares(alloc, recorder, at, provided, expected)
    }
}

/// The shares of a tuple that has not as many places as there are targets.
fn unequal_shares<N: AskTypes>(
    alloc: Global,
    recorder: &mut N,
    at: Position,
    provided: usize,
    expected: usize,
) -> Result<Shares, AllocError>
    ensures { Performs shares_in (spec.unequal_shares at provided expected) (N.trace recorder.old) result
        (N.trace recorder.new) }
{
    if provided < expected {
        too_few(alloc, recorder, at, provided, expected)
    } else {
        too_many(alloc, recorder, at, provided, expected)
    }
}

/// The items of an iteration.
#[tactic(auto, using(pyc_obligations::proofs::Steps::performing), unfolding(crate::specs::Unpacking::iterated_shares))]
fn iterated_shares<N: AskTypes>(
    alloc: Global,
    recorder: &mut N,
    at: Position,
    ty: &Ty,
) -> Result<Shares, AllocError>
    ensures { Performs shares_in (spec.iterated_shares at (ty_of ty.now)) (N.trace recorder.old) result
        (N.trace recorder.new) }
{
    let item = infer_iteration(alloc, recorder, at, ty)?;
    Ok(Shares::Each(item))
}

/// What the target of a number gets.
pub(crate) fn share_at(shares: &Shares, index: usize) -> Result<Ty, AllocError>
    ensures { IfOk result (λ ty. ty_of ty ≡ spec.share_at (shares_in shares.now) index) }
{
    match shares {
        Shares::Each(ty) => ty.clone(),
        Shares::Places(ty) => place_in(ty, index),
    }
}

/// The type of a place of a tuple.
fn place_in(ty: &Ty, index: usize) -> Result<Ty, AllocError>
    ensures { IfOk result (λ found. ty_of found ≡ spec.place_in (ty_of ty.now) index) }
{
    match ty {
        Ty::Tuple(items) => or_any(ty_at(items, index)),
        _ => Ok(Ty::Any),
    }
}

/// The type at a place of a row.
fn ty_at(items: &[Ty], index: usize) -> Option<&Ty>
    ensures { option_map (λ ty. ty_of ty.now) result ≡ chosen.ty_at (row items.now) index }
{
    items.get(index)
}

/// A type, or Any where there is none.
fn or_any(found: Option<&Ty>) -> Result<Ty, AllocError>
    ensures { IfOk result (λ ty. ty_of ty ≡ spec.or_any (option_map (λ ty. ty_of ty.now) found.entry)) }
{
    match found {
        Some(ty) => ty.clone(),
        None => Ok(Ty::Any),
    }
}
