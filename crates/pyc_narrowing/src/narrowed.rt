//! Places that are narrowed.

ghost use Rattle.std.specs.Prelude.{◌≡◌, IfOk, Some, map, option_map};
ghost use Rattle.std.specs.List.{list_any};
ghost use Rattle.pyc_narrowing.specs.SplitStates as spec;
ghost use Rattle.pyc_narrowing.specs.SplitView.{states_of};
ghost use Rattle.pyc_places.specs.StateView.{state_of};
ghost use Rattle.pyc_type_forms.specs.TypeView.{ty_of};

use crate::split_states::SplitStates;
use pyc_class_ids::{BuiltinClass, ClassId, Lins};
use pyc_places::{Place, State};
use pyc_type_forms::{Ty, items_of, narrow_away, narrow_to, same_type, without_none};
use std::alloc::{AllocError, Global};

/// A state in which what is left of the type of a place is this. The only error is that memory runs out.
fn narrow_state(
    alloc: Global,
    state: &State,
    place: &Place,
    ty: &Ty,
    left: Option<Ty>,
) -> Result<State, AllocError>
    ensures { IfOk result (λ narrowed. state_of narrowed
        ≡ spec.narrow_state (state_of state.now) place.now (ty_of ty.now) (option_map ty_of left)) }
{
    match left {
        Some(left) => narrow_state_to(alloc, state, place, ty, left),
        None => Ok(State::Unreachable),
    }
}

/// The state after `place`, whose type is `ty`, is narrowed to `left`.
fn narrow_state_to(
    alloc: Global,
    state: &State,
    place: &Place,
    ty: &Ty,
    left: Ty,
) -> Result<State, AllocError>
    ensures { IfOk result (λ narrowed. state_of narrowed
        ≡ spec.narrow_state (state_of state.now) place.now (ty_of ty.now) (Some (ty_of left))) }
{
    if same_type(&left, ty) {
        state.clone()
    } else {
        state.with_place(alloc, place.clone()?, left)
    }
}

/// A place of a type, taken for its truth. The only error is that memory runs out.
pub(crate) fn truth_states(
    alloc: Global,
    state: &State,
    place: &Place,
    ty: &Ty,
) -> Result<SplitStates, AllocError>
    ensures { IfOk result (λ states. states_of states
        ≡ spec.truth_states (state_of state.now) place.now (ty_of ty.now)) }
{
    Ok(SplitStates {
        if_true: narrow_state(alloc, state, place, ty, without_none(alloc, ty)?)?,
        if_false: state.clone()?,
    })
}

/// A place of a type, compared with None to be it. The only error is that memory runs out.
pub(crate) fn none_states(
    alloc: Global,
    state: &State,
    place: &Place,
    ty: &Ty,
) -> Result<SplitStates, AllocError>
    ensures { IfOk result (λ states. states_of states
        ≡ spec.none_states (state_of state.now) place.now (ty_of ty.now)) }
{
    Ok(SplitStates {
        if_true: narrow_state(alloc, state, place, ty, none_of(alloc, ty)?)?,
        if_false: narrow_state(alloc, state, place, ty, without_none(alloc, ty)?)?,
    })
}

/// A place of a type, tested by `isinstance` with these classes. The only error is that memory runs out.
pub(crate) fn instance_states<O: Lins>(
    alloc: Global,
    lins: &O,
    state: &State,
    place: &Place,
    ty: &Ty,
    classes: &[ClassId],
) -> Result<SplitStates, AllocError>
    ensures { IfOk result (λ states. states_of states
        ≡ spec.instance_states (O.orders lins.now) (state_of state.now) place.now (ty_of ty.now) classes.now) }
{
    let within = narrow_to(alloc, lins, ty, classes)?;
    let outside = narrow_away(alloc, lins, ty, classes)?;
    Ok(SplitStates {
        if_true: narrow_state(alloc, state, place, ty, within)?,
        if_false: narrow_state(alloc, state, place, ty, outside)?,
    })
}

/// What is left of a type where a value of it is None.
fn none_of(alloc: Global, ty: &Ty) -> Result<Option<Ty>, AllocError>
    ensures { IfOk result (λ left. option_map ty_of left ≡ spec.none_of (ty_of ty.now)) }
{
    let items = items_of(alloc, ty)?;
    if has_none(&items) {
        Ok(Some(Ty::None))
    } else {
        Ok(None)
    }
}

/// Whether None may be a value of one of these types.
fn has_none(items: &[Ty]) -> bool
    ensures { result ≡ list_any spec.may_be_none (map ty_of items.now) }
{
    for item in items {
        if may_be_none(item) {
            return true;
        }
    }
    false
}

/// Whether None may be a value of an item of a type.
fn may_be_none(ty: &Ty) -> bool
    ensures { result ≡ spec.may_be_none (ty_of ty.now) }
{
    match ty {
        Ty::None | Ty::Any => true,
        Ty::Instance(class) => class.is_builtin(BuiltinClass::Object),
        _ => false,
    }
}
