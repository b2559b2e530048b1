//! Places that are taken for their truth.

ghost use Rattle.std.specs.Prelude.{◌≡◌, IfOk};
ghost use Rattle.pyc_ast.specs.ExprView.{expr_of};
ghost use Rattle.pyc_narrowing.specs.Splitting as spec;
ghost use Rattle.pyc_narrowing.specs.SplitView.{states_of};
ghost use Rattle.pyc_obligations.specs.ValueView.{special_form_of};
ghost use Rattle.pyc_places.specs.Places.{place_of};
ghost use Rattle.pyc_places.specs.StateView.{state_of};
ghost use Rattle.pyc_reading.specs.Traces.{Performs};
ghost use Rattle.pyc_type_forms.specs.TypeView.{ty_of};

use crate::looking::{InferOperand, look_quietly};
use crate::narrowed::truth_states;
use crate::split_states::{SplitStates, always, unchanged};
use pyc_ast::Expr;
use pyc_names::FixedName;
use pyc_obligations::{AskTypes, SpecialForm};
use pyc_places::{Place, State, place_of};
use pyc_type_forms::Ty;
use std::alloc::{AllocError, Global};

/// An expression that is taken for its truth: it says nothing where it is no place. The only error is that memory runs
/// out.
pub(crate) fn truth_of<N: AskTypes, L: InferOperand<N>>(
    alloc: Global,
    recorder: &mut N,
    looks: &L,
    state: &State,
    e: &Expr,
) -> Result<SplitStates, AllocError>
    requires { L.ready looks.now }
    ensures { Performs states_of
        (spec.place_rule (L.looks looks.now) (state_of state.now) (expr_of e.now) (place_of (expr_of e.now)))
        (N.trace recorder.old) result (N.trace recorder.new) }
{
    let place = place_of(alloc, e)?;
    split_by_place(alloc, recorder, looks, state, e, &place)
}

/// An expression that is taken for its truth, where it is some `place`. Without a place it says nothing.
fn split_by_place<N: AskTypes, L: InferOperand<N>>(
    alloc: Global,
    recorder: &mut N,
    looks: &L,
    state: &State,
    e: &Expr,
    place: &Option<Place>,
) -> Result<SplitStates, AllocError>
    requires { L.ready looks.now }
    ensures { Performs states_of
        (spec.place_rule (L.looks looks.now) (state_of state.now) (expr_of e.now) place.now) (N.trace recorder.old)
        result
        (N.trace recorder.new) }
{
    match place {
        Some(place) => place_truth(alloc, recorder, looks, state, e, place),
        None => unchanged(state),
    }
}

/// A place that is taken for its truth.
#[tactic(auto, using(pyc_obligations::proofs::Steps::performing), unfolding(crate::specs::Splitting::truth_rule))]
fn place_truth<N: AskTypes, L: InferOperand<N>>(
    alloc: Global,
    recorder: &mut N,
    looks: &L,
    state: &State,
    e: &Expr,
    place: &Place,
) -> Result<SplitStates, AllocError>
    requires { L.ready looks.now }
    ensures { Performs states_of
        (spec.truth_rule (L.looks looks.now) (state_of state.now) place.now (expr_of e.now)) (N.trace recorder.old)
        result
        (N.trace recorder.new) }
{
    let found = look_quietly(alloc, recorder, looks, state, e)?;
    split_typed_place(alloc, state, place, &found.ty, &found.special_form)
}

/// A place, by its type and which thing it is: `TYPE_CHECKING` always holds.
fn split_typed_place(
    alloc: Global,
    state: &State,
    place: &Place,
    ty: &Ty,
    special_form: &SpecialForm,
) -> Result<SplitStates, AllocError>
    ensures { IfOk result (λ states. states_of states
        ≡ spec.split_typed_place (state_of state.now) place.now (ty_of ty.now) (special_form_of special_form.now)) }
{
    match special_form {
        SpecialForm::Fixed(FixedName::TypeChecking) => always(state),
        _ => truth_states(alloc, state, place, ty),
    }
}
