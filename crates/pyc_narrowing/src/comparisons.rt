//! Comparisons with None.

ghost use Rattle.std.specs.Prelude.{◌≡◌, IfOk, map};
ghost use Rattle.pyc_ast.specs.Exprs.{comparisons};
ghost use Rattle.pyc_ast.specs.ExprView.{expr_of, comparison_of};
ghost use Rattle.pyc_narrowing.specs.Splitting as spec;
ghost use Rattle.pyc_narrowing.specs.SplitStates as states;
ghost use Rattle.pyc_narrowing.specs.SplitView.{states_of};
ghost use Rattle.pyc_places.specs.Places.{place_of};
ghost use Rattle.pyc_places.specs.StateView.{state_of};
ghost use Rattle.pyc_reading.specs.Traces.{Performs};
ghost use Rattle.pyc_type_forms.specs.TypeView.{ty_of};

use crate::literals::is_none_literal;
use crate::looking::{InferOperand, look_quietly};
use crate::narrowed::none_states;
use crate::split_states::{SplitStates, in_sense, unchanged};
use pyc_ast::{Comparison, ComparisonOperator, Expr};
use pyc_obligations::AskTypes;
use pyc_places::{Place, State, place_of};
use pyc_type_forms::Ty;
use std::alloc::{AllocError, Global};

/// Comparisons: a chain says nothing. The only error is that memory runs out.
pub(crate) fn comparison_states<N: AskTypes, L: InferOperand<N>>(
    alloc: Global,
    recorder: &mut N,
    looks: &L,
    state: &State,
    left: &Expr,
    rest: &[Comparison],
) -> Result<SplitStates, AllocError>
    requires { L.ready looks.now }
    ensures { Performs states_of
        (spec.comparison_rule (L.looks looks.now) (state_of state.now) (expr_of left.now)
        (comparisons (map comparison_of rest.now))) (N.trace recorder.old) result (N.trace recorder.new) }
{
    match rest {
        [found] => one_comparison(alloc, recorder, looks, state, left, found),
        _ => Ok(unchanged(state)?),
    }
}

/// One comparison, which says nothing where its right side is not the literal None.
fn one_comparison<N: AskTypes, L: InferOperand<N>>(
    alloc: Global,
    recorder: &mut N,
    looks: &L,
    state: &State,
    left: &Expr,
    found: &Comparison,
) -> Result<SplitStates, AllocError>
    requires { L.ready looks.now }
    ensures { Performs states_of
        (spec.one_comparison (L.looks looks.now) (state_of state.now) (expr_of left.now) (comparison_of found.now))
        (N.trace recorder.old) result (N.trace recorder.new) }
{
    if is_none_literal(&found.right) {
        compared_with_none(
            alloc,
            recorder,
            looks,
            state,
            left,
            sense_of(found.operator),
        )
    } else {
        unchanged(state)
    }
}

/// Whether an operator compares to be the same, or not to be so, or neither.
fn sense_of(operator: ComparisonOperator) -> Option<bool>
    ensures { result ≡ spec.sense_of operator }
{
    match operator {
        ComparisonOperator::Is | ComparisonOperator::Eq => Some(true),
        ComparisonOperator::IsNot | ComparisonOperator::NotEq => Some(false),
        _ => None,
    }
}

/// What is compared with None, by the operator's sense.
fn compared_with_none<N: AskTypes, L: InferOperand<N>>(
    alloc: Global,
    recorder: &mut N,
    looks: &L,
    state: &State,
    left: &Expr,
    sense: Option<bool>,
) -> Result<SplitStates, AllocError>
    requires { L.ready looks.now }
    ensures { Performs states_of
        (spec.compared_with_none (L.looks looks.now) (state_of state.now) (expr_of left.now) sense)
        (N.trace recorder.old) result (N.trace recorder.new) }
{
    match sense {
        Some(sense) => in_a_sense(alloc, recorder, looks, state, left, sense),
        None => unchanged(state),
    }
}

/// What is compared with None in this sense: it says nothing where it is no place.
fn in_a_sense<N: AskTypes, L: InferOperand<N>>(
    alloc: Global,
    recorder: &mut N,
    looks: &L,
    state: &State,
    left: &Expr,
    sense: bool,
) -> Result<SplitStates, AllocError>
    requires { L.ready looks.now }
    ensures { Performs states_of
        (spec.sense_rule (L.looks looks.now) (state_of state.now) sense (expr_of left.now)
        (place_of (expr_of left.now))) (N.trace recorder.old) result (N.trace recorder.new) }
{
    let place = place_of(alloc, left)?;
    split_by_place(alloc, recorder, looks, state, left, sense, &place)
}

/// A comparison of `left` with None in `sense`, where `left` is some `place`. Without a place it says nothing.
fn split_by_place<N: AskTypes, L: InferOperand<N>>(
    alloc: Global,
    recorder: &mut N,
    looks: &L,
    state: &State,
    left: &Expr,
    sense: bool,
    place: &Option<Place>,
) -> Result<SplitStates, AllocError>
    requires { L.ready looks.now }
    ensures { Performs states_of
        (spec.sense_rule (L.looks looks.now) (state_of state.now) sense (expr_of left.now) place.now)
        (N.trace recorder.old) result (N.trace recorder.new) }
{
    match place {
        Some(place) => place_with_none(alloc, recorder, looks, state, left, sense, place),
        None => unchanged(state),
    }
}

/// A place that is compared with None.
#[tactic(auto, using(pyc_obligations::proofs::Steps::performing), unfolding(crate::specs::Splitting::none_rule))]
fn place_with_none<N: AskTypes, L: InferOperand<N>>(
    alloc: Global,
    recorder: &mut N,
    looks: &L,
    state: &State,
    left: &Expr,
    sense: bool,
    place: &Place,
) -> Result<SplitStates, AllocError>
    requires { L.ready looks.now }
    ensures { Performs states_of
        (spec.none_rule (L.looks looks.now) (state_of state.now) sense place.now (expr_of left.now))
        (N.trace recorder.old) result (N.trace recorder.new) }
{
    let found = look_quietly(alloc, recorder, looks, state, left)?;
    none_in_sense(alloc, state, sense, place, &found.ty)
}

/// A place of a type that is compared with None.
fn none_in_sense(
    alloc: Global,
    state: &State,
    sense: bool,
    place: &Place,
    ty: &Ty,
) -> Result<SplitStates, AllocError>
    ensures { IfOk result (λ found. states_of found
        ≡ states.in_sense sense (states.none_states (state_of state.now) place.now (ty_of ty.now))) }
{
    let found = none_states(alloc, state, place, ty)?;
    Ok(in_sense(sense, found))
}
