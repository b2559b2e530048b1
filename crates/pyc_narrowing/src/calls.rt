//! Calls of `isinstance`.

ghost use Rattle.std.specs.Prelude.{◌≡◌, map, option_map};
ghost use Rattle.pyc_ast.specs.Exprs.{arguments};
ghost use Rattle.pyc_ast.specs.ExprView.{expr_of, argument_of};
ghost use Rattle.pyc_narrowing.specs.Splitting as spec;
ghost use Rattle.pyc_narrowing.specs.SplitView.{states_of};
ghost use Rattle.pyc_obligations.specs.ValueView.{special_form_of};
ghost use Rattle.pyc_places.specs.Places.{place_of};
ghost use Rattle.pyc_places.specs.StateView.{state_of};
ghost use Rattle.pyc_reading.specs.Traces.{Performs};
ghost use Rattle.pyc_type_forms.specs.TypeView.{ty_of};

use crate::classes::{ask_classes, classes_at};
use crate::looking::{InferOperand, look_quietly};
use crate::narrowed::instance_states;
use crate::split_states::{SplitStates, unchanged};
use pyc_ast::{Argument, ArgumentKind, Expr};
use pyc_class_ids::ClassId;
use pyc_obligations::{AskTypes, SpecialForm, ask_written, known_orders};
use pyc_places::{Place, State, place_of};
use pyc_type_forms::Ty;
use std::alloc::{AllocError, Global};

/// A call: it says nothing with another number of arguments than two. The only error is that memory runs out.
pub(crate) fn call_states<N: AskTypes, L: InferOperand<N>>(
    alloc: Global,
    recorder: &mut N,
    looks: &L,
    state: &State,
    callee: &Expr,
    given: &[Argument],
) -> Result<SplitStates, AllocError>
    requires { L.ready looks.now }
    ensures { Performs states_of
        (spec.call_rule (L.looks looks.now) (state_of state.now) (expr_of callee.now)
        (arguments (map argument_of given.now))) (N.trace recorder.old) result (N.trace recorder.new) }
{
    match given {
        [first, second] => two_arguments(alloc, recorder, looks, state, callee, first, second),
        _ => Ok(unchanged(state)?),
    }
}

/// A call with two arguments, which says nothing where one is not given at its place.
fn two_arguments<N: AskTypes, L: InferOperand<N>>(
    alloc: Global,
    recorder: &mut N,
    looks: &L,
    state: &State,
    callee: &Expr,
    first: &Argument,
    second: &Argument,
) -> Result<SplitStates, AllocError>
    requires { L.ready looks.now }
    ensures { Performs states_of
        (spec.two_arguments (L.looks looks.now) (state_of state.now) (expr_of callee.now) (argument_of first.now)
        (argument_of second.now)) (N.trace recorder.old) result (N.trace recorder.new) }
{
    if is_positional(&first.kind) && is_positional(&second.kind) {
        pair_states(
            alloc,
            recorder,
            looks,
            state,
            callee,
            &first.value,
            &second.value,
        )
    } else {
        unchanged(state)
    }
}

/// Whether an argument is given at its place.
fn is_positional(kind: &ArgumentKind) -> bool
    ensures { result ≡ spec.is_positional kind.now }
{
    matches!(kind, ArgumentKind::Positional)
}

/// A call with two arguments: it says nothing where the first is no place.
fn pair_states<N: AskTypes, L: InferOperand<N>>(
    alloc: Global,
    recorder: &mut N,
    looks: &L,
    state: &State,
    callee: &Expr,
    tested: &Expr,
    classes: &Expr,
) -> Result<SplitStates, AllocError>
    requires { L.ready looks.now }
    ensures { Performs states_of
        (spec.pair_rule (L.looks looks.now) (state_of state.now) (expr_of callee.now) (expr_of tested.now)
        (expr_of classes.now) (place_of (expr_of tested.now))) (N.trace recorder.old) result (N.trace recorder.new) }
{
    let place = place_of(alloc, tested)?;
    split_by_place(
        alloc, recorder, looks, state, callee, tested, classes, &place,
    )
}

/// A call with two arguments, of which the first, `tested`, is some `place`. Without a place it says nothing.
fn split_by_place<N: AskTypes, L: InferOperand<N>>(
    alloc: Global,
    recorder: &mut N,
    looks: &L,
    state: &State,
    callee: &Expr,
    tested: &Expr,
    classes: &Expr,
    place: &Option<Place>,
) -> Result<SplitStates, AllocError>
    requires { L.ready looks.now }
    ensures { Performs states_of
        (spec.pair_rule (L.looks looks.now) (state_of state.now) (expr_of callee.now) (expr_of tested.now)
        (expr_of classes.now) place.now) (N.trace recorder.old) result (N.trace recorder.new) }
{
    match place {
        Some(place) => split_by_callee(
            alloc, recorder, looks, state, callee, tested, classes, place,
        ),
        None => unchanged(state),
    }
}

/// A call with a place, by its callee.
#[tactic(auto, using(pyc_obligations::proofs::Steps::performing), unfolding(crate::specs::Splitting::callee_rule))]
fn split_by_callee<N: AskTypes, L: InferOperand<N>>(
    alloc: Global,
    recorder: &mut N,
    looks: &L,
    state: &State,
    callee: &Expr,
    tested: &Expr,
    classes: &Expr,
    place: &Place,
) -> Result<SplitStates, AllocError>
    requires { L.ready looks.now }
    ensures { Performs states_of
        (spec.callee_rule (L.looks looks.now) (state_of state.now) place.now (expr_of callee.now) (expr_of tested.now)
        (expr_of classes.now)) (N.trace recorder.old) result (N.trace recorder.new) }
{
    let found = look_quietly(alloc, recorder, looks, state, callee)?;
    call_result(
        alloc,
        recorder,
        looks,
        state,
        tested,
        classes,
        place,
        &found.special_form,
    )
}

/// A call with a place, by which thing its callee is: any other than `isinstance` says nothing.
fn call_result<N: AskTypes, L: InferOperand<N>>(
    alloc: Global,
    recorder: &mut N,
    looks: &L,
    state: &State,
    tested: &Expr,
    classes: &Expr,
    place: &Place,
    special_form: &SpecialForm,
) -> Result<SplitStates, AllocError>
    requires { L.ready looks.now }
    ensures { Performs states_of
        (spec.call_result (L.looks looks.now) (state_of state.now) place.now (expr_of tested.now) (expr_of classes.now)
        (special_form_of special_form.now)) (N.trace recorder.old) result (N.trace recorder.new) }
{
    match special_form {
        SpecialForm::IsInstance => isinstance_states(
            alloc, recorder, looks, state, tested, classes, place,
        ),
        _ => unchanged(state),
    }
}

/// A call of `isinstance` with a place.
#[tactic(auto, using(pyc_obligations::proofs::Steps::performing), unfolding(crate::specs::Splitting::isinstance_rule))]
fn isinstance_states<N: AskTypes, L: InferOperand<N>>(
    alloc: Global,
    recorder: &mut N,
    looks: &L,
    state: &State,
    tested: &Expr,
    classes: &Expr,
    place: &Place,
) -> Result<SplitStates, AllocError>
    requires { L.ready looks.now }
    ensures { Performs states_of
        (spec.isinstance_rule (L.looks looks.now) (state_of state.now) place.now (expr_of tested.now)
        (expr_of classes.now)) (N.trace recorder.old) result (N.trace recorder.new) }
{
    let found = look_quietly(alloc, recorder, looks, state, tested)?;
    let classes = classes_at(alloc, recorder, looks, state, classes)?;
    let states = test_by(alloc, recorder, state, place, &found.ty, &classes)?;
    Ok(states)
}

/// A place of a type, tested by `isinstance`: it says nothing where not all are class objects.
fn test_by<N: AskTypes>(
    alloc: Global,
    recorder: &mut N,
    state: &State,
    place: &Place,
    ty: &Ty,
    classes: &Option<Vec<ClassId>>,
) -> Result<SplitStates, AllocError>
    ensures { Performs states_of
        (spec.test_by (state_of state.now) place.now (ty_of ty.now) (option_map (λ v. v.items) classes.now))
        (N.trace recorder.old) result (N.trace recorder.new) }
{
    match classes {
        Some(classes) => instance_test(alloc, recorder, state, place, ty, classes),
        None => unchanged(state),
    }
}

/// A place of a type, tested by `isinstance` with these classes.
fn instance_test<N: AskTypes>(
    alloc: Global,
    recorder: &mut N,
    state: &State,
    place: &Place,
    ty: &Ty,
    classes: &[ClassId],
) -> Result<SplitStates, AllocError>
    ensures { Performs states_of
        (spec.instance_test (state_of state.now) place.now (ty_of ty.now) classes.now) (N.trace recorder.old) result
        (N.trace recorder.new) }
{
    ask_written(alloc, recorder, ty)?;
    ask_classes(alloc, recorder, classes)?;
    let states = instance_states(alloc, &known_orders(recorder), state, place, ty, classes)?;
    Ok(states)
}
