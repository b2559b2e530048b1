//! What is required of targets, and what is known of them after assignments.

ghost use Rattle.std.specs.Prelude.{◌≡◌, IfOk, OnOk, option_map};
ghost use Rattle.pyc_assignments.specs.Storing as spec;
ghost use Rattle.pyc_assignments.specs.Views.{outcome_in};
ghost use Rattle.pyc_ast.specs.TargetView.{target_of};
ghost use Rattle.pyc_locals.specs.Views.{flow_state_in};
ghost use Rattle.pyc_places.specs.States as states;
ghost use Rattle.pyc_places.specs.StateView.{state_of};
ghost use Rattle.pyc_reading.specs.Traces.{Performs};
ghost use Rattle.pyc_targets.specs.Views.{target_type_of};
ghost use Rattle.pyc_type_forms.specs.TypeView.{ty_of};

use crate::messages::RequiredAssignment;
use crate::reading::AssignmentOutcome;
use pyc_ast::{Position, Target, Text};
use pyc_locals::{FlowState, LocalType};
use pyc_obligations::{AskTypes, judge_assignable, require};
use pyc_places::{Place, State, name_place, target_place};
use pyc_targets::TargetType;
use pyc_type_forms::Ty;
use std::alloc::{AllocError, Global};

/// A value of type `got`, which begins at `at`, and the target that it is assigned to.
#[derive(Clone, Copy)]
pub struct AssignedValue<'a> {
    pub alloc: Global,
    pub at: Position,
    pub target: &'a Target,
    pub got: &'a Ty,
}

impl AssignedValue<'_> {
    /// Assigns the value to the target, which meets `outcome`, and leaves `flow_state` as it is after that. Reports the
    /// obligation, if there is one and it does not hold. The only error is that memory runs out.
    pub fn store_in_target<N: AskTypes>(
        &self,
        recorder: &mut N,
        outcome: &AssignmentOutcome,
        flow_state: &mut FlowState,
    ) -> Result<(), AllocError>
        ensures { Performs (λ u. flow_state_in flow_state.new)
            (spec.store_in_target self.now.at (target_of self.now.target.now) (outcome_in outcome.now)
            (ty_of self.now.got.now) (flow_state_in flow_state.old)) (N.trace recorder.old) result
            (N.trace recorder.new) }
    {
        match outcome {
            AssignmentOutcome::TargetType(target_type) => {
                self.target_type_stored(recorder, target_type, flow_state)
            }
            AssignmentOutcome::NewLocal(name) => {
                store_local(self.alloc, name, self.got, flow_state)
            }
        }
    }

    /// Assigns the value to the target, which takes what `target_type` says.
    #[tactic(auto, using(pyc_obligations::proofs::Steps::performing), unfolding(crate::specs::Storing::target_type_stored))]
    fn target_type_stored<N: AskTypes>(
        &self,
        recorder: &mut N,
        target_type: &TargetType,
        flow_state: &mut FlowState,
    ) -> Result<(), AllocError>
        ensures { Performs (λ u. flow_state_in flow_state.new)
            (spec.target_type_stored self.now.at (target_of self.now.target.now) (target_type_of target_type.now)
            (ty_of self.now.got.now) (flow_state_in flow_state.old)) (N.trace recorder.old) result
            (N.trace recorder.new) }
    {
        want_required(
            self.alloc,
            recorder,
            self.at,
            target_type.is_item,
            self.got,
            target_type.want.as_ref(),
        )?;
        let state = renarrow(
            self.alloc,
            recorder,
            self.target,
            target_type.want.as_ref(),
            self.got,
            &flow_state.state,
        )?;
        flow_state.set_state(state);
        Ok(())
    }
}

/// Declares a local by a value of type `got`. Nothing that was known of it and of all below it stays known.
fn store_local(
    alloc: Global,
    name: &Text,
    got: &Ty,
    flow_state: &mut FlowState,
) -> Result<(), AllocError>
    ensures { OnOk result (flow_state_in flow_state.new ≡ spec.store_local name.now (ty_of got.now)
        (flow_state_in flow_state.old)) }
{
    let ty = declared_local_type(got)?;
    let place = name_place(alloc, name)?;
    let dropped = flow_state.state.drop_place(alloc, &place)?;
    let state = narrow_to_itself(alloc, &place, &ty, &dropped)?;
    flow_state.set_state(state);
    flow_state.declare(name, LocalType::Declared(ty));
    Ok(())
}

/// The type of a local that a value of type `got` declares: None gives Any, since any value may follow it.
fn declared_local_type(got: &Ty) -> Result<Ty, AllocError>
    ensures { IfOk result (λ ty. ty_of ty ≡ spec.declared_local_type (ty_of got.now)) }
{
    match got {
        Ty::None => Ok(Ty::Any),
        _ => got.clone(),
    }
}

/// The state in which a place of type `ty` holds a value of that type.
fn narrow_to_itself(
    alloc: Global,
    place: &Place,
    ty: &Ty,
    state: &State,
) -> Result<State, AllocError>
    ensures { IfOk result (λ after. state_of after
        ≡ spec.narrow_to_itself place.now (ty_of ty.now) (state_of state.now)) }
{
    narrow_if(alloc, is_union(ty), place, ty, state)
}

/// A value must be of the type that its target takes, where something is required.
fn want_required<N: AskTypes>(
    alloc: Global,
    recorder: &mut N,
    at: Position,
    is_item: bool,
    got: &Ty,
    want: Option<&Ty>,
) -> Result<(), AllocError>
    ensures { Performs (λ u. u)
        (spec.want_required at is_item (ty_of got.now) (option_map (λ ty. ty_of ty.now) want.entry))
        (N.trace recorder.old)
        result (N.trace recorder.new) }
{
    match want {
        Some(want) => assignment_required(alloc, recorder, at, is_item, got, want),
        None => Ok(()),
    }
}

/// Requires that a value, which begins at `at`, is of the type that its target takes; `is_item` says whether the target
/// is an item of a subscript. The only error is that memory runs out.
#[tactic(auto, using(pyc_obligations::proofs::Steps::performing), unfolding(crate::specs::Storing::assignment_required))]
pub fn assignment_required<N: AskTypes>(
    alloc: Global,
    recorder: &mut N,
    at: Position,
    is_item: bool,
    got: &Ty,
    want: &Ty,
) -> Result<(), AllocError>
    ensures { Performs (λ u. u) (spec.assignment_required at is_item (ty_of got.now) (ty_of want.now))
        (N.trace recorder.old)
        result (N.trace recorder.new) }
{
    let required = RequiredAssignment {
        at,
        is_item,
        got,
        want,
    };
    require(alloc, recorder, &required)
}

/// What is known after a target that takes a type was assigned a value of a type.
pub(crate) fn renarrow<N: AskTypes>(
    alloc: Global,
    recorder: &mut N,
    target: &Target,
    want: Option<&Ty>,
    got: &Ty,
    state: &State,
) -> Result<State, AllocError>
    ensures { Performs state_of
        (spec.renarrow (target_of target.now) (option_map (λ ty. ty_of ty.now) want.entry) (ty_of got.now)
        (state_of state.now)) (N.trace recorder.old) result (N.trace recorder.new) }
{
    let place = target_place(alloc, target)?;
    assign_place(alloc, recorder, place, want, got, state)
}

/// What is known after a place, if the target is one, was assigned a value of a type.
fn assign_place<N: AskTypes>(
    alloc: Global,
    recorder: &mut N,
    place: Option<Place>,
    want: Option<&Ty>,
    got: &Ty,
    state: &State,
) -> Result<State, AllocError>
    ensures { Performs state_of
        (spec.assign_place place (option_map (λ ty. ty_of ty.now) want.entry) (ty_of got.now) (state_of state.now))
        (N.trace recorder.old) result (N.trace recorder.new) }
{
    match place {
        Some(place) => drop_and_narrow(alloc, recorder, &place, want, got, state),
        None => state.clone(),
    }
}

/// What is known after a place was assigned a value of a type: what was known of it and of all below it is dropped.
fn drop_and_narrow<N: AskTypes>(
    alloc: Global,
    recorder: &mut N,
    place: &Place,
    want: Option<&Ty>,
    got: &Ty,
    state: &State,
) -> Result<State, AllocError>
    ensures { Performs state_of
        (spec.narrow_by_want place.now (option_map (λ ty. ty_of ty.now) want.entry) (ty_of got.now)
        (states.drop_place place.now (state_of state.now))) (N.trace recorder.old) result (N.trace recorder.new) }
{
    let dropped = state.drop_place(alloc, place)?;
    narrow_by_want(alloc, recorder, place, want, got, &dropped)
}

/// A place that takes a type is narrowed to that of a value.
fn narrow_by_want<N: AskTypes>(
    alloc: Global,
    recorder: &mut N,
    place: &Place,
    want: Option<&Ty>,
    got: &Ty,
    state: &State,
) -> Result<State, AllocError>
    ensures { Performs state_of
        (spec.narrow_by_want place.now (option_map (λ ty. ty_of ty.now) want.entry) (ty_of got.now)
        (state_of state.now))
        (N.trace recorder.old) result (N.trace recorder.new) }
{
    match want {
        Some(want) => narrow_if_union(alloc, recorder, place, want, got, state),
        None => state.clone(),
    }
}

/// Only a place that is declared as a union is narrowed, and not to Any.
fn narrow_if_union<N: AskTypes>(
    alloc: Global,
    recorder: &mut N,
    place: &Place,
    want: &Ty,
    got: &Ty,
    state: &State,
) -> Result<State, AllocError>
    ensures { Performs state_of
        (spec.narrow_if_union place.now (ty_of want.now) (ty_of got.now) (state_of state.now)) (N.trace recorder.old)
        result
        (N.trace recorder.new) }
{
    if is_union(want) && !is_any(got) {
        narrow_if_assignable(alloc, recorder, place, want, got, state)
    } else {
        state.clone()
    }
}

/// Whether a type is a union.
fn is_union(ty: &Ty) -> bool
    ensures { result ≡ spec.is_union (ty_of ty.now) }
{
    matches!(ty, Ty::Union(_))
}

/// Whether a type is Any.
fn is_any(ty: &Ty) -> bool
    ensures { result ≡ spec.is_any (ty_of ty.now) }
{
    matches!(ty, Ty::Any)
}

/// A place is narrowed to the type of a value where that is assignable to what the place takes.
#[tactic(auto, using(pyc_obligations::proofs::Steps::performing), unfolding(crate::specs::Storing::narrow_if_assignable))]
fn narrow_if_assignable<N: AskTypes>(
    alloc: Global,
    recorder: &mut N,
    place: &Place,
    want: &Ty,
    got: &Ty,
    state: &State,
) -> Result<State, AllocError>
    ensures { Performs state_of
        (spec.narrow_if_assignable place.now (ty_of want.now) (ty_of got.now) (state_of state.now))
        (N.trace recorder.old) result
        (N.trace recorder.new) }
{
    let goes = judge_assignable(alloc, recorder, got, want)?;
    narrow_if(alloc, goes, place, got, state)
}

/// A state in which a place has a type, if it goes.
fn narrow_if(
    alloc: Global,
    goes: bool,
    place: &Place,
    ty: &Ty,
    state: &State,
) -> Result<State, AllocError>
    ensures { IfOk result (λ after. state_of after
        ≡ spec.narrow_if goes place.now (ty_of ty.now) (state_of state.now)) }
{
    if goes {
        state.with_place(alloc, place.clone()?, ty.clone()?)
    } else {
        state.clone()
    }
}
