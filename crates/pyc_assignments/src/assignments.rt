//! Assignments to targets from left to right.

ghost use Rattle.std.specs.Prelude.{◌≡◌, map, option_map};
ghost use Rattle.pyc_assignments.specs.Assignments as spec;
ghost use Rattle.pyc_assignments.specs.Views.{outcome_in};
ghost use Rattle.pyc_ast.specs.ExprView.{expr_of};
ghost use Rattle.pyc_ast.specs.TargetView.{target_of};
ghost use Rattle.pyc_locals.specs.Views.{flow_state_in};
ghost use Rattle.pyc_reading.specs.Traces.{Performs};
ghost use Rattle.pyc_type_forms.specs.TypeView.{ty_of};

use crate::assigning::Assigner;
use crate::reading::{AssignmentOutcome, InferAssignment, infer_type_at};
use crate::singles::{is_unpacking, outcome};
use crate::storing::AssignedValue;
use pyc_ast::{Expr, Target};
use pyc_locals::FlowState;
use pyc_obligations::AskTypes;
use pyc_type_forms::Ty;
use std::alloc::{AllocError, Global};
use std::marker::PhantomData;

/// Checks an assignment to targets from left to right, and leaves `flow_state` as it is after it. The type that the
/// first target takes which is no tuple or list of targets is expected of the value. Reports each obligation that does
/// not hold. The only error is that memory runs out.
#[tactic(auto, using(pyc_obligations::proofs::Steps::performing), unfolding(crate::specs::Assignments::assignment))]
pub fn assignment<N: AskTypes, R: InferAssignment<N>>(
    alloc: Global,
    recorder: &mut N,
    reader: &R,
    targets: &[Target],
    value: &Expr,
    flow_state: &mut FlowState,
) -> Result<(), AllocError>
    requires { R.ready reader.now }
    ensures { Performs (λ u. flow_state_in flow_state.new)
        (spec.assignment (R.reads reader.now) (map target_of targets.now) (expr_of value.now)
        (flow_state_in flow_state.old))
        (N.trace recorder.old) result (N.trace recorder.new) }
{
    let first = first_single(targets);
    let found = first_outcome(alloc, recorder, reader, flow_state, targets.get(first))?;
    let assigner = Assigner {
        alloc,
        reader,
        at: value.at,
        of: PhantomData,
    };
    let in_turn = TargetsInTurn {
        assigner,
        first,
        found: &found,
    };
    in_turn.assignment_by(recorder, targets, value, flow_state)?;
    Ok(())
}

/// The number of the first target that is no tuple or list of targets, or how many there are.
fn first_single(targets: &[Target]) -> usize
    ensures { result ≡ spec.first_single (map target_of targets.now) }
{
    for index in 0..targets.len() {
        if !is_unpacking(&targets[index]) {
            return index;
        }
    }
    targets.len()
}

/// What an assignment to some first single target meets.
fn first_outcome<N: AskTypes, R: InferAssignment<N>>(
    alloc: Global,
    recorder: &mut N,
    reader: &R,
    flow_state: &FlowState,
    target: Option<&Target>,
) -> Result<AssignmentOutcome, AllocError>
    requires { R.ready reader.now }
    ensures { Performs outcome_in
        (spec.first_outcome (R.reads reader.now) (flow_state_in flow_state.now)
        (option_map (λ target. target_of target.now) target.entry)) (N.trace recorder.old) result
        (N.trace recorder.new) }
{
    match target {
        Some(target) => outcome(alloc, recorder, reader, flow_state, target),
        None => Ok(AssignmentOutcome::free()),
    }
}

/// Assigns a value to targets from left to right, once it is known what the first single target meets.
#[derive(Clone, Copy)]
struct TargetsInTurn<'a, N, R> {
    assigner: Assigner<'a, N, R>,
    /// The number of the first single target, or how many targets there are.
    first: usize,
    /// What an assignment to this target meets.
    found: &'a AssignmentOutcome,
}

impl<N: AskTypes, R: InferAssignment<N>> TargetsInTurn<'_, N, R> {
    /// Infers the value and assigns it to targets.
    #[tactic(auto, using(pyc_obligations::proofs::Steps::performing), unfolding(crate::specs::Assignments::assignment_by))]
    fn assignment_by(
        &self,
        recorder: &mut N,
        targets: &[Target],
        value: &Expr,
        flow_state: &mut FlowState,
    ) -> Result<(), AllocError>
        requires { R.ready self.now.assigner.reader.now }
        ensures { Performs (λ u. flow_state_in flow_state.new)
            (spec.assignment_by (R.reads self.now.assigner.reader.now) self.now.assigner.at
            (outcome_in self.now.found.now) self.now.first (map target_of targets.now) (expr_of value.now)
            (flow_state_in flow_state.old)) (N.trace recorder.old) result (N.trace recorder.new) }
    {
        let Assigner { alloc, reader, .. } = self.assigner;
        let ty = infer_type_at(
            alloc,
            recorder,
            reader,
            flow_state,
            value,
            self.found.want(),
        )?;
        self.assign_targets(recorder, &ty, targets, flow_state)?;
        Ok(())
    }

    /// Assigns a value of type `ty` to targets in turn.
    #[tactic(auto, using(pyc_obligations::proofs::Steps::performing), unfolding(crate::specs::Assignments::assign_targets))]
    fn assign_targets(
        &self,
        recorder: &mut N,
        ty: &Ty,
        targets: &[Target],
        flow_state: &mut FlowState,
    ) -> Result<(), AllocError>
        requires { R.ready self.now.assigner.reader.now }
        ensures { Performs (λ u. flow_state_in flow_state.new)
            (spec.assign_targets (R.reads self.now.assigner.reader.now) self.now.assigner.at
            (outcome_in self.now.found.now) self.now.first (ty_of ty.now) 0 (map target_of targets.now)
            (flow_state_in flow_state.old)) (N.trace recorder.old) result (N.trace recorder.new) }
    {
        for index in 0..targets.len() {
            let is_first = index == self.first;
            self.assign_one(recorder, is_first, ty, &targets[index], flow_state)?;
        }
        Ok(())
    }

    /// Assigns a value of type `ty` to a target, by whether what was read before is what it meets.
    fn assign_one(
        &self,
        recorder: &mut N,
        is_first: bool,
        ty: &Ty,
        target: &Target,
        flow_state: &mut FlowState,
    ) -> Result<(), AllocError>
        requires { R.ready self.now.assigner.reader.now }
        ensures { Performs (λ u. flow_state_in flow_state.new)
            (spec.assign_one (R.reads self.now.assigner.reader.now) self.now.assigner.at
            (outcome_in self.now.found.now) is_first (ty_of ty.now) (target_of target.now)
            (flow_state_in flow_state.old)) (N.trace recorder.old) result (N.trace recorder.new) }
    {
        if is_first {
            let assigned = AssignedValue {
                alloc: self.assigner.alloc,
                at: self.assigner.at,
                target,
                got: ty,
            };
            assigned.store_in_target(recorder, self.found, flow_state)
        } else {
            self.assigner
                .assign_target(recorder, target, ty, flow_state)
        }
    }
}
