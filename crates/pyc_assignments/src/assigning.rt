//! Assignments of values to targets.

ghost use Rattle.std.specs.Prelude.{map};
ghost use Rattle.pyc_assignments.specs.Assignments as spec;
ghost use Rattle.pyc_assignments.specs.Views.{shares_in};
ghost use Rattle.pyc_ast.specs.Targets.{target_elements};
ghost use Rattle.pyc_ast.specs.TargetView.{target_element_of, target_form_of, target_of};
ghost use Rattle.pyc_locals.specs.Views.{flow_state_in};
ghost use Rattle.pyc_reading.specs.Traces.{Performs};
ghost use Rattle.pyc_type_forms.specs.TypeView.{ty_of};

use crate::reading::InferAssignment;
use crate::singles::outcome;
use crate::storing::AssignedValue;
use crate::unpacking::{Shares, has_starred, share_at, shares_of, target_count};
use pyc_ast::{Position, Target, TargetElement, TargetForm};
use pyc_locals::FlowState;
use pyc_obligations::AskTypes;
use pyc_type_forms::Ty;
use std::alloc::{AllocError, Global};
use std::marker::PhantomData;

/// Assigns values to targets: what reads the parts of the targets, and where the value begins.
#[derive(Clone, Copy)]
pub struct Assigner<'a, N, R> {
    pub alloc: Global,
    pub reader: &'a R,
    pub at: Position,
    pub of: PhantomData<N>,
}

impl<N: AskTypes, R: InferAssignment<N>> Assigner<'_, N, R> {
    /// Assigns a value of type `ty` to `target`, and leaves `flow_state` as it is after that. Reports each obligation
    /// that does not hold. The only error is that memory runs out.
    #[cycle(assign_target)]
    pub fn assign_target(
        &self,
        recorder: &mut N,
        target: &Target,
        ty: &Ty,
        flow_state: &mut FlowState,
    ) -> Result<(), AllocError>
        requires { R.ready self.now.reader.now }
        ensures { Performs (λ u. flow_state_in flow_state.new)
            (spec.assign_target (R.reads self.now.reader.now) self.now.at (target_of target.now) (ty_of ty.now)
            (flow_state_in flow_state.old))
            (N.trace recorder.old) result (N.trace recorder.new) }
    {
        match &target.form {
            TargetForm::Unpacking(elements) => {
                self.unpack_value(recorder, elements, ty, flow_state)
            }
            _ => self.assign_single(recorder, target, ty, flow_state),
        }
    }

    /// Assigns a value of type `ty` to a target that is no tuple or list of targets.
    #[tactic(auto, using(pyc_obligations::proofs::Steps::performing), unfolding(crate::specs::Assignments::assign_single))]
    fn assign_single(
        &self,
        recorder: &mut N,
        target: &Target,
        ty: &Ty,
        flow_state: &mut FlowState,
    ) -> Result<(), AllocError>
        requires { R.ready self.now.reader.now }
        ensures { Performs (λ u. flow_state_in flow_state.new)
            (spec.assign_single (R.reads self.now.reader.now) self.now.at (target_of target.now) (ty_of ty.now)
            (flow_state_in flow_state.old))
            (N.trace recorder.old) result (N.trace recorder.new) }
    {
        let found = outcome(self.alloc, recorder, self.reader, flow_state, target)?;
        let assigned = AssignedValue {
            alloc: self.alloc,
            at: self.at,
            target,
            got: ty,
        };
        assigned.store_in_target(recorder, &found, flow_state)
    }

    /// Unpacks a value of type `ty` to targets.
    #[cycle(assign_target)]
    #[tactic(auto, using(pyc_obligations::proofs::Steps::performing))]
    fn unpack_value(
        &self,
        recorder: &mut N,
        elements: &[TargetElement],
        ty: &Ty,
        flow_state: &mut FlowState,
    ) -> Result<(), AllocError>
        requires { R.ready self.now.reader.now }
        ensures { Performs (λ u. flow_state_in flow_state.new)
            (spec.unpack_value (R.reads self.now.reader.now) self.now.at
            (target_elements (map target_element_of elements.now)) (ty_of ty.now) (flow_state_in flow_state.old))
            (N.trace recorder.old) result (N.trace recorder.new) }
    {
        let is_starred = has_starred(elements);
        let count = target_count(elements);
        let found = shares_of(self.alloc, recorder, self.at, is_starred, count, ty)?;
        self.assign_each(recorder, &found, elements, flow_state)
    }

    /// Assigns the shares `found` to targets, in turn.
    #[cycle(assign_target)]
    #[tactic(auto, using(pyc_obligations::proofs::Steps::performing))]
    fn assign_each(
        &self,
        recorder: &mut N,
        found: &Shares,
        elements: &[TargetElement],
        flow_state: &mut FlowState,
    ) -> Result<(), AllocError>
        requires { R.ready self.now.reader.now }
        ensures { Performs (λ u. flow_state_in flow_state.new)
            (spec.assign_each (R.reads self.now.reader.now) self.now.at (shares_in found.now) 0
            (target_elements (map target_element_of elements.now)) (flow_state_in flow_state.old))
            (N.trace recorder.old) result (N.trace recorder.new) }
    {
        for index in 0..elements.len() {
            let ty = share_at(found, index)?;
            self.assign_target(recorder, &elements[index].target, &ty, flow_state)?;
        }
        Ok(())
    }
}
