//! Deletions.

ghost use Rattle.std.specs.Prelude.{◌≡◌, IfOk, map};
ghost use Rattle.pyc_ast.specs.Targets.{target_elements};
ghost use Rattle.pyc_ast.specs.TargetView.{target_element_of, target_of};
ghost use Rattle.pyc_body_context.specs.Views.{body_in};
ghost use Rattle.pyc_locals.specs.Views.{flow_state_in};
ghost use Rattle.pyc_places.specs.StateView.{state_of};
ghost use Rattle.pyc_places.specs.TargetPlaces as places;
ghost use Rattle.pyc_reading.specs.Traces.{Performs};
ghost use Rattle.pyc_simple_statements.specs.Deleting as spec;

use crate::reader::StatementReader;
use pyc_ast::{Target, TargetElement, TargetForm};
use pyc_locals::FlowState;
use pyc_obligations::AskTypes;
use pyc_places::{State, target_place};
use std::alloc::{AllocError, Global};

impl StatementReader<'_> {
    /// Reads a target of a `del`, or those in it: nothing is known of it any more.
    #[cycle(deleting)]
    pub(crate) fn delete<N: AskTypes>(
        &self,
        recorder: &mut N,
        target: &Target,
        flow_state: &mut FlowState,
    ) -> Result<(), AllocError>
        ensures { Performs (λ u. flow_state_in flow_state.new)
            (spec.deleted (body_in self.now.body.now) (target_of target.now) (flow_state_in flow_state.old))
            (N.trace recorder.old)
            result (N.trace recorder.new) }
    {
        match &target.form {
            TargetForm::Unpacking(elements) => self.delete_each(recorder, elements, flow_state),
            _ => self.delete_single(recorder, target, flow_state),
        }
    }

    /// Reads the targets of a tuple or a list of a `del`, in turn.
    #[cycle(deleting)]
    fn delete_each<N: AskTypes>(
        &self,
        recorder: &mut N,
        elements: &[TargetElement],
        flow_state: &mut FlowState,
    ) -> Result<(), AllocError>
        ensures { Performs (λ u. flow_state_in flow_state.new)
            (spec.each_deleted (body_in self.now.body.now) (target_elements (map target_element_of elements.now))
            (flow_state_in flow_state.old)) (N.trace recorder.old) result (N.trace recorder.new) }
    {
        for element in elements {
            self.delete(recorder, &element.target, flow_state)?;
        }
        Ok(())
    }

    /// Reads a target of a `del` that is no tuple or list of targets.
    #[tactic(auto, using(pyc_obligations::proofs::Steps::performing), unfolding(crate::specs::Deleting::single_deleted))]
    fn delete_single<N: AskTypes>(
        &self,
        recorder: &mut N,
        target: &Target,
        flow_state: &mut FlowState,
    ) -> Result<(), AllocError>
        ensures { Performs (λ u. flow_state_in flow_state.new)
            (spec.single_deleted (body_in self.now.body.now) (target_of target.now) (flow_state_in flow_state.old))
            (N.trace recorder.old) result (N.trace recorder.new) }
    {
        self.target_type(recorder, target, flow_state)?;
        let state = dropped(self.alloc, target, &flow_state.state)?;
        flow_state.set_state(state);
        Ok(())
    }
}

/// The state without what is known of the place that a target is.
fn dropped(alloc: Global, target: &Target, state: &State) -> Result<State, AllocError>
    ensures { IfOk result (λ after. state_of after
        ≡ spec.dropped_if (places.target_place (target_of target.now)) (state_of state.now)) }
{
    match target_place(alloc, target)? {
        Some(place) => state.drop_place(alloc, &place),
        None => state.clone(),
    }
}
