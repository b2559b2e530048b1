//! The heads of `for` and `with`.

ghost use Rattle.std.specs.Prelude.{map, option_map};
ghost use Rattle.pyc_ast.specs.StatementView.{for_of, with_item_of};
ghost use Rattle.pyc_ast.specs.TargetView.{target_of};
ghost use Rattle.pyc_body_context.specs.Views.{body_in};
ghost use Rattle.pyc_locals.specs.Views.{flow_state_in};
ghost use Rattle.pyc_reading.specs.Traces.{Performs};
ghost use Rattle.pyc_simple_statements.specs.Heads as spec;
ghost use Rattle.pyc_type_forms.specs.TypeView.{ty_of};

use crate::reader::StatementReader;
use pyc_ast::{For, Position, Target, WithItem};
use pyc_locals::{FlowState, drop_places};
use pyc_obligations::AskTypes;
use pyc_places::Place;
use pyc_subscripts::infer_iteration;
use pyc_type_forms::Ty;
use std::alloc::AllocError;

impl StatementReader<'_> {
    /// Begins a turn of a `for` whose turns assign `places`: its iterable is read before the loop, and its target is
    /// assigned where nothing is known of the places.
    #[tactic(auto, using(crate::proofs::Places::placing), unfolding(crate::specs::Heads::turn_begun))]
    pub(crate) fn begin_turn<N: AskTypes>(
        &self,
        recorder: &mut N,
        head: &For,
        places: &[Place],
        flow_state: &mut FlowState,
    ) -> Result<(), AllocError>
        ensures { Performs (λ u. flow_state_in flow_state.new)
            (spec.turn_begun (body_in self.now.body.now) (for_of head.now) places.now (flow_state_in flow_state.old))
            (N.trace recorder.old) result (N.trace recorder.new) }
    {
        let item = self.turn_item(recorder, head, flow_state)?;
        let state = drop_places(self.alloc, places, &flow_state.state)?;
        flow_state.set_state(state);
        self.assign_target(recorder, head.iterable.at, &head.target, &item, flow_state)
    }

    /// The type of what each turn of a `for` assigns.
    #[tactic(auto, using(crate::proofs::Places::placing), unfolding(crate::specs::Heads::turn_item))]
    fn turn_item<N: AskTypes>(
        &self,
        recorder: &mut N,
        head: &For,
        flow_state: &FlowState,
    ) -> Result<Ty, AllocError>
        ensures { Performs ty_of
            (spec.turn_item (body_in self.now.body.now) (for_of head.now) (flow_state_in flow_state.now))
            (N.trace recorder.old)
            result (N.trace recorder.new) }
    {
        let ty = self.infer_part(recorder, &head.iterable, None, flow_state)?;
        infer_iteration(self.alloc, recorder, head.iterable.at, &ty)
    }

    /// Reads the items of a `with`, in turn.
    #[tactic(auto, using(pyc_obligations::proofs::Steps::performing), unfolding(crate::specs::Heads::items_read))]
    pub(crate) fn read_items<N: AskTypes>(
        &self,
        recorder: &mut N,
        items: &[WithItem],
        flow_state: &mut FlowState,
    ) -> Result<(), AllocError>
        ensures { Performs (λ u. flow_state_in flow_state.new)
            (spec.items_read (body_in self.now.body.now) (map with_item_of items.now) (flow_state_in flow_state.old))
            (N.trace recorder.old) result (N.trace recorder.new) }
    {
        for item in items {
            self.read_item(recorder, item, flow_state)?;
        }
        Ok(())
    }

    /// Reads an item of a `with`.
    #[tactic(auto, using(crate::proofs::Places::placing), unfolding(crate::specs::Heads::item_read))]
    fn read_item<N: AskTypes>(
        &self,
        recorder: &mut N,
        item: &WithItem,
        flow_state: &mut FlowState,
    ) -> Result<(), AllocError>
        ensures { Performs (λ u. flow_state_in flow_state.new)
            (spec.item_read (body_in self.now.body.now) (with_item_of item.now) (flow_state_in flow_state.old))
            (N.trace recorder.old) result (N.trace recorder.new) }
    {
        self.read_part(recorder, &item.context, flow_state)?;
        self.assign_item(recorder, item.context.at, item.target.as_ref(), flow_state)
    }

    /// Assigns Any to some target of an item: what the item gives is not looked into.
    fn assign_item<N: AskTypes>(
        &self,
        recorder: &mut N,
        at: Position,
        target: Option<&Target>,
        flow_state: &mut FlowState,
    ) -> Result<(), AllocError>
        ensures { Performs (λ u. flow_state_in flow_state.new)
            (spec.item_target (body_in self.now.body.now) at (option_map (λ target. target_of target.now) target.entry)
            (flow_state_in flow_state.old)) (N.trace recorder.old) result (N.trace recorder.new) }
    {
        match target {
            Some(target) => self.assign_target(recorder, at, target, &Ty::Any, flow_state),
            None => Ok(()),
        }
    }
}
