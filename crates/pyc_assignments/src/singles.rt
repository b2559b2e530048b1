//! What assignments to single targets meet.

ghost use Rattle.std.specs.Prelude.{◌≡◌};
ghost use Rattle.pyc_assignments.specs.Reads.{infer_type_at};
ghost use Rattle.pyc_assignments.specs.Singles as spec;
ghost use Rattle.pyc_assignments.specs.Views.{outcome_in};
ghost use Rattle.pyc_ast.specs.ExprView.{expr_of, index_of};
ghost use Rattle.pyc_ast.specs.TargetView.{target_of};
ghost use Rattle.pyc_locals.specs.Views.{flow_state_in};
ghost use Rattle.pyc_reading.specs.Traces.{Performs};
ghost use Rattle.pyc_type_forms.specs.TypeView.{ty_of};

use crate::reading::{AssignmentOutcome, InferAssignment, infer_type_at};
use pyc_ast::{Expr, Index, Position, Target, TargetForm, Text};
use pyc_locals::FlowState;
use pyc_obligations::AskTypes;
use pyc_targets::{IndexedTarget, TargetType, attribute_want};
use std::alloc::{AllocError, Global};
use std::marker::PhantomData;

/// What an assignment to `target` meets, whose parts are read at `flow_state`. A tuple or a list of targets takes
/// anything as a whole. The only error is that memory runs out.
pub fn outcome<N: AskTypes, R: InferAssignment<N>>(
    alloc: Global,
    recorder: &mut N,
    reader: &R,
    flow_state: &FlowState,
    target: &Target,
) -> Result<AssignmentOutcome, AllocError>
    requires { R.ready reader.now }
    ensures { Performs outcome_in (spec.outcome (R.reads reader.now) (flow_state_in flow_state.now)
        (target_of target.now))
        (N.trace recorder.old) result (N.trace recorder.new) }
{
    let single = SingleTarget {
        alloc,
        reader,
        flow_state,
        at: target.at,
        inside: target.inside,
        of: PhantomData,
    };
    match &target.form {
        TargetForm::Name(name) => reader.outcome(alloc, recorder, flow_state, name),
        TargetForm::Attribute { value, name } => single.attribute_outcome(recorder, value, name),
        TargetForm::Subscript { value, index } => single.subscript_outcome(recorder, value, index),
        TargetForm::Unpacking(_) => Ok(AssignmentOutcome::free()),
    }
}

/// A target that begins at `at`, and at `inside` within its parentheses, and what reads its parts at a state.
#[derive(Clone, Copy)]
struct SingleTarget<'a, N, R> {
    alloc: Global,
    reader: &'a R,
    flow_state: &'a FlowState,
    at: Position,
    inside: Position,
    of: PhantomData<N>,
}

impl<N: AskTypes, R: InferAssignment<N>> SingleTarget<'_, N, R> {
    /// What an assignment to an attribute meets.
    #[tactic(auto, using(pyc_obligations::proofs::Steps::performing), unfolding(crate::specs::Singles::attribute_outcome))]
    fn attribute_outcome(
        &self,
        recorder: &mut N,
        part: &Expr,
        name: &Text,
    ) -> Result<AssignmentOutcome, AllocError>
        requires { R.ready self.now.reader.now }
        ensures { Performs outcome_in
            (spec.attribute_outcome (R.reads self.now.reader.now) (flow_state_in self.now.flow_state.now) self.now.at
            self.now.inside (expr_of part.now) name.now) (N.trace recorder.old) result (N.trace recorder.new) }
    {
        let owner = self
            .reader
            .value(self.alloc, recorder, self.flow_state, part, None)?;
        let want = attribute_want(self.alloc, recorder, self.at, self.inside, &owner, name)?;
        Ok(AssignmentOutcome::TargetType(TargetType::plain(want)))
    }

    /// What an assignment to an item of a subscript meets.
    #[tactic(auto, using(pyc_obligations::proofs::Steps::performing), unfolding(crate::specs::Singles::subscript_outcome))]
    fn subscript_outcome(
        &self,
        recorder: &mut N,
        part: &Expr,
        index: &Index,
    ) -> Result<AssignmentOutcome, AllocError>
        requires { R.ready self.now.reader.now }
        ensures { Performs outcome_in
            (spec.subscript_outcome (R.reads self.now.reader.now) (flow_state_in self.now.flow_state.now) self.now.at
            self.now.inside (expr_of part.now) (index_of index.now)) (N.trace recorder.old) result
            (N.trace recorder.new) }
    {
        let ty = infer_type_at(
            self.alloc,
            recorder,
            self.reader,
            self.flow_state,
            part,
            None,
        )?;
        let got = self
            .reader
            .index(self.alloc, recorder, self.flow_state, index)?;
        let indexed = IndexedTarget {
            alloc: self.alloc,
            at: self.at,
            inside: self.inside,
            index,
            got: &got,
        };
        let target_type = indexed.item_target(recorder, &ty)?;
        Ok(AssignmentOutcome::TargetType(target_type))
    }
}

/// Whether a target is a tuple or a list of targets.
pub(crate) fn is_unpacking(target: &Target) -> bool
    ensures { result ≡ spec.is_unpacking (target_of target.now) }
{
    match &target.form {
        TargetForm::Unpacking(_) => true,
        _ => false,
    }
}
