//! What reads the parts of assignments.

ghost use Rattle.std.specs.Prelude.{◌≡◌, option_map};
ghost use Rattle.pyc_assignments.specs.Reads as spec;
ghost use Rattle.pyc_assignments.specs.Views.{outcome_in};
ghost use Rattle.pyc_ast.specs.ExprView.{expr_of, index_of};
ghost use Rattle.pyc_locals.specs.Views.{flow_state_in};
ghost use Rattle.pyc_obligations.specs.ValueView.{value_of};
ghost use Rattle.pyc_reading.specs.Traces.{Performs};
ghost use Rattle.pyc_type_forms.specs.TypeView.{ty_of};

use pyc_ast::{Expr, Index, Text};
use pyc_locals::FlowState;
use pyc_obligations::{AskTypes, Value};
use pyc_targets::TargetType;
use pyc_type_forms::Ty;
use std::alloc::{AllocError, Global};

/// What an assignment to a single target meets.
#[derive(Debug, Drop)]
pub enum AssignmentOutcome {
    /// A target that takes what it is declared as, or anything.
    TargetType(TargetType),
    /// A local of this name that nothing has declared before: the assignment declares it.
    NewLocal(Text),
}

impl AssignmentOutcome {
    /// What an assignment meets whose target takes anything. It takes no memory.
    pub fn free() -> AssignmentOutcome
        ensures { outcome_in result ≡ spec.free_outcome }
    {
        AssignmentOutcome::TargetType(TargetType::plain(None))
    }

    /// The type that is expected of the value, if one is. It takes no memory.
    pub fn want(&self) -> Option<&Ty>
        ensures { option_map (λ ty. ty_of ty.now) result ≡ spec.want_of (outcome_in self.now) }
    {
        match self {
            AssignmentOutcome::TargetType(target_type) => target_type.want.as_ref(),
            AssignmentOutcome::NewLocal(_) => None,
        }
    }
}

/// What reads the parts of assignments.
pub trait InferAssignment<N: AskTypes> {
    ghost ready: { Self → Type 0 };

    ghost reads: { Self → spec.Reads };

    /// What an expression is at a point, with the type that is expected of it, if one is. The only error is that memory
    /// runs out.
    fn value(
        &self,
        alloc: Global,
        recorder: &mut N,
        flow_state: &FlowState,
        part: &Expr,
        want: Option<&Ty>,
    ) -> Result<Value, AllocError>
        requires { ready self.now }
        ensures { Performs value_of
            ((reads self.now).value (flow_state_in flow_state.now) (expr_of part.now)
            (option_map (λ ty. ty_of ty.now) want.entry)) (N.trace recorder.old) result (N.trace recorder.new) };

    /// The type of what stands between brackets, at a point. The only error is that memory runs out.
    fn index(
        &self,
        alloc: Global,
        recorder: &mut N,
        flow_state: &FlowState,
        index: &Index,
    ) -> Result<Ty, AllocError>
        requires { ready self.now }
        ensures { Performs ty_of ((reads self.now).index (flow_state_in flow_state.now) (index_of index.now))
            (N.trace recorder.old)
            result (N.trace recorder.new) };

    /// What an assignment to a name meets at a point. The only error is that memory runs out.
    fn outcome(
        &self,
        alloc: Global,
        recorder: &mut N,
        flow_state: &FlowState,
        name: &Text,
    ) -> Result<AssignmentOutcome, AllocError>
        requires { ready self.now }
        ensures { Performs outcome_in ((reads self.now).outcome (flow_state_in flow_state.now) name.now)
            (N.trace recorder.old) result
            (N.trace recorder.new) };

    /// The type that an annotation means. The only error is that memory runs out.
    fn annotated(
        &self,
        alloc: Global,
        recorder: &mut N,
        annotation: &Expr,
    ) -> Result<Ty, AllocError>
        requires { ready self.now }
        ensures { Performs ty_of ((reads self.now).annotated (expr_of annotation.now)) (N.trace recorder.old) result
            (N.trace recorder.new) };
}

/// The type of an expression at a point, with what is expected of it.
#[tactic(auto, using(pyc_obligations::proofs::Steps::performing), unfolding(crate::specs::Reads::infer_type_at))]
pub(crate) fn infer_type_at<N: AskTypes, R: InferAssignment<N>>(
    alloc: Global,
    recorder: &mut N,
    reader: &R,
    flow_state: &FlowState,
    part: &Expr,
    want: Option<&Ty>,
) -> Result<Ty, AllocError>
    requires { R.ready reader.now }
    ensures { Performs ty_of
        (spec.infer_type_at (R.reads reader.now) (flow_state_in flow_state.now) (expr_of part.now)
        (option_map (λ ty. ty_of ty.now) want.entry)) (N.trace recorder.old) result (N.trace recorder.new) }
{
    let value = reader.value(alloc, recorder, flow_state, part, want)?;
    Ok(value.ty)
}
