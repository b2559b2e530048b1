//! The rules of statements carry the body in which these stand.

ghost use Rattle.std.specs.Prelude.{◌≡◌};
ghost use Rattle.pyc_assignments.specs.Assignments as assignments;
ghost use Rattle.pyc_ast.specs.TargetView.{target_of};
ghost use Rattle.pyc_body_context.specs.BodyNames.{body_context};
ghost use Rattle.pyc_body_context.specs.BodyTargets.{body_reads};
ghost use Rattle.pyc_body_context.specs.Views.{body_in, context_in};
ghost use Rattle.pyc_locals.specs.Views.{flow_state_in};
ghost use Rattle.pyc_reading.specs.Traces.{Performs};
ghost use Rattle.pyc_type_forms.specs.TypeView.{ty_of};

use pyc_assignments::Assigner;
use pyc_ast::{Position, Target};
use pyc_body_context::{Body, BodyContext};
use pyc_locals::FlowState;
use pyc_obligations::AskTypes;
use pyc_type_forms::Ty;
use std::alloc::{AllocError, Global};
use std::marker::PhantomData;

/// Reads the statements of a body.
#[derive(Clone, Copy)]
pub(crate) struct StatementReader<'a> {
    pub(crate) alloc: Global,
    pub(crate) body: &'a Body<'a>,
}

impl<'a> StatementReader<'a> {
    /// Where the expressions of the body stand at a point.
    pub(crate) fn context(&self, flow_state: &'a FlowState) -> BodyContext<'a>
        ensures { context_in result ≡ body_context (body_in self.now.body.now) (flow_state_in flow_state.now).locals }
    {
        self.body.context(&flow_state.locals)
    }
    /// Assigns a value of type `ty`, which begins at `at`, to a target.
    pub(crate) fn assign_target<N: AskTypes>(
        &self,
        recorder: &mut N,
        at: Position,
        target: &Target,
        ty: &Ty,
        flow_state: &mut FlowState,
    ) -> Result<(), AllocError>
        ensures { Performs (λ u. flow_state_in flow_state.new)
            (assignments.assign_target (body_reads (body_in self.now.body.now)) at (target_of target.now)
            (ty_of ty.now) (flow_state_in flow_state.old)) (N.trace recorder.old) result (N.trace recorder.new) }
    {
        let assigner = Assigner {
            alloc: self.alloc,
            reader: self.body,
            at,
            of: PhantomData,
        };
        assigner.assign_target(recorder, target, ty, flow_state)
    }
}
