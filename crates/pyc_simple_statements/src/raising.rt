//! Exceptions that are raised, and assertions.

ghost use Rattle.std.specs.Prelude.{option_map};
ghost use Rattle.pyc_ast.specs.ExprView.{expr_of};
ghost use Rattle.pyc_body_context.specs.Views.{body_in};
ghost use Rattle.pyc_locals.specs.Views.{flow_state_in};
ghost use Rattle.pyc_reading.specs.Traces.{Performs};
ghost use Rattle.pyc_simple_statements.specs.Raising as spec;

use crate::reader::StatementReader;
use pyc_ast::Expr;
use pyc_locals::FlowState;
use pyc_obligations::AskTypes;
use pyc_places::State;
use std::alloc::AllocError;

impl StatementReader<'_> {
    /// Reads a `raise`: the exception, and then its cause. No run goes on.
    #[tactic(auto, using(pyc_obligations::proofs::Steps::performing), unfolding(crate::specs::Raising::raised))]
    pub(crate) fn read_raise<N: AskTypes>(
        &self,
        recorder: &mut N,
        exception: Option<&Expr>,
        cause: Option<&Expr>,
        flow_state: &mut FlowState,
    ) -> Result<(), AllocError>
        ensures { Performs (λ u. flow_state_in flow_state.new)
            (spec.raised (body_in self.now.body.now) (option_map (λ e. expr_of e.now) exception.entry)
            (option_map (λ e. expr_of e.now) cause.entry) (flow_state_in flow_state.old)) (N.trace recorder.old) result
            (N.trace recorder.new) }
    {
        self.read_optional(recorder, exception, flow_state)?;
        self.read_optional(recorder, cause, flow_state)?;
        flow_state.set_state(State::Unreachable);
        Ok(())
    }

    /// Reads an `assert`: its message is read where the test failed, and a run goes on where the test held.
    #[tactic(auto, using(pyc_obligations::proofs::Steps::performing), unfolding(crate::specs::Raising::asserted))]
    pub(crate) fn read_assert<N: AskTypes>(
        &self,
        recorder: &mut N,
        test: &Expr,
        message: Option<&Expr>,
        flow_state: &mut FlowState,
    ) -> Result<(), AllocError>
        ensures { Performs (λ u. flow_state_in flow_state.new)
            (spec.asserted (body_in self.now.body.now) (expr_of test.now)
            (option_map (λ e. expr_of e.now) message.entry) (flow_state_in flow_state.old)) (N.trace recorder.old)
            result
            (N.trace recorder.new) }
    {
        let states = self.read_test(recorder, test, flow_state)?;
        flow_state.set_state(states.if_false);
        self.read_optional(recorder, message, flow_state)?;
        flow_state.set_state(states.if_true);
        Ok(())
    }
}
