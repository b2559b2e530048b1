//! The expressions of statements.

ghost use Rattle.std.specs.Prelude.{option_map};
ghost use Rattle.pyc_ast.specs.ExprView.{expr_of};
ghost use Rattle.pyc_body_context.specs.Views.{body_in};
ghost use Rattle.pyc_locals.specs.Views.{flow_state_in};
ghost use Rattle.pyc_narrowing.specs.SplitView.{states_of};
ghost use Rattle.pyc_reading.specs.Traces.{Performs};
ghost use Rattle.pyc_simple_statements.specs.Expressions as spec;
ghost use Rattle.pyc_type_forms.specs.TypeView.{ty_of};

use crate::reader::StatementReader;
use pyc_ast::Expr;
use pyc_expr::{condition, infer_type, read};
use pyc_locals::FlowState;
use pyc_narrowing::SplitStates;
use pyc_obligations::AskTypes;
use pyc_type_forms::Ty;
use std::alloc::AllocError;

impl StatementReader<'_> {
    /// Reads an expression statement.
    #[tactic(auto, using(pyc_obligations::proofs::Steps::performing), unfolding(crate::specs::Expressions::expression_read))]
    pub(crate) fn read_expression<N: AskTypes>(
        &self,
        recorder: &mut N,
        e: &Expr,
        flow_state: &FlowState,
    ) -> Result<(), AllocError>
        ensures { Performs (λ u. flow_state_in flow_state.now)
            (spec.expression_read (body_in self.now.body.now) (expr_of e.now) (flow_state_in flow_state.now))
            (N.trace recorder.old)
            result (N.trace recorder.new) }
    {
        self.read_part(recorder, e, flow_state)?;
        Ok(())
    }

    /// Reads an expression of which nothing is expected, whatever it is.
    pub(crate) fn read_part<N: AskTypes>(
        &self,
        recorder: &mut N,
        e: &Expr,
        flow_state: &FlowState,
    ) -> Result<(), AllocError>
        ensures { Performs (λ u. u)
            (spec.part_read (body_in self.now.body.now) (flow_state_in flow_state.now) (expr_of e.now))
            (N.trace recorder.old) result
            (N.trace recorder.new) }
    {
        read(
            self.alloc,
            recorder,
            &self.context(flow_state),
            &flow_state.state,
            e,
        )
    }

    /// Reads some expression.
    pub(crate) fn read_optional<N: AskTypes>(
        &self,
        recorder: &mut N,
        e: Option<&Expr>,
        flow_state: &FlowState,
    ) -> Result<(), AllocError>
        ensures { Performs (λ u. u)
            (spec.optional_read (body_in self.now.body.now) (flow_state_in flow_state.now)
            (option_map (λ e. expr_of e.now) e.entry)) (N.trace recorder.old) result (N.trace recorder.new) }
    {
        match e {
            Some(e) => self.read_part(recorder, e, flow_state),
            None => Ok(()),
        }
    }

    /// The type of an expression, with some expected type.
    pub(crate) fn infer_part<N: AskTypes>(
        &self,
        recorder: &mut N,
        e: &Expr,
        want: Option<&Ty>,
        flow_state: &FlowState,
    ) -> Result<Ty, AllocError>
        ensures { Performs ty_of
            (spec.part_type (body_in self.now.body.now) (flow_state_in flow_state.now) (expr_of e.now)
            (option_map (λ ty. ty_of ty.now) want.entry)) (N.trace recorder.old) result (N.trace recorder.new) }
    {
        infer_type(
            self.alloc,
            recorder,
            &self.context(flow_state),
            &flow_state.state,
            e,
            want,
        )
    }

    /// Reads a condition: the states after it.
    pub(crate) fn read_test<N: AskTypes>(
        &self,
        recorder: &mut N,
        test: &Expr,
        flow_state: &FlowState,
    ) -> Result<SplitStates, AllocError>
        ensures { Performs states_of
            (spec.check_test (body_in self.now.body.now) (expr_of test.now) (flow_state_in flow_state.now))
            (N.trace recorder.old) result
            (N.trace recorder.new) }
    {
        condition(
            self.alloc,
            recorder,
            &self.context(flow_state),
            &flow_state.state,
            test,
        )
    }
}
