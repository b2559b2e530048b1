//! What a `return` gives.

ghost use Rattle.std.specs.Prelude.{◌≡◌, IfOk, false, option_map, string_bytes, true};
ghost use Rattle.pyc_ast.specs.ExprView.{expr_of};
ghost use Rattle.pyc_body_context.specs.Bodies as bodies;
ghost use Rattle.pyc_body_context.specs.Views.{body_in};
ghost use Rattle.pyc_locals.specs.Views.{flow_state_in};
ghost use Rattle.pyc_reading.specs.Traces.{Performs};
ghost use Rattle.pyc_simple_statements.specs.Returning as spec;
ghost use Rattle.pyc_simple_statements.specs.Views.{required_in};
ghost use Rattle.pyc_type_forms.specs.Types.{none};
ghost use Rattle.pyc_type_forms.specs.TypeView.{ty_of};

use crate::reader::StatementReader;
use pyc_ast::{Expr, Position};
use pyc_locals::FlowState;
use pyc_messages::{no_return_value_text, return_value_text, wrong_return_text};
use pyc_obligations::{AsObligation, AskTypes, require};
use pyc_places::State;
use pyc_report::{Message, ObligationKind};
use pyc_type_forms::{Ty, show};
use std::alloc::{AllocError, Global};

/// What a `return` gives and the type of the function's result, and whether the `return` is bare.
#[derive(Clone, Copy)]
pub(crate) struct RequiredReturn<'a> {
    pub(crate) at: Position,
    pub(crate) is_bare: bool,
    pub(crate) got: &'a Ty,
    pub(crate) want: &'a Ty,
}

impl<N: AskTypes> AsObligation<N> for RequiredReturn<'_> {
    ghost obligation = { required_in };

    fn got(&self) -> &Ty {
        self.got
    }

    fn want(&self) -> &Ty {
        self.want
    }

    fn ask_details(&self, _alloc: Global, _recorder: &mut N) -> Result<(), AllocError> {
        Ok(())
    }

    fn message(&self, alloc: Global, _recorder: &N) -> Result<Message, AllocError> {
        let text = return_text(alloc, self.is_bare, self.got, self.want)?;
        Ok(Message::failing_at(self.at, ObligationKind::Return, text))
    }
}

/// The text on a `return`, by whether it is bare.
fn return_text(alloc: Global, is_bare: bool, got: &Ty, want: &Ty) -> Result<String, AllocError>
    ensures { IfOk result (λ text. string_bytes text ≡ spec.return_text is_bare (ty_of got.now) (ty_of want.now)) }
{
    if is_bare {
        return_value_text(alloc)
    } else {
        value_text(alloc, got, want)
    }
}

/// The text on a value of another type than its function gives.
fn value_text(alloc: Global, got: &Ty, want: &Ty) -> Result<String, AllocError>
    ensures { IfOk result (λ text. string_bytes text ≡ spec.value_text (ty_of got.now) (ty_of want.now)) }
{
    match want {
        Ty::None => no_return_value_text(alloc),
        _ => {
            let got = show(alloc, got)?;
            let want = show(alloc, want)?;
            wrong_return_text(alloc, got.as_str(), want.as_str())
        }
    }
}

impl StatementReader<'_> {
    /// Reads the `return` that begins at `at`: its value must be of the type of the function's result, and without a
    /// value None must be. No run goes on.
    pub(crate) fn read_return<N: AskTypes>(
        &self,
        recorder: &mut N,
        at: Position,
        value: Option<&Expr>,
        flow_state: &mut FlowState,
    ) -> Result<(), AllocError>
        ensures { Performs (λ u. flow_state_in flow_state.new)
            (spec.returned (body_in self.now.body.now) at (option_map (λ e. expr_of e.now) value.entry)
            (flow_state_in flow_state.old)) (N.trace recorder.old) result (N.trace recorder.new) }
    {
        match value {
            Some(value) => self.return_value(recorder, at, value, flow_state),
            None => self.return_none(recorder, at, flow_state),
        }
    }

    /// Reads a `return` with a value.
    #[tactic(auto, using(pyc_obligations::proofs::Steps::performing), unfolding(crate::specs::Returning::value_returned))]
    fn return_value<N: AskTypes>(
        &self,
        recorder: &mut N,
        at: Position,
        value: &Expr,
        flow_state: &mut FlowState,
    ) -> Result<(), AllocError>
        ensures { Performs (λ u. flow_state_in flow_state.new)
            (spec.value_returned (body_in self.now.body.now) at (expr_of value.now) (flow_state_in flow_state.old))
            (N.trace recorder.old) result (N.trace recorder.new) }
    {
        let got = self.infer_part(recorder, value, self.body.result(), flow_state)?;
        self.require_value(recorder, at, &got)?;
        flow_state.set_state(State::Unreachable);
        Ok(())
    }

    /// Reads a bare `return`.
    #[tactic(auto, using(pyc_obligations::proofs::Steps::performing), unfolding(crate::specs::Returning::none_returned))]
    fn return_none<N: AskTypes>(
        &self,
        recorder: &mut N,
        at: Position,
        flow_state: &mut FlowState,
    ) -> Result<(), AllocError>
        ensures { Performs (λ u. flow_state_in flow_state.new)
            (spec.none_returned (body_in self.now.body.now) at (flow_state_in flow_state.old)) (N.trace recorder.old)
            result
            (N.trace recorder.new) }
    {
        self.require_none(recorder, at)?;
        flow_state.set_state(State::Unreachable);
        Ok(())
    }

    /// Requires that a value is of the type of the function's result. Outside functions nothing is required.
    fn require_value<N: AskTypes>(
        &self,
        recorder: &mut N,
        at: Position,
        got: &Ty,
    ) -> Result<(), AllocError>
        ensures { Performs (λ u. u)
            (spec.result_required at false (ty_of got.now) (bodies.result_of (body_in self.now.body.now).kind))
            (N.trace recorder.old) result (N.trace recorder.new) }
    {
        match self.body.result() {
            Some(want) => self.require_return(recorder, at, false, got, want),
            None => Ok(()),
        }
    }

    /// Requires that None is of the type of the function's result. Outside functions nothing is required.
    fn require_none<N: AskTypes>(&self, recorder: &mut N, at: Position) -> Result<(), AllocError>
        ensures { Performs (λ u. u)
            (spec.result_required at true none (bodies.result_of (body_in self.now.body.now).kind))
            (N.trace recorder.old)
            result (N.trace recorder.new) }
    {
        match self.body.result() {
            Some(want) => self.require_return(recorder, at, true, &Ty::None, want),
            None => Ok(()),
        }
    }

    /// Requires that what a `return` gives is of a type.
    #[tactic(auto, using(pyc_obligations::proofs::Steps::performing), unfolding(crate::specs::Returning::return_required))]
    fn require_return<N: AskTypes>(
        &self,
        recorder: &mut N,
        at: Position,
        is_bare: bool,
        got: &Ty,
        want: &Ty,
    ) -> Result<(), AllocError>
        ensures { Performs (λ u. u) (spec.return_required at is_bare (ty_of got.now) (ty_of want.now))
            (N.trace recorder.old)
            result (N.trace recorder.new) }
    {
        let required = RequiredReturn {
            at,
            is_bare,
            got,
            want,
        };
        require(self.alloc, recorder, &required)
    }
}
