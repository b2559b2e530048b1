//! What infers the parts of a condition.

ghost use Rattle.pyc_ast.specs.ExprView.{expr_of};
ghost use Rattle.pyc_ast.specs.Exprs.{Expr as PlainExpr};
ghost use Rattle.pyc_narrowing.specs.Splitting as spec;
ghost use Rattle.pyc_obligations.specs.Values.{Value as PlainValue};
ghost use Rattle.pyc_obligations.specs.ValueView.{value_of};
ghost use Rattle.pyc_places.specs.States.{State as PlainState};
ghost use Rattle.pyc_places.specs.StateView.{state_of};
ghost use Rattle.pyc_reading.specs.Traces.{Performs, Step};

use pyc_ast::Expr;
use pyc_obligations::{AskTypes, Value, quieten};
use pyc_places::State;
use std::alloc::{AllocError, Global};

/// Infers an expression in a state.
pub trait InferOperand<N: AskTypes> {
    ghost ready: { Self → Type 0 };

    ghost looks: { Self → PlainState → PlainExpr → Step PlainValue };

    /// What a part is in a state. The only error is that memory runs out.
    fn look(
        &self,
        alloc: Global,
        recorder: &mut N,
        state: &State,
        part: &Expr,
    ) -> Result<Value, AllocError>
        requires { ready self.now }
        ensures { Performs value_of (looks self.now (state_of state.now) (expr_of part.now)) (N.trace recorder.old)
            result
            (N.trace recorder.new) };
}

/// What an expression is in a state, of which nothing is reported. The only error is that memory runs out.
pub(crate) fn look_quietly<N: AskTypes, L: InferOperand<N>>(
    alloc: Global,
    recorder: &mut N,
    looks: &L,
    state: &State,
    part: &Expr,
) -> Result<Value, AllocError>
    requires { L.ready looks.now }
    ensures { Performs value_of (spec.look_quietly (L.looks looks.now) (state_of state.now) (expr_of part.now))
        (N.trace recorder.old) result (N.trace recorder.new) }
{
    let count = recorder.reported_count();
    let value = looks.look(alloc, recorder, state, part)?;
    quieten(recorder, count);
    Ok(value)
}
