//! What literals say as conditions.

ghost use Rattle.std.specs.Prelude.{◌≡◌, IfOk};
ghost use Rattle.pyc_ast.specs.ExprView.{expr_of};
ghost use Rattle.pyc_narrowing.specs.SplitStates as spec;
ghost use Rattle.pyc_narrowing.specs.Splitting.{is_none_constant, is_none_literal};
ghost use Rattle.pyc_narrowing.specs.SplitView.{states_of};
ghost use Rattle.pyc_places.specs.StateView.{state_of};

use crate::split_states::{SplitStates, always, never, unchanged};
use pyc_ast::{Constant, Expr, Form};
use pyc_places::State;
use std::alloc::AllocError;

/// What a literal says. The only error is that memory runs out.
pub(crate) fn literal_states(state: &State, found: Constant) -> Result<SplitStates, AllocError>
    ensures { IfOk result (λ states. states_of states ≡ spec.literal_states (state_of state.now) found) }
{
    match found {
        Constant::True => always(state),
        Constant::False | Constant::None => never(state),
        Constant::Integer(digit) => digit_states(state, digit),
        _ => unchanged(state),
    }
}

/// What a digit says.
fn digit_states(state: &State, digit: Option<u8>) -> Result<SplitStates, AllocError>
    ensures { IfOk result (λ states. states_of states ≡ spec.digit_states (state_of state.now) digit) }
{
    match digit {
        Some(1) => always(state),
        Some(0) => never(state),
        _ => unchanged(state),
    }
}

/// Whether an expression is the literal None. It takes no memory.
pub(crate) fn is_none_literal(e: &Expr) -> bool
    ensures { result ≡ is_none_literal (expr_of e.now) }
{
    match &e.form {
        Form::Constant(found) => is_none(*found),
        _ => false,
    }
}

/// Whether a literal is None.
fn is_none(found: Constant) -> bool
    ensures { result ≡ is_none_constant found }
{
    matches!(found, Constant::None)
}
