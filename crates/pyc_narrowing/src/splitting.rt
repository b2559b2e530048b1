//! What a condition says of the places that stand in it.

ghost use Rattle.std.specs.Prelude.{◌≡◌};
ghost use Rattle.pyc_ast.specs.ExprView.{expr_of, form_of};
ghost use Rattle.pyc_narrowing.specs.Splitting as spec;
ghost use Rattle.pyc_narrowing.specs.SplitView.{states_of};
ghost use Rattle.pyc_places.specs.StateView.{state_of};
ghost use Rattle.pyc_reading.specs.Traces.{Performs};

use crate::calls::call_states;
use crate::comparisons::comparison_states;
use crate::literals::literal_states;
use crate::looking::InferOperand;
use crate::split_states::{SplitStates, and_states, or_states, swapped, unchanged};
use crate::truth::truth_of;
use pyc_ast::{BooleanOperator, Expr, Form, UnaryOperator};
use pyc_obligations::AskTypes;
use pyc_places::State;
use std::alloc::{AllocError, Global};

/// The states after a condition that is true, and after one that is not, from the state before it. Nothing is reported.
/// The only error is that memory runs out.
#[cycle(split)]
pub fn split<N: AskTypes, L: InferOperand<N>>(
    alloc: Global,
    recorder: &mut N,
    looks: &L,
    state: &State,
    condition: &Expr,
) -> Result<SplitStates, AllocError>
    requires { L.ready looks.now }
    ensures { Performs states_of (spec.split (L.looks looks.now) (state_of state.now) (expr_of condition.now))
        (N.trace recorder.old) result (N.trace recorder.new) }
{
    match state {
        State::Reachable(_) => split_form(alloc, recorder, looks, state, condition),
        State::Unreachable => unchanged(state),
    }
}

/// The states where `condition` holds and where it does not, from a reachable `state`, by the form of `condition`.
#[cycle(split)]
fn split_form<N: AskTypes, L: InferOperand<N>>(
    alloc: Global,
    recorder: &mut N,
    looks: &L,
    state: &State,
    condition: &Expr,
) -> Result<SplitStates, AllocError>
    requires { L.ready looks.now }
    ensures { Performs states_of
        (spec.form_rule (L.looks looks.now) (state_of state.now) (expr_of condition.now) (form_of condition.now.form))
        (N.trace recorder.old) result (N.trace recorder.new) }
{
    match &condition.form {
        Form::Constant(found) => Ok(literal_states(state, *found)?),
        Form::Unary { operator, operand } => {
            split_unary(alloc, recorder, looks, state, *operator, operand)
        }
        Form::Boolean {
            operator,
            left,
            right,
        } => {
            let first = split(alloc, recorder, looks, state, left)?;
            let states = split_right(alloc, recorder, looks, &first, *operator, right)?;
            Ok(states)
        }
        Form::Call { callee, arguments } => {
            call_states(alloc, recorder, looks, state, callee, arguments)
        }
        Form::Compare { left, rest } => comparison_states(
            alloc, recorder, looks, state, left, rest,
        ),
        _ => truth_of(alloc, recorder, looks, state, condition),
    }
}

/// `not`; other operators before an operand say nothing.
#[cycle(split)]
fn split_unary<N: AskTypes, L: InferOperand<N>>(
    alloc: Global,
    recorder: &mut N,
    looks: &L,
    state: &State,
    operator: UnaryOperator,
    operand: &Expr,
) -> Result<SplitStates, AllocError>
    requires { L.ready looks.now }
    ensures { Performs states_of
        (spec.unary_rule operator (λ s. spec.split (L.looks looks.now) s (expr_of operand.now)) (state_of state.now))
        (N.trace recorder.old) result (N.trace recorder.new) }
{
    match operator {
        UnaryOperator::Not => split_not(alloc, recorder, looks, state, operand),
        _ => unchanged(state),
    }
}

/// `not`
#[cycle(split)]
#[tactic(auto, using(pyc_obligations::proofs::Steps::performing), unfolding(crate::specs::Splitting::not_rule))]
fn split_not<N: AskTypes, L: InferOperand<N>>(
    alloc: Global,
    recorder: &mut N,
    looks: &L,
    state: &State,
    operand: &Expr,
) -> Result<SplitStates, AllocError>
    requires { L.ready looks.now }
    ensures { Performs states_of
        (spec.not_rule (λ s. spec.split (L.looks looks.now) s (expr_of operand.now)) (state_of state.now))
        (N.trace recorder.old) result (N.trace recorder.new) }
{
    let states = split(alloc, recorder, looks, state, operand)?;
    Ok(swapped(states))
}

/// The right side of `and` or `or`, by what the left side says.
#[cycle(split)]
fn split_right<N: AskTypes, L: InferOperand<N>>(
    alloc: Global,
    recorder: &mut N,
    looks: &L,
    first: &SplitStates,
    operator: BooleanOperator,
    right: &Expr,
) -> Result<SplitStates, AllocError>
    requires { L.ready looks.now }
    ensures { Performs states_of
        (spec.right_rule operator (λ s. spec.split (L.looks looks.now) s (expr_of right.now)) (states_of first.now))
        (N.trace recorder.old) result (N.trace recorder.new) }
{
    match operator {
        BooleanOperator::And => split_and_right(alloc, recorder, looks, first, right),
        BooleanOperator::Or => split_or_right(alloc, recorder, looks, first, right),
    }
}

/// `and`: the right side is read where the left holds.
#[cycle(split)]
#[tactic(auto, using(pyc_obligations::proofs::Steps::performing), unfolding(crate::specs::Splitting::and_right))]
fn split_and_right<N: AskTypes, L: InferOperand<N>>(
    alloc: Global,
    recorder: &mut N,
    looks: &L,
    first: &SplitStates,
    right: &Expr,
) -> Result<SplitStates, AllocError>
    requires { L.ready looks.now }
    ensures { Performs states_of
        (spec.and_right (λ s. spec.split (L.looks looks.now) s (expr_of right.now)) (states_of first.now))
        (N.trace recorder.old) result (N.trace recorder.new) }
{
    let second = split(alloc, recorder, looks, &first.if_true, right)?;
    and_states(alloc, first, second)
}

/// `or`: the right side is read where the left does not hold.
#[cycle(split)]
#[tactic(auto, using(pyc_obligations::proofs::Steps::performing), unfolding(crate::specs::Splitting::or_right))]
fn split_or_right<N: AskTypes, L: InferOperand<N>>(
    alloc: Global,
    recorder: &mut N,
    looks: &L,
    first: &SplitStates,
    right: &Expr,
) -> Result<SplitStates, AllocError>
    requires { L.ready looks.now }
    ensures { Performs states_of
        (spec.or_right (λ s. spec.split (L.looks looks.now) s (expr_of right.now)) (states_of first.now))
        (N.trace recorder.old) result (N.trace recorder.new) }
{
    let second = split(alloc, recorder, looks, &first.if_false, right)?;
    or_states(alloc, first, second)
}
