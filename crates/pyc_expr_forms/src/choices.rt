//! Expressions of which a part is read only where a condition holds, or does not.

ghost use Rattle.std.specs.Prelude.{◌≡◌, IfOk, option_map};
ghost use Rattle.pyc_ast.specs.ExprView.{expr_of};
ghost use Rattle.pyc_expr_forms.specs.ChainView.{chain_of};
ghost use Rattle.pyc_expr_forms.specs.Choices as spec;
ghost use Rattle.pyc_narrowing.specs.SplitView.{states_of};
ghost use Rattle.pyc_places.specs.StateView.{state_of};
ghost use Rattle.pyc_reading.specs.Traces.{Performs};
ghost use Rattle.pyc_type_forms.specs.TypeView.{ty_of};

use crate::parts::{InferValue, Looking, infer_freely, type_in};
use pyc_ast::{BooleanOperator, Expr, Form};
use pyc_displays::{and_type, conditional_type, or_type};
use pyc_narrowing::{SplitStates, split};
use pyc_obligations::AskTypes;
use pyc_places::State;
use pyc_type_forms::Ty;
use std::alloc::{AllocError, Global};

/// The type of a part in a state: none where no run comes, and there it is not read.
fn type_where<N: AskTypes, P: InferValue<N>>(
    alloc: Global,
    recorder: &mut N,
    parts: &P,
    state: &State,
    part: &Expr,
    want: Option<&Ty>,
) -> Result<Option<Ty>, AllocError>
    requires { P.ready parts.now }
    ensures { Performs (option_map ty_of)
        (spec.type_where (P.parts parts.now) (state_of state.now) (expr_of part.now)
        (option_map (λ ty. ty_of ty.now) want.entry)) (N.trace recorder.old) result (N.trace recorder.new) }
{
    match state {
        State::Unreachable => Ok(None),
        State::Reachable(_) => reached_type(alloc, recorder, parts, state, part, want),
    }
}

/// The type of a part in a state to which a run may come.
#[tactic(auto, using(pyc_obligations::proofs::Steps::performing), unfolding(crate::specs::Choices::reached_type))]
fn reached_type<N: AskTypes, P: InferValue<N>>(
    alloc: Global,
    recorder: &mut N,
    parts: &P,
    state: &State,
    part: &Expr,
    want: Option<&Ty>,
) -> Result<Option<Ty>, AllocError>
    requires { P.ready parts.now }
    ensures { Performs (option_map ty_of)
        (spec.reached_type (P.parts parts.now) (state_of state.now) (expr_of part.now)
        (option_map (λ ty. ty_of ty.now) want.entry)) (N.trace recorder.old) result (N.trace recorder.new) }
{
    let ty = type_in(alloc, recorder, parts, state, part, want)?;
    Ok(Some(ty))
}

/// A chain of `and`, or of `or`, so far: its type, and the state in which what stands to the right of it is read.
#[derive(Drop)]
pub(crate) struct Chain {
    pub(crate) ty: Ty,
    pub(crate) state: State,
}

/// The type of `and` or `or`. Each side of a chain of one of them is read once. The only error is that memory runs out.
#[tactic(auto, using(pyc_obligations::proofs::Steps::performing), unfolding(crate::specs::Choices::boolean_type))]
pub fn boolean_type<N: AskTypes, P: InferValue<N>>(
    alloc: Global,
    recorder: &mut N,
    parts: &P,
    state: &State,
    want: Option<&Ty>,
    operator: BooleanOperator,
    left: &Expr,
    right: &Expr,
) -> Result<Ty, AllocError>
    requires { P.ready parts.now }
    ensures { Performs ty_of
        (spec.boolean_type (P.parts parts.now) (state_of state.now) (option_map (λ ty. ty_of ty.now) want.entry)
        operator (expr_of left.now) (expr_of right.now)) (N.trace recorder.old) result (N.trace recorder.new) }
{
    let left = infer_chain(alloc, recorder, parts, state, want, operator, left)?;
    last_side(alloc, recorder, parts, want, operator, right, left)
}

/// What stands to the left of an operator: the sides of a chain of that operator are read from left to right.
fn infer_chain<N: AskTypes, P: InferValue<N>>(
    alloc: Global,
    recorder: &mut N,
    parts: &P,
    state: &State,
    want: Option<&Ty>,
    operator: BooleanOperator,
    e: &Expr,
) -> Result<Chain, AllocError>
    requires { P.ready parts.now }
    ensures { Performs chain_of
        (spec.infer_chain (P.parts parts.now) (state_of state.now) (option_map (λ ty. ty_of ty.now) want.entry) operator
        (expr_of e.now)) (N.trace recorder.old) result (N.trace recorder.new) }
{
    match &e.form {
        Form::Boolean {
            operator: inner,
            left,
            right,
        } => {
            if same_operator(operator, *inner) {
                let first = infer_chain(alloc, recorder, parts, state, want, operator, left)?;
                let both = next_side(alloc, recorder, parts, want, operator, right, first)?;
                Ok(both)
            } else {
                first_side(alloc, recorder, parts, state, want, operator, e)
            }
        }
        _ => first_side(alloc, recorder, parts, state, want, operator, e),
    }
}

/// Whether two operators of Booleans are the same one.
fn same_operator(operator: BooleanOperator, other: BooleanOperator) -> bool
    ensures { result ≡ spec.same_operator operator other }
{
    match operator {
        BooleanOperator::And => matches!(other, BooleanOperator::And),
        BooleanOperator::Or => matches!(other, BooleanOperator::Or),
    }
}

/// The first side of a chain.
#[tactic(auto, using(pyc_obligations::proofs::Steps::performing), unfolding(crate::specs::Choices::first_side))]
fn first_side<N: AskTypes, P: InferValue<N>>(
    alloc: Global,
    recorder: &mut N,
    parts: &P,
    state: &State,
    want: Option<&Ty>,
    operator: BooleanOperator,
    side: &Expr,
) -> Result<Chain, AllocError>
    requires { P.ready parts.now }
    ensures { Performs chain_of
        (spec.first_side (P.parts parts.now) (state_of state.now) (option_map (λ ty. ty_of ty.now) want.entry)
        operator (expr_of side.now)) (N.trace recorder.old) result (N.trace recorder.new) }
{
    let ty = type_in(alloc, recorder, parts, state, side, want)?;
    infer_side(alloc, recorder, parts, state, operator, side, ty)
}

/// A side of a chain, after which the chain goes on.
#[tactic(auto, using(pyc_obligations::proofs::Steps::performing), unfolding(crate::specs::Choices::next_side))]
fn next_side<N: AskTypes, P: InferValue<N>>(
    alloc: Global,
    recorder: &mut N,
    parts: &P,
    want: Option<&Ty>,
    operator: BooleanOperator,
    side: &Expr,
    left: Chain,
) -> Result<Chain, AllocError>
    requires { P.ready parts.now }
    ensures { Performs chain_of
        (spec.next_side (P.parts parts.now) (option_map (λ ty. ty_of ty.now) want.entry) operator (expr_of side.now)
        (chain_of left)) (N.trace recorder.old) result (N.trace recorder.new) }
{
    let Chain { ty, state } = left;
    let joined = infer_with_side(alloc, recorder, parts, &state, want, operator, side, ty)?;
    infer_side(alloc, recorder, parts, &state, operator, side, joined)
}

/// The last side of a chain.
fn last_side<N: AskTypes, P: InferValue<N>>(
    alloc: Global,
    recorder: &mut N,
    parts: &P,
    want: Option<&Ty>,
    operator: BooleanOperator,
    side: &Expr,
    left: Chain,
) -> Result<Ty, AllocError>
    requires { P.ready parts.now }
    ensures { Performs ty_of
        (spec.last_side (P.parts parts.now) (option_map (λ ty. ty_of ty.now) want.entry) operator (expr_of side.now)
        (chain_of left)) (N.trace recorder.old) result (N.trace recorder.new) }
{
    let Chain { ty, state } = left;
    infer_with_side(alloc, recorder, parts, &state, want, operator, side, ty)
}

/// A side of a chain that is of a type, by what it says in a state.
#[tactic(auto, using(pyc_obligations::proofs::Steps::performing), unfolding(crate::specs::Choices::infer_side))]
fn infer_side<N: AskTypes, P: InferValue<N>>(
    alloc: Global,
    recorder: &mut N,
    parts: &P,
    state: &State,
    operator: BooleanOperator,
    side: &Expr,
    ty: Ty,
) -> Result<Chain, AllocError>
    requires { P.ready parts.now }
    ensures { Performs chain_of
        (spec.infer_side (P.parts parts.now) (state_of state.now) operator (expr_of side.now) (ty_of ty))
        (N.trace recorder.old) result (N.trace recorder.new) }
{
    let states = split(alloc, recorder, &Looking { parts }, state, side)?;
    let state = right_side_state(operator, states);
    Ok(Chain { ty, state })
}

/// The right side of `and` is read where the left side holds, and that of `or` where it does not.
fn right_side_state(operator: BooleanOperator, states: SplitStates) -> State
    ensures { state_of result ≡ spec.right_side_state operator (states_of states) }
{
    match operator {
        BooleanOperator::And => states.if_true,
        BooleanOperator::Or => states.if_false,
    }
}

/// The type with a side more, which is read in a state.
#[tactic(auto, using(pyc_obligations::proofs::Steps::performing), unfolding(crate::specs::Choices::infer_with_side))]
fn infer_with_side<N: AskTypes, P: InferValue<N>>(
    alloc: Global,
    recorder: &mut N,
    parts: &P,
    state: &State,
    want: Option<&Ty>,
    operator: BooleanOperator,
    side: &Expr,
    left: Ty,
) -> Result<Ty, AllocError>
    requires { P.ready parts.now }
    ensures { Performs ty_of
        (spec.infer_with_side (P.parts parts.now) (state_of state.now) (option_map (λ ty. ty_of ty.now) want.entry)
        operator
        (expr_of side.now) (ty_of left)) (N.trace recorder.old) result (N.trace recorder.new) }
{
    let right = type_where(alloc, recorder, parts, state, side, want)?;
    joined_type(alloc, operator, left, right)
}

/// The type of `and` or `or`, by those of its sides.
fn joined_type(
    alloc: Global,
    operator: BooleanOperator,
    left: Ty,
    right: Option<Ty>,
) -> Result<Ty, AllocError>
    ensures { IfOk result (λ ty. ty_of ty ≡ spec.joined_type operator (ty_of left) (option_map ty_of right)) }
{
    match operator {
        BooleanOperator::And => and_type(alloc, left, right),
        BooleanOperator::Or => or_type(alloc, left, right),
    }
}

/// The type of a conditional expression. The only error is that memory runs out.
#[tactic(auto, using(pyc_obligations::proofs::Steps::performing), unfolding(crate::specs::Choices::choice_type))]
pub fn choice_type<N: AskTypes, P: InferValue<N>>(
    alloc: Global,
    recorder: &mut N,
    parts: &P,
    state: &State,
    want: Option<&Ty>,
    test: &Expr,
    body: &Expr,
    orelse: &Expr,
) -> Result<Ty, AllocError>
    requires { P.ready parts.now }
    ensures { Performs ty_of
        (spec.choice_type (P.parts parts.now) (state_of state.now) (option_map (λ ty. ty_of ty.now) want.entry)
        (expr_of test.now) (expr_of body.now) (expr_of orelse.now)) (N.trace recorder.old) result
        (N.trace recorder.new) }
{
    infer_freely(alloc, recorder, parts, state, test)?;
    let states = split(alloc, recorder, &Looking { parts }, state, test)?;
    arms_type(alloc, recorder, parts, want, body, orelse, &states)
}

/// The arms of a conditional expression, in the states of its condition.
#[tactic(auto, using(pyc_obligations::proofs::Steps::performing), unfolding(crate::specs::Choices::arms_type))]
fn arms_type<N: AskTypes, P: InferValue<N>>(
    alloc: Global,
    recorder: &mut N,
    parts: &P,
    want: Option<&Ty>,
    body: &Expr,
    orelse: &Expr,
    states: &SplitStates,
) -> Result<Ty, AllocError>
    requires { P.ready parts.now }
    ensures { Performs ty_of
        (spec.arms_type (P.parts parts.now) (option_map (λ ty. ty_of ty.now) want.entry) (expr_of body.now)
        (expr_of orelse.now) (states_of states.now)) (N.trace recorder.old) result (N.trace recorder.new) }
{
    let body = type_where(alloc, recorder, parts, &states.if_true, body, want)?;
    orelse_type(alloc, recorder, parts, &states.if_false, want, orelse, body)
}

/// The arm that is read where the condition does not hold, by the type of the other.
#[tactic(auto, using(pyc_obligations::proofs::Steps::performing), unfolding(crate::specs::Choices::orelse_type))]
fn orelse_type<N: AskTypes, P: InferValue<N>>(
    alloc: Global,
    recorder: &mut N,
    parts: &P,
    state: &State,
    want: Option<&Ty>,
    orelse: &Expr,
    body: Option<Ty>,
) -> Result<Ty, AllocError>
    requires { P.ready parts.now }
    ensures { Performs ty_of
        (spec.orelse_type (P.parts parts.now) (state_of state.now) (option_map (λ ty. ty_of ty.now) want.entry)
        (expr_of orelse.now) (option_map ty_of body)) (N.trace recorder.old) result (N.trace recorder.new) }
{
    let orelse = type_where(alloc, recorder, parts, state, orelse, want)?;
    conditional_type(alloc, body, orelse)
}
