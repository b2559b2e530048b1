//! What expressions are, what conditions say of places, and the types of indices.

ghost use Rattle.std.specs.Prelude.{option_map};
ghost use Rattle.pyc_ast.specs.ExprView.{expr_of, index_of};
ghost use Rattle.pyc_expr.specs.Nesting.{Nests};
ghost use Rattle.pyc_expr.specs.Values as spec;
ghost use Rattle.pyc_narrowing.specs.SplitView.{states_of};
ghost use Rattle.pyc_obligations.specs.ValueView.{value_of};
ghost use Rattle.pyc_places.specs.StateView.{state_of};
ghost use Rattle.pyc_reading.specs.Traces.{Performs};
ghost use Rattle.pyc_type_forms.specs.TypeView.{ty_of};

use crate::types::infer_by_parts;
use pyc_ast::{Expr, Index};
use pyc_expr_forms::{Context, InferValue, Looking, index_type, infer_freely};
use pyc_narrowing::{SplitStates, split as split_by};
use pyc_obligations::{AskTypes, Value};
use pyc_places::State;
use pyc_type_forms::Ty;
use std::alloc::{AllocError, Global};

/// How deep the parts of expressions lie at most.
const MOST_DEPTH: usize = 1000;

/// Infers the parts of an expression by `function`, which infers expressions to a depth.
#[derive(Clone, Copy)]
struct ToDepth<'a, C, F> {
    context: &'a C,
    depth: usize,
    function: F,
}

impl<
    N: AskTypes,
    C: Context<N>,
    F: Fn(Global, &mut N, &C, &State, &Expr, Option<&Ty>, usize) -> Result<Value, AllocError>,
> InferValue<N> for ToDepth<'_, C, F> {
    ghost ready = { λ reader. Nests N.trace C.context reader.depth (F.pre reader.function) (F.post reader.function) };

    ghost parts = { λ reader. spec.value_at_depth reader.depth (C.context reader.context.now) };

    fn part(
        &self,
        alloc: Global,
        recorder: &mut N,
        state: &State,
        part: &Expr,
        want: Option<&Ty>,
    ) -> Result<Value, AllocError> {
        (self.function)(alloc, recorder, self.context, state, part, want, self.depth)
    }
}

/// What an expression is in a state and by what is expected of it, if its parts lie at most so deep: deeper ones are
/// Any. The only error is that memory runs out.
pub fn value_at_depth<N: AskTypes, C: Context<N>>(
    alloc: Global,
    recorder: &mut N,
    context: &C,
    state: &State,
    e: &Expr,
    want: Option<&Ty>,
    depth: usize,
) -> Result<Value, AllocError>
    ensures { Performs value_of
        (spec.value_at_depth depth (C.context context.now) (state_of state.now) (expr_of e.now)
        (option_map (λ ty. ty_of ty.now) want.entry)) (N.trace recorder.old) result (N.trace recorder.new) }
{
    if depth == 0 {
        return Ok(Value::plain(Ty::Any));
    }
    let parts = ToDepth {
        context,
        depth: depth - 1,
        function: value_at_depth,
    };
    infer_by_parts(alloc, recorder, context, &parts, state, e, want)
}

/// Infers whole expressions that stand in `context`.
#[derive(Clone, Copy, Drop)]
pub struct Inferred<'a, C> {
    pub context: &'a C,
}

impl<N: AskTypes, C: Context<N>> InferValue<N> for Inferred<'_, C> {
    ghost ready = { λ inferred. Unit };

    ghost parts = { λ inferred. spec.infer (C.context inferred.context.now) };

    fn part(
        &self,
        alloc: Global,
        recorder: &mut N,
        state: &State,
        part: &Expr,
        want: Option<&Ty>,
    ) -> Result<Value, AllocError> {
        infer(alloc, recorder, self.context, state, part, want)
    }
}

/// What an expression is in a state and by what is expected of it. What its obligations do not hold is reported. The
/// only error is that memory runs out.
#[tactic(auto, unfolding(crate::specs::Values::infer, crate::specs::Values::most_depth))]
pub fn infer<N: AskTypes, C: Context<N>>(
    alloc: Global,
    recorder: &mut N,
    context: &C,
    state: &State,
    e: &Expr,
    want: Option<&Ty>,
) -> Result<Value, AllocError>
    ensures { Performs value_of
        (spec.infer (C.context context.now) (state_of state.now) (expr_of e.now)
        (option_map (λ ty. ty_of ty.now) want.entry)) (N.trace recorder.old) result (N.trace recorder.new) }
{
    value_at_depth(alloc, recorder, context, state, e, want, MOST_DEPTH)
}

/// The type of an expression in a state and by what is expected of it. The only error is that memory runs out.
#[tactic(auto, using(pyc_obligations::proofs::Steps::performing), unfolding(pyc_expr_forms::specs::Contexts::type_in))]
pub fn infer_type<N: AskTypes, C: Context<N>>(
    alloc: Global,
    recorder: &mut N,
    context: &C,
    state: &State,
    e: &Expr,
    want: Option<&Ty>,
) -> Result<Ty, AllocError>
    ensures { Performs ty_of
        (spec.infer_type (C.context context.now) (state_of state.now) (expr_of e.now)
        (option_map (λ ty. ty_of ty.now) want.entry)) (N.trace recorder.old) result (N.trace recorder.new) }
{
    let value = infer(alloc, recorder, context, state, e, want)?;
    Ok(value.ty)
}

/// Reads an expression of which nothing is expected, whatever it is. What its obligations do not hold is reported. The
/// only error is that memory runs out.
pub fn read<N: AskTypes, C: Context<N>>(
    alloc: Global,
    recorder: &mut N,
    context: &C,
    state: &State,
    e: &Expr,
) -> Result<(), AllocError>
    ensures { Performs (λ u. u)
        (spec.read_by (C.context context.now) (state_of state.now) (expr_of e.now)) (N.trace recorder.old) result
        (N.trace recorder.new) }
{
    infer_freely(alloc, recorder, &Inferred { context }, state, e)
}

/// Reads a condition: the states after one that is true, and after one that is not, from the state before it. What its
/// obligations do not hold is reported. The only error is that memory runs out.
#[tactic(auto, using(pyc_obligations::proofs::Steps::performing), unfolding(crate::specs::Values::condition))]
pub fn condition<N: AskTypes, C: Context<N>>(
    alloc: Global,
    recorder: &mut N,
    context: &C,
    state: &State,
    e: &Expr,
) -> Result<SplitStates, AllocError>
    ensures { Performs states_of
        (spec.condition (C.context context.now) (state_of state.now) (expr_of e.now)) (N.trace recorder.old) result
        (N.trace recorder.new) }
{
    read(alloc, recorder, context, state, e)?;
    split(alloc, recorder, context, state, e)
}

/// The states after a condition that is true, and after one that is not, from the state before it. Nothing is reported.
/// The only error is that memory runs out.
pub fn split<N: AskTypes, C: Context<N>>(
    alloc: Global,
    recorder: &mut N,
    context: &C,
    state: &State,
    condition: &Expr,
) -> Result<SplitStates, AllocError>
    ensures { Performs states_of
        (spec.split_by (C.context context.now) (state_of state.now) (expr_of condition.now)) (N.trace recorder.old)
        result
        (N.trace recorder.new) }
{
    let parts = Inferred { context };
    split_by(
        alloc,
        recorder,
        &Looking { parts: &parts },
        state,
        condition,
    )
}

/// The type of what stands between the brackets of a subscript. The only error is that memory runs out.
pub fn infer_index<N: AskTypes, C: Context<N>>(
    alloc: Global,
    recorder: &mut N,
    context: &C,
    state: &State,
    index: &Index,
) -> Result<Ty, AllocError>
    ensures { Performs ty_of
        (spec.infer_index (C.context context.now) (state_of state.now) (index_of index.now)) (N.trace recorder.old)
        result
        (N.trace recorder.new) }
{
    index_type(alloc, recorder, &Inferred { context }, state, index)
}
