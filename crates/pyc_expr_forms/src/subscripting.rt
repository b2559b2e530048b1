//! Subscripts.

ghost use Rattle.std.specs.Prelude.{◌≡◌, IfOk, [], map};
ghost use Rattle.std.specs.declared.vec.Vec.{Vec};
ghost use Rattle.pyc_ast.specs.Exprs.{indices_of};
ghost use Rattle.pyc_ast.specs.ExprView.{expr_of, index_of, index_form_of, optional_of};
ghost use Rattle.pyc_expr_forms.specs.Subscripting as spec;
ghost use Rattle.pyc_places.specs.StateView.{state_of};
ghost use Rattle.pyc_reading.specs.Traces.{Performs};
ghost use Rattle.pyc_type_forms.specs.TypeView.{ty_of};

use crate::parts::{InferValue, infer_freely, type_in};
use pyc_ast::{Expr, Index, IndexForm, OptionalExpr, Position};
use pyc_displays::tuple_type;
use pyc_obligations::AskTypes;
use pyc_places::State;
use pyc_subscripts::subscript;
use pyc_type_forms::Ty;
use std::alloc::{AllocError, Global};

/// The type of a subscript. The only error is that memory runs out.
#[tactic(auto, using(pyc_obligations::proofs::Steps::performing), unfolding(crate::specs::Subscripting::subscript_type))]
pub fn subscript_type<N: AskTypes, P: InferValue<N>>(
    alloc: Global,
    recorder: &mut N,
    parts: &P,
    state: &State,
    at: Position,
    owner: &Expr,
    index: &Index,
) -> Result<Ty, AllocError>
    requires { P.ready parts.now }
    ensures { Performs ty_of
        (spec.subscript_type (P.parts parts.now) (state_of state.now) at (expr_of owner.now) (index_of index.now))
        (N.trace recorder.old) result (N.trace recorder.new) }
{
    let owner = type_in(alloc, recorder, parts, state, owner, None)?;
    subscript_of(alloc, recorder, parts, state, at, index, &owner)
}

/// A subscript of a value of a type that was read.
#[tactic(auto, using(pyc_obligations::proofs::Steps::performing), unfolding(crate::specs::Subscripting::subscript_of))]
fn subscript_of<N: AskTypes, P: InferValue<N>>(
    alloc: Global,
    recorder: &mut N,
    parts: &P,
    state: &State,
    at: Position,
    index: &Index,
    owner: &Ty,
) -> Result<Ty, AllocError>
    requires { P.ready parts.now }
    ensures { Performs ty_of
        (spec.subscript_of (P.parts parts.now) (state_of state.now) at (index_of index.now) (ty_of owner.now))
        (N.trace recorder.old) result (N.trace recorder.new) }
{
    let got = index_type(alloc, recorder, parts, state, index)?;
    subscript(alloc, recorder, at, index, &got, owner)
}

/// The type of what stands between the brackets of a subscript. The only error is that memory runs out.
#[cycle(index)]
pub fn index_type<N: AskTypes, P: InferValue<N>>(
    alloc: Global,
    recorder: &mut N,
    parts: &P,
    state: &State,
    index: &Index,
) -> Result<Ty, AllocError>
    requires { P.ready parts.now }
    ensures { Performs ty_of (spec.index_type (P.parts parts.now) (state_of state.now) (index_of index.now))
        (N.trace recorder.old) result (N.trace recorder.new) }
{
    match &index.form {
        IndexForm::Item(part) => type_in(alloc, recorder, parts, state, part, None),
        IndexForm::Slice { lower, upper, step } => {
            slice_type(alloc, recorder, parts, state, lower, upper, step)
        }
        IndexForm::Indices(indices) => indices_type(alloc, recorder, parts, state, indices),
    }
}

/// Indices with commas are a tuple.
#[cycle(index)]
#[tactic(auto, using(pyc_obligations::proofs::Steps::performing))]
fn indices_type<N: AskTypes, P: InferValue<N>>(
    alloc: Global,
    recorder: &mut N,
    parts: &P,
    state: &State,
    indices: &[Index],
) -> Result<Ty, AllocError>
    requires { P.ready parts.now }
    ensures { Performs ty_of
        (spec.tuple_of_indices (P.parts parts.now) (state_of state.now) (indices_of (map index_of indices.now)))
        (N.trace recorder.old) result (N.trace recorder.new) }
{
    let types = index_types(alloc, recorder, parts, state, indices)?;
    tuple_type(alloc, false, types)
}

/// The types of indices, in turn.
#[cycle(index)]
#[tactic(auto, using(pyc_obligations::proofs::Steps::performing))]
fn index_types<N: AskTypes, P: InferValue<N>>(
    alloc: Global,
    recorder: &mut N,
    parts: &P,
    state: &State,
    indices: &[Index],
) -> Result<Vec<Ty>, AllocError>
    requires { P.ready parts.now }
    ensures { Performs (λ (types : Vec Ty Global). map ty_of types.items)
        (spec.index_types (P.parts parts.now) (state_of state.now) [] (indices_of (map index_of indices.now)))
        (N.trace recorder.old) result (N.trace recorder.new) }
{
    let mut types = Vec::with_capacity(alloc, indices.len())?;
    for index in indices {
        let ty = index_type(alloc, recorder, parts, state, index)?;
        types.push(ty)?;
    }
    Ok(types)
}

/// Reads the bounds and the step of a slice, of which nothing is expected.
#[tactic(auto, using(pyc_obligations::proofs::Steps::performing), unfolding(crate::specs::Subscripting::slice_type))]
fn slice_type<N: AskTypes, P: InferValue<N>>(
    alloc: Global,
    recorder: &mut N,
    parts: &P,
    state: &State,
    lower: &OptionalExpr,
    upper: &OptionalExpr,
    step: &OptionalExpr,
) -> Result<Ty, AllocError>
    requires { P.ready parts.now }
    ensures { Performs ty_of
        (spec.slice_type (P.parts parts.now) (state_of state.now) (optional_of lower.now) (optional_of upper.now)
        (optional_of step.now)) (N.trace recorder.old) result (N.trace recorder.new) }
{
    infer_optional(alloc, recorder, parts, state, lower)?;
    infer_optional(alloc, recorder, parts, state, upper)?;
    infer_optional(alloc, recorder, parts, state, step)?;
    Ok(Ty::Any)
}

/// Reads a part that may be absent. The only error is that memory runs out.
pub fn infer_optional<N: AskTypes, P: InferValue<N>>(
    alloc: Global,
    recorder: &mut N,
    parts: &P,
    state: &State,
    part: &OptionalExpr,
) -> Result<(), AllocError>
    requires { P.ready parts.now }
    ensures { Performs (λ u. u)
        (spec.infer_optional (P.parts parts.now) (state_of state.now) (optional_of part.now)) (N.trace recorder.old)
        result
        (N.trace recorder.new) }
{
    match part {
        OptionalExpr::Absent => Ok(()),
        OptionalExpr::Present(part) => infer_freely(alloc, recorder, parts, state, part),
    }
}
