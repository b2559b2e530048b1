//! Operators with their operands, and chains of comparisons.

ghost use Rattle.std.specs.Prelude.{◌≡◌, map};
ghost use Rattle.pyc_ast.specs.Exprs.{comparisons};
ghost use Rattle.pyc_ast.specs.ExprView.{expr_of, comparison_of};
ghost use Rattle.pyc_expr_forms.specs.Names.{bool_type};
ghost use Rattle.pyc_expr_forms.specs.Operations as spec;
ghost use Rattle.pyc_places.specs.StateView.{state_of};
ghost use Rattle.pyc_reading.specs.Traces.{Performs};
ghost use Rattle.pyc_type_forms.specs.TypeView.{ty_of};

use crate::method_caller::MethodCaller;
use crate::parts::{InferValue, type_in};
use pyc_ast::{Comparison, Expr, Operator, Position, UnaryOperator};
use pyc_class_ids::{BuiltinClass, ClassId};
use pyc_obligations::AskTypes;
use pyc_operators::{BinaryOperands, unary};
use pyc_places::State;
use pyc_type_forms::Ty;
use std::alloc::{AllocError, Global};
use std::marker::PhantomData;

/// The type of a unary operator with its operand. The only error is that memory runs out.
#[tactic(auto, using(pyc_obligations::proofs::Steps::performing), unfolding(crate::specs::Operations::unary_type))]
pub fn unary_type<N: AskTypes, P: InferValue<N>>(
    alloc: Global,
    recorder: &mut N,
    parts: &P,
    state: &State,
    at: Position,
    operator: UnaryOperator,
    operand: &Expr,
) -> Result<Ty, AllocError>
    requires { P.ready parts.now }
    ensures { Performs ty_of
        (spec.unary_type (P.parts parts.now) (state_of state.now) at operator (expr_of operand.now))
        (N.trace recorder.old) result (N.trace recorder.new) }
{
    let operand = type_in(alloc, recorder, parts, state, operand, None)?;
    unary(alloc, recorder, &MethodCaller, at, operator, &operand)
}

/// The type of a binary operation. The only error is that memory runs out.
#[tactic(auto, using(pyc_obligations::proofs::Steps::performing), unfolding(crate::specs::Operations::binary_type))]
pub fn binary_type<N: AskTypes, P: InferValue<N>>(
    alloc: Global,
    recorder: &mut N,
    parts: &P,
    state: &State,
    at: Position,
    operator: Operator,
    left: &Expr,
    right: &Expr,
) -> Result<Ty, AllocError>
    requires { P.ready parts.now }
    ensures { Performs ty_of
        (spec.binary_type (P.parts parts.now) (state_of state.now) at operator (expr_of left.now)
        (expr_of right.now)) (N.trace recorder.old) result (N.trace recorder.new) }
{
    let left = type_in(alloc, recorder, parts, state, left, None)?;
    infer_with_right(alloc, recorder, parts, state, at, operator, right, &left)
}

/// The type of a binary operation whose left operand has the type `left`.
#[tactic(auto, using(pyc_obligations::proofs::Steps::performing), unfolding(crate::specs::Operations::infer_with_right))]
fn infer_with_right<N: AskTypes, P: InferValue<N>>(
    alloc: Global,
    recorder: &mut N,
    parts: &P,
    state: &State,
    at: Position,
    operator: Operator,
    right: &Expr,
    left: &Ty,
) -> Result<Ty, AllocError>
    requires { P.ready parts.now }
    ensures { Performs ty_of
        (spec.infer_with_right (P.parts parts.now) (state_of state.now) at operator (expr_of right.now)
        (ty_of left.now))
        (N.trace recorder.old) result (N.trace recorder.new) }
{
    let right = type_in(alloc, recorder, parts, state, right, None)?;
    let operands = BinaryOperands {
        alloc,
        caller: &MethodCaller,
        at,
        left,
        right: &right,
        of: PhantomData,
    };
    operands.binary(recorder, operator)
}

/// The type of a chain of comparisons. The only error is that memory runs out.
#[tactic(auto, using(pyc_obligations::proofs::Steps::performing), unfolding(crate::specs::Operations::compare_type))]
pub fn compare_type<N: AskTypes, P: InferValue<N>>(
    alloc: Global,
    recorder: &mut N,
    parts: &P,
    state: &State,
    at: Position,
    left: &Expr,
    rest: &[Comparison],
) -> Result<Ty, AllocError>
    requires { P.ready parts.now }
    ensures { Performs ty_of
        (spec.compare_type (P.parts parts.now) (state_of state.now) at (expr_of left.now)
        (comparisons (map comparison_of rest.now))) (N.trace recorder.old) result (N.trace recorder.new) }
{
    let left = type_in(alloc, recorder, parts, state, left, None)?;
    chain_type(alloc, recorder, parts, state, at, rest, left)
}

/// The type of a chain of comparisons whose first operand has the type `left`.
#[tactic(auto, using(pyc_obligations::proofs::Steps::performing), unfolding(crate::specs::Operations::chain_type))]
fn chain_type<N: AskTypes, P: InferValue<N>>(
    alloc: Global,
    recorder: &mut N,
    parts: &P,
    state: &State,
    at: Position,
    rest: &[Comparison],
    left: Ty,
) -> Result<Ty, AllocError>
    requires { P.ready parts.now }
    ensures { Performs ty_of
        (spec.chain_type (P.parts parts.now) (state_of state.now) at (comparisons (map comparison_of rest.now))
        (ty_of left)) (N.trace recorder.old) result (N.trace recorder.new) }
{
    infer_comparisons(alloc, recorder, parts, state, at, rest, left)?;
    Ok(bool_type())
}

/// `bool`
fn bool_type() -> Ty
    ensures { ty_of result ≡ bool_type }
{
    Ty::Instance(ClassId::builtin(BuiltinClass::Bool))
}

/// Compares the operands of a chain, the first of which was read, in turn: the type of the last.
#[tactic(auto, using(pyc_obligations::proofs::Steps::performing), unfolding(crate::specs::Operations::infer_comparisons))]
fn infer_comparisons<N: AskTypes, P: InferValue<N>>(
    alloc: Global,
    recorder: &mut N,
    parts: &P,
    state: &State,
    at: Position,
    rest: &[Comparison],
    first: Ty,
) -> Result<Ty, AllocError>
    requires { P.ready parts.now }
    ensures { Performs ty_of
        (spec.infer_comparisons (P.parts parts.now) (state_of state.now) at (ty_of first)
        (comparisons (map comparison_of rest.now))) (N.trace recorder.old) result (N.trace recorder.new) }
{
    let mut left = first;
    for link in rest {
        left = infer_comparison(alloc, recorder, parts, state, at, &left, link)?;
    }
    Ok(left)
}

/// Reads what stands right in a comparison whose left side was read, and compares both: the type of the right side.
#[tactic(auto, using(pyc_obligations::proofs::Steps::performing), unfolding(crate::specs::Operations::infer_comparison))]
fn infer_comparison<N: AskTypes, P: InferValue<N>>(
    alloc: Global,
    recorder: &mut N,
    parts: &P,
    state: &State,
    at: Position,
    left: &Ty,
    link: &Comparison,
) -> Result<Ty, AllocError>
    requires { P.ready parts.now }
    ensures { Performs ty_of
        (spec.infer_comparison (P.parts parts.now) (state_of state.now) at (ty_of left.now) (comparison_of link.now))
        (N.trace recorder.old) result (N.trace recorder.new) }
{
    let right = type_in(alloc, recorder, parts, state, &link.right, None)?;
    let operands = BinaryOperands {
        alloc,
        caller: &MethodCaller,
        at,
        left,
        right: &right,
        of: PhantomData,
    };
    operands.check_comparison(recorder, link.operator)?;
    Ok(right)
}
