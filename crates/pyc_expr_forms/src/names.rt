//! Names and attributes.

ghost use Rattle.std.specs.Prelude.{◌≡◌, IfOk};
ghost use Rattle.pyc_ast.specs.ExprView.{expr_of};
ghost use Rattle.pyc_expr_forms.specs.Names as spec;
ghost use Rattle.pyc_obligations.specs.Values.{plain_value};
ghost use Rattle.pyc_obligations.specs.ValueView.{value_of};
ghost use Rattle.pyc_places.specs.StateView.{state_of};
ghost use Rattle.pyc_reading.specs.Traces.{Performs};
ghost use Rattle.pyc_type_forms.specs.TypeView.{ty_of};

use crate::context::Context;
use crate::parts::InferValue;
use pyc_ast::{Expr, Position, Text};
use pyc_attributes::attribute;
use pyc_obligations::{AskTypes, Value};
use pyc_places::State;
use pyc_type_forms::Ty;
use std::alloc::{AllocError, Global};

/// A name, which is the whole expression. The only error is that memory runs out.
pub fn name_value<N: AskTypes, C: Context<N>>(
    alloc: Global,
    recorder: &mut N,
    context: &C,
    state: &State,
    whole: &Expr,
    at: Position,
    name: &Text,
) -> Result<Value, AllocError>
    ensures { Performs value_of
        (spec.name_value (C.context context.now) (state_of state.now) (expr_of whole.now) at name.now)
        (N.trace recorder.old) result (N.trace recorder.new) }
{
    match state.narrowed_at(whole) {
        Some(ty) => narrowed(ty),
        None => context.resolve_name(alloc, recorder, at, name),
    }
}

/// A place of a type to which it is narrowed.
fn narrowed(ty: &Ty) -> Result<Value, AllocError>
    ensures { IfOk result (λ value. value_of value ≡ plain_value (ty_of ty.now)) }
{
    Ok(Value::plain(ty.clone()?))
}

/// An attribute, which is the whole expression: its owner is read also where the attribute is narrowed. The only error
/// is that memory runs out.
#[tactic(auto, using(pyc_obligations::proofs::Steps::performing), unfolding(crate::specs::Names::attribute_value))]
pub fn attribute_value<N: AskTypes, P: InferValue<N>>(
    alloc: Global,
    recorder: &mut N,
    parts: &P,
    state: &State,
    whole: &Expr,
    at: Position,
    owner: &Expr,
    name: &Text,
) -> Result<Value, AllocError>
    requires { P.ready parts.now }
    ensures { Performs value_of
        (spec.attribute_value (P.parts parts.now) (state_of state.now) (expr_of whole.now) at (expr_of owner.now)
        name.now) (N.trace recorder.old) result (N.trace recorder.new) }
{
    let owner = parts.part(alloc, recorder, state, owner, None)?;
    let value = attribute_of(alloc, recorder, state, whole, at, name, &owner)?;
    Ok(value)
}

/// The attribute of what was read, which is the whole expression. The only error is that memory runs out.
pub(crate) fn attribute_of<N: AskTypes>(
    alloc: Global,
    recorder: &mut N,
    state: &State,
    whole: &Expr,
    at: Position,
    name: &Text,
    owner: &Value,
) -> Result<Value, AllocError>
    ensures { Performs value_of
        (spec.attribute_of (state_of state.now) (expr_of whole.now) at name.now (value_of owner.now))
        (N.trace recorder.old) result (N.trace recorder.new) }
{
    match state.narrowed_at(whole) {
        Some(ty) => narrowed(ty),
        None => attribute(alloc, recorder, at, owner, name),
    }
}
