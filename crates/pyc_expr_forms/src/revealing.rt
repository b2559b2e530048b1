//! Calls of `reveal_type` and `cast`.

ghost use Rattle.std.specs.Prelude.{◌≡◌, IfOk, string_bytes};
ghost use Rattle.pyc_ast.specs.ExprView.{expr_of};
ghost use Rattle.pyc_expr_forms.specs.CallValues as spec;
ghost use Rattle.pyc_messages.specs.Calls.{revealed_type_text};
ghost use Rattle.pyc_narrowing.specs.Splitting as splitting;
ghost use Rattle.pyc_places.specs.StateView.{state_of};
ghost use Rattle.pyc_reading.specs.Traces.{Performs};
ghost use Rattle.pyc_type_forms.specs.Text.{text_of};
ghost use Rattle.pyc_type_forms.specs.TypeView.{ty_of};

use crate::context::Context;
use crate::parts::{InferValue, infer_freely, type_in};
use pyc_ast::{ArgumentKind, Expr, Position};
use pyc_messages::revealed_type_text;
use pyc_obligations::{AskTypes, report_note};
use pyc_places::State;
use pyc_type_forms::{Ty, show};
use std::alloc::{AllocError, Global};

/// Whether an argument of a kind is given at its place. It takes no memory.
pub(crate) fn is_positional(kind: &ArgumentKind) -> bool
    ensures { result ≡ splitting.is_positional kind.now }
{
    matches!(kind, ArgumentKind::Positional)
}

/// Reports the type of a part, which is the type of the call. The only error is that memory runs out.
#[tactic(auto, using(pyc_obligations::proofs::Steps::performing), unfolding(crate::specs::CallValues::reveal_part))]
pub(crate) fn reveal_part<N: AskTypes, P: InferValue<N>>(
    alloc: Global,
    recorder: &mut N,
    parts: &P,
    state: &State,
    at: Position,
    part: &Expr,
) -> Result<Ty, AllocError>
    requires { P.ready parts.now }
    ensures { Performs ty_of (spec.reveal_part (P.parts parts.now) (state_of state.now) at (expr_of part.now))
        (N.trace recorder.old) result (N.trace recorder.new) }
{
    let ty = type_in(alloc, recorder, parts, state, part, None)?;
    type_reported(alloc, recorder, at, ty)
}

/// Reports a type.
#[tactic(auto, using(pyc_obligations::proofs::Steps::performing))]
fn type_reported<N: AskTypes>(
    alloc: Global,
    recorder: &mut N,
    at: Position,
    ty: Ty,
) -> Result<Ty, AllocError>
    ensures { Performs ty_of (spec.type_reported at (ty_of ty)) (N.trace recorder.old) result (N.trace recorder.new) }
{
    let text = type_text(alloc, &ty)?;
    report_note(recorder, at, text)?;
    Ok(ty)
}

/// The text on a type that is revealed.
fn type_text(alloc: Global, ty: &Ty) -> Result<String, AllocError>
    ensures { IfOk result (λ text. string_bytes text ≡ revealed_type_text (text_of (ty_of ty.now))) }
{
    let shown = show(alloc, ty)?;
    revealed_type_text(alloc, shown.as_str())
}

/// A cast to the type that an annotation means, of a value that is read. The only error is that memory runs out.
#[tactic(auto, using(pyc_obligations::proofs::Steps::performing), unfolding(crate::specs::CallValues::cast_to))]
pub(crate) fn cast_to<N: AskTypes, C: Context<N>, P: InferValue<N>>(
    alloc: Global,
    recorder: &mut N,
    context: &C,
    parts: &P,
    state: &State,
    annotation: &Expr,
    value: &Expr,
) -> Result<Ty, AllocError>
    requires { P.ready parts.now }
    ensures { Performs ty_of
        (spec.cast_to (C.context context.now) (P.parts parts.now) (state_of state.now) (expr_of annotation.now)
        (expr_of value.now)) (N.trace recorder.old) result (N.trace recorder.new) }
{
    let ty = context.annotated(alloc, recorder, annotation)?;
    infer_freely(alloc, recorder, parts, state, value)?;
    Ok(ty)
}
