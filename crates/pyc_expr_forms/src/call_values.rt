//! Calls.

ghost use Rattle.std.specs.Prelude.{◌≡◌, map};
ghost use Rattle.pyc_arguments.specs.Views.{shown_in};
ghost use Rattle.pyc_ast.specs.ExprView.{expr_of, argument_of};
ghost use Rattle.pyc_calls.specs.Called as called;
ghost use Rattle.pyc_expr_forms.specs.CallValues as spec;
ghost use Rattle.pyc_expr_forms.specs.Contexts.{type_in};
ghost use Rattle.pyc_obligations.specs.ValueView.{value_of};
ghost use Rattle.pyc_places.specs.StateView.{state_of};
ghost use Rattle.pyc_reading.specs.Traces.{Performs};
ghost use Rattle.pyc_type_forms.specs.TypeView.{ty_of};

use crate::context::Context;
use crate::names::attribute_of;
use crate::parts::{InState, InferValue};
use crate::revealing::{cast_to, is_positional, reveal_part};
use pyc_arguments::{CalleeName, owner_name};
use pyc_ast::{Argument, Expr, Form, Position, Text};
use pyc_calls::UnreadCall;
use pyc_names::FixedName;
use pyc_obligations::{AskTypes, SpecialForm, Value};
use pyc_places::State;
use pyc_type_forms::Ty;
use std::alloc::{AllocError, Global};
use std::marker::PhantomData;

/// The type of a call, by the form of what is called. The only error is that memory runs out.
pub fn call_type<N: AskTypes, C: Context<N>, P: InferValue<N>>(
    alloc: Global,
    recorder: &mut N,
    context: &C,
    parts: &P,
    state: &State,
    at: Position,
    callee: &Expr,
    arguments: &[Argument],
) -> Result<Ty, AllocError>
    requires { P.ready parts.now }
    ensures { Performs ty_of
        (spec.call_type (C.context context.now) (P.parts parts.now) (state_of state.now) at (expr_of callee.now)
        (map argument_of arguments.now)) (N.trace recorder.old) result (N.trace recorder.new) }
{
    match &callee.form {
        Form::Attribute { value, name } => infer_attribute_call(
            alloc, recorder, context, parts, state, at, arguments, callee, value, name,
        ),
        Form::Name(name) => {
            let shown = CalleeName::Name(name.as_str());
            infer_plain_call(
                alloc, recorder, context, parts, state, at, arguments, callee, shown,
            )
        }
        _ => {
            let shown = CalleeName::Nameless;
            infer_plain_call(
                alloc, recorder, context, parts, state, at, arguments, callee, shown,
            )
        }
    }
}

/// A call of an attribute.
#[tactic(auto, using(pyc_obligations::proofs::Steps::performing), unfolding(crate::specs::CallValues::infer_attribute_call))]
fn infer_attribute_call<N: AskTypes, C: Context<N>, P: InferValue<N>>(
    alloc: Global,
    recorder: &mut N,
    context: &C,
    parts: &P,
    state: &State,
    at: Position,
    arguments: &[Argument],
    callee: &Expr,
    owner: &Expr,
    name: &Text,
) -> Result<Ty, AllocError>
    requires { P.ready parts.now }
    ensures { Performs ty_of
        (spec.infer_attribute_call (C.context context.now) (P.parts parts.now) (state_of state.now) at
        (map argument_of arguments.now) (expr_of callee.now) callee.now.inside (expr_of owner.now) name.now)
        (N.trace recorder.old) result (N.trace recorder.new) }
{
    let owner = parts.part(alloc, recorder, state, owner, None)?;
    infer_member_call(
        alloc, recorder, context, parts, state, at, arguments, callee, name, &owner,
    )
}

/// A call of an attribute whose owner was read.
#[tactic(auto, using(pyc_obligations::proofs::Steps::performing), unfolding(crate::specs::CallValues::infer_member_call))]
fn infer_member_call<N: AskTypes, C: Context<N>, P: InferValue<N>>(
    alloc: Global,
    recorder: &mut N,
    context: &C,
    parts: &P,
    state: &State,
    at: Position,
    arguments: &[Argument],
    callee: &Expr,
    name: &Text,
    owner: &Value,
) -> Result<Ty, AllocError>
    requires { P.ready parts.now }
    ensures { Performs ty_of
        (spec.infer_member_call (C.context context.now) (P.parts parts.now) (state_of state.now) at
        (map argument_of arguments.now) (expr_of callee.now) callee.now.inside name.now (value_of owner.now))
        (N.trace recorder.old) result (N.trace recorder.new) }
{
    let found = attribute_of(alloc, recorder, state, callee, callee.inside, name, owner)?;
    let shown = shown_attribute(name, &owner.ty);
    let ty = infer_value_call(
        alloc, recorder, context, parts, state, at, arguments, shown, &found,
    )?;
    Ok(ty)
}

/// What messages show of an attribute of a value of a type.
fn shown_attribute<'a>(name: &'a Text, owner: &'a Ty) -> CalleeName<'a>
    ensures { shown_in result ≡ spec.shown_attribute name.now (ty_of owner.now) }
{
    match owner {
        Ty::Module(_) => CalleeName::Name(name.as_str()),
        _ => shown_member(name, owner),
    }
}

/// What messages show of an attribute of a value whose type, `owner`, is no module.
fn shown_member<'a>(name: &'a Text, owner: &'a Ty) -> CalleeName<'a>
    ensures { shown_in result ≡ spec.shown_of name.now (ty_of owner.now) }
{
    match owner_name(owner) {
        Some(owner) => CalleeName::Member(name.as_str(), owner),
        None => CalleeName::Nameless,
    }
}

/// A call of what is no attribute.
#[tactic(auto, using(pyc_obligations::proofs::Steps::performing), unfolding(crate::specs::CallValues::infer_plain_call))]
fn infer_plain_call<N: AskTypes, C: Context<N>, P: InferValue<N>>(
    alloc: Global,
    recorder: &mut N,
    context: &C,
    parts: &P,
    state: &State,
    at: Position,
    arguments: &[Argument],
    callee: &Expr,
    shown: CalleeName<'_>,
) -> Result<Ty, AllocError>
    requires { P.ready parts.now }
    ensures { Performs ty_of
        (spec.infer_plain_call (C.context context.now) (P.parts parts.now) (state_of state.now) at
        (map argument_of arguments.now) (expr_of callee.now) (shown_in shown.entry)) (N.trace recorder.old) result
        (N.trace recorder.new) }
{
    let found = parts.part(alloc, recorder, state, callee, None)?;
    let ty = infer_value_call(
        alloc, recorder, context, parts, state, at, arguments, shown, &found,
    )?;
    Ok(ty)
}

/// A call of a value that was read, by which thing it is.
fn infer_value_call<N: AskTypes, C: Context<N>, P: InferValue<N>>(
    alloc: Global,
    recorder: &mut N,
    context: &C,
    parts: &P,
    state: &State,
    at: Position,
    arguments: &[Argument],
    shown: CalleeName<'_>,
    found: &Value,
) -> Result<Ty, AllocError>
    requires { P.ready parts.now }
    ensures { Performs ty_of
        (spec.infer_value_call (C.context context.now) (P.parts parts.now) (state_of state.now) at
        (map argument_of arguments.now) (shown_in shown.entry) (value_of found.now)) (N.trace recorder.old) result
        (N.trace recorder.new) }
{
    match &found.special_form {
        SpecialForm::RevealType => {
            infer_reveal_call(
                alloc, recorder, parts, state, at, arguments, shown, &found.ty,
            )
        }
        SpecialForm::Fixed(FixedName::RevealType) => {
            infer_reveal_call(
                alloc, recorder, parts, state, at, arguments, shown, &found.ty,
            )
        }
        SpecialForm::Fixed(FixedName::Cast) => cast_by(
            alloc, recorder, context, parts, state, at, arguments, shown, &found.ty,
        ),
        _ => infer_other_call(
            alloc, recorder, parts, state, at, arguments, shown, &found.ty,
        ),
    }
}

/// A call of nothing special.
fn infer_other_call<N: AskTypes, P: InferValue<N>>(
    alloc: Global,
    recorder: &mut N,
    parts: &P,
    state: &State,
    at: Position,
    arguments: &[Argument],
    shown: CalleeName<'_>,
    callee: &Ty,
) -> Result<Ty, AllocError>
    requires { P.ready parts.now }
    ensures { Performs ty_of
        (called.call (type_in (P.parts parts.now) (state_of state.now)) (shown_in shown.entry) at
        (map argument_of arguments.now) (ty_of callee.now)) (N.trace recorder.old) result (N.trace recorder.new) }
{
    let reader = InState { parts, state };
    let call = UnreadCall {
        alloc,
        reader: &reader,
        shown,
        at,
        of: PhantomData,
    };
    call.call(recorder, arguments, callee)
}

/// A call of `reveal_type`: with other arguments than one it is a call like others.
fn infer_reveal_call<N: AskTypes, P: InferValue<N>>(
    alloc: Global,
    recorder: &mut N,
    parts: &P,
    state: &State,
    at: Position,
    arguments: &[Argument],
    shown: CalleeName<'_>,
    callee: &Ty,
) -> Result<Ty, AllocError>
    requires { P.ready parts.now }
    ensures { Performs ty_of
        (spec.infer_reveal_call (P.parts parts.now) (state_of state.now) at (map argument_of arguments.now)
        (called.call (type_in (P.parts parts.now) (state_of state.now)) (shown_in shown.entry) at
        (map argument_of arguments.now) (ty_of callee.now))) (N.trace recorder.old) result (N.trace recorder.new) }
{
    match arguments {
        [only] => reveal_argument(
            alloc, recorder, parts, state, at, arguments, shown, callee, only,
        ),
        _ => infer_other_call(alloc, recorder, parts, state, at, arguments, shown, callee),
    }
}

/// A call of `reveal_type` with one argument, which is revealed where it is given at its place.
fn reveal_argument<N: AskTypes, P: InferValue<N>>(
    alloc: Global,
    recorder: &mut N,
    parts: &P,
    state: &State,
    at: Position,
    arguments: &[Argument],
    shown: CalleeName<'_>,
    callee: &Ty,
    only: &Argument,
) -> Result<Ty, AllocError>
    requires { P.ready parts.now }
    ensures { Performs ty_of
        (spec.reveal_argument (P.parts parts.now) (state_of state.now) at (argument_of only.now)
        (called.call (type_in (P.parts parts.now) (state_of state.now)) (shown_in shown.entry) at
        (map argument_of arguments.now) (ty_of callee.now))) (N.trace recorder.old) result (N.trace recorder.new) }
{
    if is_positional(&only.kind) {
        reveal_part(alloc, recorder, parts, state, at, &only.value)
    } else {
        infer_other_call(alloc, recorder, parts, state, at, arguments, shown, callee)
    }
}

/// A call of `cast`: with other arguments than two it is a call like others.
fn cast_by<N: AskTypes, C: Context<N>, P: InferValue<N>>(
    alloc: Global,
    recorder: &mut N,
    context: &C,
    parts: &P,
    state: &State,
    at: Position,
    arguments: &[Argument],
    shown: CalleeName<'_>,
    callee: &Ty,
) -> Result<Ty, AllocError>
    requires { P.ready parts.now }
    ensures { Performs ty_of
        (spec.cast_by (C.context context.now) (P.parts parts.now) (state_of state.now)
        (map argument_of arguments.now)
        (called.call (type_in (P.parts parts.now) (state_of state.now)) (shown_in shown.entry) at
        (map argument_of arguments.now) (ty_of callee.now))) (N.trace recorder.old) result (N.trace recorder.new) }
{
    match arguments {
        [first, second] => two_cast(
            alloc, recorder, context, parts, state, at, arguments, shown, callee, first, second,
        ),
        _ => infer_other_call(alloc, recorder, parts, state, at, arguments, shown, callee),
    }
}

/// A call of `cast` with two arguments, where both are given at their places.
fn two_cast<N: AskTypes, C: Context<N>, P: InferValue<N>>(
    alloc: Global,
    recorder: &mut N,
    context: &C,
    parts: &P,
    state: &State,
    at: Position,
    arguments: &[Argument],
    shown: CalleeName<'_>,
    callee: &Ty,
    first: &Argument,
    second: &Argument,
) -> Result<Ty, AllocError>
    requires { P.ready parts.now }
    ensures { Performs ty_of
        (spec.two_cast (C.context context.now) (P.parts parts.now) (state_of state.now) (argument_of first.now)
        (argument_of second.now)
        (called.call (type_in (P.parts parts.now) (state_of state.now)) (shown_in shown.entry) at
        (map argument_of arguments.now) (ty_of callee.now))) (N.trace recorder.old) result (N.trace recorder.new) }
{
    if is_positional(&first.kind) && is_positional(&second.kind) {
        cast_to(
            alloc,
            recorder,
            context,
            parts,
            state,
            &first.value,
            &second.value,
        )
    } else {
        infer_other_call(alloc, recorder, parts, state, at, arguments, shown, callee)
    }
}
