//! What an expression is, by what its parts are.

ghost use Rattle.std.specs.Prelude.{◌≡◌, IfOk, option_map};
ghost use Rattle.pyc_ast.specs.ExprView.{expr_of, form_of, optional_of};
ghost use Rattle.pyc_expr_forms.specs.Contexts as contexts;
ghost use Rattle.pyc_expr_forms.specs.Names as names;
ghost use Rattle.pyc_expr_forms.specs.Subscripting as subscripting;
ghost use Rattle.pyc_expr.specs.Values as spec;
ghost use Rattle.pyc_obligations.specs.ValueView.{value_of};
ghost use Rattle.pyc_places.specs.StateView.{state_of};
ghost use Rattle.pyc_reading.specs.Traces.{Performs};
ghost use Rattle.pyc_type_forms.specs.Types.{any, dict, list};
ghost use Rattle.pyc_type_forms.specs.TypeView.{ty_of};

use pyc_ast::{Expr, Form, OptionalExpr, Unchecked};
use pyc_class_ids::{BuiltinClass, ClassId};
use pyc_displays::{dict_display, list_display, set_display, tuple_display};
use pyc_expr_forms::{
    Context, InState, InferValue, attribute_value, binary_type, boolean_type, call_type,
    choice_type, compare_type, infer_freely, infer_optional, name_value, subscript_type,
    unary_type,
};
use pyc_obligations::{AskTypes, Value};
use pyc_places::State;
use pyc_scopes::constant_type;
use pyc_type_forms::{DictTypes, Ty};
use std::alloc::{AllocError, Global};
use std::rc::Rc;

/// What an expression is in a state, by what its parts are: in a state that is unreachable nothing is read. The only
/// error is that memory runs out.
pub(crate) fn infer_by_parts<N: AskTypes, C: Context<N>, P: InferValue<N>>(
    alloc: Global,
    recorder: &mut N,
    context: &C,
    parts: &P,
    state: &State,
    e: &Expr,
    want: Option<&Ty>,
) -> Result<Value, AllocError>
    requires { P.ready parts.now }
    ensures { Performs value_of
        (spec.infer_by_parts (C.context context.now) (P.parts parts.now) (state_of state.now) (expr_of e.now)
        (option_map (λ ty. ty_of ty.now) want.entry)) (N.trace recorder.old) result (N.trace recorder.new) }
{
    match state {
        State::Unreachable => Ok(Value::plain(Ty::Any)),
        State::Reachable(_) => infer_form(alloc, recorder, context, parts, state, e, want),
    }
}

/// What an expression is, by its form.
fn infer_form<N: AskTypes, C: Context<N>, P: InferValue<N>>(
    alloc: Global,
    recorder: &mut N,
    context: &C,
    parts: &P,
    state: &State,
    e: &Expr,
    want: Option<&Ty>,
) -> Result<Value, AllocError>
    requires { P.ready parts.now }
    ensures { Performs value_of
        (spec.infer_form (C.context context.now) (P.parts parts.now) (state_of state.now) (expr_of e.now) e.now.inside
        (option_map (λ ty. ty_of ty.now) want.entry) (form_of e.now.form)) (N.trace recorder.old) result
        (N.trace recorder.new) }
{
    match &e.form {
        Form::Name(name) => name_value(alloc, recorder, context, state, e, e.inside, name),
        Form::Attribute { value, name } => {
            attribute_value(alloc, recorder, parts, state, e, e.inside, value, name)
        }
        _ => plain_value(alloc, recorder, context, parts, state, e, want),
    }
}

/// What an expression is that is no place.
#[tactic(auto, using(pyc_obligations::proofs::Steps::performing), unfolding(pyc_expr_forms::specs::Contexts::plainly))]
fn plain_value<N: AskTypes, C: Context<N>, P: InferValue<N>>(
    alloc: Global,
    recorder: &mut N,
    context: &C,
    parts: &P,
    state: &State,
    e: &Expr,
    want: Option<&Ty>,
) -> Result<Value, AllocError>
    requires { P.ready parts.now }
    ensures { Performs value_of
        (contexts.plainly
        (spec.infer_type_form (C.context context.now) (P.parts parts.now) (state_of state.now) e.now.inside
        (option_map (λ ty. ty_of ty.now) want.entry) (form_of e.now.form))) (N.trace recorder.old) result
        (N.trace recorder.new) }
{
    let ty = infer_type_form(alloc, recorder, context, parts, state, e, want)?;
    Ok(Value::plain(ty))
}

/// The type of an expression that is no place.
fn infer_type_form<N: AskTypes, C: Context<N>, P: InferValue<N>>(
    alloc: Global,
    recorder: &mut N,
    context: &C,
    parts: &P,
    state: &State,
    e: &Expr,
    want: Option<&Ty>,
) -> Result<Ty, AllocError>
    requires { P.ready parts.now }
    ensures { Performs ty_of
        (spec.infer_type_form (C.context context.now) (P.parts parts.now) (state_of state.now) e.now.inside
        (option_map (λ ty. ty_of ty.now) want.entry) (form_of e.now.form)) (N.trace recorder.old) result
        (N.trace recorder.new) }
{
    let reader = InState { parts, state };
    match &e.form {
        Form::Constant(found) => Ok(constant_type(*found)),
        Form::StringAnnotation(_) => Ok(str_type()),
        Form::Unchecked(found) => Ok(opaque_type(alloc, *found)?),
        Form::Tuple(items) => tuple_display(alloc, recorder, &reader, items, want),
        Form::List(items) => list_display(alloc, recorder, &reader, items, want),
        Form::Set(items) => set_display(alloc, recorder, &reader, items, want),
        Form::Dict(items) => dict_display(alloc, recorder, &reader, items, want),
        _ => infer_operation_form(alloc, recorder, context, parts, state, e, want),
    }
}

/// `str`
fn str_type() -> Ty
    ensures { ty_of result ≡ names.str_type }
{
    Ty::Instance(ClassId::builtin(BuiltinClass::Str))
}

/// The type of what is not looked into.
fn opaque_type(alloc: Global, found: Unchecked) -> Result<Ty, AllocError>
    ensures { IfOk result (λ ty. ty_of ty ≡ names.opaque_type found) }
{
    match found {
        Unchecked::ListComprehension => any_list(alloc),
        Unchecked::DictComprehension => any_dict(alloc),
        Unchecked::Lambda | Unchecked::Generator | Unchecked::SetComprehension => Ok(Ty::Any),
    }
}

/// `list[Any]`
fn any_list(alloc: Global) -> Result<Ty, AllocError>
    ensures { IfOk result (λ ty. ty_of ty ≡ list any) }
{
    Ok(Ty::List(Rc::new(alloc, Ty::Any)?))
}

/// `dict[Any, Any]`
fn any_dict(alloc: Global) -> Result<Ty, AllocError>
    ensures { IfOk result (λ ty. ty_of ty ≡ dict any any) }
{
    let types = DictTypes {
        key: Ty::Any,
        value: Ty::Any,
    };
    Ok(Ty::Dict(Rc::new(alloc, types)?))
}

/// The type of a call, a subscript or an operation.
fn infer_operation_form<N: AskTypes, C: Context<N>, P: InferValue<N>>(
    alloc: Global,
    recorder: &mut N,
    context: &C,
    parts: &P,
    state: &State,
    e: &Expr,
    want: Option<&Ty>,
) -> Result<Ty, AllocError>
    requires { P.ready parts.now }
    ensures { Performs ty_of
        (spec.infer_operation_form (C.context context.now) (P.parts parts.now) (state_of state.now) e.now.inside
        (option_map (λ ty. ty_of ty.now) want.entry) (form_of e.now.form)) (N.trace recorder.old) result
        (N.trace recorder.new) }
{
    let at = e.inside;
    match &e.form {
        Form::Call { callee, arguments } => {
            call_type(
                alloc, recorder, context, parts, state, at, callee, arguments,
            )
        }
        Form::Subscript { value, index } => {
            subscript_type(alloc, recorder, parts, state, at, value, index)
        }
        Form::Unary { operator, operand } => {
            unary_type(alloc, recorder, parts, state, at, *operator, operand)
        }
        Form::Binary {
            operator,
            left,
            right,
        } => binary_type(alloc, recorder, parts, state, at, *operator, left, right),
        Form::Compare { left, rest } => {
            compare_type(alloc, recorder, parts, state, at, left, rest)
        }
        _ => choice_by_form(alloc, recorder, parts, state, want, e),
    }
}

/// The type of an expression with conditions, and of what waits.
fn choice_by_form<N: AskTypes, P: InferValue<N>>(
    alloc: Global,
    recorder: &mut N,
    parts: &P,
    state: &State,
    want: Option<&Ty>,
    e: &Expr,
) -> Result<Ty, AllocError>
    requires { P.ready parts.now }
    ensures { Performs ty_of
        (spec.choice_by_form (P.parts parts.now) (state_of state.now) (option_map (λ ty. ty_of ty.now) want.entry)
        (form_of e.now.form)) (N.trace recorder.old) result (N.trace recorder.new) }
{
    match &e.form {
        Form::Boolean {
            operator,
            left,
            right,
        } => boolean_type(alloc, recorder, parts, state, want, *operator, left, right),
        Form::Conditional { test, body, orelse } => {
            choice_type(alloc, recorder, parts, state, want, test, body, orelse)
        }
        Form::Await(part) | Form::YieldFrom(part) => any_after(alloc, recorder, parts, state, part),
        Form::Yield(part) => any_after_optional(alloc, recorder, parts, state, part),
        _ => Ok(Ty::Any),
    }
}

/// Reads a part that is waited for, of which nothing is known.
#[tactic(auto, using(pyc_obligations::proofs::Steps::performing), unfolding(crate::specs::Values::any_after))]
fn any_after<N: AskTypes, P: InferValue<N>>(
    alloc: Global,
    recorder: &mut N,
    parts: &P,
    state: &State,
    part: &Expr,
) -> Result<Ty, AllocError>
    requires { P.ready parts.now }
    ensures { Performs ty_of
        (spec.any_after (contexts.infer_freely (P.parts parts.now) (state_of state.now) (expr_of part.now)))
        (N.trace recorder.old) result (N.trace recorder.new) }
{
    infer_freely(alloc, recorder, parts, state, part)?;
    Ok(Ty::Any)
}

/// Reads a part that may be absent, for what it asks and reports alone. The type of the whole is Any.
#[tactic(auto, using(pyc_obligations::proofs::Steps::performing), unfolding(crate::specs::Values::any_after))]
fn any_after_optional<N: AskTypes, P: InferValue<N>>(
    alloc: Global,
    recorder: &mut N,
    parts: &P,
    state: &State,
    part: &OptionalExpr,
) -> Result<Ty, AllocError>
    requires { P.ready parts.now }
    ensures { Performs ty_of
        (spec.any_after
        (subscripting.infer_optional (P.parts parts.now) (state_of state.now) (optional_of part.now)))
        (N.trace recorder.old) result (N.trace recorder.new) }
{
    infer_optional(alloc, recorder, parts, state, part)?;
    Ok(Ty::Any)
}
