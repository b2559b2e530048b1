//! What is required of a member of a class to that of an ancestor.

ghost use Rattle.std.specs.Prelude.{◌≡◌, IfOk, string_bytes};
ghost use Rattle.pyc_obligations.specs.Asking.{orders_at};
ghost use Rattle.pyc_overrides.specs.Messages as messages;
ghost use Rattle.pyc_overrides.specs.Obligations as spec;
ghost use Rattle.pyc_overrides.specs.Views.{override_of, required_in};
ghost use Rattle.pyc_reading.specs.AnswerView.{member_answer_of};
ghost use Rattle.pyc_reading.specs.Traces.{Asks};
ghost use Rattle.pyc_reading.specs.Owing.{detail_keys, text_by};
ghost use Rattle.pyc_type_forms.specs.TypeView.{params_of, ty_of};

use crate::messages::{
    Override, required_result_text, required_signature_text, required_variable_text,
};
use crate::parameters::{ask_rows, rows_text};
use pyc_ast::{Position, Text};
use pyc_obligations::{AsObligation, AskTypes, ask_types, is_assignable};
use pyc_reading::{MemberAnswer, MemberKind};
use pyc_report::{Message, ObligationKind};
use pyc_type_forms::{Signature, Ty};
use std::alloc::{AllocError, Global};

/// A member of a class, where the class declares it and its name, and that of an ancestor, each with its type as it is
/// through an instance.
#[derive(Drop)]
pub(crate) struct RequiredOverride<'a> {
    pub(crate) at: Position,
    pub(crate) name: &'a Text,
    pub(crate) got: &'a MemberAnswer,
    pub(crate) want: MemberAnswer,
}

impl<N: AskTypes> AsObligation<N> for RequiredOverride<'_> {
    ghost obligation = { required_in };

    fn got(&self) -> &Ty {
        &self.got.ty
    }

    fn want(&self) -> &Ty {
        &self.want.ty
    }

    fn ask_details(&self, alloc: Global, recorder: &mut N) -> Result<(), AllocError> {
        let reported = override_by(self.name, self.got, &self.want);
        ask_types_of(alloc, recorder, &reported, &self.got.ty, &self.want.ty)
    }

    fn message(&self, alloc: Global, recorder: &N) -> Result<Message, AllocError> {
        let reported = override_by(self.name, self.got, &self.want);
        let text = types_text(alloc, recorder, &reported, &self.got.ty, &self.want.ty)?;
        Ok(Message::failing_at(self.at, obligation_kind_of(&reported), text))
    }
}

/// A member of a name, and that of an ancestor, as messages show them.
fn override_by<'a>(name: &'a Text, got: &MemberAnswer, want: &'a MemberAnswer) -> Override<'a>
    ensures { override_of result
        ≡ spec.override_by name.now (member_answer_of got.now) (member_answer_of want.now) }
{
    Override {
        name: name.as_str(),
        base: want.class.name(),
        got_is_method: is_method(got.kind),
        want_is_method: is_method(want.kind),
    }
}

/// Whether a member of this kind is a method: of an instance, of the class or of neither.
fn is_method(kind: MemberKind) -> bool
    ensures { result ≡ spec.is_method kind }
{
    matches!(
        kind,
        MemberKind::Method | MemberKind::StaticMethod | MemberKind::ClassMethod
    )
}

/// The kind of the obligation of a member to that of an ancestor, by whether each is a method.
fn obligation_kind_of(reported: &Override<'_>) -> ObligationKind
    ensures { result ≡ spec.override_obligation_kind (override_of reported.now) }
{
    match (reported.got_is_method, reported.want_is_method) {
        (false, false) => ObligationKind::VariableOverride,
        _ => ObligationKind::Override,
    }
}

/// Asks by what is known of two types of members more closely, by whether each is a method.
fn ask_types_of<N: AskTypes>(
    alloc: Global,
    recorder: &mut N,
    reported: &Override<'_>,
    got: &Ty,
    want: &Ty,
) -> Result<(), AllocError>
    ensures { Asks (detail_keys (spec.override_details (override_of reported.now) (ty_of got.now) (ty_of want.now)))
        (N.trace recorder.old) result (N.trace recorder.new) }
{
    match (reported.got_is_method, reported.want_is_method) {
        (true, true) => ask_methods(alloc, recorder, reported, got, want),
        _ => Ok(()),
    }
}

/// Asks by what is known of the types of two methods.
fn ask_methods<N: AskTypes>(
    alloc: Global,
    recorder: &mut N,
    reported: &Override<'_>,
    got: &Ty,
    want: &Ty,
) -> Result<(), AllocError>
    ensures { Asks (detail_keys (spec.methods_details (override_of reported.now) (ty_of got.now) (ty_of want.now)))
        (N.trace recorder.old) result (N.trace recorder.new) }
{
    match got {
        Ty::Callable(got) => ask_callable(alloc, recorder, reported, got, want),
        _ => Ok(()),
    }
}

/// Asks by what is known of a callable and the type of another method.
fn ask_callable<N: AskTypes>(
    alloc: Global,
    recorder: &mut N,
    reported: &Override<'_>,
    got: &Signature,
    want: &Ty,
) -> Result<(), AllocError>
    ensures { Asks
        (detail_keys
        (spec.callable_details (override_of reported.now) (params_of got.now.params) (ty_of got.now.result)
        (ty_of want.now)))
        (N.trace recorder.old) result (N.trace recorder.new) }
{
    match want {
        Ty::Callable(want) => ask_callables(alloc, recorder, reported, got, want),
        _ => Ok(()),
    }
}

/// Asks by what is known of two callables.
fn ask_callables<N: AskTypes>(
    alloc: Global,
    recorder: &mut N,
    reported: &Override<'_>,
    got: &Signature,
    want: &Signature,
) -> Result<(), AllocError>
    ensures { Asks
        (detail_keys
        (spec.callables_details (override_of reported.now) (params_of got.now.params) (ty_of got.now.result)
        (params_of want.now.params) (ty_of want.now.result)))
        (N.trace recorder.old) result (N.trace recorder.new) }
{
    ask_types(alloc, recorder, &got.result, &want.result)?;
    ask_rows(alloc, recorder, reported, &got.params, &want.params)
}

/// The text on two types of members, by whether each is a method.
fn types_text<N: AskTypes>(
    alloc: Global,
    recorder: &N,
    reported: &Override<'_>,
    got: &Ty,
    want: &Ty,
) -> Result<String, AllocError>
    ensures { IfOk result (λ text. string_bytes text
        ≡ text_by (orders_at (N.trace recorder.now))
        (spec.override_details (override_of reported.now) (ty_of got.now) (ty_of want.now))
        (spec.override_text (override_of reported.now) (ty_of got.now) (ty_of want.now))) }
{
    match (reported.got_is_method, reported.want_is_method) {
        (true, true) => methods_text(alloc, recorder, reported, got, want),
        (false, false) => required_variable_text(alloc, reported, got, want),
        _ => required_signature_text(alloc, reported),
    }
}

/// The text on the types of two methods.
fn methods_text<N: AskTypes>(
    alloc: Global,
    recorder: &N,
    reported: &Override<'_>,
    got: &Ty,
    want: &Ty,
) -> Result<String, AllocError>
    ensures { IfOk result (λ text. string_bytes text
        ≡ text_by (orders_at (N.trace recorder.now))
        (spec.methods_details (override_of reported.now) (ty_of got.now) (ty_of want.now))
        (messages.required_signature_text (override_of reported.now))) }
{
    match got {
        Ty::Callable(got) => callable_text(alloc, recorder, reported, got, want),
        _ => required_signature_text(alloc, reported),
    }
}

/// The text on a callable and the type of another method.
fn callable_text<N: AskTypes>(
    alloc: Global,
    recorder: &N,
    reported: &Override<'_>,
    got: &Signature,
    want: &Ty,
) -> Result<String, AllocError>
    ensures { IfOk result (λ text. string_bytes text
        ≡ text_by (orders_at (N.trace recorder.now))
        (spec.callable_details (override_of reported.now) (params_of got.now.params) (ty_of got.now.result)
        (ty_of want.now))
        (messages.required_signature_text (override_of reported.now))) }
{
    match want {
        Ty::Callable(want) => callables_text(alloc, recorder, reported, got, want),
        _ => required_signature_text(alloc, reported),
    }
}

/// The text on two callables: that on their results, where the one is not assignable to the other.
fn callables_text<N: AskTypes>(
    alloc: Global,
    recorder: &N,
    reported: &Override<'_>,
    got: &Signature,
    want: &Signature,
) -> Result<String, AllocError>
    ensures { IfOk result (λ text. string_bytes text
        ≡ text_by (orders_at (N.trace recorder.now))
        (spec.callables_details (override_of reported.now) (params_of got.now.params) (ty_of got.now.result)
        (params_of want.now.params) (ty_of want.now.result))
        (messages.required_signature_text (override_of reported.now))) }
{
    if is_assignable(recorder, &got.result, &want.result) {
        rows_text(alloc, recorder, reported, &got.params, &want.params)
    } else {
        required_result_text(alloc, reported, &got.result, &want.result)
    }
}
