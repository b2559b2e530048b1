//! The parameters of a method against those of the method that it overrides.

ghost use Rattle.std.specs.Prelude.{◌≡◌, ◌+◌, ◌<◌, ◌^◌, IfOk, option_map, string_bytes};
ghost use Rattle.pyc_obligations.specs.Asking.{orders_at};
ghost use Rattle.pyc_overrides.specs.Messages as messages;
ghost use Rattle.pyc_overrides.specs.Parameters as spec;
ghost use Rattle.pyc_overrides.specs.Views.{override_of};
ghost use Rattle.pyc_reading.specs.Traces.{Asks};
ghost use Rattle.pyc_reading.specs.Owing.{detail_keys, text_by};
ghost use Rattle.pyc_type_forms.specs.TypeView.{kind_of, param_of, param_row, params_of, ty_of};

use crate::messages::{Override, required_argument_text, required_signature_text};
use pyc_obligations::{AskTypes, ask_types, is_assignable};
use pyc_type_forms::{Param, ParamKind, Params, Ty};
use std::alloc::{AllocError, Global};

/// Asks by what is known of the parameters of a method and of those of the ancestor's.
pub(crate) fn ask_rows<N: AskTypes>(
    alloc: Global,
    recorder: &mut N,
    reported: &Override<'_>,
    gots: &Params,
    wants: &Params,
) -> Result<(), AllocError>
    ensures { Asks (detail_keys (spec.rows_details (override_of reported.now) (params_of gots.now)
        (params_of wants.now)))
        (N.trace recorder.old) result (N.trace recorder.new) }
{
    match (gots, wants) {
        (Params::Listed(gots), Params::Listed(wants)) => {
            ask_parameters(alloc, recorder, reported, gots, wants)
        }
        _ => Ok(()),
    }
}

/// Asks by what is known of these rows of parameters.
fn ask_parameters<N: AskTypes>(
    alloc: Global,
    recorder: &mut N,
    reported: &Override<'_>,
    gots: &[Param],
    wants: &[Param],
) -> Result<(), AllocError>
    ensures { Asks
        (detail_keys (spec.parameters_details (override_of reported.now) (param_row gots.now) 0 (param_row wants.now)))
        (N.trace recorder.old) result (N.trace recorder.new) }
{
    let mut place = 0;
    for want in wants {
        ask_parameter(alloc, recorder, reported, gots, place, want)?;
        if is_plain(&want.kind) {
            place += 1;
        }
    }
    Ok(())
}

/// Asks by what is known of a parameter of the ancestor's, before which `place` plain ones stand.
fn ask_parameter<N: AskTypes>(
    alloc: Global,
    recorder: &mut N,
    reported: &Override<'_>,
    gots: &[Param],
    place: usize,
    want: &Param,
) -> Result<(), AllocError>
    ensures { Asks
        (detail_keys
        (spec.parameter_details (override_of reported.now) (param_row gots.now) place (param_of want.now).slot
        (param_of want.now).ty))
        (N.trace recorder.old) result (N.trace recorder.new) }
{
    if is_plain(&want.kind) {
        ask_argument(
            alloc,
            recorder,
            reported,
            place,
            type_at(gots, place),
            &want.ty,
        )
    } else {
        Ok(())
    }
}

/// Asks by what is known of what takes an argument at a place, if something takes it.
fn ask_argument<N: AskTypes>(
    alloc: Global,
    recorder: &mut N,
    reported: &Override<'_>,
    place: usize,
    got: Option<&Ty>,
    want: &Ty,
) -> Result<(), AllocError>
    ensures { Asks
        (detail_keys
        (spec.argument_details (override_of reported.now) (place + 1) (option_map (λ ty. ty_of ty.now) got.entry)
        (ty_of want.now)))
        (N.trace recorder.old) result (N.trace recorder.new) }
{
    match got {
        Some(got) => ask_types(alloc, recorder, want, got),
        None => Ok(()),
    }
}

/// The text on a method with the parameters `gots` whose result is assignable: that on the first parameter that does
/// not take what the ancestor's takes, else that on the signatures as wholes.
pub(crate) fn rows_text<N: AskTypes>(
    alloc: Global,
    recorder: &N,
    reported: &Override<'_>,
    gots: &Params,
    wants: &Params,
) -> Result<String, AllocError>
    ensures { IfOk result (λ text. string_bytes text
        ≡ text_by (orders_at (N.trace recorder.now))
        (spec.rows_details (override_of reported.now) (params_of gots.now) (params_of wants.now))
        (messages.required_signature_text (override_of reported.now))) }
{
    match (gots, wants) {
        (Params::Listed(gots), Params::Listed(wants)) => {
            parameters_text(alloc, recorder, reported, gots, wants)
        }
        _ => required_signature_text(alloc, reported),
    }
}

/// The text on a method with these rows of parameters.
fn parameters_text<N: AskTypes>(
    alloc: Global,
    recorder: &N,
    reported: &Override<'_>,
    gots: &[Param],
    wants: &[Param],
) -> Result<String, AllocError>
    ensures { IfOk result (λ text. string_bytes text
        ≡ text_by (orders_at (N.trace recorder.now))
        (spec.parameters_details (override_of reported.now) (param_row gots.now) 0 (param_row wants.now))
        (messages.required_signature_text (override_of reported.now))) }
{
    let mut place = 0;
    for want in wants {
        if is_refused(recorder, gots, place, want) {
            return required_argument_text(alloc, reported, place + 1, &want.ty);
        }
        if is_plain(&want.kind) {
            place += 1;
        }
    }
    required_signature_text(alloc, reported)
}

/// Whether a parameter of the ancestor's, before which `place` plain ones stand, is plain, and what takes an argument
/// at its place does not take its type.
fn is_refused<N: AskTypes>(recorder: &N, gots: &[Param], place: usize, want: &Param) -> bool
    ensures { result
        ≡ spec.is_refused (orders_at (N.trace recorder.now)) (param_row gots.now) place (param_of want.now).slot
        (param_of want.now).ty }
{
    is_plain(&want.kind) && is_refused_by(recorder, type_at(gots, place), &want.ty)
}

/// Whether something takes an argument, and does not take this type.
fn is_refused_by<N: AskTypes>(recorder: &N, got: Option<&Ty>, want: &Ty) -> bool
    ensures { result
        ≡ spec.is_refused_by (orders_at (N.trace recorder.now)) (option_map (λ ty. ty_of ty.now) got.entry)
        (ty_of want.now) }
{
    match got {
        Some(got) => !is_assignable(recorder, want, got),
        None => false,
    }
}

/// The type of what takes an argument at a place: of the plain parameter there, else of `*args`.
fn type_at(gots: &[Param], place: usize) -> Option<&Ty>
    ensures { option_map (λ ty. ty_of ty.now) result ≡ spec.type_at (param_row gots.now) place }
{
    match plain_param_type(gots, place) {
        Some(ty) => Some(ty),
        None => star_in(gots),
    }
}

/// The type of the plain parameter before which `place` others stand.
fn plain_param_type(gots: &[Param], place: usize) -> Option<&Ty>
    ensures { option_map (λ ty. ty_of ty.now) result ≡ spec.plain_param_type (param_row gots.now) place }
{
    let mut left = place;
    for got in gots {
        if is_plain(&got.kind) {
            if left == 0 {
                return Some(&got.ty);
            }
            left -= 1;
        }
    }
    None
}

/// The type of the first `*args`.
fn star_in(gots: &[Param]) -> Option<&Ty>
    ensures { option_map (λ ty. ty_of ty.now) result ≡ spec.star_in (param_row gots.now) }
{
    for got in gots {
        if is_star(&got.kind) {
            return Some(&got.ty);
        }
    }
    None
}

/// Whether an argument at its place fills a parameter of this kind.
fn is_plain(kind: &ParamKind) -> bool
    ensures { result ≡ spec.is_plain (kind_of kind.now) }
{
    matches!(kind, ParamKind::Plain(_))
}

/// Whether a parameter of this kind is `*args`.
fn is_star(kind: &ParamKind) -> bool
    ensures { result ≡ spec.is_star (kind_of kind.now) }
{
    matches!(kind, ParamKind::Star)
}
