//! What is reported of names that override others.

ghost use Rattle.std.specs.Prelude.{◌≡◌, IfOk, string_bytes};
ghost use Rattle.pyc_overrides.specs.Messages as spec;
ghost use Rattle.pyc_overrides.specs.Views.{override_of};
ghost use Rattle.pyc_type_forms.specs.TypeView.{ty_of};

use pyc_messages::{
    argument_override_text, result_override_text, signature_override_text, variable_override_text,
};
use pyc_type_forms::{Ty, show};
use std::alloc::{AllocError, Global};

/// A name that overrides what an ancestor declares: the name, that of the ancestor, and whether each is a method.
#[derive(Clone, Copy)]
pub(crate) struct Override<'a> {
    pub(crate) name: &'a str,
    pub(crate) base: &'a str,
    pub(crate) got_is_method: bool,
    pub(crate) want_is_method: bool,
}

/// The text on the parameter of a number, of which the ancestor wants a type.
#[tactic(auto, unfolding(crate::specs::Messages::required_argument_text))]
pub(crate) fn required_argument_text(
    alloc: Global,
    reported: &Override<'_>,
    number: usize,
    want: &Ty,
) -> Result<String, AllocError>
    ensures { IfOk result (λ text. string_bytes text
        ≡ spec.required_argument_text (override_of reported.now) number (ty_of want.now)) }
{
    let want = show(alloc, want)?;
    argument_override_text(alloc, number, reported.name, reported.base, want.as_str())
}

/// The text on a method that gives a type, where the ancestor's gives another.
#[tactic(auto, unfolding(crate::specs::Messages::required_result_text))]
pub(crate) fn required_result_text(
    alloc: Global,
    reported: &Override<'_>,
    got: &Ty,
    want: &Ty,
) -> Result<String, AllocError>
    ensures { IfOk result (λ text. string_bytes text
        ≡ spec.required_result_text (override_of reported.now) (ty_of got.now) (ty_of want.now)) }
{
    let got = show(alloc, got)?;
    let want = show(alloc, want)?;
    result_override_text(
        alloc,
        reported.name,
        reported.base,
        got.as_str(),
        want.as_str(),
    )
}

/// The text on a method whose signature is another in any other way, or that stands against something else.
#[tactic(auto, unfolding(crate::specs::Messages::required_signature_text))]
pub(crate) fn required_signature_text(
    alloc: Global,
    reported: &Override<'_>,
) -> Result<String, AllocError>
    ensures { IfOk result (λ text. string_bytes text ≡ spec.required_signature_text (override_of reported.now)) }
{
    signature_override_text(alloc, reported.name, reported.base)
}

/// The text on what is no method, and of another type than the ancestor's.
#[tactic(auto, unfolding(crate::specs::Messages::required_variable_text))]
pub(crate) fn required_variable_text(
    alloc: Global,
    reported: &Override<'_>,
    got: &Ty,
    want: &Ty,
) -> Result<String, AllocError>
    ensures { IfOk result (λ text. string_bytes text
        ≡ spec.required_variable_text (override_of reported.now) (ty_of got.now) (ty_of want.now)) }
{
    let got = show(alloc, got)?;
    let want = show(alloc, want)?;
    variable_override_text(alloc, reported.base, got.as_str(), want.as_str())
}
