//! What is reported of the arguments of calls.

ghost use Rattle.std.specs.Prelude.{◌≡◌, IfOk, option_map};
ghost use Rattle.pyc_arguments.specs.Reporting as spec;
ghost use Rattle.pyc_arguments.specs.Views.{call_in};
ghost use Rattle.pyc_matching.specs.Views.{missing_in};
ghost use Rattle.pyc_reading.specs.Traces.{Performs, reporting};
ghost use Rattle.pyc_type_forms.specs.TypeView.{ty_of};

use crate::texts::{callee_text, missing_argument_text, missing_text};
use pyc_ast::Position;
use pyc_class_ids::BuiltinClass;
use pyc_matching::MissingArgument;
use pyc_messages::{repeated_argument_text, too_many_arguments_text, unexpected_argument_text};
use pyc_obligations::report_error;
use pyc_reading::Ask;
use pyc_report::Code;
use pyc_type_forms::Ty;
use std::alloc::{AllocError, Global};

/// What is called, as messages show it.
#[derive(Clone, Copy)]
pub enum CalleeName<'a> {
    /// A name, or an attribute of a module.
    Name(&'a str),
    /// An attribute of an instance or a class object, with the name of the class.
    Member(&'a str, &'a str),
    /// Anything else.
    Nameless,
}

/// A call: where it begins, and what is called.
#[derive(Clone, Copy)]
pub struct Call<'a> {
    pub at: Position,
    pub shown: CalleeName<'a>,
}

/// The name of the class of which a type is an instance or the class object. It takes no memory.
pub fn owner_name(ty: &Ty) -> Option<&str>
    ensures { option_map (λ name. name.now) result ≡ spec.owner_name (ty_of ty.now) }
{
    match ty {
        Ty::Instance(class) => Some(class.name()),
        Ty::Class(class) => Some(class.name()),
        Ty::List(_) => Some(BuiltinClass::List.name()),
        Ty::Dict(_) => Some(BuiltinClass::Dict.name()),
        Ty::Tuple(_) => Some(BuiltinClass::Tuple.name()),
        Ty::TupleOf(_) => Some(BuiltinClass::Tuple.name()),
        _ => None,
    }
}

/// Reports that the parameter of a name is filled already.
#[tactic(auto, unfolding(crate::specs::Reporting::repeated_message))]
pub(crate) fn report_repeated<N: Ask>(
    alloc: Global,
    recorder: &mut N,
    call: &Call<'_>,
    name: &str,
) -> Result<(), AllocError>
    ensures { Performs (λ u. u) (reporting (spec.repeated_message (call_in call.now) name.now)) (N.trace recorder.old)
        result (N.trace recorder.new) }
{
    let shown = callee_text(alloc, call.shown)?;
    let text = repeated_argument_text(alloc, name, shown.as_str())?;
    report_error(recorder, call.at, Code::CallArg, text)
}

/// Reports that there is no parameter of a name.
#[tactic(auto, unfolding(crate::specs::Reporting::unexpected_message))]
pub(crate) fn report_unexpected<N: Ask>(
    alloc: Global,
    recorder: &mut N,
    call: &Call<'_>,
    name: &str,
) -> Result<(), AllocError>
    ensures { Performs (λ u. u) (reporting (spec.unexpected_message (call_in call.now) name.now)) (N.trace recorder.old)
        result (N.trace recorder.new) }
{
    let shown = callee_text(alloc, call.shown)?;
    let text = unexpected_argument_text(alloc, name, shown.as_str())?;
    report_error(recorder, call.at, Code::CallArg, text)
}

/// Reports that no parameter is left for the places of arguments.
#[tactic(auto, unfolding(crate::specs::Reporting::too_many_message))]
pub(crate) fn report_too_many<N: Ask>(
    alloc: Global,
    recorder: &mut N,
    call: &Call<'_>,
) -> Result<(), AllocError>
    ensures { Performs (λ u. u) (reporting (spec.too_many_message (call_in call.now))) (N.trace recorder.old) result
        (N.trace recorder.new) }
{
    let shown = callee_text(alloc, call.shown)?;
    let text = too_many_arguments_text(alloc, shown.as_str())?;
    report_error(recorder, call.at, Code::CallArg, text)
}

/// Reports that no argument fills a parameter.
#[tactic(auto, unfolding(crate::specs::Reporting::missing_message))]
pub(crate) fn report_missing<N: Ask>(
    alloc: Global,
    recorder: &mut N,
    call: &Call<'_>,
    missing: MissingArgument<'_>,
) -> Result<(), AllocError>
    ensures { Performs (λ u. u) (reporting (spec.missing_message (call_in call.now) (missing_in missing.entry)))
        (N.trace recorder.old) result (N.trace recorder.new) }
{
    let shown = callee_text(alloc, call.shown)?;
    let name = missing_text(alloc, missing)?;
    let text = missing_argument_text(alloc, missing, name.as_str(), shown.as_str())?;
    report_error(recorder, call.at, Code::CallArg, text)
}
