//! What is reported of what cannot be called.

ghost use Rattle.std.specs.Prelude.{string_bytes};
ghost use Rattle.pyc_arguments.specs.Views.{call_in};
ghost use Rattle.pyc_calls.specs.Called as spec;
ghost use Rattle.pyc_reading.specs.Traces.{Performs};
ghost use Rattle.pyc_report.specs.declared.message.Code.TheVariants as code;
ghost use Rattle.pyc_report.specs.Message.{error_at};
ghost use Rattle.pyc_type_forms.specs.TypeView.{ty_of};

use pyc_arguments::Call;
use pyc_ast::Position;
use pyc_messages::not_callable_text;
use pyc_obligations::report_error;
use pyc_reading::Ask;
use pyc_report::Code;
use pyc_type_forms::{Ty, show};
use std::alloc::{AllocError, Global};

/// Reports an error of a call, which is Any.
fn report_call_error<N: Ask>(recorder: &mut N, at: Position, text: String) -> Result<Ty, AllocError>
    ensures { Performs ty_of (spec.report_call_error (error_at at code.Operator (string_bytes text)))
        (N.trace recorder.old) result (N.trace recorder.new) }
{
    report_error(recorder, at, Code::Operator, text)?;
    Ok(Ty::Any)
}

/// Reports that a value of a type cannot be called. The only error is that memory runs out.
#[tactic(auto, unfolding(crate::specs::Called::not_callable))]
pub(crate) fn not_callable<N: Ask>(
    alloc: Global,
    recorder: &mut N,
    call: &Call<'_>,
    ty: &Ty,
) -> Result<Ty, AllocError>
    ensures { Performs ty_of (spec.not_callable (call_in call.now) (ty_of ty.now)) (N.trace recorder.old) result
        (N.trace recorder.new) }
{
    let got = show(alloc, ty)?;
    let text = not_callable_text(alloc, got.as_str())?;
    report_call_error(recorder, call.at, text)
}
