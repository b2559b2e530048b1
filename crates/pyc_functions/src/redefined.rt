//! What is reported of names that are defined again.

ghost use Rattle.std.specs.Prelude.{map};
ghost use Rattle.pyc_bindings.specs.BindingView.{binding_of};
ghost use Rattle.pyc_bindings.specs.RedefinitionView.{redefinition_of};
ghost use Rattle.pyc_functions.specs.Redefined as spec;
ghost use Rattle.pyc_reading.specs.Traces.{Performs};
ghost use Rattle.pyc_reading.specs.Readings.{each};

use pyc_bindings::{Binding, Redefinition, redefinitions};
use pyc_messages::redefinition_text;
use pyc_reading::{Ask, report_error};
use pyc_report::Code;
use std::alloc::{AllocError, Global};

/// Reports the names that bindings define again, in turn. The only error is that memory runs out.
#[tactic(auto, using(pyc_obligations::proofs::Steps::performing))]
pub(crate) fn report_redefined<N: Ask>(
    alloc: Global,
    recorder: &mut N,
    bindings: &[Binding],
) -> Result<(), AllocError>
    ensures { Performs (λ u. u) (spec.redefined_reported (map binding_of bindings.now)) (N.trace recorder.old) result
        (N.trace recorder.new) }
{
    let again = redefinitions(alloc, bindings)?;
    report_redefinitions(alloc, recorder, &again)
}

/// Reports names that are defined again, in turn. The only error is that memory runs out.
pub fn report_redefinitions<N: Ask>(
    alloc: Global,
    recorder: &mut N,
    again: &[Redefinition],
) -> Result<(), AllocError>
    ensures { Performs (λ u. u) (each spec.redefinition_reading (map redefinition_of again.now)) (N.trace recorder.old)
        result (N.trace recorder.new) }
{
    for found in again {
        report_redefinition(alloc, recorder, found)?;
    }
    Ok(())
}

/// Reports a name that is defined again.
#[tactic(auto, using(pyc_obligations::proofs::Steps::performing))]
fn report_redefinition<N: Ask>(
    alloc: Global,
    recorder: &mut N,
    found: &Redefinition,
) -> Result<(), AllocError>
    ensures { Performs (λ u. u) (spec.redefinition_reading (redefinition_of found.now)) (N.trace recorder.old) result
        (N.trace recorder.new) }
{
    let text = redefinition_text(alloc, found.name.as_str(), found.line)?;
    report_error(recorder, found.at, Code::NoRedef, text)
}
