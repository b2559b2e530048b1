//! What is required, and what is reported where it does not hold.

ghost use Rattle.std.specs.Prelude.{◌≡◌, [], ◌∷◌, map, IfOk};
ghost use Rattle.pyc_obligations.specs.Asking.{orders_at};
ghost use Rattle.pyc_reading.specs.Traces.{Asks, Keeps, Performs, required as required_alone, owing};
ghost use Rattle.pyc_reading.specs.Owing.{Obligation, detail_keys, keys_of, message_by, row_keys, row_reported};
ghost use Rattle.pyc_reading.specs.Owing as spec;
ghost use Rattle.pyc_report.specs.Message.{message_in};
ghost use Rattle.pyc_type_forms.specs.TypeView.{ty_of};

use crate::judging::{AskTypes, ask_types, is_assignable};
use pyc_report::Message;
use pyc_type_forms::Ty;
use std::alloc::{AllocError, Global};

/// An obligation: one type has to be assignable to another, and it says what is reported where it is not.
pub trait AsObligation<N: AskTypes> {
    ghost obligation: { Self → Obligation };

    /// The type that has to be assignable.
    fn got(&self) -> &Ty
        ensures { ty_of result.now ≡ (obligation self.now).got };

    /// The type that it has to be assignable to.
    fn want(&self) -> &Ty
        ensures { ty_of result.now ≡ (obligation self.now).want };

    /// Asks by what its details are known. The only error is that memory runs out.
    fn ask_details(&self, alloc: Global, recorder: &mut N) -> Result<(), AllocError>
        ensures { Asks (detail_keys (obligation self.now).details) (N.trace recorder.old) result
            (N.trace recorder.new) };

    /// What is reported where it does not hold. The only error is that memory runs out.
    fn message(&self, alloc: Global, recorder: &N) -> Result<Message, AllocError>
        ensures { IfOk result (λ message. message_in message
            ≡ message_by (orders_at (N.trace recorder.now)) (obligation self.now)) };
}

/// An obligation by itself: it is asked, and reported where it does not hold. The only error is that memory runs out.
pub fn require<N: AskTypes, O: AsObligation<N>>(
    alloc: Global,
    recorder: &mut N,
    required: &O,
) -> Result<(), AllocError>
    ensures { Performs (λ u. u) (required_alone (O.obligation required.now)) (N.trace recorder.old) result
        (N.trace recorder.new) }
{
    ask(alloc, recorder, required)?;
    report_unless(alloc, recorder, required)
}

/// A row of obligations: all of them are asked, and of those that do not hold the first is reported. The only error is
/// that memory runs out.
pub fn require_row<N: AskTypes, O: AsObligation<N>>(
    alloc: Global,
    recorder: &mut N,
    row: &[O],
) -> Result<(), AllocError>
    ensures { Performs (λ u. u) (owing (map O.obligation row.now)) (N.trace recorder.old) result
        (N.trace recorder.new) }
{
    ask_row(alloc, recorder, row)?;
    report_row(alloc, recorder, row)
}

/// Asks by what an obligation is known.
fn ask<N: AskTypes, O: AsObligation<N>>(
    alloc: Global,
    recorder: &mut N,
    required: &O,
) -> Result<(), AllocError>
    ensures { Asks (keys_of (O.obligation required.now)) (N.trace recorder.old) result (N.trace recorder.new) }
{
    ask_types(alloc, recorder, required.got(), required.want())?;
    required.ask_details(alloc, recorder)
}

/// Asks by what a row of obligations is known.
fn ask_row<N: AskTypes, O: AsObligation<N>>(
    alloc: Global,
    recorder: &mut N,
    row: &[O],
) -> Result<(), AllocError>
    ensures { Asks (row_keys (map O.obligation row.now)) (N.trace recorder.old) result (N.trace recorder.new) }
{
    for required in row {
        ask(alloc, recorder, required)?;
    }
    Ok(())
}

/// Reports an obligation, unless it holds.
fn report_unless<N: AskTypes, O: AsObligation<N>>(
    alloc: Global,
    recorder: &mut N,
    required: &O,
) -> Result<(), AllocError>
    ensures { Keeps (row_reported (N.trace recorder.old).answers (O.obligation required.now ∷ []))
        (N.trace recorder.old) result
        (N.trace recorder.new) }
{
    if holds(recorder, required) {
        return Ok(());
    }
    let message = required.message(alloc, recorder)?;
    recorder.report(message)
}

/// Reports the first obligation of a row that does not hold.
fn report_row<N: AskTypes, O: AsObligation<N>>(
    alloc: Global,
    recorder: &mut N,
    row: &[O],
) -> Result<(), AllocError>
    ensures { Keeps (row_reported (N.trace recorder.old).answers (map O.obligation row.now)) (N.trace recorder.old)
        result
        (N.trace recorder.new) }
{
    for required in row {
        if !holds(recorder, required) {
            let message = required.message(alloc, recorder)?;
            return recorder.report(message);
        }
    }
    Ok(())
}

/// Whether an obligation holds, by the orders that are known.
fn holds<N: AskTypes, O: AsObligation<N>>(recorder: &N, required: &O) -> bool
    ensures { result ≡ spec.holds (N.trace recorder.now).answers (O.obligation required.now) }
{
    is_assignable(recorder, required.got(), required.want())
}
