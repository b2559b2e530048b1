//! What a rule reports by itself.

ghost use Rattle.std.specs.Prelude.{string_bytes};
ghost use Rattle.pyc_reading.specs.Traces.{Performs, error_reported, line_reported, note_reported};

use crate::ask::Ask;
use pyc_ast::Position;
use pyc_report::{Code, Message};
use std::alloc::AllocError;

/// Reports an error at a position. The only error is that memory runs out.
pub fn report_error<N: Ask>(
    ask: &mut N,
    at: Position,
    code: Code,
    text: String,
) -> Result<(), AllocError>
    ensures { Performs (λ u. u) (error_reported at code (string_bytes text)) (N.trace ask.old) result
        (N.trace ask.new) }
{
    ask.report(Message::error_at(at, code, text))
}

/// Reports an error on a line as a whole. The only error is that memory runs out.
pub fn report_line<N: Ask>(
    ask: &mut N,
    line: usize,
    code: Code,
    text: String,
) -> Result<(), AllocError>
    ensures { Performs (λ u. u) (line_reported line code (string_bytes text)) (N.trace ask.old) result
        (N.trace ask.new) }
{
    ask.report(Message::error_on_line(line, code, text))
}

/// Reports a note at a position. The only error is that memory runs out.
pub fn report_note<N: Ask>(ask: &mut N, at: Position, text: String) -> Result<(), AllocError>
    ensures { Performs (λ u. u) (note_reported at (string_bytes text)) (N.trace ask.old) result (N.trace ask.new) }
{
    ask.report(Message::note_at(at, text))
}
