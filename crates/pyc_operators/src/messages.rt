//! What is reported where there is no such operation.

ghost use Rattle.std.specs.Prelude.{◌≡◌, IfOk, string_bytes};
ghost use Rattle.pyc_messages.specs.Expressions as message;
ghost use Rattle.pyc_operators.specs.Messages as spec;
ghost use Rattle.pyc_operators.specs.Operations.{symbol, unary_symbol};
ghost use Rattle.pyc_reading.specs.Traces.{Performs};
ghost use Rattle.pyc_report.specs.declared.message.Code.TheVariants as code;
ghost use Rattle.pyc_report.specs.Message.{error_at};
ghost use Rattle.pyc_type_forms.specs.Text.{text_of};
ghost use Rattle.pyc_type_forms.specs.TypeView.{ty_of};

use crate::operation::{Operation, UnaryOperation, symbol, unary_symbol};
use pyc_ast::Position;
use pyc_messages::{operand_text, operands_text};
use pyc_obligations::{AskTypes, report_error};
use pyc_report::Code;
use pyc_type_forms::{Ty, show};
use std::alloc::{AllocError, Global};

/// Reports an error of an operation, which is Any.
fn report_unsupported_operation<N: AskTypes>(
    recorder: &mut N,
    at: Position,
    text: String,
) -> Result<Ty, AllocError>
    ensures { Performs ty_of (spec.report_unsupported_operation (error_at at code.Operator (string_bytes text)))
        (N.trace recorder.old) result (N.trace recorder.new) }
{
    report_error(recorder, at, Code::Operator, text)?;
    Ok(Ty::Any)
}

/// Reports that an operation does not take these operands. The only error is that memory runs out.
#[tactic(auto, unfolding(crate::specs::Messages::wrong_operands))]
pub(crate) fn wrong_operands<N: AskTypes>(
    alloc: Global,
    recorder: &mut N,
    at: Position,
    operation: Operation,
    left: &Ty,
    right: &Ty,
) -> Result<Ty, AllocError>
    ensures { Performs ty_of (spec.wrong_operands at operation (ty_of left.now) (ty_of right.now))
        (N.trace recorder.old)
        result (N.trace recorder.new) }
{
    let text = shown_operands(alloc, operation, left, right)?;
    report_unsupported_operation(recorder, at, text)
}

/// The text on operands of these types, which an operation does not take.
fn shown_operands(
    alloc: Global,
    operation: Operation,
    left: &Ty,
    right: &Ty,
) -> Result<String, AllocError>
    ensures { IfOk result (λ text. string_bytes text
        ≡ message.operands_text (symbol operation) (text_of (ty_of left.now)) (text_of (ty_of right.now))) }
{
    let left = show(alloc, left)?;
    let right = show(alloc, right)?;
    operands_text(alloc, symbol(operation), left.as_str(), right.as_str())
}

/// Reports that a unary operation does not take this operand. The only error is that memory runs out.
#[tactic(auto, unfolding(crate::specs::Messages::wrong_operand))]
pub(crate) fn wrong_operand<N: AskTypes>(
    alloc: Global,
    recorder: &mut N,
    at: Position,
    operation: UnaryOperation,
    operand: &Ty,
) -> Result<Ty, AllocError>
    ensures { Performs ty_of (spec.wrong_operand at operation (ty_of operand.now)) (N.trace recorder.old) result
        (N.trace recorder.new) }
{
    let text = shown_operand(alloc, operation, operand)?;
    report_unsupported_operation(recorder, at, text)
}

/// The text on an operand of this type, which a unary operation does not take.
fn shown_operand(
    alloc: Global,
    operation: UnaryOperation,
    operand: &Ty,
) -> Result<String, AllocError>
    ensures { IfOk result (λ text. string_bytes text
        ≡ message.operand_text (unary_symbol operation) (text_of (ty_of operand.now))) }
{
    let operand = show(alloc, operand)?;
    operand_text(alloc, unary_symbol(operation), operand.as_str())
}
