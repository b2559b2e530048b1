//! The ends of functions.

ghost use Rattle.std.specs.Prelude.{◌≡◌, map, false, true};
ghost use Rattle.pyc_ast.specs.ExprView.{expr_of};
ghost use Rattle.pyc_ast.specs.Statements.{stmts};
ghost use Rattle.pyc_ast.specs.StatementView.{stmt_of, stmt_form_of};
ghost use Rattle.pyc_functions.specs.Ends as spec;
ghost use Rattle.pyc_functions.specs.Views.{required_end_in};
ghost use Rattle.pyc_reading.specs.Traces.{Performs};
ghost use Rattle.pyc_type_forms.specs.TypeView.{ty_of};

use pyc_ast::{Constant, Expr, Form, Position, Stmt, StmtForm};
use pyc_messages::missing_return_text;
use pyc_obligations::{AsObligation, AskTypes, require};
use pyc_report::{Message, ObligationKind};
use pyc_type_forms::Ty;
use std::alloc::{AllocError, Global};

/// Whether a body is only a docstring, `pass` or `...`. It takes no memory.
pub(crate) fn is_idle_body(statements: &[Stmt]) -> bool
    ensures { result ≡ spec.is_idle_body (stmts (map stmt_of statements.now)) }
{
    match statements.split_first() {
        Some((first, rest)) => is_idle(true, &first.form) && all_idle(rest),
        None => true,
    }
}

/// Whether statements that begin no body do nothing.
fn all_idle(statements: &[Stmt]) -> bool
    ensures { result ≡ spec.all_idle false (stmts (map stmt_of statements.now)) }
{
    for statement in statements {
        if !is_idle(false, &statement.form) {
            return false;
        }
    }
    true
}

/// Whether a statement does nothing: `pass`, `...`, or a string at the beginning.
fn is_idle(is_first: bool, form: &StmtForm) -> bool
    ensures { result ≡ spec.is_idle is_first (stmt_form_of form.now) }
{
    match form {
        StmtForm::Pass => true,
        StmtForm::Expression(e) => is_idle_expression(is_first, e),
        _ => false,
    }
}

/// Whether an expression does nothing as a statement.
fn is_idle_expression(is_first: bool, e: &Expr) -> bool
    ensures { result ≡ spec.is_idle_expression is_first (expr_of e.now) }
{
    match &e.form {
        Form::Constant(Constant::Ellipsis) => true,
        Form::Constant(Constant::Str) => is_first,
        Form::StringAnnotation(_) => is_first,
        _ => false,
    }
}

/// Requires what the end of a function that begins at a position requires, if it is reached: that None is of the type
/// that the function gives. The only error is that memory runs out.
#[tactic(auto, unfolding(crate::specs::Ends::end_read))]
pub(crate) fn read_end<N: AskTypes>(
    alloc: Global,
    recorder: &mut N,
    at: Position,
    gives: &Ty,
    is_reached: bool,
) -> Result<(), AllocError>
    ensures { Performs (λ u. u) (spec.end_read at (ty_of gives.now) is_reached) (N.trace recorder.old) result
        (N.trace recorder.new) }
{
    if !is_reached {
        return Ok(());
    }
    let required = RequiredEnd {
        at,
        got: &Ty::None,
        want: gives,
    };
    require(alloc, recorder, &required)
}

/// The end of a function: where the function begins, and the types that it gives there and has to give.
#[derive(Clone, Copy)]
struct RequiredEnd<'a> {
    at: Position,
    got: &'a Ty,
    want: &'a Ty,
}

impl<N: AskTypes> AsObligation<N> for RequiredEnd<'_> {
    ghost obligation = { required_end_in };

    fn got(&self) -> &Ty {
        self.got
    }

    fn want(&self) -> &Ty {
        self.want
    }

    fn ask_details(&self, _alloc: Global, _recorder: &mut N) -> Result<(), AllocError> {
        Ok(())
    }

    fn message(&self, alloc: Global, _recorder: &N) -> Result<Message, AllocError> {
        let text = missing_return_text(alloc)?;
        Ok(Message::failing_at(self.at, ObligationKind::MissingReturn, text))
    }
}
