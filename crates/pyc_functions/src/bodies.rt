//! The bodies of modules and classes.

ghost use Rattle.std.specs.Prelude.{◌≡◌, map};
ghost use Rattle.pyc_ast.specs.Modules.{module_of};
ghost use Rattle.pyc_ast.specs.Statements.{stmts};
ghost use Rattle.pyc_ast.specs.StatementView.{stmt_of};
ghost use Rattle.pyc_body_context.specs.Views.{body_in};
ghost use Rattle.pyc_functions.specs.Bodies as spec;
ghost use Rattle.pyc_reading.specs.Traces.{Performs};

use crate::functions::begun;
use crate::redefined::report_redefined;
use pyc_ast::{Module, Stmt};
use pyc_bindings::scope_bindings;
use pyc_blocks::read_statements;
use pyc_body_context::Body;
use pyc_locals::Locals;
use pyc_obligations::AskTypes;
use pyc_simple_statements::BodyParts;
use std::alloc::{AllocError, Global};

/// Reads the body of a class: its statements in turn, and then the names that it defines again; a body that suspends is
/// skipped. What does not hold is reported. The only error is that memory runs out.
pub fn read_class_body<N: AskTypes>(
    alloc: Global,
    recorder: &mut N,
    body: &Body<'_>,
    suspends: bool,
    statements: &[Stmt],
) -> Result<(), AllocError>
    ensures { Performs (λ u. u)
        (spec.class_body_reading (body_in body.now) suspends (stmts (map stmt_of statements.now)))
        (N.trace recorder.old)
        result (N.trace recorder.new) }
{
    if suspends {
        return Ok(());
    }
    read_class_statements(alloc, recorder, body, statements)
}

/// Reads the statements of a class, and the names that they define again.
#[tactic(auto, using(pyc_obligations::proofs::Steps::performing), unfolding(crate::specs::Bodies::class_statements_read))]
fn read_class_statements<N: AskTypes>(
    alloc: Global,
    recorder: &mut N,
    body: &Body<'_>,
    statements: &[Stmt],
) -> Result<(), AllocError>
    ensures { Performs (λ u. u) (spec.class_statements_read (body_in body.now) (stmts (map stmt_of statements.now)))
        (N.trace recorder.old) result (N.trace recorder.new) }
{
    read_plain_body(alloc, recorder, body, statements)?;
    let bindings = scope_bindings(alloc, statements)?;
    report_redefined(alloc, recorder, &bindings)
}

/// Reads the body of a module: its statements in turn; one that suspends is skipped. What does not hold is reported.
/// The only error is that memory runs out.
pub fn read_module_body<N: AskTypes>(
    alloc: Global,
    recorder: &mut N,
    body: &Body<'_>,
    found: &Module,
) -> Result<(), AllocError>
    ensures { Performs (λ u. u) (spec.module_body_reading (body_in body.now) (module_of found.now))
        (N.trace recorder.old)
        result (N.trace recorder.new) }
{
    if found.suspends {
        return Ok(());
    }
    read_plain_body(alloc, recorder, body, &found.statements)
}

/// Reads the statements of a body that is no function's, in turn.
#[tactic(auto, using(pyc_obligations::proofs::Steps::performing), unfolding(crate::specs::Bodies::plain_body_read))]
fn read_plain_body<N: AskTypes>(
    alloc: Global,
    recorder: &mut N,
    body: &Body<'_>,
    statements: &[Stmt],
) -> Result<(), AllocError>
    ensures { Performs (λ u. u) (spec.plain_body_read (body_in body.now) (stmts (map stmt_of statements.now)))
        (N.trace recorder.old) result (N.trace recorder.new) }
{
    let mut flow_state = begun(alloc, Locals::none(alloc));
    let parts = BodyParts { body };
    read_statements(alloc, recorder, &parts, statements, &mut flow_state)
}
