//! The places that the statements of a block assign.

ghost use Rattle.std.specs.Prelude.{◌≡◌, ◌++◌, map, option_map, IfOk, OnOk};
ghost use Rattle.pyc_ast.specs.ExprView.{expr_of};
ghost use Rattle.pyc_ast.specs.Statements.{stmts};
ghost use Rattle.pyc_ast.specs.StatementView.{stmt_form_of, stmt_of};
ghost use Rattle.pyc_ast.specs.TargetView.{target_of};
ghost use Rattle.pyc_locals.specs.AssignedPlaces as spec;
ghost use Rattle.pyc_bindings.specs.ScopeView.{part_of};

use crate::imports::{push_aliases, push_modules, push_name};
use crate::targets::{push_target, push_targets};
use pyc_ast::{AnnotatedAssignment, Stmt, StmtForm};
use pyc_bindings::{Part, PartForm, scope_parts};
use pyc_places::Place;
use std::alloc::{AllocError, Global};

/// The places that the statements of a block assign, those of the blocks in it among them. The only error is that
/// memory runs out.
pub fn assigned_places(alloc: Global, statements: &[Stmt]) -> Result<Vec<Place>, AllocError>
    ensures { IfOk result (λ places. places.items ≡ spec.assigned_places (stmts (map stmt_of statements.now))) }
{
    let mut places = Vec::new(alloc);
    push_assigned(alloc, statements, &mut places)?;
    Ok(places)
}

/// Adds the places that the statements of a block assign. The only error is that memory runs out.
#[tactic(auto, unfolding(crate::specs::AssignedPlaces::assigned_places))]
pub fn push_assigned(
    alloc: Global,
    statements: &[Stmt],
    places: &mut Vec<Place>,
) -> Result<(), AllocError>
    ensures { OnOk result (places.new.items
        ≡ places.old.items ++ spec.assigned_places (stmts (map stmt_of statements.now))) }
{
    let parts = scope_parts(alloc, statements)?;
    for part in &parts {
        push_part(alloc, part, places)?;
    }
    Ok(())
}

/// Adds the places that a part of a scope assigns.
fn push_part(alloc: Global, part: &Part<'_>, places: &mut Vec<Place>) -> Result<(), AllocError>
    ensures { OnOk result (places.new.items ≡ places.old.items ++ spec.places_of_part (part_of part.now)) }
{
    match part.form {
        PartForm::Statement(statement) => push_statement(alloc, &statement.form, places),
        PartForm::Target(target) => push_target(alloc, target, places),
        PartForm::Caught(name) => push_name(alloc, name, places),
    }
}

/// Adds the places that a simple statement or a definition assigns.
fn push_statement(alloc: Global, form: &StmtForm, places: &mut Vec<Place>) -> Result<(), AllocError>
    ensures { OnOk result (places.new.items ≡ places.old.items ++ spec.statement_places (stmt_form_of form.now)) }
{
    match form {
        StmtForm::Assign { targets, .. } => push_targets(alloc, targets, places),
        StmtForm::Annotate(found) => push_annotated(alloc, found, places),
        StmtForm::Augment(found) => push_target(alloc, &found.target, places),
        StmtForm::Delete(target) => push_target(alloc, target, places),
        StmtForm::Import(modules) => push_modules(alloc, modules, places),
        StmtForm::ImportFrom(from) => push_aliases(alloc, &from.names, places),
        StmtForm::Function { head, .. } => push_name(alloc, &head.name, places),
        StmtForm::Class { head, .. } => push_name(alloc, &head.name, places),
        _ => Ok(()),
    }
}

/// Adds the places that an annotated assignment assigns: without a value none.
fn push_annotated(
    alloc: Global,
    found: &AnnotatedAssignment,
    places: &mut Vec<Place>,
) -> Result<(), AllocError>
    ensures { OnOk result (places.new.items
        ≡ places.old.items
        ++ spec.annotated_places (target_of found.now.target) (option_map expr_of found.now.value)) }
{
    match &found.value {
        Some(_) => push_target(alloc, &found.target, places),
        None => Ok(()),
    }
}
