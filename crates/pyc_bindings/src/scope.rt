//! The parts of a scope, in text order.

ghost use Rattle.std.specs.Prelude.{◌≡◌, ◌++◌, flat_map, map, IfOk, OnOk, false, true, [], ◌∷◌};
ghost use Rattle.pyc_ast.specs.Statements as plain;
ghost use Rattle.pyc_ast.specs.Statements.{stmts};
ghost use Rattle.pyc_ast.specs.StatementView.{stmt_of, branch_of, handler_of, block_of, with_item_of};
ghost use Rattle.pyc_bindings.specs.Scopes as spec;
ghost use Rattle.pyc_bindings.specs.ScopeView.{part_of, part_form_of};

use crate::place::BindingSite;
use pyc_ast::{Block, Branch, Handler, Position, Stmt, StmtForm, Target, Text, WithItem};
use std::alloc::{AllocError, Global};

/// A part of a scope, and where it stands.
#[derive(Clone, Copy, Drop)]
pub struct Part<'a> {
    pub place: BindingSite,
    pub form: PartForm<'a>,
}

/// What a part of a scope is.
#[derive(Clone, Copy, Drop)]
pub enum PartForm<'a> {
    /// A simple statement or a definition.
    Statement(&'a Stmt),
    /// What a `for` or a `with` assigns to.
    Target(&'a Target),
    /// The name that an `except` binds.
    Caught(&'a Text),
}

/// The parts of a scope that has these statements, in text order: its simple statements and its definitions, what its
/// `for` and `with` assign to and the names that its `except` bind, with the blocks of `if`, `for`, `while`, `try` and
/// `with` opened, those of functions and classes not. The only error is that memory runs out.
pub fn scope_parts<'a>(alloc: Global, statements: &'a [Stmt]) -> Result<Vec<Part<'a>>, AllocError>
    ensures { IfOk result (λ parts. map part_of parts.items
        ≡ spec.parts_of (stmts (map stmt_of statements.now)) false) }
{
    let mut parts = Vec::new(alloc);
    push_statements(statements, false, &mut parts)?;
    Ok(parts)
}

/// Adds a part.
fn push_part<'a>(
    at: Position,
    is_guarded: bool,
    form: PartForm<'a>,
    parts: &mut Vec<Part<'a>>,
) -> Result<(), AllocError>
    ensures { OnOk result (map part_of parts.new.items
        ≡ map part_of parts.old.items ++ (spec.part at is_guarded (part_form_of form.entry) ∷ [])) }
{
    let place = BindingSite { at, is_guarded };
    parts.push(Part { place, form })?;
    Ok(())
}

/// Adds the parts of statements.
#[cycle(scope)]
fn push_statements<'a>(
    statements: &'a [Stmt],
    is_guarded: bool,
    parts: &mut Vec<Part<'a>>,
) -> Result<(), AllocError>
    ensures { OnOk result (map part_of parts.new.items
        ≡ map part_of parts.old.items ++ spec.parts_of (stmts (map stmt_of statements.now)) is_guarded) }
{
    for statement in statements {
        push_statement(statement, is_guarded, parts)?;
    }
    Ok(())
}

/// Adds the parts of a statement: itself, or what it assigns to and what its blocks hold.
#[cycle(scope)]
fn push_statement<'a>(
    statement: &'a Stmt,
    is_guarded: bool,
    parts: &mut Vec<Part<'a>>,
) -> Result<(), AllocError>
    ensures { OnOk result (map part_of parts.new.items
        ≡ map part_of parts.old.items ++ spec.statement_parts (stmt_of statement.now) is_guarded) }
{
    let at = statement.at;
    match &statement.form {
        StmtForm::If { branches, orelse } => {
            push_branches(branches, parts)?;
            push_block(orelse, true, parts)
        }
        StmtForm::While { body, orelse, .. } => {
            push_block(body, is_guarded, parts)?;
            push_block(orelse, is_guarded, parts)
        }
        StmtForm::For { head, body, orelse } => {
            push_part(at, is_guarded, PartForm::Target(&head.target), parts)?;
            push_block(body, is_guarded, parts)?;
            push_block(orelse, is_guarded, parts)
        }
        StmtForm::Try {
            body,
            handlers,
            orelse,
            finally,
        } => {
            push_block(body, true, parts)?;
            push_handlers(handlers, parts)?;
            push_block(orelse, true, parts)?;
            push_block(finally, true, parts)
        }
        StmtForm::With { items, body, .. } => {
            push_items(at, is_guarded, items, parts)?;
            push_block(body, is_guarded, parts)
        }
        _ => push_part(at, is_guarded, PartForm::Statement(statement), parts),
    }
}

/// Adds the parts of a block.
#[cycle(scope)]
fn push_block<'a>(
    block: &'a Block,
    is_guarded: bool,
    parts: &mut Vec<Part<'a>>,
) -> Result<(), AllocError>
    ensures { OnOk result (map part_of parts.new.items
        ≡ map part_of parts.old.items ++ spec.parts_of (block_of block.now) is_guarded) }
{
    let Block::Of(statements) = block;
    push_statements(statements, is_guarded, parts)
}

/// Adds the parts of the blocks of an `if`.
#[cycle(scope)]
fn push_branches<'a>(branches: &'a [Branch], parts: &mut Vec<Part<'a>>) -> Result<(), AllocError>
    ensures { OnOk result (map part_of parts.new.items
        ≡ map part_of parts.old.items ++ spec.branches_parts (plain.branches (map branch_of branches.now))) }
{
    for branch in branches {
        push_block(&branch.body, true, parts)?;
    }
    Ok(())
}

/// Adds the parts of the handlers of a `try`.
#[cycle(scope)]
fn push_handlers<'a>(handlers: &'a [Handler], parts: &mut Vec<Part<'a>>) -> Result<(), AllocError>
    ensures { OnOk result (map part_of parts.new.items
        ≡ map part_of parts.old.items ++ spec.handlers_parts (plain.handlers (map handler_of handlers.now))) }
{
    for handler in handlers {
        push_name(handler.at, &handler.name, parts)?;
        push_block(&handler.body, true, parts)?;
    }
    Ok(())
}

/// Adds the name that an `except` binds.
fn push_name<'a>(
    at: Position,
    name: &'a Option<Text>,
    parts: &mut Vec<Part<'a>>,
) -> Result<(), AllocError>
    ensures { OnOk result (map part_of parts.new.items ≡ map part_of parts.old.items ++ spec.name_parts at name.now) }
{
    match name {
        Some(name) => push_part(at, true, PartForm::Caught(name), parts),
        None => Ok(()),
    }
}

/// Adds what the items of a `with` assign to.
fn push_items<'a>(
    at: Position,
    is_guarded: bool,
    items: &'a [WithItem],
    parts: &mut Vec<Part<'a>>,
) -> Result<(), AllocError>
    ensures { OnOk result (map part_of parts.new.items
        ≡ map part_of parts.old.items ++ flat_map (spec.item_parts at is_guarded) (map with_item_of items.now)) }
{
    for item in items {
        push_item(at, is_guarded, item, parts)?;
    }
    Ok(())
}

/// Adds what an item of a `with` assigns to.
fn push_item<'a>(
    at: Position,
    is_guarded: bool,
    item: &'a WithItem,
    parts: &mut Vec<Part<'a>>,
) -> Result<(), AllocError>
    ensures { OnOk result (map part_of parts.new.items
        ≡ map part_of parts.old.items ++ spec.item_parts at is_guarded (with_item_of item.now)) }
{
    match &item.target {
        Some(target) => push_part(at, is_guarded, PartForm::Target(target), parts),
        None => Ok(()),
    }
}
