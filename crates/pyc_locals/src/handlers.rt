//! The places that the handlers of a `try` assign.

ghost use Rattle.std.specs.Prelude.{◌≡◌, ◌++◌, map, OnOk};
ghost use Rattle.pyc_ast.specs.Statements.{handlers};
ghost use Rattle.pyc_ast.specs.StatementView.{block_of, handler_of};
ghost use Rattle.pyc_locals.specs.AssignedPlaces as spec;

use crate::imports::push_name;
use crate::statements::push_assigned;
use pyc_ast::{Block, Handler, Text};
use pyc_places::Place;
use std::alloc::{AllocError, Global};

/// Adds the places that the handlers of a `try` assign: the names that they bind, and what their blocks assign. The
/// only error is that memory runs out.
pub fn push_handlers(
    alloc: Global,
    row: &[Handler],
    places: &mut Vec<Place>,
) -> Result<(), AllocError>
    ensures { OnOk result (places.new.items
        ≡ places.old.items ++ spec.handlers_places (handlers (map handler_of row.now))) }
{
    for handler in row {
        push_caught(alloc, &handler.name, places)?;
        push_inside(alloc, &handler.body, places)?;
    }
    Ok(())
}

/// Adds the name that a handler binds.
fn push_caught(
    alloc: Global,
    name: &Option<Text>,
    places: &mut Vec<Place>,
) -> Result<(), AllocError>
    ensures { OnOk result (places.new.items ≡ places.old.items ++ spec.name_places name.now) }
{
    match name {
        Some(name) => push_name(alloc, name, places),
        None => Ok(()),
    }
}

/// Adds the places that the statements of a block assign.
fn push_inside(alloc: Global, block: &Block, places: &mut Vec<Place>) -> Result<(), AllocError>
    ensures { OnOk result (places.new.items
        ≡ places.old.items ++ spec.assigned_places (block_of block.now)) }
{
    let Block::Of(statements) = block;
    push_assigned(alloc, statements, places)
}
