//! The parts of a `try`, and how it begins and ends.

ghost use Rattle.std.specs.Prelude.{◌≡◌, ◌++◌, map, IfOk, OnOk};
ghost use Rattle.pyc_locals.specs.AssignedPlaces.{assigned_places, handlers_places};
ghost use Rattle.pyc_ast.specs.Statements.{handlers};
ghost use Rattle.pyc_ast.specs.StatementView.{block_of, handler_of};
ghost use Rattle.pyc_blocks.specs.Blocks as spec;
ghost use Rattle.pyc_blocks.specs.Views.{try_places_in};
ghost use Rattle.pyc_places.specs.StateView.{state_of};

use crate::flows::join_states;
use crate::rules::places_of;
use pyc_ast::{Block, Handler};
use pyc_locals::{drop_places, push_assigned, push_handlers};
use pyc_places::{Place, State};
use std::alloc::{AllocError, Global};

/// The parts of a `try`.
#[derive(Clone, Copy)]
pub(crate) struct Try<'a> {
    pub inside: &'a Block,
    pub handlers: &'a [Handler],
    pub orelse: &'a Block,
    pub finally: &'a Block,
}

/// How a `try` begins: the places that its parts assign, and the state in which its handlers begin.
#[derive(Drop)]
pub(crate) struct BegunTry {
    /// The places that its block assigns.
    pub inside: Vec<Place>,
    /// The places that its handlers and its `else` assign.
    pub others: Vec<Place>,
    /// The places that its `finally` assigns.
    pub finally: Vec<Place>,
    /// The state in which its handlers begin.
    pub raised: State,
}

/// How a `try` begins in a state.
pub(crate) fn begin_try(
    alloc: Global,
    found: Try<'_>,
    before: &State,
) -> Result<BegunTry, AllocError>
    ensures inside { IfOk result (λ begun. begun.inside.items ≡ assigned_places (block_of found.entry.inside.now)) }
    ensures others { IfOk result (λ begun. begun.others.items
        ≡ handlers_places (handlers (map handler_of found.entry.handlers.now))
        ++ assigned_places (block_of found.entry.orelse.now)) }
    ensures finally { IfOk result (λ begun. begun.finally.items ≡ assigned_places (block_of found.entry.finally.now)) }
    ensures raised { IfOk result (λ begun. state_of begun.raised
        ≡ spec.raised_state (try_places_in begun) (state_of before.now)) }
{
    let inside = places_of(alloc, found.inside)?;
    let others = places_of_others(alloc, found.handlers, found.orelse)?;
    let finally = places_of(alloc, found.finally)?;
    let raised = drop_places(alloc, &inside, before)?;
    Ok(BegunTry {
        inside,
        others,
        finally,
        raised,
    })
}

/// The places that the handlers and the `else` of a `try` assign.
fn places_of_others(
    alloc: Global,
    row: &[Handler],
    orelse: &Block,
) -> Result<Vec<Place>, AllocError>
    ensures { IfOk result (λ places. places.items
        ≡ handlers_places (handlers (map handler_of row.now)) ++ assigned_places (block_of orelse.now)) }
{
    let mut places = Vec::new(alloc);
    push_handlers(alloc, row, &mut places)?;
    let Block::Of(statements) = orelse;
    push_assigned(alloc, statements, &mut places)?;
    Ok(places)
}

impl BegunTry {
    /// The state in which `finally` begins.
    pub(crate) fn finally_state(&self, alloc: Global) -> Result<State, AllocError>
        ensures { IfOk result (λ state. state_of state
            ≡ spec.finally_state (try_places_in self.now) (state_of self.now.raised)) }
    {
        drop_places(alloc, &self.others, &self.raised)
    }

    /// The state after the `try`, by the state in which its block with its `else` ends, and those in which handlers do.
    pub(crate) fn tried_state(
        &self,
        alloc: Global,
        end: &State,
        ends: &[State],
    ) -> Result<State, AllocError>
        ensures { IfOk result (λ state. state_of state
            ≡ spec.tried_state (try_places_in self.now) (state_of end.now) (map state_of ends.now)) }
    {
        let joined = join_states(alloc, end, ends)?;
        let dropped = drop_places(alloc, &self.inside, &joined)?;
        drop_places(alloc, &self.finally, &dropped)
    }

    /// The places that are assigned on the way out of the innermost loop inside the `try`: those on the way out of
    /// where it stands, and those of its `finally`.
    pub(crate) fn on_the_way_out(
        &self,
        alloc: Global,
        around: &[Place],
    ) -> Result<Vec<Place>, AllocError>
        ensures { IfOk result (λ places. places.items ≡ around.now ++ self.now.finally.items) }
    {
        let mut places = Vec::new(alloc);
        push_all(around, &mut places)?;
        push_all(&self.finally, &mut places)?;
        Ok(places)
    }
}

/// Adds places.
fn push_all(more: &[Place], places: &mut Vec<Place>) -> Result<(), AllocError>
    ensures { OnOk result (places.new.items ≡ places.old.items ++ more.now) }
{
    for place in more {
        places.push(place.clone()?)?;
    }
    Ok(())
}
