//! What is known as statements are checked.

ghost use Rattle.std.specs.Prelude.{◌≡◌, [], map, IfOk, OnOk};
ghost use Rattle.pyc_blocks.specs.Flows as spec;
ghost use Rattle.pyc_blocks.specs.Views.{flow_in, handled_in};
ghost use Rattle.pyc_locals.specs.Views.{flow_state_in};
ghost use Rattle.pyc_places.specs.StateView.{state_of};

use pyc_locals::{FlowState, drop_places};
use pyc_places::{Place, State, join};
use std::alloc::{AllocError, Global};
use std::mem;

/// The point after what was checked, and the states in which the innermost loop was left by a `break`.
#[derive(Drop)]
pub(crate) struct Flow {
    pub flow_state: FlowState,
    pub left: Vec<State>,
}

impl Flow {
    /// A flow goes on in a state.
    pub(crate) fn set(&mut self, state: State)
        ensures { flow_in self.new ≡ spec.with_state (flow_in self.old) (state_of state) }
    {
        self.flow_state.state = state;
    }

    /// No run goes on.
    pub(crate) fn end(&mut self)
        ensures { flow_in self.new ≡ spec.make_unreachable (flow_in self.old) }
    {
        self.flow_state.state = State::Unreachable;
    }

    /// No run goes on; answers the state from before.
    pub(crate) fn take_state(&mut self) -> State
        ensures flow { flow_in self.new ≡ spec.make_unreachable (flow_in self.old) }
        ensures state { state_of result ≡ (flow_in self.old).flow_state.state }
    {
        mem::replace(&mut self.flow_state.state, State::Unreachable)
    }

    /// Leaves the innermost loop, past each `finally` that assigns some places.
    pub(crate) fn leave(
        &mut self,
        alloc: Global,
        on_the_way_out: &[Place],
    ) -> Result<(), AllocError>
        ensures { OnOk result (flow_in self.new ≡ spec.broken on_the_way_out.now (flow_in self.old)) }
    {
        let state = drop_places(alloc, on_the_way_out, &self.flow_state.state)?;
        self.left.push(state)?;
        self.flow_state.state = State::Unreachable;
        Ok(())
    }

    /// Enters a loop whose turns assign some places; answers the states in which the loop around it was left.
    pub(crate) fn enter(
        &mut self,
        alloc: Global,
        places: &[Place],
    ) -> Result<Vec<State>, AllocError>
        ensures flow { OnOk result (flow_in self.new ≡ spec.entered places.now (flow_in self.old)) }
        ensures around { IfOk result (λ around. map state_of around.items ≡ (flow_in self.old).left) }
    {
        self.flow_state.state = drop_places(alloc, places, &self.flow_state.state)?;
        Ok(mem::replace(&mut self.left, Vec::new(alloc)))
    }

    /// Takes out the states in which the loop around was left, at the beginning of a loop.
    pub(crate) fn take_left(&mut self, alloc: Global) -> Vec<State>
        ensures flow { flow_in self.new ≡ spec.flow_at (flow_in self.old).flow_state }
        ensures around { map state_of result.items ≡ (flow_in self.old).left }
    {
        mem::replace(&mut self.left, Vec::new(alloc))
    }

    /// Begins the `else` of a loop in a state, inside the loop around it; answers the states in which the loop itself
    /// was left.
    pub(crate) fn exhaust(&mut self, exit: State, around: Vec<State>) -> Vec<State>
        ensures flow { flow_in self.new
            ≡ spec.exhausted (flow_in self.old) (state_of exit) (map state_of around.items) }
        ensures left { map state_of result.items ≡ (flow_in self.old).left }
    {
        self.flow_state.state = exit;
        mem::replace(&mut self.left, around)
    }

    /// Ends a loop that was left in some states.
    pub(crate) fn end_loop(&mut self, alloc: Global, left: &[State]) -> Result<(), AllocError>
        ensures { OnOk result (flow_in self.new ≡ spec.after_loop (flow_in self.old) (map state_of left.now)) }
    {
        self.flow_state.state = join_states(alloc, &self.flow_state.state, left)?;
        Ok(())
    }

    /// Ends a block, and adds the state in which it ended; what follows begins in another.
    pub(crate) fn end_block(&mut self, ends: &mut Vec<State>, next: State) -> Result<(), AllocError>
        ensures { OnOk result (handled_in self.new ends.new
            ≡ spec.block_ended (handled_in self.old ends.old) (state_of next) (flow_in self.old)) }
    {
        let end = mem::replace(&mut self.flow_state.state, next);
        ends.push(end)?;
        Ok(())
    }

    /// Ends an `if` whose blocks ended in some states.
    pub(crate) fn join_ends(&mut self, alloc: Global, ends: Vec<State>) -> Result<(), AllocError>
        ensures { OnOk result (flow_in self.new
            ≡ spec.with_state (flow_in self.old)
            (spec.join_branch_ends (map state_of ends.items) (flow_in self.old).flow_state.state)) }
    {
        let last = self.take_state();
        self.flow_state.state = join_branch_ends(alloc, ends, last)?;
        Ok(())
    }

    /// Ends a `try` after its `finally`: what follows begins in a state, unless no run comes out of `finally`.
    pub(crate) fn end_finally(&mut self, after: State)
        ensures { flow_in self.new
            ≡ spec.with_state (flow_in self.old)
            (spec.after_finally (flow_in self.old).flow_state.state (state_of after)) }
    {
        match &self.flow_state.state {
            State::Unreachable => {}
            State::Reachable(_) => self.set(after),
        }
    }
}

/// What is known where one of some states holds: the first, and those of a list in turn.
pub(crate) fn join_states(
    alloc: Global,
    state: &State,
    others: &[State],
) -> Result<State, AllocError>
    ensures { IfOk result (λ joined. state_of joined
        ≡ spec.join_states (state_of state.now) (map state_of others.now)) }
{
    let mut joined = state.clone()?;
    for other in others {
        joined = join(alloc, &joined, other)?;
    }
    Ok(joined)
}

/// What is known where a block of an `if` ended, the last of them in a state.
fn join_branch_ends(alloc: Global, ends: Vec<State>, last: State) -> Result<State, AllocError>
    ensures { IfOk result (λ joined. state_of joined ≡ spec.join_branch_ends (map state_of ends.items)
        (state_of last)) }
{
    let mut joined = last;
    let mut ends = ends;
    while let Some(end) = ends.pop() {
        joined = join(alloc, &end, &joined)?;
    }
    Ok(joined)
}
