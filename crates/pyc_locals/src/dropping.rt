//! States after assignments to places.

ghost use Rattle.std.specs.Prelude.{◌≡◌, IfOk};
ghost use Rattle.pyc_locals.specs.AssignedPlaces as spec;
ghost use Rattle.pyc_places.specs.StateView.{state_of};

use pyc_places::{Place, State};
use std::alloc::{AllocError, Global};

/// A state without what is known of places and of all below them. The only error is that memory runs out.
pub fn drop_places(alloc: Global, places: &[Place], state: &State) -> Result<State, AllocError>
    ensures { IfOk result (λ after. state_of after ≡ spec.drop_places places.now (state_of state.now)) }
{
    state.drop_places(alloc, places)
}
