//! What is known after a condition that is true, and after one that is not.

ghost use Rattle.std.specs.Prelude.{◌≡◌, IfOk};
ghost use Rattle.pyc_narrowing.specs.SplitStates as spec;
ghost use Rattle.pyc_narrowing.specs.SplitView.{states_of};
ghost use Rattle.pyc_places.specs.StateView.{state_of};

use pyc_places::{State, join};
use std::alloc::{AllocError, Global};

/// What is known after a condition that is true, and after one that is not.
#[derive(Debug, Drop)]
pub struct SplitStates {
    pub if_true: State,
    pub if_false: State,
}

/// A condition that says nothing. The only error is that memory runs out.
pub(crate) fn unchanged(state: &State) -> Result<SplitStates, AllocError>
    ensures { IfOk result (λ states. states_of states ≡ spec.unchanged (state_of state.now)) }
{
    Ok(SplitStates {
        if_true: state.clone()?,
        if_false: state.clone()?,
    })
}

/// A condition that always holds. The only error is that memory runs out.
pub(crate) fn always(state: &State) -> Result<SplitStates, AllocError>
    ensures { IfOk result (λ states. states_of states ≡ spec.always (state_of state.now)) }
{
    Ok(SplitStates {
        if_true: state.clone()?,
        if_false: State::Unreachable,
    })
}

/// A condition that never holds. The only error is that memory runs out.
pub(crate) fn never(state: &State) -> Result<SplitStates, AllocError>
    ensures { IfOk result (λ states. states_of states ≡ spec.never (state_of state.now)) }
{
    Ok(SplitStates {
        if_true: State::Unreachable,
        if_false: state.clone()?,
    })
}

/// What is known after the negation of a condition. It takes no memory.
pub(crate) fn swapped(states: SplitStates) -> SplitStates
    ensures { states_of result ≡ spec.swapped (states_of states) }
{
    SplitStates {
        if_true: states.if_false,
        if_false: states.if_true,
    }
}

/// What is known after a comparison that is made to be, or else not to be. It takes no memory.
pub(crate) fn in_sense(sense: bool, states: SplitStates) -> SplitStates
    ensures { states_of result ≡ spec.in_sense sense (states_of states) }
{
    if sense { states } else { swapped(states) }
}

/// What is known after `and`, by both sides. The only error is that memory runs out.
pub(crate) fn and_states(
    alloc: Global,
    left: &SplitStates,
    right: SplitStates,
) -> Result<SplitStates, AllocError>
    ensures { IfOk result (λ states. states_of states
        ≡ spec.and_states (states_of left.now) (states_of right)) }
{
    let if_false = join(alloc, &left.if_false, &right.if_false)?;
    Ok(SplitStates {
        if_true: right.if_true,
        if_false,
    })
}

/// What is known after `or`, by both sides. The only error is that memory runs out.
pub(crate) fn or_states(
    alloc: Global,
    left: &SplitStates,
    right: SplitStates,
) -> Result<SplitStates, AllocError>
    ensures { IfOk result (λ states. states_of states
        ≡ spec.or_states (states_of left.now) (states_of right)) }
{
    let if_true = join(alloc, &left.if_true, &right.if_true)?;
    Ok(SplitStates {
        if_true,
        if_false: right.if_false,
    })
}
