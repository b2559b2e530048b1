//! What checks blocks, and how loops begin.

ghost use Rattle.std.specs.Prelude.{◌≡◌, IfOk};
ghost use Rattle.pyc_locals.specs.AssignedPlaces.{assigned_places};
ghost use Rattle.pyc_ast.specs.ExprView.{expr_of};
ghost use Rattle.pyc_ast.specs.StatementView.{block_of, for_of};
ghost use Rattle.pyc_blocks.specs.Blocks as spec;
ghost use Rattle.pyc_blocks.specs.Views.{begun_in, flow_in};
ghost use Rattle.pyc_reading.specs.Traces.{Performs};

use crate::flows::Flow;
use crate::parts::PartReader;
use pyc_ast::{Block, Expr, For};
use pyc_locals::{assigned_places, drop_places, push_target};
use pyc_obligations::AskTypes;
use pyc_places::{Place, State};
use std::alloc::{AllocError, Global};
use std::marker::PhantomData;

/// Checks blocks: what checks their parts, and the places that are assigned on the way out of the innermost loop.
#[derive(Clone, Copy)]
pub(crate) struct Blocks<'a, N, P> {
    pub alloc: Global,
    pub parts: &'a P,
    pub on_the_way_out: &'a [Place],
    pub of: PhantomData<N>,
}

/// The state in which the `else` of a loop begins, and the states in which the loop around it was left.
#[derive(Drop)]
pub(crate) struct Begun {
    pub exit: State,
    pub around: Vec<State>,
}

impl<N: AskTypes, P: PartReader<N>> Blocks<'_, N, P> {
    /// Begins a turn of a `while`: it checks its condition at the entry of the loop.
    #[tactic(auto, using(pyc_obligations::proofs::Steps::performing), unfolding(crate::specs::Blocks::while_begun))]
    pub(crate) fn begin_while(
        &self,
        recorder: &mut N,
        test: &Expr,
        inside: &Block,
        flow: &mut Flow,
    ) -> Result<Begun, AllocError>
        requires { P.ready self.now.parts.now }
        ensures { Performs (λ begun. begun_in begun flow.new)
            (spec.while_begun (P.parts self.now.parts.now) (expr_of test.now) (assigned_places (block_of inside.now))
            (flow_in flow.old)) (N.trace recorder.old) result (N.trace recorder.new) }
    {
        let places = places_of(self.alloc, inside)?;
        let around = flow.enter(self.alloc, &places)?;
        let states = self
            .parts
            .check_test(self.alloc, recorder, test, &flow.flow_state)?;
        flow.set(states.if_true);
        Ok(Begun {
            exit: states.if_false,
            around,
        })
    }

    /// Begins a turn of a `for`: it is exhausted at the entry of the loop.
    #[tactic(auto, using(pyc_obligations::proofs::Steps::performing), unfolding(crate::specs::Blocks::for_begun))]
    pub(crate) fn begin_for(
        &self,
        recorder: &mut N,
        head: &For,
        inside: &Block,
        flow: &mut Flow,
    ) -> Result<Begun, AllocError>
        requires { P.ready self.now.parts.now }
        ensures { Performs (λ begun. begun_in begun flow.new)
            (spec.for_begun (P.parts self.now.parts.now) (for_of head.now)
            (spec.turn_places (for_of head.now) (block_of inside.now)) (flow_in flow.old)) (N.trace recorder.old) result
            (N.trace recorder.new) }
    {
        let places = turn_places(self.alloc, head, inside)?;
        let exit = drop_places(self.alloc, &places, &flow.flow_state.state)?;
        let around = flow.take_left(self.alloc);
        self.parts
            .turn(self.alloc, recorder, head, &places, &mut flow.flow_state)?;
        Ok(Begun { exit, around })
    }
}

/// The places that the statements of a block assign.
pub(crate) fn places_of(alloc: Global, block: &Block) -> Result<Vec<Place>, AllocError>
    ensures { IfOk result (λ places. places.items ≡ assigned_places (block_of block.now)) }
{
    let Block::Of(statements) = block;
    assigned_places(alloc, statements)
}

/// The places that the turns of a `for` assign.
fn turn_places(alloc: Global, head: &For, inside: &Block) -> Result<Vec<Place>, AllocError>
    ensures { IfOk result (λ places. places.items ≡ spec.turn_places (for_of head.now) (block_of inside.now)) }
{
    let mut places = places_of(alloc, inside)?;
    push_target(alloc, &head.target, &mut places)?;
    Ok(places)
}
