//! The statements of a body.

ghost use Rattle.std.specs.Prelude.{map};
ghost use Rattle.pyc_ast.specs.Statements.{stmts};
ghost use Rattle.pyc_ast.specs.StatementView.{stmt_of};
ghost use Rattle.pyc_blocks.specs.Blocks as spec;
ghost use Rattle.pyc_locals.specs.Views.{flow_state_in};
ghost use Rattle.pyc_reading.specs.Traces.{Performs};

use crate::flows::Flow;
use crate::parts::PartReader;
use crate::rules::Blocks;
use pyc_ast::Stmt;
use pyc_locals::{FlowState, Locals};
use pyc_obligations::AskTypes;
use pyc_places::State;
use std::alloc::{AllocError, Global};
use std::marker::PhantomData;
use std::mem;

/// Checks the statements of a body in turn, as far as a run comes, from a point to that after them. The only error is
/// that memory runs out; the point is lost then.
#[tactic(auto, using(pyc_obligations::proofs::Steps::performing))]
pub fn read_statements<N: AskTypes, P: PartReader<N>>(
    alloc: Global,
    recorder: &mut N,
    parts: &P,
    statements: &[Stmt],
    flow_state: &mut FlowState,
) -> Result<(), AllocError>
    requires { P.ready parts.now }
    ensures { Performs (λ u. flow_state_in flow_state.new)
        (spec.statements_read (P.parts parts.now) (stmts (map stmt_of statements.now)) (flow_state_in flow_state.old))
        (N.trace recorder.old) result (N.trace recorder.new) }
{
    let lost = FlowState {
        locals: Locals::none(alloc),
        state: State::Unreachable,
    };
    let mut flow = Flow {
        flow_state: mem::replace(flow_state, lost),
        left: Vec::new(alloc),
    };
    let blocks = Blocks {
        alloc,
        parts,
        on_the_way_out: &[],
        of: PhantomData::<N>,
    };
    blocks.read_block(recorder, statements, &mut flow)?;
    let Flow {
        flow_state: after,
        left,
    } = flow;
    drop(left);
    *flow_state = after;
    Ok(())
}
