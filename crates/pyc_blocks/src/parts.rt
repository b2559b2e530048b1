//! What checks the parts of statements that are no blocks.

ghost use Rattle.std.specs.Prelude.{map, option_map};
ghost use Rattle.pyc_ast.specs.ExprView.{expr_of};
ghost use Rattle.pyc_ast.specs.StatementView.{for_of, stmt_form_of, with_item_of};
ghost use Rattle.pyc_blocks.specs.Parts.{PartReads};
ghost use Rattle.pyc_locals.specs.Views.{flow_state_in};
ghost use Rattle.pyc_narrowing.specs.SplitView.{states_of};
ghost use Rattle.pyc_reading.specs.Traces.{Performs};

use pyc_ast::{Expr, For, Handler, Position, StmtForm, WithItem};
use pyc_locals::FlowState;
use pyc_narrowing::SplitStates;
use pyc_obligations::AskTypes;
use pyc_places::Place;
use std::alloc::{AllocError, Global};

/// What checks the parts of statements that are no blocks: simple statements, conditions, and heads. The only error of
/// each is that memory runs out; the point is lost then.
pub trait PartReader<N: AskTypes> {
    ghost ready: { Self → Type 0 };

    ghost parts: { Self → PartReads };

    /// Checks a simple statement or a definition that begins at a position; `break` and `continue` never come here.
    fn simple(
        &self,
        alloc: Global,
        recorder: &mut N,
        at: Position,
        form: &StmtForm,
        flow_state: &mut FlowState,
    ) -> Result<(), AllocError>
        requires { ready self.now }
        ensures { Performs (λ u. flow_state_in flow_state.new)
            ((parts self.now).simple at (stmt_form_of form.now) (flow_state_in flow_state.old)) (N.trace recorder.old)
            result
            (N.trace recorder.new) };

    /// Checks a condition: answers the states where it is true, and where it is not.
    fn check_test(
        &self,
        alloc: Global,
        recorder: &mut N,
        test: &Expr,
        flow_state: &FlowState,
    ) -> Result<SplitStates, AllocError>
        requires { ready self.now }
        ensures { Performs states_of ((parts self.now).check_test (expr_of test.now) (flow_state_in flow_state.now))
            (N.trace recorder.old) result (N.trace recorder.new) };

    /// Checks the beginning of each turn of a `for` that assigns some places: from the point before the loop to that at
    /// which its block begins.
    fn turn(
        &self,
        alloc: Global,
        recorder: &mut N,
        head: &For,
        places: &[Place],
        flow_state: &mut FlowState,
    ) -> Result<(), AllocError>
        requires { ready self.now }
        ensures { Performs (λ u. flow_state_in flow_state.new)
            ((parts self.now).turn (for_of head.now) places.now (flow_state_in flow_state.old)) (N.trace recorder.old)
            result
            (N.trace recorder.new) };

    /// Checks what a handler catches, and binds its name, but not its block.
    fn caught(
        &self,
        alloc: Global,
        recorder: &mut N,
        handler: &Handler,
        flow_state: &mut FlowState,
    ) -> Result<(), AllocError>
        requires { ready self.now }
        ensures { Performs (λ u. flow_state_in flow_state.new)
            ((parts self.now).caught (option_map expr_of handler.now.caught) handler.now.name
            (flow_state_in flow_state.old))
            (N.trace recorder.old) result (N.trace recorder.new) };

    /// Checks the items of a `with`.
    fn items(
        &self,
        alloc: Global,
        recorder: &mut N,
        items: &[WithItem],
        flow_state: &mut FlowState,
    ) -> Result<(), AllocError>
        requires { ready self.now }
        ensures { Performs (λ u. flow_state_in flow_state.new)
            ((parts self.now).items (map with_item_of items.now) (flow_state_in flow_state.old))
            (N.trace recorder.old) result
            (N.trace recorder.new) };
}
