//! The statements of blocks, in turn.

ghost use Rattle.std.specs.Prelude.{map, option_map};
ghost use Rattle.pyc_locals.specs.AssignedPlaces.{assigned_places};
ghost use Rattle.pyc_ast.specs.ExprView.{expr_of};
ghost use Rattle.pyc_ast.specs.Statements.{branches, handlers, stmts};
ghost use Rattle.pyc_ast.specs.StatementView.{block_of, branch_of, for_of, handler_of, stmt_form_of, stmt_of};
ghost use Rattle.pyc_ast.specs.StatementView.{with_item_of};
ghost use Rattle.pyc_blocks.specs.Blocks as spec;
ghost use Rattle.pyc_blocks.specs.Views.{begun_in, flow_in, handled_in, rules_of, try_places_in};
ghost use Rattle.pyc_places.specs.StateView.{state_of};
ghost use Rattle.pyc_reading.specs.Traces.{Performs};

use crate::flows::Flow;
use crate::parts::PartReader;
use crate::rules::{Begun, Blocks};
use crate::trying::{BegunTry, Try, begin_try};
use pyc_ast::{Block, Branch, Expr, For, Handler, Position, Stmt, StmtForm, WithItem};
use pyc_obligations::AskTypes;
use pyc_places::State;
use std::alloc::AllocError;

impl<N: AskTypes, P: PartReader<N>> Blocks<'_, N, P> {
    /// Checks the statements of a block in turn, as far as a run comes.
    #[cycle(flow)]
    #[tactic(auto, using(pyc_obligations::proofs::Steps::performing))]
    pub(crate) fn read_block(
        &self,
        recorder: &mut N,
        statements: &[Stmt],
        flow: &mut Flow,
    ) -> Result<(), AllocError>
        requires { P.ready self.now.parts.now }
        ensures { Performs (λ u. flow_in flow.new)
            (spec.block_read (rules_of P.parts self.now) (stmts (map stmt_of statements.now)) (flow_in flow.old))
            (N.trace recorder.old) result (N.trace recorder.new) }
    {
        for statement in statements {
            self.read_reached(recorder, statement, flow)?;
        }
        Ok(())
    }

    /// Checks a statement, if a run comes to it.
    #[cycle(flow)]
    #[tactic(auto, using(pyc_obligations::proofs::Steps::performing))]
    fn read_reached(
        &self,
        recorder: &mut N,
        statement: &Stmt,
        flow: &mut Flow,
    ) -> Result<(), AllocError>
        requires { P.ready self.now.parts.now }
        ensures { Performs (λ u. flow_in flow.new)
            (spec.reached (flow_in flow.old).flow_state.state
            (spec.statement_read (rules_of P.parts self.now) (stmt_of statement.now)) (flow_in flow.old))
            (N.trace recorder.old) result (N.trace recorder.new) }
    {
        match &flow.flow_state.state {
            State::Unreachable => Ok(()),
            State::Reachable(_) => self.read_form(recorder, statement.at, &statement.form, flow),
        }
    }

    /// Checks a statement that begins at a position, by its form.
    #[cycle(flow)]
    #[tactic(auto, using(pyc_obligations::proofs::Steps::performing))]
    fn read_form(
        &self,
        recorder: &mut N,
        at: Position,
        form: &StmtForm,
        flow: &mut Flow,
    ) -> Result<(), AllocError>
        requires { P.ready self.now.parts.now }
        ensures { Performs (λ u. flow_in flow.new)
            (spec.form_read (rules_of P.parts self.now) at (stmt_form_of form.now) (flow_in flow.old))
            (N.trace recorder.old) result (N.trace recorder.new) }
    {
        match form {
            StmtForm::If { branches, orelse } => self.read_if(recorder, branches, orelse, flow),
            StmtForm::While { test, body, orelse } => {
                self.read_while(recorder, test, body, orelse, flow)
            }
            StmtForm::For { head, body, orelse } => self.read_for(
                recorder, head, body, orelse, flow,
            ),
            StmtForm::Try {
                body,
                handlers,
                orelse,
                finally,
            } => self.read_try(
                recorder,
                Try {
                    inside: body,
                    handlers,
                    orelse,
                    finally,
                },
                flow,
            ),
            StmtForm::With { items, body, .. } => self.read_with(recorder, items, body, flow),
            StmtForm::Break => flow.leave(self.alloc, self.on_the_way_out),
            StmtForm::Continue => Ok(flow.end()),
            _ => self.read_simple(recorder, at, form, flow),
        }
    }

    /// Checks the statements of a block.
    #[cycle(flow)]
    #[tactic(auto, using(pyc_obligations::proofs::Steps::performing))]
    fn read_inside(
        &self,
        recorder: &mut N,
        block: &Block,
        flow: &mut Flow,
    ) -> Result<(), AllocError>
        requires { P.ready self.now.parts.now }
        ensures { Performs (λ u. flow_in flow.new)
            (spec.block_read (rules_of P.parts self.now) (block_of block.now) (flow_in flow.old)) (N.trace recorder.old)
            result (N.trace recorder.new) }
    {
        let Block::Of(statements) = block;
        self.read_block(recorder, statements, flow)
    }

    /// Checks an `if`.
    #[cycle(flow)]
    #[tactic(auto, using(pyc_obligations::proofs::Steps::performing), unfolding(crate::specs::Blocks::if_by))]
    fn read_if(
        &self,
        recorder: &mut N,
        row: &[Branch],
        orelse: &Block,
        flow: &mut Flow,
    ) -> Result<(), AllocError>
        requires { P.ready self.now.parts.now }
        ensures { Performs (λ u. flow_in flow.new)
            (spec.if_by (spec.branches_read (rules_of P.parts self.now) (branches (map branch_of row.now)))
            (spec.block_read (rules_of P.parts self.now) (block_of orelse.now)) (flow_in flow.old))
            (N.trace recorder.old) result (N.trace recorder.new) }
    {
        let mut ends = Vec::new(self.alloc);
        self.read_branches(recorder, row, &mut ends, flow)?;
        self.read_inside(recorder, orelse, flow)?;
        flow.join_ends(self.alloc, ends)?;
        Ok(())
    }

    /// Checks the branches of an `if`, and adds the states in which their blocks end.
    #[cycle(flow)]
    #[tactic(auto, using(pyc_obligations::proofs::Steps::performing))]
    fn read_branches(
        &self,
        recorder: &mut N,
        row: &[Branch],
        ends: &mut Vec<State>,
        flow: &mut Flow,
    ) -> Result<(), AllocError>
        requires { P.ready self.now.parts.now }
        ensures { Performs (λ u. handled_in flow.new ends.new)
            (spec.branches_read (rules_of P.parts self.now) (branches (map branch_of row.now))
            (handled_in flow.old ends.old)) (N.trace recorder.old) result (N.trace recorder.new) }
    {
        for branch in row {
            self.read_branch(recorder, branch, ends, flow)?;
        }
        Ok(())
    }

    /// Checks a branch of an `if`, and adds the state in which its block ends.
    #[cycle(flow)]
    #[tactic(auto, using(pyc_obligations::proofs::Steps::performing), unfolding(crate::specs::Blocks::branch_by))]
    fn read_branch(
        &self,
        recorder: &mut N,
        branch: &Branch,
        ends: &mut Vec<State>,
        flow: &mut Flow,
    ) -> Result<(), AllocError>
        requires { P.ready self.now.parts.now }
        ensures { Performs (λ u. handled_in flow.new ends.new)
            (spec.branch_by (P.parts self.now.parts.now) (expr_of branch.now.test)
            (spec.block_read (rules_of P.parts self.now) (block_of branch.now.body)) (handled_in flow.old ends.old))
            (N.trace recorder.old) result (N.trace recorder.new) }
    {
        let states = self
            .parts
            .check_test(self.alloc, recorder, &branch.test, &flow.flow_state)?;
        flow.set(states.if_true);
        self.read_inside(recorder, &branch.body, flow)?;
        flow.end_block(ends, states.if_false)?;
        Ok(())
    }

    /// Checks a `while`.
    #[cycle(flow)]
    #[tactic(auto, using(pyc_obligations::proofs::Steps::performing), unfolding(crate::specs::Blocks::while_by))]
    fn read_while(
        &self,
        recorder: &mut N,
        test: &Expr,
        inside: &Block,
        orelse: &Block,
        flow: &mut Flow,
    ) -> Result<(), AllocError>
        requires { P.ready self.now.parts.now }
        ensures { Performs (λ u. flow_in flow.new)
            (spec.while_by (P.parts self.now.parts.now) (expr_of test.now) (assigned_places (block_of inside.now))
            (spec.block_read (spec.within_loop (rules_of P.parts self.now)) (block_of inside.now))
            (spec.block_read (rules_of P.parts self.now) (block_of orelse.now)) (flow_in flow.old))
            (N.trace recorder.old) result (N.trace recorder.new) }
    {
        let begun = self.begin_while(recorder, test, inside, flow)?;
        self.read_loop(recorder, begun, inside, orelse, flow)
    }

    /// Checks a `for`.
    #[cycle(flow)]
    #[tactic(auto, using(pyc_obligations::proofs::Steps::performing), unfolding(crate::specs::Blocks::for_by))]
    fn read_for(
        &self,
        recorder: &mut N,
        head: &For,
        inside: &Block,
        orelse: &Block,
        flow: &mut Flow,
    ) -> Result<(), AllocError>
        requires { P.ready self.now.parts.now }
        ensures { Performs (λ u. flow_in flow.new)
            (spec.for_by (P.parts self.now.parts.now) (for_of head.now)
            (spec.turn_places (for_of head.now) (block_of inside.now))
            (spec.block_read (spec.within_loop (rules_of P.parts self.now)) (block_of inside.now))
            (spec.block_read (rules_of P.parts self.now) (block_of orelse.now)) (flow_in flow.old))
            (N.trace recorder.old) result (N.trace recorder.new) }
    {
        let begun = self.begin_for(recorder, head, inside, flow)?;
        self.read_loop(recorder, begun, inside, orelse, flow)
    }

    /// Checks the block of a loop that has begun, and its `else`.
    #[cycle(flow)]
    #[tactic(auto, using(pyc_obligations::proofs::Steps::performing), unfolding(crate::specs::Blocks::loop_by))]
    fn read_loop(
        &self,
        recorder: &mut N,
        begun: Begun,
        inside: &Block,
        orelse: &Block,
        flow: &mut Flow,
    ) -> Result<(), AllocError>
        requires { P.ready self.now.parts.now }
        ensures { Performs (λ u. flow_in flow.new)
            (spec.loop_by (spec.block_read (spec.within_loop (rules_of P.parts self.now)) (block_of inside.now))
            (spec.block_read (rules_of P.parts self.now) (block_of orelse.now)) (begun_in begun flow.old))
            (N.trace recorder.old) result (N.trace recorder.new) }
    {
        let turn = Blocks {
            alloc: self.alloc,
            parts: self.parts,
            on_the_way_out: &[],
            of: self.of,
        };
        turn.read_inside(recorder, inside, flow)?;
        let left = flow.exhaust(begun.exit, begun.around);
        self.read_inside(recorder, orelse, flow)?;
        flow.end_loop(self.alloc, &left)?;
        Ok(())
    }

    /// Checks a `try`.
    #[cycle(flow)]
    #[tactic(auto, using(pyc_obligations::proofs::Steps::performing), unfolding(crate::specs::Blocks::try_by))]
    fn read_try(&self, recorder: &mut N, found: Try<'_>, flow: &mut Flow) -> Result<(), AllocError>
        requires { P.ready self.now.parts.now }
        ensures { Performs (λ u. flow_in flow.new)
            (spec.try_by
            (spec.try_places (block_of found.entry.inside.now) (handlers (map handler_of found.entry.handlers.now))
            (block_of found.entry.orelse.now) (block_of found.entry.finally.now))
            (spec.block_read
            (spec.within_try (rules_of P.parts self.now) (assigned_places (block_of found.entry.finally.now)))
            (block_of found.entry.inside.now))
            (spec.handlers_read
            (spec.within_try (rules_of P.parts self.now) (assigned_places (block_of found.entry.finally.now)))
            (handlers (map handler_of found.entry.handlers.now)))
            (spec.block_read
            (spec.within_try (rules_of P.parts self.now) (assigned_places (block_of found.entry.finally.now)))
            (block_of found.entry.orelse.now))
            (spec.block_read (rules_of P.parts self.now) (block_of found.entry.finally.now)) (flow_in flow.old))
            (N.trace recorder.old) result (N.trace recorder.new) }
    {
        let begun = begin_try(self.alloc, found, &flow.flow_state.state)?;
        let ends = self.read_within(recorder, found, &begun, flow)?;
        self.read_finally(recorder, found.finally, &begun, ends, flow)
    }

    /// Checks the block of a `try` that has begun, its handlers and its `else`, out of which each `break` passes its
    /// `finally`; answers the states in which handlers end.
    #[cycle(flow)]
    #[tactic(auto, using(pyc_obligations::proofs::Steps::performing))]
    fn read_within(
        &self,
        recorder: &mut N,
        found: Try<'_>,
        begun: &BegunTry,
        flow: &mut Flow,
    ) -> Result<Vec<State>, AllocError>
        requires { P.ready self.now.parts.now }
        ensures { Performs (λ ends. handled_in flow.new ends)
            (spec.clauses_by
            (spec.block_read (spec.within_try (rules_of P.parts self.now) begun.now.finally.items)
            (block_of found.entry.inside.now))
            (spec.handlers_read (spec.within_try (rules_of P.parts self.now) begun.now.finally.items)
            (handlers (map handler_of found.entry.handlers.now)) (state_of begun.now.raised))
            (spec.block_read (spec.within_try (rules_of P.parts self.now) begun.now.finally.items)
            (block_of found.entry.orelse.now)) (flow_in flow.old)) (N.trace recorder.old) result
            (N.trace recorder.new) }
    {
        let on_the_way_out = begun.on_the_way_out(self.alloc, self.on_the_way_out)?;
        let within = Blocks {
            alloc: self.alloc,
            parts: self.parts,
            on_the_way_out: &on_the_way_out,
            of: self.of,
        };
        within.read_clauses(recorder, found, &begun.raised, flow)
    }

    /// Checks the block of a `try`, its handlers, which begin in one state, and its `else`; answers the states in which
    /// handlers end.
    #[cycle(flow)]
    #[tactic(auto, using(pyc_obligations::proofs::Steps::performing), unfolding(crate::specs::Blocks::clauses_by))]
    fn read_clauses(
        &self,
        recorder: &mut N,
        found: Try<'_>,
        raised: &State,
        flow: &mut Flow,
    ) -> Result<Vec<State>, AllocError>
        requires { P.ready self.now.parts.now }
        ensures { Performs (λ ends. handled_in flow.new ends)
            (spec.clauses_by (spec.block_read (rules_of P.parts self.now) (block_of found.entry.inside.now))
            (spec.handlers_read (rules_of P.parts self.now) (handlers (map handler_of found.entry.handlers.now))
            (state_of raised.now)) (spec.block_read (rules_of P.parts self.now) (block_of found.entry.orelse.now))
            (flow_in flow.old)) (N.trace recorder.old) result (N.trace recorder.new) }
    {
        let mut ends = Vec::new(self.alloc);
        self.read_inside(recorder, found.inside, flow)?;
        let end = flow.take_state();
        self.read_handlers(recorder, found.handlers, raised, &mut ends, flow)?;
        flow.set(end);
        self.read_inside(recorder, found.orelse, flow)?;
        Ok(ends)
    }

    /// Checks the handlers of a `try`, which begin in one state, and adds the states in which they end.
    #[cycle(flow)]
    #[tactic(auto, using(pyc_obligations::proofs::Steps::performing))]
    fn read_handlers(
        &self,
        recorder: &mut N,
        row: &[Handler],
        raised: &State,
        ends: &mut Vec<State>,
        flow: &mut Flow,
    ) -> Result<(), AllocError>
        requires { P.ready self.now.parts.now }
        ensures { Performs (λ u. handled_in flow.new ends.new)
            (spec.handlers_read (rules_of P.parts self.now) (handlers (map handler_of row.now)) (state_of raised.now)
            (handled_in flow.old ends.old)) (N.trace recorder.old) result (N.trace recorder.new) }
    {
        for handler in row {
            self.read_handler(recorder, handler, raised, ends, flow)?;
        }
        Ok(())
    }

    /// Checks a handler, which begins in a state, and adds the state in which it ends.
    #[cycle(flow)]
    #[tactic(auto, using(pyc_obligations::proofs::Steps::performing), unfolding(crate::specs::Blocks::handler_by))]
    fn read_handler(
        &self,
        recorder: &mut N,
        handler: &Handler,
        raised: &State,
        ends: &mut Vec<State>,
        flow: &mut Flow,
    ) -> Result<(), AllocError>
        requires { P.ready self.now.parts.now }
        ensures { Performs (λ u. handled_in flow.new ends.new)
            (spec.handler_by (P.parts self.now.parts.now) (state_of raised.now)
            (option_map expr_of handler.now.caught) handler.now.name
            (spec.block_read (rules_of P.parts self.now) (block_of handler.now.body)) (handled_in flow.old ends.old))
            (N.trace recorder.old) result (N.trace recorder.new) }
    {
        flow.set(raised.clone()?);
        self.parts
            .caught(self.alloc, recorder, handler, &mut flow.flow_state)?;
        self.read_inside(recorder, &handler.body, flow)?;
        flow.end_block(ends, State::Unreachable)?;
        Ok(())
    }

    /// Checks the `finally` of a `try` that has begun, whose handlers end in some states, and ends the `try`.
    #[cycle(flow)]
    #[tactic(auto, using(pyc_obligations::proofs::Steps::performing), unfolding(crate::specs::Blocks::finally_by))]
    fn read_finally(
        &self,
        recorder: &mut N,
        finally: &Block,
        begun: &BegunTry,
        ends: Vec<State>,
        flow: &mut Flow,
    ) -> Result<(), AllocError>
        requires { P.ready self.now.parts.now }
        ensures { Performs (λ u. flow_in flow.new)
            (spec.finally_by (try_places_in begun.now) (state_of begun.now.raised)
            (spec.block_read (rules_of P.parts self.now) (block_of finally.now)) (handled_in flow.old ends))
            (N.trace recorder.old) result (N.trace recorder.new) }
    {
        let after = begun.tried_state(self.alloc, &flow.flow_state.state, &ends)?;
        flow.set(begun.finally_state(self.alloc)?);
        self.read_inside(recorder, finally, flow)?;
        flow.end_finally(after);
        Ok(())
    }

    /// Checks a `with`.
    #[cycle(flow)]
    #[tactic(auto, using(pyc_obligations::proofs::Steps::performing), unfolding(crate::specs::Blocks::with_by))]
    fn read_with(
        &self,
        recorder: &mut N,
        items: &[WithItem],
        inside: &Block,
        flow: &mut Flow,
    ) -> Result<(), AllocError>
        requires { P.ready self.now.parts.now }
        ensures { Performs (λ u. flow_in flow.new)
            (spec.with_by (P.parts self.now.parts.now) (map with_item_of items.now)
            (spec.block_read (rules_of P.parts self.now) (block_of inside.now)) (flow_in flow.old))
            (N.trace recorder.old)
            result (N.trace recorder.new) }
    {
        self.parts
            .items(self.alloc, recorder, items, &mut flow.flow_state)?;
        self.read_inside(recorder, inside, flow)
    }

    /// Checks a simple statement or a definition that begins at a position.
    #[tactic(auto, using(pyc_obligations::proofs::Steps::performing), unfolding(crate::specs::Blocks::simple_by))]
    fn read_simple(
        &self,
        recorder: &mut N,
        at: Position,
        form: &StmtForm,
        flow: &mut Flow,
    ) -> Result<(), AllocError>
        requires { P.ready self.now.parts.now }
        ensures { Performs (λ u. flow_in flow.new)
            (spec.simple_by (P.parts self.now.parts.now) at (stmt_form_of form.now) (flow_in flow.old))
            (N.trace recorder.old) result (N.trace recorder.new) }
    {
        self.parts
            .simple(self.alloc, recorder, at, form, &mut flow.flow_state)
    }
}
