//! Binary operations and comparisons.

ghost use Rattle.pyc_operators.specs.Binary as spec;
ghost use Rattle.pyc_operators.specs.ResultsView.{results_of};
ghost use Rattle.pyc_reading.specs.Traces.{Performs};
ghost use Rattle.pyc_type_forms.specs.TypeView.{ty_of};

use crate::messages::wrong_operands;
use crate::methods::CallsMethods;
use crate::operation::{Operation, OrderComparison, order_comparison};
use crate::results::{Pairs, Results};
use pyc_ast::{ComparisonOperator, Operator, Position};
use pyc_obligations::AskTypes;
use pyc_type_forms::{Ty, items_of, union_of};
use std::alloc::{AllocError, Global};
use std::marker::PhantomData;

/// Two operands, and what calls the methods of their classes; their operation begins at `at`.
#[derive(Clone, Copy)]
pub struct BinaryOperands<'a, N, C> {
    pub alloc: Global,
    pub caller: &'a C,
    pub at: Position,
    pub left: &'a Ty,
    pub right: &'a Ty,
    pub of: PhantomData<N>,
}

impl<N: AskTypes, C: CallsMethods<N>> BinaryOperands<'_, N, C> {
    /// The type of a binary operation on the operands: where there is no such operation, that is reported, and it is
    /// Any. The only error is that memory runs out.
    pub fn binary(&self, recorder: &mut N, operator: Operator) -> Result<Ty, AllocError>
        ensures { Performs ty_of
            (spec.binary (C.caller self.now.caller.now) self.now.at operator (ty_of self.now.left.now)
            (ty_of self.now.right.now)) (N.trace recorder.old) result (N.trace recorder.new) }
    {
        self.infer_operation(recorder, Operation::Arithmetic(operator))
    }

    /// Reads the operands as two neighbours in a chain of comparisons: one in order is an operation, of any other
    /// comparison nothing is asked or reported. The only error is that memory runs out.
    pub fn check_comparison(
        &self,
        recorder: &mut N,
        operator: ComparisonOperator,
    ) -> Result<(), AllocError>
        ensures { Performs (λ u. u)
            (spec.check_comparison (C.caller self.now.caller.now) self.now.at operator (ty_of self.now.left.now)
            (ty_of self.now.right.now)) (N.trace recorder.old) result (N.trace recorder.new) }
    {
        let order = order_comparison(operator);
        self.check_if_ordered(recorder, order)
    }

    /// Reads the operands by the comparison in order that they stand in, if it is one.
    fn check_if_ordered(
        &self,
        recorder: &mut N,
        order: Option<OrderComparison>,
    ) -> Result<(), AllocError>
        ensures { Performs (λ u. u)
            (spec.check_if_ordered (C.caller self.now.caller.now) self.now.at order (ty_of self.now.left.now)
            (ty_of self.now.right.now)) (N.trace recorder.old) result (N.trace recorder.new) }
    {
        match order {
            Some(comparison) => { self.compare_in_order(recorder, comparison) }
            None => Ok(()),
        }
    }

    /// Reads a comparison in order.
    #[tactic(auto, using(crate::proofs::Steps::performing), unfolding(crate::specs::Binary::compare_in_order))]
    fn compare_in_order(
        &self,
        recorder: &mut N,
        comparison: OrderComparison,
    ) -> Result<(), AllocError>
        ensures { Performs (λ u. u)
            (spec.compare_in_order (C.caller self.now.caller.now) self.now.at comparison (ty_of self.now.left.now)
            (ty_of self.now.right.now)) (N.trace recorder.old) result (N.trace recorder.new) }
    {
        let operation = Operation::Mro(comparison);
        self.infer_operation(recorder, operation)?;
        Ok(())
    }

    /// The type of an operation.
    #[tactic(auto, using(crate::proofs::Steps::performing), unfolding(crate::specs::Binary::infer_operation))]
    fn infer_operation(&self, recorder: &mut N, operation: Operation) -> Result<Ty, AllocError>
        ensures { Performs ty_of
            (spec.infer_operation (C.caller self.now.caller.now) self.now.at operation (ty_of self.now.left.now)
            (ty_of self.now.right.now)) (N.trace recorder.old) result (N.trace recorder.new) }
    {
        let results = self.pairs(recorder, operation)?;
        self.finish_union(recorder, operation, results)
    }

    /// What an operation gives on each item of the one operand and each of the other.
    fn pairs(&self, recorder: &mut N, operation: Operation) -> Result<Results, AllocError>
        ensures { Performs results_of
            (spec.pairs (C.caller self.now.caller.now) operation (ty_of self.now.left.now) (ty_of self.now.right.now))
            (N.trace recorder.old) result (N.trace recorder.new) }
    {
        let lefts = items_of(self.alloc, self.left)?;
        let rights = items_of(self.alloc, self.right)?;
        let pairs = Pairs {
            alloc: self.alloc,
            caller: self.caller,
            operation,
            of: PhantomData,
        };
        pairs.pairs_of(recorder, &lefts, &rights)
    }

    /// The union of what the pairs give, or what is reported where one of them gives nothing.
    #[tactic(auto, using(crate::proofs::Steps::performing), unfolding(crate::specs::Binary::finish_union))]
    fn finish_union(
        &self,
        recorder: &mut N,
        operation: Operation,
        results: Results,
    ) -> Result<Ty, AllocError>
        ensures { Performs ty_of
            (spec.finish_union self.now.at operation (ty_of self.now.left.now) (ty_of self.now.right.now)
            (results_of results)) (N.trace recorder.old) result (N.trace recorder.new) }
    {
        if results.is_failed {
            wrong_operands(
                self.alloc, recorder, self.at, operation, self.left, self.right,
            )
        } else {
            union_of(self.alloc, &results.types)
        }
    }
}
