//! Unary operations.

ghost use Rattle.std.specs.Prelude.{map, option_map, []};
ghost use Rattle.pyc_operators.specs.Results.{no_results};
ghost use Rattle.pyc_operators.specs.ResultsView.{results_of};
ghost use Rattle.pyc_operators.specs.Unary as spec;
ghost use Rattle.pyc_reading.specs.AnswerView.{member_answer_of};
ghost use Rattle.pyc_reading.specs.Traces.{Performs};
ghost use Rattle.pyc_type_forms.specs.TypeView.{ty_of};

use crate::made::{instance, made};
use crate::messages::wrong_operand;
use crate::methods::{CallsMethods, method_of};
use crate::operation::{UnaryOperation, unary_method, unary_operation};
use crate::results::Results;
use crate::sorts::{is_any, operand_sort};
use crate::table::{Sort, unary_given};
use pyc_ast::{Position, UnaryOperator};
use pyc_class_ids::BuiltinClass;
use pyc_obligations::AskTypes;
use pyc_reading::MemberAnswer;
use pyc_type_forms::{Ty, items_of, union_of};
use std::alloc::{AllocError, Global};
use std::marker::PhantomData;

/// The type of a unary operation on an operand of this type: where there is no such operation, that is reported, and it
/// is Any; `not` asks nothing. The only error is that memory runs out.
pub fn unary<N: AskTypes, C: CallsMethods<N>>(
    alloc: Global,
    recorder: &mut N,
    caller: &C,
    at: Position,
    operator: UnaryOperator,
    operand: &Ty,
) -> Result<Ty, AllocError>
    ensures { Performs ty_of (spec.unary (C.caller caller.now) at operator (ty_of operand.now)) (N.trace recorder.old)
        result (N.trace recorder.new) }
{
    let operation = unary_operation(operator);
    unary_by(alloc, recorder, caller, at, operation, operand)
}

/// The type of a unary operation, or that of `not`, which is none.
fn unary_by<N: AskTypes, C: CallsMethods<N>>(
    alloc: Global,
    recorder: &mut N,
    caller: &C,
    at: Position,
    operation: Option<UnaryOperation>,
    operand: &Ty,
) -> Result<Ty, AllocError>
    ensures { Performs ty_of (spec.unary_by (C.caller caller.now) at operation (ty_of operand.now))
        (N.trace recorder.old) result (N.trace recorder.new) }
{
    match operation {
        Some(operation) => infer_operation(alloc, recorder, caller, at, operation, operand),
        None => Ok(instance(BuiltinClass::Bool)),
    }
}

/// The type of a unary operation.
#[tactic(auto, using(crate::proofs::Steps::performing), unfolding(crate::specs::Unary::infer_operation))]
fn infer_operation<N: AskTypes, C: CallsMethods<N>>(
    alloc: Global,
    recorder: &mut N,
    caller: &C,
    at: Position,
    operation: UnaryOperation,
    operand: &Ty,
) -> Result<Ty, AllocError>
    ensures { Performs ty_of (spec.infer_operation (C.caller caller.now) at operation (ty_of operand.now))
        (N.trace recorder.old) result (N.trace recorder.new) }
{
    let reader = UnaryReader {
        alloc,
        caller,
        operation,
        of: PhantomData,
    };
    let results = reader.items(recorder, operand)?;
    finish_union(alloc, recorder, at, operation, operand, results)
}

/// A unary operation, and what calls the methods of its operands' classes.
#[derive(Clone, Copy)]
struct UnaryReader<'a, N, C> {
    alloc: Global,
    caller: &'a C,
    operation: UnaryOperation,
    of: PhantomData<N>,
}

impl<N: AskTypes, C: CallsMethods<N>> UnaryReader<'_, N, C> {
    /// What the operation gives on each item of its operand.
    fn items(&self, recorder: &mut N, operand: &Ty) -> Result<Results, AllocError>
        ensures { Performs results_of (spec.items (C.caller self.now.caller.now) self.now.operation (ty_of operand.now))
            (N.trace recorder.old)
            result (N.trace recorder.new) }
    {
        let operands = items_of(self.alloc, operand)?;
        self.each_item(recorder, &operands)
    }

    /// What the operation gives on each of these operands.
    #[tactic(auto, using(crate::proofs::Steps::performing), unfolding(crate::specs::Unary::each_item))]
    fn each_item(&self, recorder: &mut N, operands: &[Ty]) -> Result<Results, AllocError>
        ensures { Performs results_of
            (spec.each_item (C.caller self.now.caller.now) self.now.operation no_results (map ty_of operands.now))
            (N.trace recorder.old) result (N.trace recorder.new) }
    {
        let mut results = Results::new(self.alloc);
        for operand in operands {
            let found = self.one_item(recorder, operand)?;
            results = results.with(found)?;
        }
        Ok(results)
    }

    /// What the operation gives on an operand that is no union.
    #[tactic(auto, using(crate::proofs::Steps::performing), unfolding(crate::specs::Unary::one_item))]
    fn one_item(&self, recorder: &mut N, operand: &Ty) -> Result<Option<Ty>, AllocError>
        ensures { Performs (option_map ty_of)
            (spec.one_item (C.caller self.now.caller.now) self.now.operation (ty_of operand.now)) (N.trace recorder.old)
            result (N.trace recorder.new) }
    {
        let sort = operand_sort(self.alloc, recorder, operand)?;
        self.infer_by_sort(recorder, operand, sort)
    }

    /// What the operation gives on an operand of the sort `sort` that is no union; none where there is no such
    /// operation.
    #[tactic(auto, using(crate::proofs::Steps::performing), unfolding(crate::specs::Unary::infer_by_sort))]
    fn infer_by_sort(
        &self,
        recorder: &mut N,
        operand: &Ty,
        sort: Sort,
    ) -> Result<Option<Ty>, AllocError>
        ensures { Performs (option_map ty_of)
            (spec.infer_by_sort (C.caller self.now.caller.now) self.now.operation (ty_of operand.now) sort)
            (N.trace recorder.old) result (N.trace recorder.new) }
    {
        if is_any(sort) {
            return Ok(Some(Ty::Any));
        }
        let method = method_of(self.alloc, recorder, operand, unary_method(self.operation))?;
        self.infer_by_method(recorder, operand, sort, method)
    }

    /// What the operand's method gives, or what is given without one.
    #[tactic(auto, unfolding(crate::specs::Unary::infer_by_method))]
    fn infer_by_method(
        &self,
        recorder: &mut N,
        operand: &Ty,
        sort: Sort,
        method: Option<MemberAnswer>,
    ) -> Result<Option<Ty>, AllocError>
        ensures { Performs (option_map ty_of)
            (spec.infer_by_method (C.caller self.now.caller.now) self.now.operation (ty_of operand.now) sort
            (option_map member_answer_of method))
            (N.trace recorder.old) result (N.trace recorder.new) }
    {
        match method {
            Some(method) => self.infer_operator_call(recorder, method),
            None => made(
                self.alloc,
                unary_given(self.operation, sort),
                operand,
                operand,
            ),
        }
    }

    /// What a method gives that is called with nothing.
    fn infer_operator_call(
        &self,
        recorder: &mut N,
        method: MemberAnswer,
    ) -> Result<Option<Ty>, AllocError>
        ensures { Performs (option_map ty_of) (C.caller self.now.caller.now (member_answer_of method) [])
            (N.trace recorder.old) result (N.trace recorder.new) }
    {
        self.caller.call_method(self.alloc, recorder, method, &[])
    }
}

/// The union of what the items give, or what is reported where one of them gives nothing.
#[tactic(auto, using(crate::proofs::Steps::performing), unfolding(crate::specs::Unary::finish_union))]
fn finish_union<N: AskTypes>(
    alloc: Global,
    recorder: &mut N,
    at: Position,
    operation: UnaryOperation,
    operand: &Ty,
    results: Results,
) -> Result<Ty, AllocError>
    ensures { Performs ty_of (spec.finish_union at operation (ty_of operand.now) (results_of results))
        (N.trace recorder.old)
        result (N.trace recorder.new) }
{
    if results.is_failed {
        wrong_operand(alloc, recorder, at, operation, operand)
    } else {
        union_of(alloc, &results.types)
    }
}
