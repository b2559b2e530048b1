//! An operation on a pair of operands that are no unions.

ghost use Rattle.std.specs.Prelude.{◌≡◌, option_map};
ghost use Rattle.pyc_operators.specs.Pairs as spec;
ghost use Rattle.pyc_reading.specs.AnswerView.{member_answer_of};
ghost use Rattle.pyc_reading.specs.Traces.{Performs};
ghost use Rattle.pyc_type_forms.specs.TypeView.{ty_of};

use crate::made::made;
use crate::methods::{CallsMethods, method_of};
use crate::operation::{Operation, method_name};
use crate::sorts::{is_any, is_user, operand_sort, sort_of};
use crate::table::{Given, Sort, given_with_user, gives};
use pyc_obligations::AskTypes;
use pyc_reading::MemberAnswer;
use pyc_type_forms::Ty;
use std::alloc::{AllocError, Global};
use std::marker::PhantomData;

/// An operation on a pair of operands that are no unions, and what calls the methods of their classes.
#[derive(Clone, Copy)]
pub(crate) struct Pair<'a, N, C> {
    pub(crate) alloc: Global,
    pub(crate) caller: &'a C,
    pub(crate) operation: Operation,
    pub(crate) left: &'a Ty,
    pub(crate) right: &'a Ty,
    pub(crate) of: PhantomData<N>,
}

impl<N: AskTypes, C: CallsMethods<N>> Pair<'_, N, C> {
    /// What the operation gives; none where there is no such operation. The only error is that memory runs out.
    #[tactic(auto, using(crate::proofs::Steps::performing), unfolding(crate::specs::Pairs::infer_pair))]
    pub(crate) fn infer_pair(&self, recorder: &mut N) -> Result<Option<Ty>, AllocError>
        ensures { Performs (option_map ty_of)
            (spec.infer_pair (C.caller self.now.caller.now) self.now.operation (ty_of self.now.left.now)
            (ty_of self.now.right.now)) (N.trace recorder.old) result (N.trace recorder.new) }
    {
        if is_any(sort_of(self.left)) || is_any(sort_of(self.right)) {
            return Ok(Some(Ty::Any));
        }
        let sort = operand_sort(self.alloc, recorder, self.left)?;
        self.infer_by_left_sort(recorder, sort)
    }

    /// What the operation gives where the left operand has the sort `left_sort`; none where there is no such operation.
    #[tactic(auto, using(crate::proofs::Steps::performing), unfolding(crate::specs::Pairs::infer_by_left_sort))]
    fn infer_by_left_sort(
        &self,
        recorder: &mut N,
        left_sort: Sort,
    ) -> Result<Option<Ty>, AllocError>
        ensures { Performs (option_map ty_of)
            (spec.infer_by_left_sort (C.caller self.now.caller.now) self.now.operation (ty_of self.now.left.now)
            (ty_of self.now.right.now) left_sort) (N.trace recorder.old) result (N.trace recorder.new) }
    {
        if is_any(left_sort) {
            return Ok(Some(Ty::Any));
        }
        let right_sort = operand_sort(self.alloc, recorder, self.right)?;
        let sorts = Sorts {
            left: left_sort,
            right: right_sort,
        };
        self.infer_by_both_sorts(recorder, sorts)
    }

    /// What the operation gives where the operands have the sorts `sorts`; none where there is no such operation.
    #[tactic(auto, using(crate::proofs::Steps::performing), unfolding(crate::specs::Pairs::infer_by_both_sorts))]
    fn infer_by_both_sorts(&self, recorder: &mut N, sorts: Sorts) -> Result<Option<Ty>, AllocError>
        ensures { Performs (option_map ty_of)
            (spec.infer_by_both_sorts (C.caller self.now.caller.now) self.now.operation (ty_of self.now.left.now)
            (ty_of self.now.right.now) sorts.left sorts.right) (N.trace recorder.old) result (N.trace recorder.new) }
    {
        if is_any(sorts.right) {
            return Ok(Some(Ty::Any));
        }
        let method = method_of(self.alloc, recorder, self.left, method_name(self.operation))?;
        let given = given_by_sorts(self.operation, self.left, self.right, sorts);
        self.infer_by_method(recorder, given, method)
    }

    /// What the left operand's method gives, or what is given without one.
    #[tactic(auto, unfolding(crate::specs::Pairs::infer_by_method))]
    fn infer_by_method(
        &self,
        recorder: &mut N,
        given: Given,
        method: Option<MemberAnswer>,
    ) -> Result<Option<Ty>, AllocError>
        ensures { Performs (option_map ty_of)
            (spec.infer_by_method (C.caller self.now.caller.now) given (ty_of self.now.left.now)
            (ty_of self.now.right.now) (option_map member_answer_of method)) (N.trace recorder.old) result
            (N.trace recorder.new) }
    {
        match method {
            Some(method) => self.infer_operator_call(recorder, method),
            None => made(self.alloc, given, self.left, self.right),
        }
    }

    /// What a method gives that is called with the right operand.
    fn infer_operator_call(
        &self,
        recorder: &mut N,
        method: MemberAnswer,
    ) -> Result<Option<Ty>, AllocError>
        ensures { Performs (option_map ty_of)
            (spec.infer_operator_call (C.caller self.now.caller.now) (member_answer_of method)
            (ty_of self.now.right.now)) (N.trace recorder.old) result (N.trace recorder.new) }
    {
        let arguments = [self.right.clone()?];
        self.caller
            .call_method(self.alloc, recorder, method, &arguments)
    }
}

/// The sorts of two operands.
#[derive(Clone, Copy, Debug)]
struct Sorts {
    left: Sort,
    right: Sort,
}

/// What an operation gives by the sorts of both operands, where the left one has no method for it.
fn given_by_sorts(operation: Operation, left: &Ty, right: &Ty, sorts: Sorts) -> Given
    ensures { result ≡ spec.given_by_sorts operation (ty_of left.now) (ty_of right.now) sorts.left sorts.right }
{
    if is_user(right) {
        given_with_user(operation, sort_of(left))
    } else {
        gives(operation, sorts.left, sorts.right)
    }
}
