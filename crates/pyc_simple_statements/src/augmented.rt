//! Augmented assignments.

ghost use Rattle.std.specs.Prelude.{◌≡◌};
ghost use Rattle.pyc_ast.specs.StatementView.{augmented_of};
ghost use Rattle.pyc_body_context.specs.Views.{body_in};
ghost use Rattle.pyc_locals.specs.Views.{flow_state_in};
ghost use Rattle.pyc_reading.specs.Traces.{Performs};
ghost use Rattle.pyc_simple_statements.specs.Augmented as spec;
ghost use Rattle.pyc_simple_statements.specs.Views.{operands_in};
ghost use Rattle.pyc_type_forms.specs.TypeView.{ty_of};

use crate::reader::StatementReader;
use pyc_ast::{AugmentedAssignment, Operator};
use pyc_class_ids::ClassId;
use pyc_expr_forms::MethodCaller;
use pyc_locals::FlowState;
use pyc_obligations::{AskTypes, ask_member, is_unknown_class};
use pyc_operators::{BinaryOperands, in_place_method};
use pyc_type_forms::Ty;
use std::alloc::AllocError;
use std::marker::PhantomData;

/// The types of the target and of the right side of an augmented assignment.
#[derive(Drop)]
struct Operands {
    left: Ty,
    right: Ty,
}

impl StatementReader<'_> {
    /// Reads an augmented assignment: its target, its right side, and unless the target is changed in place the result
    /// of the operation is assigned.
    #[tactic(auto, using(pyc_obligations::proofs::Steps::performing), unfolding(crate::specs::Augmented::augmented_read))]
    pub(crate) fn read_augmented<N: AskTypes>(
        &self,
        recorder: &mut N,
        found: &AugmentedAssignment,
        flow_state: &mut FlowState,
    ) -> Result<(), AllocError>
        ensures { Performs (λ u. flow_state_in flow_state.new)
            (spec.augmented_read (body_in self.now.body.now) (augmented_of found.now) (flow_state_in flow_state.old))
            (N.trace recorder.old) result (N.trace recorder.new) }
    {
        let operands = self.read_operands(recorder, found, flow_state)?;
        let is_in_place = self.is_in_place(recorder, found.operator, &operands.left)?;
        self.store_unless(recorder, is_in_place, found, &operands, flow_state)
    }

    /// Reads the target and the right side of an augmented assignment.
    #[tactic(auto, using(pyc_obligations::proofs::Steps::performing), unfolding(crate::specs::Augmented::operands_read))]
    fn read_operands<N: AskTypes>(
        &self,
        recorder: &mut N,
        found: &AugmentedAssignment,
        flow_state: &FlowState,
    ) -> Result<Operands, AllocError>
        ensures { Performs operands_in
            (spec.operands_read (body_in self.now.body.now) (augmented_of found.now) (flow_state_in flow_state.now))
            (N.trace recorder.old) result (N.trace recorder.new) }
    {
        let left = self.target_type(recorder, &found.target, flow_state)?;
        let right = self.infer_part(recorder, &found.value, None, flow_state)?;
        Ok(Operands { left, right })
    }

    /// Assigns the result of the operation, unless the target is changed in place.
    fn store_unless<N: AskTypes>(
        &self,
        recorder: &mut N,
        is_in_place: bool,
        found: &AugmentedAssignment,
        operands: &Operands,
        flow_state: &mut FlowState,
    ) -> Result<(), AllocError>
        ensures { Performs (λ u. flow_state_in flow_state.new)
            (spec.stored_unless (body_in self.now.body.now) (augmented_of found.now) (operands_in operands.now)
            (flow_state_in flow_state.old) is_in_place) (N.trace recorder.old) result (N.trace recorder.new) }
    {
        if is_in_place {
            Ok(())
        } else {
            self.store_operation(recorder, found, operands, flow_state)
        }
    }

    /// Assigns the result of the operation.
    #[tactic(auto, using(crate::proofs::Places::placing), unfolding(crate::specs::Augmented::operation_stored))]
    fn store_operation<N: AskTypes>(
        &self,
        recorder: &mut N,
        found: &AugmentedAssignment,
        operands: &Operands,
        flow_state: &mut FlowState,
    ) -> Result<(), AllocError>
        ensures { Performs (λ u. flow_state_in flow_state.new)
            (spec.operation_stored (body_in self.now.body.now) (augmented_of found.now) (operands_in operands.now)
            (flow_state_in flow_state.old)) (N.trace recorder.old) result (N.trace recorder.new) }
    {
        let ty = self.operation_type(recorder, found, operands)?;
        self.assign_target(recorder, found.value.at, &found.target, &ty, flow_state)
    }

    /// The type of the operation.
    #[tactic(auto, using(crate::proofs::Places::placing), unfolding(crate::specs::Augmented::operation_type))]
    fn operation_type<N: AskTypes>(
        &self,
        recorder: &mut N,
        found: &AugmentedAssignment,
        operands: &Operands,
    ) -> Result<Ty, AllocError>
        ensures { Performs ty_of (spec.operation_type (augmented_of found.now) (operands_in operands.now))
            (N.trace recorder.old) result (N.trace recorder.new) }
    {
        let operands = BinaryOperands {
            alloc: self.alloc,
            caller: &MethodCaller,
            at: found.target.at,
            left: &operands.left,
            right: &operands.right,
            of: PhantomData,
        };
        operands.binary(recorder, found.operator)
    }

    /// Whether an augmented assignment changes a target of some type in place: `+=` does a list, and each operator an
    /// instance of a class with the operator's method.
    fn is_in_place<N: AskTypes>(
        &self,
        recorder: &mut N,
        operator: Operator,
        ty: &Ty,
    ) -> Result<bool, AllocError>
        ensures { Performs (λ b. b) (spec.in_place operator (ty_of ty.now)) (N.trace recorder.old) result
            (N.trace recorder.new) }
    {
        match ty {
            Ty::List(_) => Ok(is_plus(operator)),
            Ty::Instance(class) => self.is_class_in_place(recorder, operator, class),
            _ => Ok(false),
        }
    }

    /// Whether an instance of a class is changed in place.
    fn is_class_in_place<N: AskTypes>(
        &self,
        recorder: &mut N,
        operator: Operator,
        class: &ClassId,
    ) -> Result<bool, AllocError>
        ensures { Performs (λ b. b) (spec.class_in_place class.now operator) (N.trace recorder.old) result
            (N.trace recorder.new) }
    {
        if class.as_builtin().is_some() {
            Ok(false)
        } else {
            self.is_source_in_place(recorder, operator, class)
        }
    }

    /// Whether an instance of a class of a file is changed in place: not where the order of the class is unknown.
    #[tactic(auto, using(pyc_obligations::proofs::Steps::performing), unfolding(crate::specs::Augmented::source_in_place))]
    fn is_source_in_place<N: AskTypes>(
        &self,
        recorder: &mut N,
        operator: Operator,
        class: &ClassId,
    ) -> Result<bool, AllocError>
        ensures { Performs (λ b. b) (spec.source_in_place class.now operator) (N.trace recorder.old) result
            (N.trace recorder.new) }
    {
        if is_unknown_class(self.alloc, recorder, class)? {
            Ok(false)
        } else {
            self.has_in_place(recorder, operator, class)
        }
    }

    /// Whether a class has the method that an augmented assignment calls on its target.
    #[tactic(auto, using(pyc_obligations::proofs::Steps::performing), unfolding(crate::specs::Augmented::has_in_place))]
    fn has_in_place<N: AskTypes>(
        &self,
        recorder: &mut N,
        operator: Operator,
        class: &ClassId,
    ) -> Result<bool, AllocError>
        ensures { Performs (λ b. b) (spec.has_in_place class.now operator) (N.trace recorder.old) result
            (N.trace recorder.new) }
    {
        let found = ask_member(self.alloc, recorder, class, in_place_method(operator))?;
        Ok(found.is_some())
    }
}

/// Whether an operator is `+`.
fn is_plus(operator: Operator) -> bool
    ensures { result ≡ spec.is_plus operator }
{
    match operator {
        Operator::Add => true,
        _ => false,
    }
}
