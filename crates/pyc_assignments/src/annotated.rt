//! Annotated assignments.

ghost use Rattle.std.specs.Prelude.{◌≡◌, IfOk, OnOk, option_map};
ghost use Rattle.pyc_assignments.specs.Assignments as spec;
ghost use Rattle.pyc_assignments.specs.Reads as reads;
ghost use Rattle.pyc_assignments.specs.Views.{outcome_in};
ghost use Rattle.pyc_ast.specs.ExprView.{expr_of};
ghost use Rattle.pyc_ast.specs.StatementView.{annotated_of};
ghost use Rattle.pyc_ast.specs.TargetView.{target_of};
ghost use Rattle.pyc_locals.specs.Views.{flow_state_in};
ghost use Rattle.pyc_reading.specs.Traces.{Performs};
ghost use Rattle.pyc_type_forms.specs.TypeView.{ty_of};

use crate::reading::{AssignmentOutcome, InferAssignment, infer_type_at};
use crate::singles::outcome;
use crate::storing::{assignment_required, renarrow};
use pyc_ast::{AnnotatedAssignment, Expr, Position, Target, TargetForm, Text};
use pyc_locals::{FlowState, LocalType};
use pyc_obligations::AskTypes;
use pyc_type_forms::Ty;
use std::alloc::{AllocError, Global};
use std::marker::PhantomData;

/// Checks an annotated assignment, and leaves `flow_state` as it is after it. The annotated type is expected of the
/// value, which has to be assignable to it. Without a value only the annotation is checked. A local that is the target
/// is declared so, unless it was before; `declares` says whether this is the declaration of a name of the top level or
/// of a class. The only error is that memory runs out.
#[tactic(auto, using(pyc_obligations::proofs::Steps::performing), unfolding(crate::specs::Assignments::annotated_assignment))]
pub fn annotated_assignment<N: AskTypes, R: InferAssignment<N>>(
    alloc: Global,
    recorder: &mut N,
    reader: &R,
    declares: bool,
    found: &AnnotatedAssignment,
    flow_state: &mut FlowState,
) -> Result<(), AllocError>
    requires { R.ready reader.now }
    ensures { Performs (λ u. flow_state_in flow_state.new)
        (spec.annotated_assignment (R.reads reader.now) declares (annotated_of found.now)
        (flow_state_in flow_state.old))
        (N.trace recorder.old) result (N.trace recorder.new) }
{
    let want = reader.annotated(alloc, recorder, &found.annotation)?;
    let annotated = AnnotatedTarget {
        alloc,
        reader,
        declares,
        target: &found.target,
        want: &want,
        of: PhantomData,
    };
    annotated.check_optional_value(recorder, found.value.as_ref(), flow_state)?;
    Ok(())
}

/// A target that is annotated, and who reads the parts of its assignment.
#[derive(Clone, Copy)]
struct AnnotatedTarget<'a, N, R> {
    alloc: Global,
    reader: &'a R,
    /// Whether the assignment declares a name of the top level or of a class.
    declares: bool,
    target: &'a Target,
    /// The type that the annotation means.
    want: &'a Ty,
    of: PhantomData<N>,
}

impl<N: AskTypes, R: InferAssignment<N>> AnnotatedTarget<'_, N, R> {
    /// Checks some value; without a value it declares the target alone.
    fn check_optional_value(
        &self,
        recorder: &mut N,
        value: Option<&Expr>,
        flow_state: &mut FlowState,
    ) -> Result<(), AllocError>
        requires { R.ready self.now.reader.now }
        ensures { Performs (λ u. flow_state_in flow_state.new)
            (spec.check_optional_value (R.reads self.now.reader.now) self.now.declares (target_of self.now.target.now)
            (option_map (λ value. expr_of value.now) value.entry) (flow_state_in flow_state.old)
            (ty_of self.now.want.now))
            (N.trace recorder.old) result (N.trace recorder.new) }
    {
        match value {
            Some(value) => self.check_with_value(recorder, value, flow_state),
            None => declare_target(self.want, self.target, flow_state),
        }
    }

    /// Checks the target and its value.
    #[tactic(auto, using(pyc_obligations::proofs::Steps::performing), unfolding(crate::specs::Assignments::check_with_value))]
    fn check_with_value(
        &self,
        recorder: &mut N,
        value: &Expr,
        flow_state: &mut FlowState,
    ) -> Result<(), AllocError>
        requires { R.ready self.now.reader.now }
        ensures { Performs (λ u. flow_state_in flow_state.new)
            (spec.check_with_value (R.reads self.now.reader.now) self.now.declares (target_of self.now.target.now)
            (ty_of self.now.want.now) (expr_of value.now) (flow_state_in flow_state.old)) (N.trace recorder.old) result
            (N.trace recorder.new) }
    {
        let early = self.early_outcome(recorder, flow_state)?;
        self.assign_value(recorder, value, flow_state, &early)
    }

    /// What an assignment to the target meets, if that is no name: it is read before the value.
    fn early_outcome(
        &self,
        recorder: &mut N,
        flow_state: &FlowState,
    ) -> Result<AssignmentOutcome, AllocError>
        requires { R.ready self.now.reader.now }
        ensures { Performs outcome_in
            (spec.early_outcome (R.reads self.now.reader.now) (flow_state_in flow_state.now)
            (target_of self.now.target.now))
            (N.trace recorder.old) result (N.trace recorder.new) }
    {
        match &self.target.form {
            TargetForm::Name(_) => Ok(AssignmentOutcome::free()),
            _ => outcome(self.alloc, recorder, self.reader, flow_state, self.target),
        }
    }

    /// Checks the value where the target was read before, and declares the target after it.
    #[tactic(auto, using(pyc_obligations::proofs::Steps::performing), unfolding(crate::specs::Assignments::assign_value))]
    fn assign_value(
        &self,
        recorder: &mut N,
        value: &Expr,
        flow_state: &mut FlowState,
        early: &AssignmentOutcome,
    ) -> Result<(), AllocError>
        requires { R.ready self.now.reader.now }
        ensures { Performs (λ u. flow_state_in flow_state.new)
            (spec.assign_value (R.reads self.now.reader.now) self.now.declares (target_of self.now.target.now)
            (ty_of self.now.want.now) (expr_of value.now) (flow_state_in flow_state.old) (outcome_in early.now))
            (N.trace recorder.old)
            result (N.trace recorder.new) }
    {
        let got = infer_type_at(
            self.alloc,
            recorder,
            self.reader,
            flow_state,
            value,
            Some(self.want),
        )?;
        declare_target(self.want, self.target, flow_state)?;
        self.store_value(recorder, early, value.at, &got, flow_state)?;
        Ok(())
    }

    /// Assigns a value of type `got`, which begins at `at`, to the target.
    #[tactic(auto, using(pyc_obligations::proofs::Steps::performing), unfolding(crate::specs::Assignments::store_value))]
    fn store_value(
        &self,
        recorder: &mut N,
        early: &AssignmentOutcome,
        at: Position,
        got: &Ty,
        flow_state: &mut FlowState,
    ) -> Result<(), AllocError>
        requires { R.ready self.now.reader.now }
        ensures { Performs (λ u. flow_state_in flow_state.new)
            (spec.store_value (R.reads self.now.reader.now) self.now.declares (target_of self.now.target.now)
            (ty_of self.now.want.now) (outcome_in early.now) at (ty_of got.now) (flow_state_in flow_state.old))
            (N.trace recorder.old)
            result (N.trace recorder.new) }
    {
        let takes = self.late_want(recorder, flow_state, early)?;
        assignment_required(self.alloc, recorder, at, false, got, self.want)?;
        let state = renarrow(
            self.alloc,
            recorder,
            self.target,
            takes.as_ref(),
            got,
            &flow_state.state,
        )?;
        flow_state.set_state(state);
        Ok(())
    }

    /// The type that the target takes, if it takes one; a name is read only now, after the value.
    fn late_want(
        &self,
        recorder: &mut N,
        flow_state: &FlowState,
        early: &AssignmentOutcome,
    ) -> Result<Option<Ty>, AllocError>
        requires { R.ready self.now.reader.now }
        ensures { Performs (option_map ty_of)
            (spec.late_want (R.reads self.now.reader.now) self.now.declares (ty_of self.now.want.now)
            (flow_state_in flow_state.now) (outcome_in early.now) (target_of self.now.target.now))
            (N.trace recorder.old) result
            (N.trace recorder.new) }
    {
        match &self.target.form {
            TargetForm::Name(name) => self.name_want(recorder, flow_state, name),
            _ => want_of(early),
        }
    }

    /// The type that a name takes, if it takes one, by whether the assignment declares it.
    fn name_want(
        &self,
        recorder: &mut N,
        flow_state: &FlowState,
        name: &Text,
    ) -> Result<Option<Ty>, AllocError>
        requires { R.ready self.now.reader.now }
        ensures { Performs (option_map ty_of)
            (spec.name_want (R.reads self.now.reader.now) self.now.declares (ty_of self.now.want.now)
            (flow_state_in flow_state.now) name.now) (N.trace recorder.old) result (N.trace recorder.new) }
    {
        if self.declares {
            Ok(Some(self.want.clone()?))
        } else {
            self.ask_want(recorder, flow_state, name)
        }
    }

    /// The type that a name takes, if it takes one, which the assignment does not declare.
    #[tactic(auto, using(pyc_obligations::proofs::Steps::performing), unfolding(crate::specs::Assignments::ask_want))]
    fn ask_want(
        &self,
        recorder: &mut N,
        flow_state: &FlowState,
        name: &Text,
    ) -> Result<Option<Ty>, AllocError>
        requires { R.ready self.now.reader.now }
        ensures { Performs (option_map ty_of)
            (spec.ask_want (R.reads self.now.reader.now) (flow_state_in flow_state.now) name.now)
            (N.trace recorder.old) result (N.trace recorder.new) }
    {
        let found = self.reader.outcome(self.alloc, recorder, flow_state, name)?;
        want_of(&found)
    }
}

/// Declares `target` of type `want`, if it is a local that nothing has declared before.
fn declare_target(want: &Ty, target: &Target, flow_state: &mut FlowState) -> Result<(), AllocError>
    ensures { OnOk result (flow_state_in flow_state.new
        ≡ spec.declare_target (ty_of want.now) (target_of target.now) (flow_state_in flow_state.old)) }
{
    match &target.form {
        TargetForm::Name(name) => {
            flow_state.declare(name, LocalType::Declared(want.clone()?));
            Ok(())
        }
        _ => Ok(()),
    }
}

/// A copy of the type that is expected of a value whose target meets `outcome`.
fn want_of(outcome: &AssignmentOutcome) -> Result<Option<Ty>, AllocError>
    ensures { IfOk result (λ want. option_map ty_of want ≡ reads.want_of (outcome_in outcome.now)) }
{
    match outcome.want() {
        Some(want) => Ok(Some(want.clone()?)),
        None => Ok(None),
    }
}
