//! What assignments to names meet in bodies.

ghost use Rattle.std.specs.Prelude.{◌≡◌, IfOk, option_map};
ghost use Rattle.pyc_assignments.specs.Views.{outcome_in};
ghost use Rattle.pyc_ast.specs.TargetView.{target_of};
ghost use Rattle.pyc_bindings.specs.BindingView.{binding_form_of, binding_of};
ghost use Rattle.pyc_body_context.specs.BodyTargets as spec;
ghost use Rattle.pyc_body_context.specs.Views.{body_in};
ghost use Rattle.pyc_locals.specs.Views.{local_type_of};
ghost use Rattle.pyc_reading.specs.AnswerView.{member_answer_of};
ghost use Rattle.pyc_reading.specs.Traces.{Performs};
ghost use Rattle.pyc_targets.specs.NameTargets as names;

use crate::bodies::{Body, BodyKind};
use pyc_assignments::{AssignmentOutcome, InferAssignment};
use pyc_ast::{Expr, Index, Position, Target, TargetForm, Text};
use pyc_bindings::{Binding, BindingForm};
use pyc_class_ids::ClassId;
use pyc_expr::{Context, infer, infer_index};
use pyc_locals::{FlowState, LocalType};
use pyc_obligations::{AskTypes, Value, ask_member};
use pyc_reading::MemberAnswer;
use pyc_targets::{TargetType, declared_type, declares_at};
use pyc_type_forms::Ty;
use std::alloc::{AllocError, Global};

impl<N: AskTypes> InferAssignment<N> for Body<'_> {
    ghost ready = { λ body. Unit };

    ghost reads = { λ body. spec.body_reads (body_in body) };

    fn value(
        &self,
        alloc: Global,
        recorder: &mut N,
        flow_state: &FlowState,
        part: &Expr,
        want: Option<&Ty>,
    ) -> Result<Value, AllocError> {
        let context = self.context(&flow_state.locals);
        infer(alloc, recorder, &context, &flow_state.state, part, want)
    }

    fn index(
        &self,
        alloc: Global,
        recorder: &mut N,
        flow_state: &FlowState,
        index: &Index,
    ) -> Result<Ty, AllocError> {
        let context = self.context(&flow_state.locals);
        infer_index(alloc, recorder, &context, &flow_state.state, index)
    }

    #[tactic(auto, unfolding(crate::specs::BodyTargets::name_outcome))]
    fn outcome(
        &self,
        alloc: Global,
        recorder: &mut N,
        flow_state: &FlowState,
        name: &Text,
    ) -> Result<AssignmentOutcome, AllocError> {
        match flow_state.locals.resolve_name(name) {
            Some(known) => Ok(local_outcome(name, known)?),
            None => {
                let found = self.own_binding(name);
                self.outcome_if_owned(alloc, recorder, name, found)
            }
        }
    }

    fn annotated(
        &self,
        alloc: Global,
        recorder: &mut N,
        annotation: &Expr,
    ) -> Result<Ty, AllocError> {
        self.top_scope().annotated(alloc, recorder, annotation)
    }
}

/// What an assignment to a local meets.
fn local_outcome(name: &Text, known: &LocalType) -> Result<AssignmentOutcome, AllocError>
    ensures { IfOk result (λ outcome. outcome_in outcome ≡ spec.local_outcome name.now (local_type_of known.now)) }
{
    match known {
        LocalType::Undeclared => Ok(AssignmentOutcome::NewLocal(name.clone()?)),
        LocalType::Declared(ty) => Ok(AssignmentOutcome::TargetType(TargetType::plain(Some(
            ty.clone()?,
        )))),
        LocalType::Bound(_) => Ok(AssignmentOutcome::free()),
    }
}

impl Body<'_> {
    /// Whether the annotated assignment that begins at `at` declares its target. It takes no memory.
    pub fn declares(&self, at: Position, target: &Target) -> bool
        ensures { result ≡ spec.declares (body_in self.now) at (target_of target.now) }
    {
        match &target.form {
            TargetForm::Name(name) => self.declares_name(at, name),
            _ => false,
        }
    }

    /// Whether the annotated assignment that begins at `at` declares a name.
    fn declares_name(&self, at: Position, name: &Text) -> bool
        ensures { result ≡ spec.name_declared (body_in self.now).file (body_in self.now).kind at name.now }
    {
        match self.kind {
            BodyKind::Module => declares_at(self.file, at, name),
            BodyKind::Class(own) => own.declares(at, name),
            BodyKind::Function(_) => false,
        }
    }

    /// What an assignment meets to a name that is no local, by its declaration in the body of a class.
    fn outcome_if_owned<N: AskTypes>(
        &self,
        alloc: Global,
        recorder: &mut N,
        name: &Text,
        found: Option<&Binding>,
    ) -> Result<AssignmentOutcome, AllocError>
        ensures { Performs outcome_in
            (spec.outcome_if_owned (body_in self.now) name.now (option_map (λ found. binding_of found.now) found.entry))
            (N.trace recorder.old) result (N.trace recorder.new) }
    {
        match found {
            Some(found) if is_definition(&found.form) => Ok(AssignmentOutcome::free()),
            Some(_) => own_outcome(alloc, recorder, self.class_around(), name),
            None => self.top_outcome(alloc, recorder, name),
        }
    }

    /// What an assignment to a name of the file's top level meets.
    #[tactic(auto, using(pyc_obligations::proofs::Steps::performing), unfolding(crate::specs::BodyTargets::top_outcome))]
    fn top_outcome<N: AskTypes>(
        &self,
        alloc: Global,
        recorder: &mut N,
        name: &Text,
    ) -> Result<AssignmentOutcome, AllocError>
        ensures { Performs outcome_in (spec.top_outcome (body_in self.now) name.now) (N.trace recorder.old) result
            (N.trace recorder.new) }
    {
        let want = declared_type(alloc, recorder, self.file, name)?;
        Ok(AssignmentOutcome::TargetType(TargetType::plain(want)))
    }
}

/// Whether an import, a function or a class is what binds a name.
fn is_definition(form: &BindingForm) -> bool
    ensures { result ≡ names.is_definition (binding_form_of form.now) }
{
    match form {
        BindingForm::Import(_) => true,
        BindingForm::ImportFirst(_) => true,
        BindingForm::ImportFrom(_, _) => true,
        BindingForm::Function(_) => true,
        BindingForm::Class(_) => true,
        _ => false,
    }
}

/// What an assignment to a variable of the body of a class meets: without a declared class nothing is required of it.
fn own_outcome<N: AskTypes>(
    alloc: Global,
    recorder: &mut N,
    class: Option<&ClassId>,
    name: &Text,
) -> Result<AssignmentOutcome, AllocError>
    ensures { Performs outcome_in (spec.own_outcome (option_map (λ class. class.now) class.entry) name.now)
        (N.trace recorder.old) result (N.trace recorder.new) }
{
    match class {
        Some(class) => class_outcome(alloc, recorder, class, name),
        None => Ok(AssignmentOutcome::free()),
    }
}

/// What an assignment to a name of the body of a class meets there.
#[tactic(auto, using(pyc_obligations::proofs::Steps::performing), unfolding(crate::specs::BodyTargets::class_outcome))]
fn class_outcome<N: AskTypes>(
    alloc: Global,
    recorder: &mut N,
    class: &ClassId,
    name: &Text,
) -> Result<AssignmentOutcome, AllocError>
    ensures { Performs outcome_in (spec.class_outcome class.now name.now) (N.trace recorder.old) result
        (N.trace recorder.new) }
{
    let found = ask_member(alloc, recorder, class, name.as_str())?;
    Ok(member_outcome(found))
}

/// What an assignment to some member meets in the body of its class.
fn member_outcome(found: Option<MemberAnswer>) -> AssignmentOutcome
    ensures { outcome_in result ≡ spec.member_outcome (option_map member_answer_of found) }
{
    match found {
        Some(member) => AssignmentOutcome::TargetType(TargetType::plain(Some(member.ty))),
        None => AssignmentOutcome::free(),
    }
}
