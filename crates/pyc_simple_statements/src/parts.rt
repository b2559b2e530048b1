//! The parts of the statements of a body that are no blocks.

ghost use Rattle.std.specs.Prelude.{◌≡◌, OnOk};
ghost use Rattle.pyc_assignments.specs.Assignments as assignments;
ghost use Rattle.pyc_ast.specs.StatementView.{annotated_of, stmt_form_of};
ghost use Rattle.pyc_body_context.specs.BodyTargets.{body_reads, declares};
ghost use Rattle.pyc_body_context.specs.Views.{body_in};
ghost use Rattle.pyc_locals.specs.Views.{flow_state_in};
ghost use Rattle.pyc_names.specs.Interfaces.{interface_of};
ghost use Rattle.pyc_names.specs.InterfaceView.{interface_in};
ghost use Rattle.pyc_reading.specs.Traces.{Performs};
ghost use Rattle.pyc_simple_statements.specs.BodyParts as spec;

use crate::reader::StatementReader;
use pyc_assignments::{annotated_assignment, assignment};
use pyc_ast::{AnnotatedAssignment, Expr, For, Handler, Position, StmtForm, Text, WithItem};
use pyc_blocks::PartReader;
use pyc_body_context::{Body, BodyKind};
use pyc_imports::{ImportReader, LocalImportReader, bind_module_import};
use pyc_locals::{FlowState, LocalType};
use pyc_narrowing::SplitStates;
use pyc_obligations::AskTypes;
use pyc_places::Place;
use pyc_type_forms::Ty;
use std::alloc::{AllocError, Global};

/// Reads the parts of the statements of a body that are no blocks.
#[derive(Clone, Copy)]
pub struct BodyParts<'a> {
    pub body: &'a Body<'a>,
}

impl BodyParts<'_> {
    /// The rules of statements in the body.
    fn reader(&self, alloc: Global) -> StatementReader<'_>
        ensures { body_in result.body.now ≡ body_in self.now.body.now }
    {
        StatementReader {
            alloc,
            body: self.body,
        }
    }
}

impl<N: AskTypes> PartReader<N> for BodyParts<'_> {
    ghost ready = { λ parts. Unit };

    ghost parts = { λ parts. spec.body_parts (body_in parts.body.now) };

    fn simple(
        &self,
        alloc: Global,
        recorder: &mut N,
        at: Position,
        form: &StmtForm,
        flow_state: &mut FlowState,
    ) -> Result<(), AllocError> {
        self.reader(alloc)
            .read_simple(recorder, at, form, flow_state)
    }

    fn check_test(
        &self,
        alloc: Global,
        recorder: &mut N,
        test: &Expr,
        flow_state: &FlowState,
    ) -> Result<SplitStates, AllocError> {
        self.reader(alloc).read_test(recorder, test, flow_state)
    }

    fn turn(
        &self,
        alloc: Global,
        recorder: &mut N,
        head: &For,
        places: &[Place],
        flow_state: &mut FlowState,
    ) -> Result<(), AllocError> {
        self.reader(alloc)
            .begin_turn(recorder, head, places, flow_state)
    }

    fn caught(
        &self,
        alloc: Global,
        recorder: &mut N,
        handler: &Handler,
        flow_state: &mut FlowState,
    ) -> Result<(), AllocError> {
        self.reader(alloc).read_caught(
            recorder,
            handler.caught.as_ref(),
            handler.name.as_ref(),
            flow_state,
        )
    }

    fn items(
        &self,
        alloc: Global,
        recorder: &mut N,
        items: &[WithItem],
        flow_state: &mut FlowState,
    ) -> Result<(), AllocError> {
        self.reader(alloc).read_items(recorder, items, flow_state)
    }
}

impl StatementReader<'_> {
    /// Reads a simple statement or a definition that begins at `at`, by its form: a function and a class bind their
    /// names to Any.
    fn read_simple<N: AskTypes>(
        &self,
        recorder: &mut N,
        at: Position,
        form: &StmtForm,
        flow_state: &mut FlowState,
    ) -> Result<(), AllocError>
        ensures { Performs (λ u. flow_state_in flow_state.new)
            (spec.simple_read (body_in self.now.body.now) at (stmt_form_of form.now) (flow_state_in flow_state.old))
            (N.trace recorder.old) result (N.trace recorder.new) }
    {
        match form {
            StmtForm::Expression(e) => self.read_expression(recorder, e, flow_state),
            StmtForm::Assign { targets, value } => {
                assignment(self.alloc, recorder, self.body, targets, value, flow_state)
            }
            StmtForm::Annotate(found) => self.read_annotated(recorder, at, found, flow_state),
            StmtForm::Augment(found) => self.read_augmented(recorder, found, flow_state),
            StmtForm::Return(value) => self.read_return(recorder, at, value.as_deref(), flow_state),
            StmtForm::Raise { exception, cause } => {
                self.read_raise(recorder, exception.as_deref(), cause.as_deref(), flow_state)
            }
            StmtForm::Assert { test, message } => {
                self.read_assert(recorder, test, message.as_deref(), flow_state)
            }
            StmtForm::Delete(target) => self.delete(recorder, target, flow_state),
            StmtForm::Function { head, .. } => Ok(self.bind_definition(&head.name, flow_state)?),
            StmtForm::Class { head, .. } => Ok(self.bind_definition(&head.name, flow_state)?),
            StmtForm::Import(_) => self.read_import(recorder, at, form, flow_state),
            StmtForm::ImportFrom(_) => self.read_import(recorder, at, form, flow_state),
            _ => Ok(()),
        }
    }

    /// Reads the annotated assignment that begins at `at`.
    fn read_annotated<N: AskTypes>(
        &self,
        recorder: &mut N,
        at: Position,
        found: &AnnotatedAssignment,
        flow_state: &mut FlowState,
    ) -> Result<(), AllocError>
        ensures { Performs (λ u. flow_state_in flow_state.new)
            (assignments.annotated_assignment (body_reads (body_in self.now.body.now))
            (declares (body_in self.now.body.now) at (annotated_of found.now).target) (annotated_of found.now)
            (flow_state_in flow_state.old)) (N.trace recorder.old) result (N.trace recorder.new) }
    {
        let declares = self.body.declares(at, &found.target);
        annotated_assignment(self.alloc, recorder, self.body, declares, found, flow_state)
    }

    /// Binds the name of a function or a class to Any.
    fn bind_definition(&self, name: &Text, flow_state: &mut FlowState) -> Result<(), AllocError>
        ensures { OnOk result (flow_state_in flow_state.new ≡ spec.definition_bound name.now
            (flow_state_in flow_state.old)) }
    {
        flow_state.bind(self.alloc, name, LocalType::Bound(Ty::Any))
    }

    /// What reads the import that begins at `at`.
    fn imports(&self, at: Position) -> LocalImportReader<'_>
        ensures options { result.imports.options ≡ (body_in self.now.body.now).options }
        ensures at { result.imports.at ≡ at }
        ensures file { interface_in result.file.now ≡ interface_of (body_in self.now.body.now).file }
    {
        let imports = ImportReader {
            alloc: self.alloc,
            options: self.body.options,
            at,
        };
        LocalImportReader {
            imports,
            file: self.body.file.interface(),
        }
    }

    /// Reads the import that begins at `at`, by the kind of its body.
    fn read_import<N: AskTypes>(
        &self,
        recorder: &mut N,
        at: Position,
        form: &StmtForm,
        flow_state: &mut FlowState,
    ) -> Result<(), AllocError>
        ensures { Performs (λ u. flow_state_in flow_state.new)
            (spec.import_by (body_in self.now.body.now) (body_in self.now.body.now).kind at (stmt_form_of form.now)
            (flow_state_in flow_state.old)) (N.trace recorder.old) result (N.trace recorder.new) }
    {
        match self.body.kind {
            BodyKind::Module => Ok(bind_module_import(self.alloc, form, flow_state)?),
            BodyKind::Class(_) => self
                .imports(at)
                .read_class_import(recorder, form, flow_state),
            BodyKind::Function(_) => self
                .imports(at)
                .read_local_import(recorder, form, flow_state),
        }
    }
}
