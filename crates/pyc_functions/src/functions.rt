//! Functions whole.

ghost use Rattle.std.specs.Prelude.{◌≡◌, is_some, map};
ghost use Rattle.std.specs.List.{list_any};
ghost use Rattle.pyc_ast.specs.Statements.{stmts};
ghost use Rattle.pyc_ast.specs.StatementView.{function_of, parameter_of, stmt_of};
ghost use Rattle.pyc_bindings.specs.BindingView.{binding_of};
ghost use Rattle.pyc_body_context.specs.Views.{body_in};
ghost use Rattle.pyc_functions.specs.Functions as spec;
ghost use Rattle.pyc_functions.specs.Views.{head_types_in};
ghost use Rattle.pyc_locals.specs.Views.{locals_in, flow_state_in};
ghost use Rattle.pyc_reading.specs.Traces.{Performs};

use crate::ends::{is_idle_body, read_end};
use crate::function_names::{function_bindings, function_locals};
use crate::function_reader::FunctionReader;
use crate::parameters::{ParameterType, receiver_of};
use crate::redefined::report_redefined;
use pyc_ast::{FunctionDefinition, Parameter, Position, Stmt};
use pyc_bindings::Binding;
use pyc_blocks::read_statements;
use pyc_body_context::{Body, BodyKind};
use pyc_locals::{FlowState, Locals};
use pyc_obligations::AskTypes;
use pyc_places::State;
use pyc_simple_statements::BodyParts;
use pyc_type_forms::Ty;
use std::alloc::{AllocError, Global};

/// What the head of a function says of its body: its parameters, and the type that it gives.
pub(crate) struct HeadTypes<'a> {
    pub(crate) parameters: Vec<ParameterType<'a>>,
    pub(crate) result: Ty,
}

/// Written out: the crates above call it, where what `derive` writes would be made and proved in each of them.
impl Drop for HeadTypes<'_> {
    fn drop(self) {
        let HeadTypes { parameters, result } = self;
        drop(parameters);
        drop(result);
    }
}

impl FunctionReader<'_> {
    /// Reads a function that begins at a position: its parameters with their annotations and defaults, its result, and
    /// its body, unless that suspends, or the function has no annotations and such bodies are not asked for: the names
    /// that it defines again, its statements, and its end. What does not hold is reported. The only error is that
    /// memory runs out.
    #[tactic(auto, using(pyc_obligations::proofs::Steps::performing), unfolding(crate::specs::Functions::function_reading))]
    pub fn read<N: AskTypes>(
        &self,
        recorder: &mut N,
        at: Position,
        head: &FunctionDefinition,
        statements: &[Stmt],
    ) -> Result<(), AllocError>
        ensures { Performs (λ u. u)
            (spec.function_reading (body_in self.now.outside) at (function_of head.now)
            (stmts (map stmt_of statements.now))) (N.trace recorder.old) result (N.trace recorder.new) }
    {
        let types = self.read_head(recorder, head)?;
        self.read_body_if_checked(recorder, at, &types, head, statements)
    }

    /// Reads the head of a function: its parameters in turn, and then its result.
    #[tactic(auto, using(pyc_obligations::proofs::Steps::performing), unfolding(crate::specs::Functions::head_read))]
    fn read_head<'h, N: AskTypes>(
        &self,
        recorder: &mut N,
        head: &'h FunctionDefinition,
    ) -> Result<HeadTypes<'h>, AllocError>
        ensures { Performs head_types_in (spec.head_read (body_in self.now.outside) (function_of head.now))
            (N.trace recorder.old) result (N.trace recorder.new) }
    {
        let receiver = receiver_of(self.outside.class_around(), &head.decorators)?;
        let parameters = self.read_parameters(recorder, receiver, &head.parameters)?;
        let gives = self.read_result(recorder, head.returns.as_ref())?;
        Ok(HeadTypes {
            parameters,
            result: gives,
        })
    }

    /// Reads the body of a function, where it is checked.
    #[tactic(auto, using(pyc_obligations::proofs::Steps::performing))]
    fn read_body_if_checked<N: AskTypes>(
        &self,
        recorder: &mut N,
        at: Position,
        types: &HeadTypes<'_>,
        head: &FunctionDefinition,
        statements: &[Stmt],
    ) -> Result<(), AllocError>
        ensures { Performs (λ u. u)
            (spec.body_if_checked (body_in self.now.outside)
            (spec.is_checked (body_in self.now.outside).file.is_stub self.now.outside.options.check_untyped
            (function_of head.now)) at (head_types_in types.now) (function_of head.now)
            (stmts (map stmt_of statements.now))) (N.trace recorder.old) result (N.trace recorder.new) }
    {
        let is_stub = self.outside.file.interface().is_stub();
        if !is_checked(is_stub, self.outside.options.check_untyped, head) {
            return Ok(());
        }
        let bindings = function_bindings(self.alloc, &head.parameters, statements)?;
        self.read_body(recorder, at, types, &bindings, statements)
    }

    /// Reads the body of a function: the names that it defines again, its statements, and its end.
    #[tactic(auto, using(pyc_obligations::proofs::Steps::performing), unfolding(crate::specs::Functions::body_read))]
    fn read_body<N: AskTypes>(
        &self,
        recorder: &mut N,
        at: Position,
        types: &HeadTypes<'_>,
        bindings: &[Binding],
        statements: &[Stmt],
    ) -> Result<(), AllocError>
        ensures { Performs (λ u. u)
            (spec.body_read (body_in self.now.outside) at (head_types_in types.now) (map binding_of bindings.now)
            (stmts (map stmt_of statements.now))) (N.trace recorder.old) result (N.trace recorder.new) }
    {
        report_redefined(self.alloc, recorder, bindings)?;
        self.read_statements_and_end(recorder, at, types, bindings, statements)
    }

    /// Reads the statements of a function, and what its end requires.
    #[tactic(auto, using(pyc_obligations::proofs::Steps::performing), unfolding(crate::specs::Functions::statements_and_end_read))]
    fn read_statements_and_end<N: AskTypes>(
        &self,
        recorder: &mut N,
        at: Position,
        types: &HeadTypes<'_>,
        bindings: &[Binding],
        statements: &[Stmt],
    ) -> Result<(), AllocError>
        ensures { Performs (λ u. u)
            (spec.statements_and_end_read (body_in self.now.outside) at (head_types_in types.now)
            (map binding_of bindings.now) (stmts (map stmt_of statements.now)))
            (N.trace recorder.old) result (N.trace recorder.new) }
    {
        let flow_state = self.read_inside(recorder, types, bindings, statements)?;
        let is_reached = flow_state.state.is_reachable() && !is_idle_body(statements);
        read_end(self.alloc, recorder, at, &types.result, is_reached)
    }

    /// Reads the statements of a function, in turn.
    #[tactic(auto, using(pyc_obligations::proofs::Steps::performing))]
    fn read_inside<N: AskTypes>(
        &self,
        recorder: &mut N,
        types: &HeadTypes<'_>,
        bindings: &[Binding],
        statements: &[Stmt],
    ) -> Result<FlowState, AllocError>
        ensures { Performs flow_state_in
            (spec.inside_read (body_in self.now.outside) (head_types_in types.now) (map binding_of bindings.now)
            (stmts (map stmt_of statements.now))) (N.trace recorder.old) result (N.trace recorder.new) }
    {
        let inside = Body {
            options: self.outside.options,
            file: self.outside.file,
            kind: BodyKind::Function(&types.result),
        };
        let locals = function_locals(self.alloc, &types.parameters, bindings)?;
        let mut flow_state = begun(self.alloc, locals);
        let parts = BodyParts { body: &inside };
        read_statements(self.alloc, recorder, &parts, statements, &mut flow_state)?;
        Ok(flow_state)
    }
}

/// Where the statements of a body begin, with these locals.
pub(crate) fn begun(alloc: Global, locals: Locals) -> FlowState
    ensures { flow_state_in result ≡ spec.begun (locals_in locals) }
{
    FlowState {
        locals,
        state: State::nothing_narrowed(alloc),
    }
}

/// Whether the body of a function is checked: not one of a stub, nor one that suspends, nor one without annotations
/// unless that is asked for. It takes no memory.
fn is_checked(is_stub: bool, check_untyped: bool, head: &FunctionDefinition) -> bool
    ensures { result ≡ spec.is_checked is_stub check_untyped (function_of head.now) }
{
    !is_stub && !(head.is_async || head.suspends) && (is_annotated(head) || check_untyped)
}

/// Whether a function has an annotation.
fn is_annotated(head: &FunctionDefinition) -> bool
    ensures { result ≡ spec.is_annotated (function_of head.now) }
{
    head.returns.is_some() || has_annotation(&head.parameters)
}

/// Whether one of these parameters has an annotation.
fn has_annotation(parameters: &[Parameter]) -> bool
    ensures { result ≡ list_any (λ p. is_some p.annotation) (map parameter_of parameters.now) }
{
    for parameter in parameters {
        if parameter.annotation.is_some() {
            return true;
        }
    }
    false
}
