//! Where expressions stand.

ghost use Rattle.pyc_ast.specs.ExprView.{expr_of};
ghost use Rattle.pyc_expr_forms.specs.Contexts as spec;
ghost use Rattle.pyc_obligations.specs.ValueView.{value_of};
ghost use Rattle.pyc_reading.specs.Traces.{Performs};
ghost use Rattle.pyc_scopes.specs.ScopeView.{scope_in};
ghost use Rattle.pyc_type_forms.specs.TypeView.{ty_of};

use pyc_annotations::read_annotation;
use pyc_ast::{Expr, Position, Text};
use pyc_obligations::{AskTypes, Value};
use pyc_scopes::{Scope, resolve_name};
use pyc_type_forms::Ty;
use std::alloc::{AllocError, Global};

/// Where an expression stands.
pub trait Context<N: AskTypes> {
    ghost context: { Self → spec.Context };

    /// What a name is that begins at a position. The only error is that memory runs out.
    fn resolve_name(
        &self,
        alloc: Global,
        recorder: &mut N,
        at: Position,
        name: &Text,
    ) -> Result<Value, AllocError>
        ensures { Performs value_of ((context self.now).resolve_name at name.now) (N.trace recorder.old) result
            (N.trace recorder.new) };

    /// The type that an annotation means. The only error is that memory runs out.
    fn annotated(
        &self,
        alloc: Global,
        recorder: &mut N,
        annotation: &Expr,
    ) -> Result<Ty, AllocError>
        ensures { Performs ty_of ((context self.now).annotated (expr_of annotation.now)) (N.trace recorder.old) result
            (N.trace recorder.new) };
}

impl<N: AskTypes> Context<N> for Scope<'_> {
    ghost context = { λ scope. spec.scope_context (scope_in scope) };

    fn resolve_name(
        &self,
        alloc: Global,
        recorder: &mut N,
        at: Position,
        name: &Text,
    ) -> Result<Value, AllocError> {
        resolve_name(alloc, recorder, *self, at, name)
    }

    #[tactic(auto, using(pyc_obligations::proofs::Steps::performing))]
    fn annotated(
        &self,
        alloc: Global,
        recorder: &mut N,
        annotation: &Expr,
    ) -> Result<Ty, AllocError> {
        let found = read_annotation(alloc, recorder, self.file.interface(), annotation)?;
        Ok(found.ty)
    }
}
