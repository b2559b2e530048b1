//! What names are in bodies.

ghost use Rattle.std.specs.Prelude.{◌≡◌, IfOk, option_map};
ghost use Rattle.pyc_bindings.specs.BindingView.{binding_of};
ghost use Rattle.pyc_body_context.specs.Bodies.{class_around};
ghost use Rattle.pyc_body_context.specs.BodyNames as spec;
ghost use Rattle.pyc_body_context.specs.Views.{body_in, context_in};
ghost use Rattle.pyc_locals.specs.Views.{local_type_of};
ghost use Rattle.pyc_obligations.specs.ValueView.{value_of};
ghost use Rattle.pyc_reading.specs.AnswerView.{member_answer_of};
ghost use Rattle.pyc_reading.specs.Traces.{Performs};

use crate::bodies::Body;
use pyc_ast::{Expr, Position, Text};
use pyc_attributes::through_class;
use pyc_bindings::Binding;
use pyc_class_ids::ClassId;
use pyc_expr_forms::Context;
use pyc_locals::{LocalType, Locals};
use pyc_obligations::{AskTypes, Value, ask_member};
use pyc_reading::MemberAnswer;
use pyc_scopes::resolve_name;
use pyc_type_forms::Ty;
use std::alloc::{AllocError, Global};

/// Where an expression of a body stands: among these locals.
#[derive(Clone, Copy, Drop)]
pub struct BodyContext<'a> {
    pub body: Body<'a>,
    pub locals: &'a Locals,
}

impl<N: AskTypes> Context<N> for BodyContext<'_> {
    ghost context = { context_in };

    #[tactic(auto, unfolding(crate::specs::BodyNames::body_name))]
    fn resolve_name(
        &self,
        alloc: Global,
        recorder: &mut N,
        at: Position,
        name: &Text,
    ) -> Result<Value, AllocError> {
        match self.locals.resolve_name(name) {
            Some(known) => Ok(local_value(known)?),
            None => {
                let found = self.body.own_binding(name);
                self.body
                    .own_or_outer_value(alloc, recorder, at, name, found)
            }
        }
    }

    fn annotated(
        &self,
        alloc: Global,
        recorder: &mut N,
        annotation: &Expr,
    ) -> Result<Ty, AllocError> {
        self.body.top_scope().annotated(alloc, recorder, annotation)
    }
}

/// What a local is.
fn local_value(known: &LocalType) -> Result<Value, AllocError>
    ensures { IfOk result (λ value. value_of value ≡ spec.local_value (local_type_of known.now)) }
{
    Ok(Value::plain(known.ty()?))
}

impl Body<'_> {
    /// What a name is that is no local, by its declaration in the body of a class.
    fn own_or_outer_value<N: AskTypes>(
        &self,
        alloc: Global,
        recorder: &mut N,
        at: Position,
        name: &Text,
        found: Option<&Binding>,
    ) -> Result<Value, AllocError>
        ensures { Performs value_of
            (spec.own_or_outer_value (body_in self.now) at name.now
            (option_map (λ found. binding_of found.now) found.entry)) (N.trace recorder.old) result
            (N.trace recorder.new) }
    {
        match found {
            Some(_) => own_value(alloc, recorder, self.class_around(), name),
            None => resolve_name(alloc, recorder, self.top_scope(), at, name),
        }
    }
}

/// What an own name of the body of a class is: without a declared class nothing is known of it.
fn own_value<N: AskTypes>(
    alloc: Global,
    recorder: &mut N,
    class: Option<&ClassId>,
    name: &Text,
) -> Result<Value, AllocError>
    ensures { Performs value_of (spec.own_value (option_map (λ class. class.now) class.entry) name.now)
        (N.trace recorder.old) result (N.trace recorder.new) }
{
    match class {
        Some(class) => class_value(alloc, recorder, class, name),
        None => Ok(Value::plain(Ty::Any)),
    }
}

/// What a class has under a name, through the class object.
#[tactic(auto, using(pyc_obligations::proofs::Steps::performing), unfolding(crate::specs::BodyNames::class_value))]
fn class_value<N: AskTypes>(
    alloc: Global,
    recorder: &mut N,
    class: &ClassId,
    name: &Text,
) -> Result<Value, AllocError>
    ensures { Performs value_of (spec.class_value class.now name.now) (N.trace recorder.old) result
        (N.trace recorder.new) }
{
    let found = ask_member(alloc, recorder, class, name.as_str())?;
    Ok(member_value(alloc, found)?)
}

/// What some member of a class is through the class object; without a member nothing is known.
fn member_value(alloc: Global, found: Option<MemberAnswer>) -> Result<Value, AllocError>
    ensures { IfOk result (λ value. value_of value ≡ spec.member_value (option_map member_answer_of found)) }
{
    match found {
        Some(member) => Ok(Value::plain(through_class(alloc, member)?)),
        None => Ok(Value::plain(Ty::Any)),
    }
}
