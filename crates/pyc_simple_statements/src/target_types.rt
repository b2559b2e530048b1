//! The types of targets before they are assigned or deleted.

ghost use Rattle.std.specs.Prelude.{◌≡◌, IfOk, option_map};
ghost use Rattle.pyc_ast.specs.ExprView.{expr_of, index_of};
ghost use Rattle.pyc_ast.specs.TargetView.{target_of};
ghost use Rattle.pyc_body_context.specs.Views.{body_in};
ghost use Rattle.pyc_locals.specs.Views.{flow_state_in};
ghost use Rattle.pyc_obligations.specs.ValueView.{value_of};
ghost use Rattle.pyc_places.specs.StateView.{state_of};
ghost use Rattle.pyc_places.specs.TargetPlaces as places;
ghost use Rattle.pyc_reading.specs.Traces.{Performs};
ghost use Rattle.pyc_simple_statements.specs.TargetTypes as spec;
ghost use Rattle.pyc_type_forms.specs.TypeView.{ty_of};

use crate::reader::StatementReader;
use pyc_assignments::InferAssignment;
use pyc_ast::{Expr, Index, Position, Target, TargetForm, Text};
use pyc_attributes::attribute;
use pyc_expr::Context;
use pyc_locals::FlowState;
use pyc_obligations::{AskTypes, Value};
use pyc_places::{State, target_place};
use pyc_subscripts::subscript;
use pyc_type_forms::Ty;
use std::alloc::{AllocError, Global};

impl StatementReader<'_> {
    /// The type of a target, as an expression has it: a narrowed place has the type to which it is narrowed.
    pub(crate) fn target_type<N: AskTypes>(
        &self,
        recorder: &mut N,
        target: &Target,
        flow_state: &FlowState,
    ) -> Result<Ty, AllocError>
        ensures { Performs ty_of
            (spec.target_type (body_in self.now.body.now) (flow_state_in flow_state.now) (target_of target.now))
            (N.trace recorder.old) result (N.trace recorder.new) }
    {
        match &target.form {
            TargetForm::Name(name) => self.name_unless_known(recorder, target, name, flow_state),
            TargetForm::Attribute { value, name } => {
                self.attribute_type(recorder, target, value, name, flow_state)
            }
            TargetForm::Subscript { value, index } => {
                self.item_type(recorder, target.inside, value, index, flow_state)
            }
            TargetForm::Unpacking(_) => Ok(Ty::Any),
        }
    }

    /// The type of a target that is a name: that to which it is narrowed, if it is.
    fn name_unless_known<N: AskTypes>(
        &self,
        recorder: &mut N,
        target: &Target,
        name: &Text,
        flow_state: &FlowState,
    ) -> Result<Ty, AllocError>
        ensures { Performs ty_of
            (spec.unless_known
            (spec.known_at (state_of flow_state.now.state) (places.target_place (target_of target.now)))
            (spec.name_type (body_in self.now.body.now) (flow_state_in flow_state.now) target.now.inside name.now))
            (N.trace recorder.old) result (N.trace recorder.new) }
    {
        match known_type(self.alloc, &flow_state.state, target)? {
            Some(ty) => Ok(ty),
            None => self.name_type(recorder, target.inside, name, flow_state),
        }
    }

    /// The type of the name at a position.
    #[tactic(auto, using(pyc_obligations::proofs::Steps::performing), unfolding(crate::specs::TargetTypes::name_type))]
    fn name_type<N: AskTypes>(
        &self,
        recorder: &mut N,
        at: Position,
        name: &Text,
        flow_state: &FlowState,
    ) -> Result<Ty, AllocError>
        ensures { Performs ty_of
            (spec.name_type (body_in self.now.body.now) (flow_state_in flow_state.now) at name.now)
            (N.trace recorder.old) result
            (N.trace recorder.new) }
    {
        let found = self
            .context(flow_state)
            .resolve_name(self.alloc, recorder, at, name)?;
        Ok(found.ty)
    }

    /// The type of a target that is an attribute of an expression: its owner is read also where it is narrowed.
    #[tactic(auto, using(pyc_obligations::proofs::Steps::performing), unfolding(crate::specs::TargetTypes::attribute_type))]
    fn attribute_type<N: AskTypes>(
        &self,
        recorder: &mut N,
        target: &Target,
        value: &Expr,
        name: &Text,
        flow_state: &FlowState,
    ) -> Result<Ty, AllocError>
        ensures { Performs ty_of
            (spec.attribute_type (body_in self.now.body.now) (flow_state_in flow_state.now) (target_of target.now)
            target.now.inside (expr_of value.now) name.now) (N.trace recorder.old) result (N.trace recorder.new) }
    {
        let owner = self
            .body
            .value(self.alloc, recorder, flow_state, value, None)?;
        let ty = self.found_unless_known(recorder, target, &owner, name, flow_state)?;
        Ok(ty)
    }

    /// The type of a target that is an attribute of a value that was read: that to which it is narrowed, if it is.
    fn found_unless_known<N: AskTypes>(
        &self,
        recorder: &mut N,
        target: &Target,
        owner: &Value,
        name: &Text,
        flow_state: &FlowState,
    ) -> Result<Ty, AllocError>
        ensures { Performs ty_of
            (spec.unless_known
            (spec.known_at (state_of flow_state.now.state) (places.target_place (target_of target.now)))
            (spec.found_type target.now.inside name.now (value_of owner.now)))
            (N.trace recorder.old) result (N.trace recorder.new) }
    {
        match known_type(self.alloc, &flow_state.state, target)? {
            Some(ty) => Ok(ty),
            None => self.found_type(recorder, target.inside, owner, name),
        }
    }

    /// The type of the attribute of a value that was read.
    #[tactic(auto, using(pyc_obligations::proofs::Steps::performing), unfolding(crate::specs::TargetTypes::found_type))]
    fn found_type<N: AskTypes>(
        &self,
        recorder: &mut N,
        at: Position,
        owner: &Value,
        name: &Text,
    ) -> Result<Ty, AllocError>
        ensures { Performs ty_of
            (spec.found_type at name.now (value_of owner.now)) (N.trace recorder.old) result (N.trace recorder.new) }
    {
        let found = attribute(self.alloc, recorder, at, owner, name)?;
        Ok(found.ty)
    }

    /// The type of an item of a value.
    #[tactic(auto, using(pyc_obligations::proofs::Steps::performing), unfolding(crate::specs::TargetTypes::item_type))]
    fn item_type<N: AskTypes>(
        &self,
        recorder: &mut N,
        at: Position,
        value: &Expr,
        index: &Index,
        flow_state: &FlowState,
    ) -> Result<Ty, AllocError>
        ensures { Performs ty_of
            (spec.item_type (body_in self.now.body.now) (flow_state_in flow_state.now) at (expr_of value.now)
            (index_of index.now)) (N.trace recorder.old) result (N.trace recorder.new) }
    {
        let ty = self.infer_part(recorder, value, None, flow_state)?;
        let got = self.body.index(self.alloc, recorder, flow_state, index)?;
        subscript(self.alloc, recorder, at, index, &got, &ty)
    }
}

/// The type to which the place is narrowed that a target is.
fn known_type(alloc: Global, state: &State, target: &Target) -> Result<Option<Ty>, AllocError>
    ensures { IfOk result (λ ty. option_map ty_of ty
        ≡ spec.known_at (state_of state.now) (places.target_place (target_of target.now))) }
{
    match target_place(alloc, target)? {
        Some(place) => Ok(copy_optional_type(state.narrowed_type(&place))?),
        None => Ok(None),
    }
}

/// A copy of some type.
fn copy_optional_type(ty: Option<&Ty>) -> Result<Option<Ty>, AllocError>
    ensures { IfOk result (λ copy. option_map ty_of copy ≡ option_map (λ ty. ty_of ty.now) ty.entry) }
{
    match ty {
        Some(ty) => Ok(Some(ty.clone()?)),
        None => Ok(None),
    }
}
