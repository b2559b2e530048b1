//! What handlers catch.

ghost use Rattle.std.specs.Prelude.{◌≡◌, IfOk, OnOk, map, option_map};
ghost use Rattle.std.specs.List.{list_any};
ghost use Rattle.pyc_ast.specs.ExprView.{expr_of};
ghost use Rattle.pyc_body_context.specs.Views.{body_in};
ghost use Rattle.pyc_locals.specs.Views.{flow_state_in};
ghost use Rattle.pyc_reading.specs.Traces.{Performs};
ghost use Rattle.pyc_simple_statements.specs.Heads as spec;
ghost use Rattle.pyc_type_forms.specs.TypeView.{row, ty_of};

use crate::reader::StatementReader;
use pyc_ast::{Expr, Form, Text};
use pyc_locals::{FlowState, LocalType};
use pyc_obligations::AskTypes;
use pyc_places::name_place;
use pyc_type_forms::{Ty, union_of};
use std::alloc::{AllocError, Global};

impl StatementReader<'_> {
    /// Reads the head of a handler, by its expression and its name.
    #[tactic(auto, using(pyc_obligations::proofs::Steps::performing), unfolding(crate::specs::Heads::caught_read))]
    pub(crate) fn read_caught<N: AskTypes>(
        &self,
        recorder: &mut N,
        caught: Option<&Expr>,
        name: Option<&Text>,
        flow_state: &mut FlowState,
    ) -> Result<(), AllocError>
        ensures { Performs (λ u. flow_state_in flow_state.new)
            (spec.caught_read (body_in self.now.body.now) (option_map (λ e. expr_of e.now) caught.entry)
            (option_map (λ name. name.now) name.entry) (flow_state_in flow_state.old)) (N.trace recorder.old) result
            (N.trace recorder.new) }
    {
        let ty = self.optional_caught(recorder, caught, flow_state)?;
        bind_caught(self.alloc, name, ty, flow_state)?;
        Ok(())
    }

    /// The type of what a handler with some expression catches.
    fn optional_caught<N: AskTypes>(
        &self,
        recorder: &mut N,
        caught: Option<&Expr>,
        flow_state: &FlowState,
    ) -> Result<Ty, AllocError>
        ensures { Performs ty_of
            (spec.optional_caught (body_in self.now.body.now) (flow_state_in flow_state.now)
            (option_map (λ e. expr_of e.now) caught.entry)) (N.trace recorder.old) result (N.trace recorder.new) }
    {
        match caught {
            Some(e) => self.caught_type(recorder, e, flow_state),
            None => Ok(Ty::Any),
        }
    }

    /// The type of what a handler with an expression catches.
    #[tactic(auto, using(pyc_obligations::proofs::Steps::performing), unfolding(crate::specs::Heads::caught_type))]
    fn caught_type<N: AskTypes>(
        &self,
        recorder: &mut N,
        e: &Expr,
        flow_state: &FlowState,
    ) -> Result<Ty, AllocError>
        ensures { Performs ty_of
            (spec.caught_type (body_in self.now.body.now) (flow_state_in flow_state.now) (expr_of e.now))
            (N.trace recorder.old)
            result (N.trace recorder.new) }
    {
        let ty = self.infer_part(recorder, e, None, flow_state)?;
        Ok(caught_by(self.alloc, is_tuple_display(e), &ty)?)
    }
}

/// Whether an expression is a tuple display.
fn is_tuple_display(e: &Expr) -> bool
    ensures { result ≡ spec.is_tuple_display (expr_of e.now) }
{
    match &e.form {
        Form::Tuple(_) => true,
        _ => false,
    }
}

/// What is caught by a value of some type, by whether its expression is a tuple display.
fn caught_by(alloc: Global, is_display: bool, ty: &Ty) -> Result<Ty, AllocError>
    ensures { IfOk result (λ caught. ty_of caught ≡ spec.caught_by is_display (ty_of ty.now)) }
{
    match ty {
        Ty::Tuple(items) if is_display => caught_by_one_of(alloc, items),
        _ => caught_instance(ty),
    }
}

/// What is caught by one of the types of a tuple display.
fn caught_by_one_of(alloc: Global, items: &[Ty]) -> Result<Ty, AllocError>
    ensures { IfOk result (λ caught. ty_of caught ≡ spec.one_of (spec.row_instances (row items.now))) }
{
    let types = instances(alloc, items)?;
    one_of(alloc, &types)
}

/// What is caught by each of some types.
fn instances(alloc: Global, items: &[Ty]) -> Result<Vec<Ty>, AllocError>
    ensures { IfOk result (λ types. map ty_of types.items ≡ spec.row_instances (row items.now)) }
{
    let mut types = Vec::new(alloc);
    for item in items {
        types.push(caught_instance(item)?)?;
    }
    Ok(types)
}

/// What is caught by a value of some type: an instance of a class object.
fn caught_instance(ty: &Ty) -> Result<Ty, AllocError>
    ensures { IfOk result (λ caught. ty_of caught ≡ spec.caught_instance (ty_of ty.now)) }
{
    match ty {
        Ty::Class(class) => Ok(Ty::Instance(class.clone()?)),
        _ => Ok(Ty::Any),
    }
}

/// What one of some types is: Any if one of them is Any, or if there are none.
fn one_of(alloc: Global, types: &[Ty]) -> Result<Ty, AllocError>
    ensures { IfOk result (λ ty. ty_of ty ≡ spec.one_of (map ty_of types.now)) }
{
    if types.is_empty() || has_any(types) {
        Ok(Ty::Any)
    } else {
        union_of(alloc, types)
    }
}

/// Whether one of some types is Any.
fn has_any(types: &[Ty]) -> bool
    ensures { result ≡ list_any spec.is_any (map ty_of types.now) }
{
    for ty in types {
        if matches!(ty, Ty::Any) {
            return true;
        }
    }
    false
}

/// Binds the name of a handler: it is declared as Any, and is narrowed to what the handler catches.
fn bind_caught(
    alloc: Global,
    name: Option<&Text>,
    ty: Ty,
    flow_state: &mut FlowState,
) -> Result<(), AllocError>
    ensures { OnOk result (flow_state_in flow_state.new
        ≡ spec.caught_bound (option_map (λ name. name.now) name.entry) (ty_of ty) (flow_state_in flow_state.old)) }
{
    match name {
        Some(name) => bind_name(alloc, name, ty, flow_state),
        None => Ok(()),
    }
}

/// Binds a name, which is declared as Any and narrowed to a type.
fn bind_name(
    alloc: Global,
    name: &Text,
    ty: Ty,
    flow_state: &mut FlowState,
) -> Result<(), AllocError>
    ensures { OnOk result (flow_state_in flow_state.new ≡ spec.name_caught name.now (ty_of ty)
        (flow_state_in flow_state.old)) }
{
    let place = name_place(alloc, name)?;
    let dropped = flow_state.state.drop_place(alloc, &place)?;
    let state = dropped.with_place(alloc, place, ty)?;
    flow_state.set_state(state);
    flow_state.declare(name, LocalType::Declared(Ty::Any));
    Ok(())
}
