//! The class objects that `isinstance` is given.

ghost use Rattle.std.specs.Prelude.{◌≡◌, ◌∷◌, [], IfOk, map, option_map};
ghost use Rattle.std.specs.declared.vec.Vec.{Vec};
ghost use Rattle.pyc_ast.specs.Exprs.{elements};
ghost use Rattle.pyc_ast.specs.ExprView.{expr_of, element_of};
ghost use Rattle.pyc_narrowing.specs.Splitting as spec;
ghost use Rattle.pyc_obligations.specs.Judging.{classes_asked};
ghost use Rattle.pyc_places.specs.StateView.{state_of};
ghost use Rattle.pyc_reading.specs.Traces.{Performs};
ghost use Rattle.pyc_type_forms.specs.TypeView.{ty_of};

use crate::looking::{InferOperand, look_quietly};
use pyc_ast::{Element, Expr, Form};
use pyc_class_ids::ClassId;
use pyc_obligations::{AskTypes, ask_class};
use pyc_places::State;
use pyc_type_forms::Ty;
use std::alloc::{AllocError, Global};

/// The classes of a tuple display of class objects, or of one class object; none where something is no class object.
/// The only error is that memory runs out.
pub(crate) fn classes_at<N: AskTypes, L: InferOperand<N>>(
    alloc: Global,
    recorder: &mut N,
    looks: &L,
    state: &State,
    e: &Expr,
) -> Result<Option<Vec<ClassId>>, AllocError>
    requires { L.ready looks.now }
    ensures { Performs (option_map (λ (classes : Vec ClassId Global). classes.items))
        (spec.classes_at (L.looks looks.now) (state_of state.now) (expr_of e.now)) (N.trace recorder.old) result
        (N.trace recorder.new) }
{
    match &e.form {
        Form::Tuple(items) => item_classes(alloc, recorder, looks, state, items),
        _ => one_class(alloc, recorder, looks, state, e),
    }
}

/// The class of one class object.
#[tactic(auto, using(pyc_obligations::proofs::Steps::performing), unfolding(crate::specs::Splitting::one_class))]
fn one_class<N: AskTypes, L: InferOperand<N>>(
    alloc: Global,
    recorder: &mut N,
    looks: &L,
    state: &State,
    e: &Expr,
) -> Result<Option<Vec<ClassId>>, AllocError>
    requires { L.ready looks.now }
    ensures { Performs (option_map (λ (classes : Vec ClassId Global). classes.items))
        (spec.one_class (L.looks looks.now) (state_of state.now) (expr_of e.now)) (N.trace recorder.old) result
        (N.trace recorder.new) }
{
    let class = class_at(alloc, recorder, looks, state, e)?;
    just(alloc, class)
}

/// A class by itself, if there is one.
fn just(alloc: Global, class: Option<ClassId>) -> Result<Option<Vec<ClassId>>, AllocError>
    ensures { IfOk result (λ classes. option_map (λ v. v.items) classes ≡ option_map (λ c. c ∷ []) class) }
{
    match class {
        Some(class) => {
            let mut classes = Vec::with_capacity(alloc, 1)?;
            classes.push(class)?;
            Ok(Some(classes))
        }
        None => Ok(None),
    }
}

/// The classes of items that are all class objects, in turn.
#[tactic(auto, using(pyc_obligations::proofs::Steps::performing), unfolding(crate::specs::Splitting::more_classes))]
fn item_classes<N: AskTypes, L: InferOperand<N>>(
    alloc: Global,
    recorder: &mut N,
    looks: &L,
    state: &State,
    items: &[Element],
) -> Result<Option<Vec<ClassId>>, AllocError>
    requires { L.ready looks.now }
    ensures { Performs (option_map (λ (classes : Vec ClassId Global). classes.items))
        (spec.more_classes (L.looks looks.now) (state_of state.now) [] (elements (map element_of items.now)))
        (N.trace recorder.old) result (N.trace recorder.new) }
{
    let mut classes = Vec::with_capacity(alloc, items.len())?;
    for item in items {
        match item_class(alloc, recorder, looks, state, item)? {
            Some(class) => classes.push(class)?,
            None => return Ok(None),
        }
    }
    Ok(Some(classes))
}

/// The class that an item of a tuple is, if it is a class object: one after `*` is none, and is not looked at.
fn item_class<N: AskTypes, L: InferOperand<N>>(
    alloc: Global,
    recorder: &mut N,
    looks: &L,
    state: &State,
    item: &Element,
) -> Result<Option<ClassId>, AllocError>
    requires { L.ready looks.now }
    ensures { Performs (λ class. class)
        (spec.item_class (L.looks looks.now) (state_of state.now) (element_of item.now)) (N.trace recorder.old) result
        (N.trace recorder.new) }
{
    if item.is_starred {
        Ok(None)
    } else {
        class_at(alloc, recorder, looks, state, &item.value)
    }
}

/// The class that an expression is, if it is a class object.
#[tactic(auto, using(pyc_obligations::proofs::Steps::performing), unfolding(crate::specs::Splitting::class_at))]
fn class_at<N: AskTypes, L: InferOperand<N>>(
    alloc: Global,
    recorder: &mut N,
    looks: &L,
    state: &State,
    e: &Expr,
) -> Result<Option<ClassId>, AllocError>
    requires { L.ready looks.now }
    ensures { Performs (λ class. class)
        (spec.class_at (L.looks looks.now) (state_of state.now) (expr_of e.now)) (N.trace recorder.old) result
        (N.trace recorder.new) }
{
    let found = look_quietly(alloc, recorder, looks, state, e)?;
    class_in(&found.ty)
}

/// The class of which a type is the class object. The only error is a full count of those that share its name.
fn class_in(ty: &Ty) -> Result<Option<ClassId>, AllocError>
    ensures { IfOk result (λ class. class ≡ spec.class_in (ty_of ty.now)) }
{
    match ty {
        Ty::Class(class) => Ok(Some(class.clone()?)),
        _ => Ok(None),
    }
}

/// Asks the orders of classes, in turn. The only error is that memory runs out.
#[tactic(auto, using(pyc_obligations::proofs::Steps::performing))]
pub(crate) fn ask_classes<N: AskTypes>(
    alloc: Global,
    recorder: &mut N,
    classes: &[ClassId],
) -> Result<(), AllocError>
    ensures { Performs (λ u. u) (classes_asked classes.now) (N.trace recorder.old) result (N.trace recorder.new) }
{
    for class in classes {
        ask_class(alloc, recorder, class)?;
    }
    Ok(())
}
