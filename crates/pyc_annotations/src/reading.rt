//! The types that annotations mean.

ghost use Rattle.std.specs.Prelude.{◌≡◌, ◌∷◌, [], IfOk, map};
ghost use Rattle.pyc_annotations.specs.Annotations as spec;
ghost use Rattle.pyc_annotations.specs.Views.{annotation_in, meaning_of, subscripted_of};
ghost use Rattle.pyc_ast.specs.ExprView.{expr_of};
ghost use Rattle.pyc_names.specs.InterfaceView.{interface_in};
ghost use Rattle.pyc_reading.specs.Traces.{Performs};
ghost use Rattle.pyc_reading.specs.Readings.{Done, and_then};
ghost use Rattle.pyc_type_exprs.specs.TypeExprs.{type_expr as type_expr_in, type_exprs, type_arguments};
ghost use Rattle.pyc_type_exprs.specs.TypeExprView.{type_expr_of, type_argument_of, dotted_name_of};
ghost use Rattle.pyc_type_forms.specs.TypeView.{ty_of};
ghost use Rattle.pyc_type_forms.specs.Unions.{union_of};

use crate::form_types::{
    any_callable, any_length, build_form_type, dict_type, list_type, object_of, pair_union,
    plain_callable,
};
use crate::lookup::dotted_meaning;
use crate::meaning::{Meaning, Role};
use crate::messages::{invalid, not_a_type, wrong_count};
use crate::subscripted::{Subscripted, with_arguments};
use crate::type_form::TypeForm;
use pyc_ast::{Expr, Position};
use pyc_class_ids::ClassId;
use pyc_names::{FixedName, Interface};
use pyc_reading::Ask;
use pyc_type_exprs::{ArgumentShape, DottedName, TypeArgument, TypeExpr, type_expr};
use pyc_type_forms::{Ty, instance_of};
use std::alloc::{AllocError, Global};

/// An annotation as it is read: its type, and the class whose name it is, if it is one.
#[derive(Drop)]
pub struct Annotation {
    pub ty: Ty,
    pub class: Option<ClassId>,
}

/// What stands before the arguments of an annotation in brackets.
#[derive(Clone, Copy)]
struct Subscript<'a> {
    /// Where the annotation is written.
    at: Position,
    name: &'a DottedName,
}

/// An annotation of this type, which is no name of a class.
pub(crate) fn annotation_of_type(ty: Ty) -> Annotation
    ensures { annotation_in result ≡ spec.annotation_of_type (ty_of ty) }
{
    Annotation { ty, class: None }
}

/// The instances of a class, by its name.
fn of_class(alloc: Global, class: ClassId) -> Result<Annotation, AllocError>
    ensures { IfOk result (λ found. annotation_in found ≡ spec.of_class class) }
{
    let ty = instance_of(alloc, &class)?;
    Ok(Annotation {
        ty,
        class: Some(class),
    })
}

/// The type that an annotation means which stands in a file: where it is wrong that is reported, and it is Any. The
/// only error is that memory runs out.
pub fn read_annotation<N: Ask>(
    alloc: Global,
    recorder: &mut N,
    file: &Interface,
    e: &Expr,
) -> Result<Annotation, AllocError>
    ensures { Performs annotation_in (spec.read_type (interface_in file.now) (type_expr_in (expr_of e.now)))
        (N.trace recorder.old) result (N.trace recorder.new) }
{
    let written = type_expr(alloc, e)?;
    read_type(alloc, recorder, file, &written)
}

/// The bare name of a special form.
fn bare_form<N: Ask>(
    alloc: Global,
    recorder: &mut N,
    at: Position,
    name: FixedName,
) -> Result<Annotation, AllocError>
    ensures { Performs annotation_in (spec.bare_form at name) (N.trace recorder.old) result (N.trace recorder.new) }
{
    match name {
        FixedName::Any => Ok(annotation_of_type(Ty::Any)),
        FixedName::List => Ok(annotation_of_type(list_type(alloc, Ty::Any)?)),
        FixedName::Dict => Ok(annotation_of_type(dict_type(alloc, Ty::Any, Ty::Any)?)),
        FixedName::Tuple => Ok(annotation_of_type(any_length(alloc, Ty::Any)?)),
        FixedName::Callable => Ok(annotation_of_type(any_callable(alloc, Ty::Any)?)),
        _ => invalid(alloc, recorder, at),
    }
}

/// What a name by itself is, by what it means.
#[tactic(auto, unfolding(crate::specs::Annotations::resolve_name))]
fn resolve_name<N: Ask>(
    alloc: Global,
    recorder: &mut N,
    at: Position,
    name: &DottedName,
    meaning: Meaning,
) -> Result<Annotation, AllocError>
    ensures { Performs annotation_in (spec.resolve_name at (dotted_name_of name.now) (meaning_of meaning))
        (N.trace recorder.old)
        result (N.trace recorder.new) }
{
    match meaning {
        Meaning::Class(class) => of_class(alloc, class),
        Meaning::Any | Meaning::Type => Ok(annotation_of_type(Ty::Any)),
        Meaning::Fixed(found) => bare_form(alloc, recorder, at, found),
        Meaning::Nothing => invalid(alloc, recorder, at),
        _ => not_a_type(alloc, recorder, name),
    }
}

/// A name by itself.
#[tactic(auto, using(crate::proofs::Steps::performing), unfolding(crate::specs::Annotations::name_rule))]
fn read_name<N: Ask>(
    alloc: Global,
    recorder: &mut N,
    file: &Interface,
    at: Position,
    name: &DottedName,
) -> Result<Annotation, AllocError>
    ensures { Performs annotation_in (spec.name_rule (interface_in file.now) at (dotted_name_of name.now))
        (N.trace recorder.old) result (N.trace recorder.new) }
{
    let meaning = dotted_meaning(
        alloc,
        recorder,
        Role::Annotation,
        file,
        name.at,
        &name.names,
    )?;
    resolve_name(alloc, recorder, at, name, meaning)
}

/// What an annotation means that stands in a file.
#[cycle(reading)]
#[tactic(auto, using(crate::proofs::Steps::performing), unfolding(crate::specs::Annotations::union_rule))]
fn read_type<N: Ask>(
    alloc: Global,
    recorder: &mut N,
    file: &Interface,
    written: &TypeExpr,
) -> Result<Annotation, AllocError>
    ensures { Performs annotation_in (spec.read_type (interface_in file.now) (type_expr_of written.now))
        (N.trace recorder.old) result (N.trace recorder.new) }
{
    match written {
        TypeExpr::None => Ok(annotation_of_type(Ty::None)),
        TypeExpr::Name { at, name } => read_name(alloc, recorder, file, *at, name),
        TypeExpr::Union {
            first,
            between,
            last,
        } => {
            let first = read_type(alloc, recorder, file, first)?;
            let left = read_rest(alloc, recorder, file, first, between)?;
            let union = read_right(alloc, recorder, file, last, &left.ty)?;
            Ok(union)
        }
        TypeExpr::Subscript {
            at,
            name,
            is_nested,
            arguments,
        } => {
            let written = Subscript { at: *at, name };
            read_subscript(alloc, recorder, file, &written, *is_nested, arguments)
        }
        TypeExpr::Wrong(at) => invalid(alloc, recorder, *at),
    }
}

/// A name with arguments, by what it means.
#[cycle(reading)]
#[tactic(auto, using(crate::proofs::Steps::performing), unfolding(crate::specs::Annotations::subscript_rule))]
fn read_subscript<N: Ask>(
    alloc: Global,
    recorder: &mut N,
    file: &Interface,
    written: &Subscript<'_>,
    is_nested: bool,
    arguments: &[TypeArgument],
) -> Result<Annotation, AllocError>
    ensures { Performs annotation_in
        (spec.subscript_rule (interface_in file.now) written.now.at (dotted_name_of written.now.name.now) is_nested
        (spec.argument_readings (interface_in file.now) (type_arguments (map type_argument_of arguments.now))))
        (N.trace recorder.old) result (N.trace recorder.new) }
{
    let name = written.name;
    let meaning = dotted_meaning(
        alloc,
        recorder,
        Role::Annotation,
        file,
        name.at,
        &name.names,
    )?;
    let subscripted = with_arguments(is_nested, meaning);
    read_subscripted(alloc, recorder, file, written, arguments, subscripted)
}

/// What stands right of `|`, where the left side has this type.
#[cycle(reading)]
#[tactic(auto, using(crate::proofs::Steps::performing))]
fn read_right<N: Ask>(
    alloc: Global,
    recorder: &mut N,
    file: &Interface,
    right: &TypeExpr,
    left: &Ty,
) -> Result<Annotation, AllocError>
    ensures { Performs annotation_in
        (and_then (spec.read_type (interface_in file.now) (type_expr_of right.now))
        (λ found. Done (spec.annotation_of_type (union_of (ty_of left.now ∷ found.ty ∷ []))))) (N.trace recorder.old)
        result
        (N.trace recorder.new) }
{
    let right = read_type(alloc, recorder, file, right)?;
    let union = pair_union(alloc, left, &right.ty)?;
    Ok(annotation_of_type(union))
}

/// What stands right of `|`, one after another, where what stands left of the first is read as this.
#[cycle(reading)]
#[tactic(auto, using(crate::proofs::Steps::performing), unfolding(crate::specs::Annotations::more_unions))]
fn read_rest<N: Ask>(
    alloc: Global,
    recorder: &mut N,
    file: &Interface,
    first: Annotation,
    rest: &[TypeExpr],
) -> Result<Annotation, AllocError>
    ensures { Performs annotation_in
        (spec.more_unions (annotation_in first)
        (spec.type_readings (interface_in file.now) (type_exprs (map type_expr_of rest.now))))
        (N.trace recorder.old) result (N.trace recorder.new) }
{
    let mut left = first;
    for right in rest {
        left = read_right(alloc, recorder, file, right, &left.ty)?;
    }
    Ok(left)
}

/// A name with arguments.
#[cycle(reading)]
#[tactic(auto, unfolding(crate::specs::Annotations::subscripted_rule))]
fn read_subscripted<N: Ask>(
    alloc: Global,
    recorder: &mut N,
    file: &Interface,
    written: &Subscript<'_>,
    arguments: &[TypeArgument],
    subscripted: Subscripted,
) -> Result<Annotation, AllocError>
    ensures { Performs annotation_in
        (spec.subscripted_rule written.now.at (dotted_name_of written.now.name.now)
        (spec.argument_readings (interface_in file.now) (type_arguments (map type_argument_of arguments.now)))
        (subscripted_of subscripted)) (N.trace recorder.old) result (N.trace recorder.new) }
{
    match subscripted {
        Subscripted::Form(form) => {
            if form.takes(arguments.len()) {
                read_form(alloc, recorder, file, written.at, form, arguments)
            } else {
                wrong_count(alloc, recorder, written.at, form)
            }
        }
        Subscripted::Class(class) => Ok(of_class(alloc, class)?),
        Subscripted::Any => Ok(annotation_of_type(Ty::Any)),
        Subscripted::Value => not_a_type(alloc, recorder, written.name),
        Subscripted::Wrong => invalid(alloc, recorder, written.at),
    }
}

/// A form with as many arguments as it takes.
#[cycle(reading)]
#[tactic(auto, unfolding(crate::specs::Annotations::form_rule))]
fn read_form<N: Ask>(
    alloc: Global,
    recorder: &mut N,
    file: &Interface,
    at: Position,
    form: TypeForm,
    arguments: &[TypeArgument],
) -> Result<Annotation, AllocError>
    ensures { Performs annotation_in
        (spec.form_rule at form
        (spec.argument_readings (interface_in file.now) (type_arguments (map type_argument_of arguments.now))))
        (N.trace recorder.old) result (N.trace recorder.new) }
{
    match form {
        TypeForm::Callable => read_callable(alloc, recorder, file, at, arguments),
        TypeForm::Type => read_class_object(alloc, recorder, file, arguments),
        TypeForm::Tuple => read_tuple(alloc, recorder, file, arguments),
        _ => read_built(alloc, recorder, file, form, arguments),
    }
}

/// A form whose arguments are all types.
#[cycle(reading)]
#[tactic(auto, using(crate::proofs::Steps::performing), unfolding(crate::specs::Annotations::built_rule))]
fn read_built<N: Ask>(
    alloc: Global,
    recorder: &mut N,
    file: &Interface,
    form: TypeForm,
    arguments: &[TypeArgument],
) -> Result<Annotation, AllocError>
    ensures { Performs annotation_in
        (spec.built_rule form
        (spec.argument_readings (interface_in file.now) (type_arguments (map type_argument_of arguments.now))))
        (N.trace recorder.old) result (N.trace recorder.new) }
{
    let types = argument_types(alloc, recorder, file, arguments)?;
    let ty = build_form_type(alloc, form, types)?;
    Ok(annotation_of_type(ty))
}

/// `type[C]`
#[cycle(reading)]
fn read_class_object<N: Ask>(
    alloc: Global,
    recorder: &mut N,
    file: &Interface,
    arguments: &[TypeArgument],
) -> Result<Annotation, AllocError>
    ensures { Performs annotation_in
        (spec.class_object_rule
        (spec.argument_readings (interface_in file.now) (type_arguments (map type_argument_of arguments.now))))
        (N.trace recorder.old) result (N.trace recorder.new) }
{
    match arguments {
        [first, ..] => read_object(alloc, recorder, file, &first.written),
        [] => Ok(annotation_of_type(Ty::Any)),
    }
}

/// The class object of the class that an annotation names.
#[cycle(reading)]
#[tactic(auto, using(crate::proofs::Steps::performing))]
fn read_object<N: Ask>(
    alloc: Global,
    recorder: &mut N,
    file: &Interface,
    written: &TypeExpr,
) -> Result<Annotation, AllocError>
    ensures { Performs annotation_in
        (spec.object_rule (spec.read_type (interface_in file.now) (type_expr_of written.now))) (N.trace recorder.old)
        result
        (N.trace recorder.new) }
{
    let found = read_type(alloc, recorder, file, written)?;
    Ok(annotation_of_type(object_of(found.class)))
}

/// A tuple: `T, ...` is one of any length.
#[cycle(reading)]
fn read_tuple<N: Ask>(
    alloc: Global,
    recorder: &mut N,
    file: &Interface,
    arguments: &[TypeArgument],
) -> Result<Annotation, AllocError>
    ensures { Performs annotation_in
        (spec.tuple_rule
        (spec.argument_readings (interface_in file.now) (type_arguments (map type_argument_of arguments.now))))
        (N.trace recorder.old) result (N.trace recorder.new) }
{
    match arguments {
        [item, length] => match &length.shape {
            ArgumentShape::Ellipsis => read_any_length(alloc, recorder, file, &item.written),
            _ => read_built(alloc, recorder, file, TypeForm::Tuple, arguments),
        },
        _ => read_built(alloc, recorder, file, TypeForm::Tuple, arguments),
    }
}

/// `tuple[T, ...]`
#[cycle(reading)]
#[tactic(auto, using(crate::proofs::Steps::performing))]
fn read_any_length<N: Ask>(
    alloc: Global,
    recorder: &mut N,
    file: &Interface,
    written: &TypeExpr,
) -> Result<Annotation, AllocError>
    ensures { Performs annotation_in
        (spec.any_length_rule (spec.read_type (interface_in file.now) (type_expr_of written.now)))
        (N.trace recorder.old)
        result (N.trace recorder.new) }
{
    let found = read_type(alloc, recorder, file, written)?;
    let ty = any_length(alloc, found.ty)?;
    Ok(annotation_of_type(ty))
}

/// `Callable[.., T]`
#[cycle(reading)]
fn read_callable<N: Ask>(
    alloc: Global,
    recorder: &mut N,
    file: &Interface,
    at: Position,
    arguments: &[TypeArgument],
) -> Result<Annotation, AllocError>
    ensures { Performs annotation_in
        (spec.callable_rule at
        (spec.argument_readings (interface_in file.now) (type_arguments (map type_argument_of arguments.now))))
        (N.trace recorder.old) result (N.trace recorder.new) }
{
    match arguments {
        [params, answer] => match &params.shape {
            ArgumentShape::Ellipsis => read_any_callable(alloc, recorder, file, &answer.written),
            ArgumentShape::List(types) => {
                let types = listed_types(alloc, recorder, file, types)?;
                let found = read_plain_callable(alloc, recorder, file, &answer.written, &types)?;
                Ok(found)
            }
            ArgumentShape::Other => invalid(alloc, recorder, at),
        },
        _ => invalid(alloc, recorder, at),
    }
}

/// `Callable[..., answer]`
#[cycle(reading)]
#[tactic(auto, using(crate::proofs::Steps::performing))]
fn read_any_callable<N: Ask>(
    alloc: Global,
    recorder: &mut N,
    file: &Interface,
    answer: &TypeExpr,
) -> Result<Annotation, AllocError>
    ensures { Performs annotation_in
        (spec.any_callable (spec.read_type (interface_in file.now) (type_expr_of answer.now))) (N.trace recorder.old)
        result
        (N.trace recorder.new) }
{
    let found = read_type(alloc, recorder, file, answer)?;
    let ty = any_callable(alloc, found.ty)?;
    Ok(annotation_of_type(ty))
}

/// `Callable[[types], answer]`
#[cycle(reading)]
#[tactic(auto, using(crate::proofs::Steps::performing))]
fn read_plain_callable<N: Ask>(
    alloc: Global,
    recorder: &mut N,
    file: &Interface,
    answer: &TypeExpr,
    types: &[Ty],
) -> Result<Annotation, AllocError>
    ensures { Performs annotation_in
        (and_then (spec.read_type (interface_in file.now) (type_expr_of answer.now))
        (λ found. Done (spec.annotation_of_type (spec.plain_callable (map ty_of types.now) found.ty))))
        (N.trace recorder.old) result
        (N.trace recorder.new) }
{
    let found = read_type(alloc, recorder, file, answer)?;
    let ty = plain_callable(alloc, types, found.ty)?;
    Ok(annotation_of_type(ty))
}

/// The types of arguments, in turn.
#[cycle(reading)]
#[tactic(auto, using(crate::proofs::Steps::performing), unfolding(crate::specs::Annotations::more_types))]
fn argument_types<N: Ask>(
    alloc: Global,
    recorder: &mut N,
    file: &Interface,
    arguments: &[TypeArgument],
) -> Result<Vec<Ty>, AllocError>
    ensures { Performs (λ types. map ty_of types.items)
        (spec.argument_types
        (spec.argument_readings (interface_in file.now) (type_arguments (map type_argument_of arguments.now))))
        (N.trace recorder.old) result (N.trace recorder.new) }
{
    let mut types = Vec::with_capacity(alloc, arguments.len())?;
    for argument in arguments {
        let found = read_type(alloc, recorder, file, &argument.written)?;
        types.push(found.ty)?;
    }
    Ok(types)
}

/// The types of annotations, in turn.
#[cycle(reading)]
#[tactic(auto, using(crate::proofs::Steps::performing), unfolding(crate::specs::Annotations::more_types))]
fn listed_types<N: Ask>(
    alloc: Global,
    recorder: &mut N,
    file: &Interface,
    listed: &[TypeExpr],
) -> Result<Vec<Ty>, AllocError>
    ensures { Performs (λ types. map ty_of types.items)
        (spec.more_types [] (spec.type_readings (interface_in file.now) (type_exprs (map type_expr_of listed.now))))
        (N.trace recorder.old) result (N.trace recorder.new) }
{
    let mut types = Vec::with_capacity(alloc, listed.len())?;
    for written in listed {
        let found = read_type(alloc, recorder, file, written)?;
        types.push(found.ty)?;
    }
    Ok(types)
}
