//! What annotations are written as.

ghost use Rattle.std.specs.Prelude.{◌≡◌, ◌++◌, ◌∷◌, [], IfOk, map, option_map, reverse};
ghost use Rattle.pyc_type_exprs.specs.TypeExprs as spec;
ghost use Rattle.pyc_type_exprs.specs.TypeExprView.{type_expr_of, type_argument_of, shape_in};
ghost use Rattle.pyc_ast.specs.ExprView.{expr_of, element_of, index_of};
ghost use Rattle.pyc_ast.specs.Exprs.{elements, indices_of, inside_of};

use crate::forms::{ArgumentShape, DottedName, TypeArgument, TypeExpr};
use pyc_ast::{Constant, Element, Expr, Form, Index, IndexForm, Operator, Position, Text};
use std::alloc::{AllocError, Global};

/// A name, or names joined by dots; none where another expression stands. The only error is that memory runs out.
#[tactic(auto, unfolding(crate::specs::TypeExprs::dotted_names))]
pub fn dotted_names(alloc: Global, e: &Expr) -> Result<Option<Vec<Text>>, AllocError>
    ensures { IfOk result (λ names. option_map (λ v. v.items) names ≡ spec.dotted_names (expr_of e.now)) }
{
    match &e.form {
        Form::Name(name) => Ok(Some(one_name(alloc, name)?)),
        Form::Attribute { value, name } => {
            let before = dotted_names(alloc, value)?;
            Ok(append_name(before, name)?)
        }
        _ => Ok(None),
    }
}

/// A name by itself.
fn one_name(alloc: Global, name: &Text) -> Result<Vec<Text>, AllocError>
    ensures { IfOk result (λ names. names.items ≡ name.now ∷ []) }
{
    let mut names = Vec::with_capacity(alloc, 1)?;
    names.push(name.clone()?)?;
    Ok(names)
}

/// A name behind others, where there are any.
fn append_name(before: Option<Vec<Text>>, name: &Text) -> Result<Option<Vec<Text>>, AllocError>
    ensures { IfOk result (λ names. option_map (λ v. v.items) names
        ≡ option_map (λ names. names ++ (name.now ∷ [])) (option_map (λ v. v.items) before)) }
{
    match before {
        Some(mut names) => {
            names.push(name.clone()?)?;
            Ok(Some(names))
        }
        None => Ok(None),
    }
}

/// What stands under all subscripts.
#[tactic(auto, unfolding(crate::specs::TypeExprs::innermost))]
pub fn innermost(e: &Expr) -> &Expr
    ensures { expr_of result.now ≡ spec.innermost (expr_of e.now) }
{
    match &e.form {
        Form::Subscript { value, .. } => innermost(value),
        _ => e,
    }
}

/// Whether a subscript stands here.
fn is_subscript(e: &Expr) -> bool
    ensures { result ≡ spec.is_subscript (expr_of e.now) }
{
    match &e.form {
        Form::Subscript { .. } => true,
        _ => false,
    }
}

/// A name, where the expression that begins at these positions is one.
fn name_or_wrong(at: Position, inside: Position, names: Option<Vec<Text>>) -> TypeExpr
    ensures { type_expr_of result ≡ spec.name_or_wrong at inside (option_map (λ v. v.items) names) }
{
    match names {
        Some(names) => TypeExpr::Name {
            at,
            name: DottedName { at: inside, names },
        },
        None => TypeExpr::Wrong(at),
    }
}

/// A subscript, where what is subscripted is a name.
fn subscript_or_wrong(
    at: Position,
    inside: Position,
    is_nested: bool,
    arguments: Vec<TypeArgument>,
    names: Option<Vec<Text>>,
) -> TypeExpr
    ensures { type_expr_of result ≡ spec.subscript_or_wrong at inside is_nested
        (map type_argument_of arguments.items) (option_map (λ v. v.items) names) }
{
    match names {
        Some(names) => TypeExpr::Subscript {
            at,
            name: DottedName { at: inside, names },
            is_nested,
            arguments,
        },
        None => TypeExpr::Wrong(at),
    }
}

/// `first | .. | last`, by the first and the others.
fn unions_written(
    alloc: Global,
    first: TypeExpr,
    rest: Vec<TypeExpr>,
) -> Result<TypeExpr, AllocError>
    ensures { IfOk result (λ written. type_expr_of written
        ≡ spec.unions_written (type_expr_of first) (map type_expr_of rest.items)) }
{
    let mut between = rest;
    match between.pop() {
        Some(last) => {
            let first = Box::new(alloc, first)?;
            let last = Box::new(alloc, last)?;
            Ok(TypeExpr::Union {
                first,
                between,
                last,
            })
        }
        None => Ok(first),
    }
}

/// A name as an annotation.
fn name_written(alloc: Global, e: &Expr) -> Result<TypeExpr, AllocError>
    ensures { IfOk result (λ written. type_expr_of written
        ≡ spec.name_or_wrong e.now.at e.now.inside (spec.dotted_names (expr_of e.now))) }
{
    let names = dotted_names(alloc, e)?;
    Ok(name_or_wrong(e.at, e.inside, names))
}

/// A constant as an annotation.
fn constant_written(at: Position, constant: Constant) -> TypeExpr
    ensures { type_expr_of result ≡ spec.constant_written at constant }
{
    match constant {
        Constant::None => TypeExpr::None,
        _ => TypeExpr::Wrong(at),
    }
}

/// The shape of a constant as an argument.
fn constant_shape(constant: Constant) -> ArgumentShape
    ensures { shape_in result ≡ spec.constant_shape constant }
{
    match constant {
        Constant::Ellipsis => ArgumentShape::Ellipsis,
        _ => ArgumentShape::Other,
    }
}

/// Whether an operator is `|`.
fn is_bit_or(operator: Operator) -> bool
    ensures { result ≡ spec.is_bit_or operator }
{
    match operator {
        Operator::BitOr => true,
        _ => false,
    }
}

/// An expression under subscripts, with these arguments in the last of them.
fn subscript_written(
    alloc: Global,
    at: Position,
    value: &Expr,
    arguments: Vec<TypeArgument>,
) -> Result<TypeExpr, AllocError>
    ensures { IfOk result (λ written. type_expr_of written ≡ spec.subscript_or_wrong at
        (inside_of (spec.innermost (expr_of value.now))) (spec.is_subscript (expr_of value.now))
        (map type_argument_of arguments.items) (spec.dotted_names (spec.innermost (expr_of value.now)))) }
{
    let head = innermost(value);
    let names = dotted_names(alloc, head)?;
    Ok(subscript_or_wrong(at, head.inside, is_subscript(value), arguments, names))
}

/// What stands left of each `|` of a union as an annotation: the others go behind these, the last one first. A loop
/// goes through what stands left of a `|`, so many take no more of the stack.
#[cycle(writing)]
fn first_written(
    alloc: Global,
    e: &Expr,
    rights: &mut Vec<TypeExpr>,
) -> Result<TypeExpr, AllocError>
    ensures { IfOk result (λ written.
        spec.unions_written (type_expr_of written) (map type_expr_of (reverse rights.new.items))
        ≡ spec.unions_written (spec.type_expr (expr_of e.now))
        (map type_expr_of (reverse rights.old.items))) }
{
    let mut left = e;
    loop {
        match &left.form {
            Form::Binary {
                operator,
                left: before,
                right,
            } => {
                if !is_bit_or(*operator) {
                    return Ok(TypeExpr::Wrong(left.at));
                }
                rights.push(type_expr(alloc, right)?)?;
                left = before;
            }
            Form::StringAnnotation(spelled) => left = spelled,
            Form::Constant(constant) => return Ok(constant_written(left.at, *constant)),
            Form::Name(_) | Form::Attribute { .. } => return name_written(alloc, left),
            Form::Subscript { value, index } => {
                let arguments = index_arguments(alloc, index)?;
                return subscript_written(alloc, left.at, value, arguments);
            }
            _ => return Ok(TypeExpr::Wrong(left.at)),
        }
    }
}

/// An expression as an annotation. The only error is that memory runs out.
#[cycle(writing)]
pub fn type_expr(alloc: Global, e: &Expr) -> Result<TypeExpr, AllocError>
    ensures { IfOk result (λ written. type_expr_of written ≡ spec.type_expr (expr_of e.now)) }
{
    let mut rights = Vec::new(alloc);
    let first = first_written(alloc, e, &mut rights)?;
    rights.reverse();
    unions_written(alloc, first, rights)
}

/// An expression as an argument.
#[cycle(writing)]
fn argument_of(alloc: Global, e: &Expr) -> Result<TypeArgument, AllocError>
    ensures { IfOk result (λ argument. type_argument_of argument ≡ spec.argument_of (expr_of e.now)) }
{
    let written = type_expr(alloc, e)?;
    let shape = shape_of(alloc, e)?;
    Ok(TypeArgument { written, shape })
}

/// The shape of an expression as an argument.
#[cycle(writing)]
fn shape_of(alloc: Global, e: &Expr) -> Result<ArgumentShape, AllocError>
    ensures { IfOk result (λ shape. shape_in shape ≡ spec.shape_of (expr_of e.now)) }
{
    match &e.form {
        Form::Constant(constant) => Ok(constant_shape(*constant)),
        Form::List(items) => Ok(ArgumentShape::List(elements_written(alloc, items)?)),
        _ => Ok(ArgumentShape::Other),
    }
}

/// The items of a list as types.
#[cycle(writing)]
fn elements_written(alloc: Global, items: &[Element]) -> Result<Vec<TypeExpr>, AllocError>
    ensures { IfOk result (λ types. map type_expr_of types.items
        ≡ spec.elements_written (elements (map element_of items.now))) }
{
    let mut types = Vec::with_capacity(alloc, items.len())?;
    for item in items {
        types.push(element_written(alloc, item)?)?;
    }
    Ok(types)
}

/// An item of a list as a type: one after `*` is no type.
#[cycle(writing)]
fn element_written(alloc: Global, item: &Element) -> Result<TypeExpr, AllocError>
    ensures { IfOk result (λ written. type_expr_of written ≡ spec.element_written (element_of item.now)) }
{
    if item.is_starred {
        Ok(TypeExpr::Wrong(item.value.at))
    } else {
        type_expr(alloc, &item.value)
    }
}

/// An argument that no type is.
fn wrong_argument(at: Position) -> TypeArgument
    ensures { type_argument_of result ≡ spec.wrong_argument at }
{
    TypeArgument {
        written: TypeExpr::Wrong(at),
        shape: ArgumentShape::Other,
    }
}

/// The items of a tuple as arguments.
#[cycle(writing)]
fn element_arguments(alloc: Global, items: &[Element]) -> Result<Vec<TypeArgument>, AllocError>
    ensures { IfOk result (λ arguments. map type_argument_of arguments.items
        ≡ spec.element_arguments (elements (map element_of items.now))) }
{
    let mut arguments = Vec::with_capacity(alloc, items.len())?;
    for item in items {
        arguments.push(element_argument(alloc, item)?)?;
    }
    Ok(arguments)
}

/// An item of a tuple as an argument: one after `*` is no type.
#[cycle(writing)]
fn element_argument(alloc: Global, item: &Element) -> Result<TypeArgument, AllocError>
    ensures { IfOk result (λ argument. type_argument_of argument ≡ spec.element_argument (element_of item.now)) }
{
    if item.is_starred {
        Ok(wrong_argument(item.value.at))
    } else {
        argument_of(alloc, &item.value)
    }
}

/// The items of a tuple as arguments; none where another expression stands.
#[cycle(writing)]
fn tuple_items(alloc: Global, e: &Expr) -> Result<Option<Vec<TypeArgument>>, AllocError>
    ensures { IfOk result (λ items. option_map (λ v. map type_argument_of v.items) items
        ≡ spec.tuple_items (expr_of e.now)) }
{
    match &e.form {
        Form::Tuple(items) => Ok(Some(element_arguments(alloc, items)?)),
        _ => Ok(None),
    }
}

/// An argument by itself, where there are no items.
fn items_or(
    alloc: Global,
    argument: TypeArgument,
    items: Option<Vec<TypeArgument>>,
) -> Result<Vec<TypeArgument>, AllocError>
    ensures { IfOk result (λ arguments. map type_argument_of arguments.items
        ≡ spec.items_or (type_argument_of argument) (option_map (λ v. map type_argument_of v.items) items)) }
{
    match items {
        Some(items) => Ok(items),
        None => one_argument(alloc, argument),
    }
}

/// An argument by itself.
fn one_argument(alloc: Global, argument: TypeArgument) -> Result<Vec<TypeArgument>, AllocError>
    ensures { IfOk result (λ arguments. map type_argument_of arguments.items ≡ type_argument_of argument ∷ []) }
{
    let mut arguments = Vec::with_capacity(alloc, 1)?;
    arguments.push(argument)?;
    Ok(arguments)
}

/// One expression in brackets, as arguments: the items of a tuple, else itself.
#[cycle(writing)]
fn item_arguments(alloc: Global, e: &Expr) -> Result<Vec<TypeArgument>, AllocError>
    ensures { IfOk result (λ arguments. map type_argument_of arguments.items
        ≡ spec.item_arguments (expr_of e.now)) }
{
    let argument = argument_of(alloc, e)?;
    let items = tuple_items(alloc, e)?;
    items_or(alloc, argument, items)
}

/// What stands in brackets, as arguments.
#[cycle(writing)]
fn index_arguments(alloc: Global, index: &Index) -> Result<Vec<TypeArgument>, AllocError>
    ensures { IfOk result (λ arguments. map type_argument_of arguments.items
        ≡ spec.index_arguments (index_of index.now)) }
{
    match &index.form {
        IndexForm::Item(e) => item_arguments(alloc, e),
        IndexForm::Slice { .. } => one_argument(alloc, wrong_argument(index.at)),
        IndexForm::Indices(items) => indices_arguments(alloc, items),
    }
}

/// Several indices as arguments.
#[cycle(writing)]
fn indices_arguments(alloc: Global, items: &[Index]) -> Result<Vec<TypeArgument>, AllocError>
    ensures { IfOk result (λ arguments. map type_argument_of arguments.items
        ≡ spec.indices_arguments (indices_of (map index_of items.now))) }
{
    let mut arguments = Vec::with_capacity(alloc, items.len())?;
    for item in items {
        arguments.push(index_argument(alloc, item)?)?;
    }
    Ok(arguments)
}

/// One of several indices as an argument.
#[cycle(writing)]
fn index_argument(alloc: Global, index: &Index) -> Result<TypeArgument, AllocError>
    ensures { IfOk result (λ argument. type_argument_of argument ≡ spec.index_argument (index_of index.now)) }
{
    match &index.form {
        IndexForm::Item(e) => argument_of(alloc, e),
        _ => Ok(wrong_argument(index.at)),
    }
}
