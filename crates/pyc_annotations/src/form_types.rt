//! The types that forms with arguments are.

ghost use Rattle.std.specs.Prelude.{◌≡◌, ◌∷◌, [], IfOk, map};
ghost use Rattle.pyc_annotations.specs.Annotations as spec;
ghost use Rattle.pyc_annotations.specs.declared.type_form.TypeForm.TheVariants as type_form;
ghost use Rattle.pyc_type_forms.specs.Types.{list, dict, tuple, tuple_of, callable, dots, none};
ghost use Rattle.pyc_type_forms.specs.TypeView.{ty_of, param_of, tys_of};
ghost use Rattle.pyc_type_forms.specs.Unions.{union_of as plain_union_of};

use crate::type_form::TypeForm;
use pyc_class_ids::ClassId;
use pyc_type_forms::{DictTypes, Param, ParamKind, Params, Signature, Ty, union_of};
use std::alloc::{AllocError, Global};
use std::rc::Rc;

/// `list[item]`
pub(crate) fn list_type(alloc: Global, item: Ty) -> Result<Ty, AllocError>
    ensures { IfOk result (λ ty. ty_of ty ≡ list (ty_of item)) }
{
    Ok(Ty::List(Rc::new(alloc, item)?))
}

/// `dict[key, value]`
pub(crate) fn dict_type(alloc: Global, key: Ty, value: Ty) -> Result<Ty, AllocError>
    ensures { IfOk result (λ ty. ty_of ty ≡ dict (ty_of key) (ty_of value)) }
{
    Ok(Ty::Dict(Rc::new(alloc, DictTypes { key, value })?))
}

/// `tuple[..]` with these items
fn tuple_type(alloc: Global, items: Vec<Ty>) -> Result<Ty, AllocError>
    ensures { IfOk result (λ ty. ty_of ty ≡ tuple (tys_of (map ty_of items.items))) }
{
    Ok(Ty::Tuple(Rc::new(alloc, items)?))
}

/// `tuple[item, ...]`
pub(crate) fn any_length(alloc: Global, item: Ty) -> Result<Ty, AllocError>
    ensures { IfOk result (λ ty. ty_of ty ≡ tuple_of (ty_of item)) }
{
    Ok(Ty::TupleOf(Rc::new(alloc, item)?))
}

/// `Callable[..., answer]`
pub(crate) fn any_callable(alloc: Global, answer: Ty) -> Result<Ty, AllocError>
    ensures { IfOk result (λ ty. ty_of ty ≡ callable dots (ty_of answer)) }
{
    let signature = Signature {
        params: Params::Dots,
        result: answer,
    };
    Ok(Ty::Callable(Rc::new(alloc, signature)?))
}

/// `Callable[[types], answer]`
pub(crate) fn plain_callable(alloc: Global, types: &[Ty], answer: Ty) -> Result<Ty, AllocError>
    ensures { IfOk result (λ ty. ty_of ty ≡ spec.plain_callable (map ty_of types.now) (ty_of answer)) }
{
    let params = plain_params(alloc, types)?;
    let signature = Signature {
        params: Params::Listed(params),
        result: answer,
    };
    Ok(Ty::Callable(Rc::new(alloc, signature)?))
}

/// Parameters filled by place, of these types.
fn plain_params(alloc: Global, types: &[Ty]) -> Result<Vec<Param>, AllocError>
    ensures { IfOk result (λ params. map param_of params.items ≡ map spec.plain_param (map ty_of types.now)) }
{
    let mut params = Vec::with_capacity(alloc, types.len())?;
    for ty in types {
        params.push(plain_param(ty)?)?;
    }
    Ok(params)
}

/// A parameter filled by place.
fn plain_param(ty: &Ty) -> Result<Param, AllocError>
    ensures { IfOk result (λ param. param_of param ≡ spec.plain_param (ty_of ty.now)) }
{
    Ok(Param {
        kind: ParamKind::Plain(None),
        ty: ty.clone()?,
        is_optional: false,
    })
}

/// The type of a form whose arguments are these types.
pub(crate) fn build_form_type(
    alloc: Global,
    form: TypeForm,
    types: Vec<Ty>,
) -> Result<Ty, AllocError>
    ensures { IfOk result (λ ty. ty_of ty ≡ spec.build_form_type form (map ty_of types.items)) }
{
    match form {
        TypeForm::List => built_list(alloc, &types),
        TypeForm::Dict => built_dict(alloc, &types),
        TypeForm::Tuple => tuple_type(alloc, types),
        TypeForm::Optional => built_optional(alloc, &types),
        TypeForm::Union => union_of(alloc, &types),
        _ => Ok(Ty::Any),
    }
}

/// A list of one type.
fn built_list(alloc: Global, types: &[Ty]) -> Result<Ty, AllocError>
    ensures { IfOk result (λ ty. ty_of ty ≡ spec.build_form_type type_form.List (map ty_of types.now)) }
{
    match types {
        [item] => list_type(alloc, item.clone()?),
        _ => Ok(Ty::Any),
    }
}

/// A dictionary of two types.
fn built_dict(alloc: Global, types: &[Ty]) -> Result<Ty, AllocError>
    ensures { IfOk result (λ ty. ty_of ty ≡ spec.build_form_type type_form.Dict (map ty_of types.now)) }
{
    match types {
        [key, value] => dict_type(alloc, key.clone()?, value.clone()?),
        _ => Ok(Ty::Any),
    }
}

/// One type or `None`.
fn built_optional(alloc: Global, types: &[Ty]) -> Result<Ty, AllocError>
    ensures { IfOk result (λ ty. ty_of ty ≡ spec.build_form_type type_form.Optional (map ty_of types.now)) }
{
    match types {
        [item] => pair_union(alloc, item, &Ty::None),
        _ => Ok(Ty::Any),
    }
}

/// The union of two types.
pub(crate) fn pair_union(alloc: Global, left: &Ty, right: &Ty) -> Result<Ty, AllocError>
    ensures { IfOk result (λ ty. ty_of ty ≡ plain_union_of (ty_of left.now ∷ ty_of right.now ∷ [])) }
{
    let mut types = Vec::with_capacity(alloc, 2)?;
    types.push(left.clone()?)?;
    types.push(right.clone()?)?;
    union_of(alloc, &types)
}

/// The class object of a class; Any where there is none.
pub(crate) fn object_of(class: Option<ClassId>) -> Ty
    ensures { ty_of result ≡ spec.object_of class }
{
    match class {
        Some(class) => Ty::Class(class),
        None => Ty::Any,
    }
}
