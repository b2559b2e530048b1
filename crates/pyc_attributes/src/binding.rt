//! Members as they are read through an instance and through the class object.

ghost use Rattle.std.specs.Prelude.{◌≡◌, IfOk, map};
ghost use Rattle.pyc_attributes.specs.Binding as spec;
ghost use Rattle.pyc_reading.specs.AnswerView.{member_answer_of};
ghost use Rattle.pyc_type_forms.specs.Types.{callable, listed};
ghost use Rattle.pyc_type_forms.specs.TypeView.{kind_of, param_of, param_row, params_of, ty_of};

use pyc_reading::{MemberAnswer, MemberKind};
use pyc_type_forms::{Param, ParamKind, Params, Signature, Ty};
use std::alloc::{AllocError, Global};
use std::rc::Rc;

/// A member through an instance: a method is given the instance, or its class. The only error is that memory runs out.
pub fn through_instance(alloc: Global, found: MemberAnswer) -> Result<Ty, AllocError>
    ensures { IfOk result (λ ty. ty_of ty ≡ spec.through_instance (member_answer_of found)) }
{
    if found.class.as_builtin().is_some() {
        Ok(found.ty)
    } else {
        bind_member(alloc, found.kind, found.ty)
    }
}

/// A member of this kind and type through an instance.
fn bind_member(alloc: Global, kind: MemberKind, ty: Ty) -> Result<Ty, AllocError>
    ensures { IfOk result (λ found. ty_of found ≡ spec.bind_member kind (ty_of ty)) }
{
    match kind {
        MemberKind::Method => without_first(alloc, &ty),
        MemberKind::ClassMethod => without_first(alloc, &ty),
        _ => Ok(ty),
    }
}

/// A member through the class object: a class method is given the class, and nothing is known of a property. The only
/// error is that memory runs out.
pub fn through_class(alloc: Global, found: MemberAnswer) -> Result<Ty, AllocError>
    ensures { IfOk result (λ ty. ty_of ty ≡ spec.through_class (member_answer_of found)) }
{
    if found.class.as_builtin().is_some() {
        Ok(Ty::Any)
    } else {
        bind_to_class(alloc, found.kind, found.ty)
    }
}

/// A member of this kind and type through the class object.
fn bind_to_class(alloc: Global, kind: MemberKind, ty: Ty) -> Result<Ty, AllocError>
    ensures { IfOk result (λ found. ty_of found ≡ spec.bind_to_class kind (ty_of ty)) }
{
    match kind {
        MemberKind::ClassMethod => without_first(alloc, &ty),
        MemberKind::Property => Ok(Ty::Any),
        MemberKind::SettableProperty => Ok(Ty::Any),
        _ => Ok(ty),
    }
}

/// A callable whose first parameter is given; any other type is itself. The only error is that memory runs out.
pub fn without_first(alloc: Global, ty: &Ty) -> Result<Ty, AllocError>
    ensures { IfOk result (λ found. ty_of found ≡ spec.without_first (ty_of ty.now)) }
{
    match ty {
        Ty::Callable(signature) => given_first(alloc, ty, signature),
        _ => ty.clone(),
    }
}

/// A callable of this signature whose first parameter is given.
fn given_first(alloc: Global, ty: &Ty, signature: &Signature) -> Result<Ty, AllocError>
    requires { ty_of ty.now ≡ callable (params_of signature.now.params) (ty_of signature.now.result) }
    ensures { IfOk result (λ found. ty_of found ≡ spec.without_first (ty_of ty.now)) }
{
    match &signature.params {
        Params::Listed(params) => {
            let later = later_params(alloc, params)?;
            callable_of(alloc, later, &signature.result)
        }
        Params::Dots => ty.clone(),
    }
}

/// What can be called with these parameters, and gives this.
fn callable_of(alloc: Global, params: Vec<Param>, given: &Ty) -> Result<Ty, AllocError>
    ensures { IfOk result (λ ty. ty_of ty ≡ callable (listed (param_row params.items)) (ty_of given.now)) }
{
    let signature = Signature {
        params: Params::Listed(params),
        result: given.clone()?,
    };
    Ok(Ty::Callable(Rc::new(alloc, signature)?))
}

/// What is left of a row of parameters when the first is given.
fn later_params(alloc: Global, params: &[Param]) -> Result<Vec<Param>, AllocError>
    ensures { IfOk result (λ left. param_row left.items ≡ spec.later_params (param_row params.now)) }
{
    match params {
        [first, rest @ ..] => {
            if is_plain(&first.kind) {
                copy_params(alloc, rest)
            } else {
                copy_params(alloc, params)
            }
        }
        [] => Ok(Vec::new(alloc)),
    }
}

/// Whether an argument at its place fills a parameter of this kind.
fn is_plain(kind: &ParamKind) -> bool
    ensures { result ≡ spec.is_plain (kind_of kind.now) }
{
    match kind {
        ParamKind::Plain(_) => true,
        _ => false,
    }
}

/// These parameters once more.
fn copy_params(alloc: Global, params: &[Param]) -> Result<Vec<Param>, AllocError>
    ensures { IfOk result (λ copy. map param_of copy.items ≡ map param_of params.now) }
{
    let mut copy = Vec::with_capacity(alloc, params.len())?;
    for param in params {
        copy.push(copy_param(param)?)?;
    }
    Ok(copy)
}

/// This parameter once more.
fn copy_param(param: &Param) -> Result<Param, AllocError>
    ensures { IfOk result (λ copy. param_of copy ≡ param_of param.now) }
{
    Ok(Param {
        kind: copy_kind(&param.kind)?,
        ty: param.ty.clone()?,
        is_optional: param.is_optional,
    })
}

/// This kind of parameter once more.
fn copy_kind(kind: &ParamKind) -> Result<ParamKind, AllocError>
    ensures { IfOk result (λ copy. kind_of copy ≡ kind_of kind.now) }
{
    match kind {
        ParamKind::Plain(name) => Ok(ParamKind::Plain(name.clone()?)),
        ParamKind::Star => Ok(ParamKind::Star),
        ParamKind::KeywordOnly(name) => Ok(ParamKind::KeywordOnly(name.clone()?)),
        ParamKind::DoubleStar => Ok(ParamKind::DoubleStar),
    }
}
