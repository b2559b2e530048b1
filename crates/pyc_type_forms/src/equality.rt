//! When two types are one.

ghost use Rattle.std.specs.Prelude.{◌≡◌, option_map};
ghost use Rattle.pyc_type_forms.specs.TypeView.{ty_of, row, params_of, param_of, param_row, kind_of};
ghost use Rattle.pyc_type_forms.specs.Equality as spec;

use crate::{Param, ParamKind, Params, Ty};
use pyc_ast::Text;

/// Whether two types are of one form with the same parts in the same order. Takes no memory.
#[cycle(same)]
pub fn same_type(ty: &Ty, other: &Ty) -> bool
    ensures { result ≡ spec.same_type (ty_of ty.now) (ty_of other.now) }
{
    match ty {
        Ty::Any => matches!(other, Ty::Any),
        Ty::None => matches!(other, Ty::None),
        Ty::Module(parts) => matches!(other, Ty::Module(own) if parts.as_slice() == own.as_slice()),
        Ty::Instance(class) => matches!(other, Ty::Instance(own) if class == own),
        Ty::Class(class) => matches!(other, Ty::Class(own) if class == own),
        Ty::List(item) => matches!(other, Ty::List(own) if same_type(item, own)),
        Ty::Dict(types) => matches!(other, Ty::Dict(own)
            if same_type(&types.key, &own.key) && same_type(&types.value, &own.value)),
        Ty::Tuple(items) => matches!(other, Ty::Tuple(own) if are_same_types(items, own)),
        Ty::TupleOf(item) => matches!(other, Ty::TupleOf(own) if same_type(item, own)),
        Ty::Union(items) => matches!(other, Ty::Union(own) if are_same_types(items, own)),
        Ty::Callable(signature) => matches!(other, Ty::Callable(own)
            if are_same_params(&signature.params, &own.params) && same_type(&signature.result, &own.result)),
    }
}

/// Whether two rows are the same types in the same order. Takes no memory.
#[cycle(same)]
pub(crate) fn are_same_types(types: &[Ty], others: &[Ty]) -> bool
    ensures { result ≡ spec.same_types (row types.now) (row others.now) }
{
    if types.len() != others.len() {
        return false;
    }
    for i in 0..types.len() {
        if !same_type(&types[i], &others[i]) {
            return false;
        }
    }
    true
}

/// Whether two calls take the same.
#[cycle(same)]
fn are_same_params(params: &Params, others: &Params) -> bool
    ensures { result ≡ spec.same_params (params_of params.now) (params_of others.now) }
{
    match params {
        Params::Dots => matches!(others, Params::Dots),
        Params::Listed(listed) => {
            matches!(others, Params::Listed(own) if is_same_row(listed, own))
        }
    }
}

/// Whether two rows are the same parameters in the same order.
#[cycle(same)]
fn is_same_row(params: &[Param], others: &[Param]) -> bool
    ensures { result ≡ spec.same_listed (param_row params.now) (param_row others.now) }
{
    if params.len() != others.len() {
        return false;
    }
    for i in 0..params.len() {
        if !is_same_param(&params[i], &others[i]) {
            return false;
        }
    }
    true
}

/// Whether two parameters are one, with their types.
#[cycle(same)]
fn is_same_param(param: &Param, other: &Param) -> bool
    ensures { result ≡ spec.same_param (param_of param.now) (param_of other.now) }
{
    is_same_kind(&param.kind, &other.kind)
        && param.is_optional == other.is_optional
        && same_type(&param.ty, &other.ty)
}

/// Whether two kinds of parameters are one, with their names.
fn is_same_kind(kind: &ParamKind, other: &ParamKind) -> bool
    ensures { result ≡ spec.same_kind (kind_of kind.now) (kind_of other.now) }
{
    match kind {
        ParamKind::Plain(name) => {
            matches!(other, ParamKind::Plain(own) if is_same_name(name.as_ref(), own.as_ref()))
        }
        ParamKind::Star => matches!(other, ParamKind::Star),
        ParamKind::KeywordOnly(name) => {
            matches!(other, ParamKind::KeywordOnly(own) if name.as_str() == own.as_str())
        }
        ParamKind::DoubleStar => matches!(other, ParamKind::DoubleStar),
    }
}

/// Whether both parameters have one name, or both have none.
fn is_same_name(name: Option<&Text>, other: Option<&Text>) -> bool
    ensures { result ≡ spec.same_name (option_map (λ n. n.now) name.entry) (option_map (λ n. n.now) other.entry) }
{
    match (name, other) {
        (Some(name), Some(other)) => name.as_str() == other.as_str(),
        (None, None) => true,
        _ => false,
    }
}
