//! The types of the members of the builtin classes.

ghost use Rattle.std.specs.Prelude.{◌≡◌, IfOk};
ghost use Rattle.pyc_type_forms.specs.Types.{callable};
ghost use Rattle.pyc_type_forms.specs.TypeView.{ty_of, params_of};
ghost use Rattle.pyc_builtins.specs.MemberTypes as spec;

use crate::builtins::instance_of;
use crate::{Member, MethodResult};
use pyc_class_ids::BuiltinClass;
use pyc_type_forms::{DictTypes, Param, ParamKind, Params, Signature, Ty};
use std::alloc::{AllocError, Global};
use std::rc::Rc;

/// The type of a member of an instance of this type. The parts of a list or a dictionary are read off the type where it
/// has them, and are Any where it has not, as for a class that derives from list. The only error is that memory runs
/// out.
pub fn member_type(alloc: Global, owner: &Ty, member: Member) -> Result<Ty, AllocError>
    ensures { IfOk result (λ ty. ty_of ty ≡ spec.member_type (ty_of owner.now) member) }
{
    match member {
        Member::Attribute => Ok(Ty::Any),
        Member::Method(given) => method(alloc, Params::Dots, result_type(alloc, owner, given)?),
        Member::Append => append(alloc, owner),
    }
}

/// The type of a method.
fn method(alloc: Global, params: Params, given: Ty) -> Result<Ty, AllocError>
    ensures { IfOk result (λ ty. ty_of ty ≡ callable (params_of params) (ty_of given)) }
{
    let signature = Signature {
        params,
        result: given,
    };
    Ok(Ty::Callable(Rc::new(alloc, signature)?))
}

/// The type of the method `append` of this type.
fn append(alloc: Global, owner: &Ty) -> Result<Ty, AllocError>
    ensures { IfOk result (λ ty. ty_of ty ≡ spec.append_type (ty_of owner.now)) }
{
    let item = Param {
        kind: ParamKind::Plain(None),
        ty: item_of(owner)?,
        is_optional: false,
    };
    method(alloc, Params::Listed(vec![in alloc; item]?), Ty::None)
}

/// The type of what a method of this type gives.
fn result_type(alloc: Global, owner: &Ty, given: MethodResult) -> Result<Ty, AllocError>
    ensures { IfOk result (λ ty. ty_of ty ≡ spec.result_type (ty_of owner.now) given) }
{
    match given {
        MethodResult::Any => Ok(Ty::Any),
        MethodResult::None => Ok(Ty::None),
        MethodResult::Int => Ok(instance_of(BuiltinClass::Int)),
        MethodResult::Str => Ok(instance_of(BuiltinClass::Str)),
        MethodResult::Bool => Ok(instance_of(BuiltinClass::Bool)),
        MethodResult::Bytes => Ok(instance_of(BuiltinClass::Bytes)),
        MethodResult::ListOfStr => list_of_str(alloc),
        MethodResult::ThreeStrs => three_strs(alloc),
        MethodResult::Item => item_of(owner),
        MethodResult::ListOfItems => list_of_items(alloc, owner),
        MethodResult::Value => value_of(owner),
        MethodResult::Pair => pair_of(alloc, owner),
        MethodResult::DictOfPairs => dict_of_pairs(alloc, owner),
    }
}

/// `list[str]`
fn list_of_str(alloc: Global) -> Result<Ty, AllocError>
    ensures { IfOk result (λ ty. ty_of ty ≡ spec.list_of_str) }
{
    Ok(Ty::List(Rc::new(alloc, instance_of(BuiltinClass::Str))?))
}

/// `tuple[str, str, str]`
fn three_strs(alloc: Global) -> Result<Ty, AllocError>
    ensures { IfOk result (λ ty. ty_of ty ≡ spec.three_strs) }
{
    let strs = vec![in alloc;
        instance_of(BuiltinClass::Str),
        instance_of(BuiltinClass::Str),
        instance_of(BuiltinClass::Str),
    ]?;
    Ok(Ty::Tuple(Rc::new(alloc, strs)?))
}

/// A list of the items of a type.
fn list_of_items(alloc: Global, owner: &Ty) -> Result<Ty, AllocError>
    ensures { IfOk result (λ ty. ty_of ty ≡ spec.list_of_items (ty_of owner.now)) }
{
    Ok(Ty::List(Rc::new(alloc, item_of(owner)?)?))
}

/// A key of a type with its value.
fn pair_of(alloc: Global, owner: &Ty) -> Result<Ty, AllocError>
    ensures { IfOk result (λ ty. ty_of ty ≡ spec.pair_of (ty_of owner.now)) }
{
    let pair = vec![in alloc; key_of(owner)?, value_of(owner)?]?;
    Ok(Ty::Tuple(Rc::new(alloc, pair)?))
}

/// A dictionary of the keys and values of a type.
fn dict_of_pairs(alloc: Global, owner: &Ty) -> Result<Ty, AllocError>
    ensures { IfOk result (λ ty. ty_of ty ≡ spec.dict_of_pairs (ty_of owner.now)) }
{
    let types = DictTypes {
        key: key_of(owner)?,
        value: value_of(owner)?,
    };
    Ok(Ty::Dict(Rc::new(alloc, types)?))
}

/// The type of the items of a list; Any for any other type. Takes no memory, and fails on a full count alone.
fn item_of(owner: &Ty) -> Result<Ty, AllocError>
    ensures { IfOk result (λ ty. ty_of ty ≡ spec.item_of (ty_of owner.now)) }
{
    match owner {
        Ty::List(item) => Ty::clone(item),
        _ => Ok(Ty::Any),
    }
}

/// The type of the keys of a dictionary; Any for any other type. Takes no memory, and fails on a full count alone.
fn key_of(owner: &Ty) -> Result<Ty, AllocError>
    ensures { IfOk result (λ ty. ty_of ty ≡ spec.key_of (ty_of owner.now)) }
{
    match owner {
        Ty::Dict(types) => types.key.clone(),
        _ => Ok(Ty::Any),
    }
}

/// The type of the values of a dictionary; Any for any other type. Takes no memory, and fails on a full count alone.
fn value_of(owner: &Ty) -> Result<Ty, AllocError>
    ensures { IfOk result (λ ty. ty_of ty ≡ spec.value_of (ty_of owner.now)) }
{
    match owner {
        Ty::Dict(types) => types.value.clone(),
        _ => Ok(Ty::Any),
    }
}
