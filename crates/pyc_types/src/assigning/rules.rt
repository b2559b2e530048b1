//! The rule of each form of type.

ghost use Rattle.std.specs.Prelude.{◌≡◌};
ghost use Rattle.pyc_type_forms.specs.TypeView.{ty_of, row, params_of};
ghost use Rattle.pyc_types.specs.Ways as spec;

use super::instances::{class_ways, instance_rule, made_ways};
use super::parameters::params_ways;
use super::unions::{is_each_there, union_ways};
use super::walk;
use crate::ways::Ways;
use pyc_class_ids::{ClassId, Lins};
use pyc_type_forms::{DictTypes, Signature, Ty};

/// The ways that the rule of a type's own form gives, the other type being no union.
#[cycle(walk)]
pub(super) fn own_rule<L: Lins>(lins: &L, got: &Ty, want: &Ty) -> Ways
    ensures { result ≡ spec.own_rule (L.orders lins.now) (ty_of got.now) (ty_of want.now) }
{
    match got {
        Ty::Any => Ways::each(),
        Ty::None => none_rule(want),
        Ty::Module(_) => Ways::neither(),
        Ty::Instance(class) => instance_rule(lins, class, want),
        Ty::Class(class) => class_rule(lins, class, want),
        Ty::List(item) => list_rule(lins, item, want),
        Ty::Dict(types) => dict_rule(lins, types, want),
        Ty::Tuple(items) => tuple_rule(lins, items, want),
        Ty::TupleOf(item) => tuple_of_rule(lins, item, want),
        Ty::Union(items) => union_ways(lins, items, want),
        Ty::Callable(signature) => callable_rule(lins, signature, want),
    }
}

/// The ways between None and a type.
fn none_rule(want: &Ty) -> Ways
    ensures { result ≡ spec.none_rule (ty_of want.now) }
{
    match want {
        Ty::None => Ways::each(),
        _ => Ways::neither(),
    }
}

/// The ways between a class object and a type.
fn class_rule<L: Lins>(lins: &L, class: &ClassId, want: &Ty) -> Ways
    ensures { result ≡ spec.class_rule (L.orders lins.now) class.now (ty_of want.now) }
{
    match want {
        Ty::Class(other) => class_ways(lins, class, other),
        Ty::Callable(signature) => Ways {
            there: made_ways(lins, class, &signature.result).there,
            back: false,
        },
        _ => Ways::neither(),
    }
}

/// The ways between a list of such items and a type.
#[cycle(walk)]
fn list_rule<L: Lins>(lins: &L, item: &Ty, want: &Ty) -> Ways
    ensures { result ≡ spec.list_rule (spec.ways (L.orders lins.now) (ty_of item.now)) (ty_of want.now) }
{
    match want {
        Ty::List(other) => walk(lins, item, other).invariant(),
        _ => Ways::neither(),
    }
}

/// The ways between a dictionary of such keys and values and a type.
#[cycle(walk)]
fn dict_rule<L: Lins>(lins: &L, types: &DictTypes, want: &Ty) -> Ways
    ensures { result ≡ spec.dict_rule (spec.ways (L.orders lins.now) (ty_of types.now.key))
        (spec.ways (L.orders lins.now) (ty_of types.now.value)) (ty_of want.now) }
{
    match want {
        Ty::Dict(others) => {
            let keys = walk(lins, &types.key, &others.key).invariant();
            if !keys.there {
                return keys;
            }
            keys.meet(walk(lins, &types.value, &others.value).invariant())
        }
        _ => Ways::neither(),
    }
}

/// The ways between a tuple of these items and a type.
#[cycle(walk)]
fn tuple_rule<L: Lins>(lins: &L, items: &[Ty], want: &Ty) -> Ways
    ensures { result ≡ spec.tuple_rule (spec.ways_of (L.orders lins.now) (row items.now)) (ty_of want.now) }
{
    match want {
        Ty::Tuple(others) => place_ways(lins, items, others),
        Ty::TupleOf(other) => Ways {
            there: is_each_there(lins, items, other),
            back: false,
        },
        _ => Ways::neither(),
    }
}

/// The ways between two tuples, place by place.
#[cycle(walk)]
#[tactic(auto, using(crate::proofs::WalkLemmas::joins))]
fn place_ways<L: Lins>(lins: &L, items: &[Ty], others: &[Ty]) -> Ways
    ensures { result ≡ spec.place_ways (spec.ways_of (L.orders lins.now) (row items.now)) (row others.now) }
{
    if items.len() != others.len() {
        return Ways::neither();
    }
    let mut all = Ways::each();
    for i in 0..items.len() {
        all = all.meet(walk(lins, &items[i], &others[i]));
    }
    all
}

/// The ways between a tuple of any length and a type.
#[cycle(walk)]
fn tuple_of_rule<L: Lins>(lins: &L, item: &Ty, want: &Ty) -> Ways
    ensures { result ≡ spec.tuple_of_rule (spec.ways (L.orders lins.now) (ty_of item.now)) (ty_of want.now) }
{
    match want {
        Ty::Tuple(others) => Ways {
            there: false,
            back: is_each_back(lins, item, others),
        },
        Ty::TupleOf(other) => walk(lins, item, other),
        _ => Ways::neither(),
    }
}

/// Whether each of some types goes back to one.
#[cycle(walk)]
#[tactic(auto, using(crate::proofs::WalkLemmas::joins))]
fn is_each_back<L: Lins>(lins: &L, item: &Ty, others: &[Ty]) -> bool
    ensures { result ≡ spec.all_back (spec.ways (L.orders lins.now) (ty_of item.now)) (row others.now) }
{
    for other in others {
        if !walk(lins, item, other).back {
            return false;
        }
    }
    true
}

/// The ways between a callable and a type.
#[cycle(walk)]
fn callable_rule<L: Lins>(lins: &L, signature: &Signature, want: &Ty) -> Ways
    ensures { result ≡ spec.callable_rule (L.orders lins.now) (params_of signature.now.params)
        (spec.params_ways_of (L.orders lins.now) (params_of signature.now.params))
        (spec.ways (L.orders lins.now) (ty_of signature.now.result)) (ty_of want.now) }
{
    match want {
        Ty::Callable(other) => params_ways(lins, &signature.params, &other.params).meet(walk(
            lins,
            &signature.result,
            &other.result,
        )),
        Ty::Instance(class) => Ways {
            there: false,
            back: lins.lin(class).has_call,
        },
        Ty::Class(class) => Ways {
            there: false,
            back: made_ways(lins, class, &signature.result).there,
        },
        _ => Ways::neither(),
    }
}
