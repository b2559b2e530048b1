//! When a value of one type may stand where another is wanted.

ghost use Rattle.std.specs.Prelude.{◌≡◌, ◌↔◌, IsTrue};
ghost use Rattle.pyc_type_forms.specs.Types as plain;
ghost use Rattle.pyc_type_forms.specs.TypeView.{ty_of, row};
ghost use Rattle.pyc_types.specs.Assignable.{Assignable};
ghost use Rattle.pyc_types.specs.Ways as spec;
ghost use Rattle.pyc_types.specs.Ways.{assignable, ways};

mod bare;
mod crossing;
mod going;
mod instances;
mod parameters;
mod rules;
mod unions;

use crate::ways::Ways;
use going::goes;
use instances::{instance_ways, is_object, is_unknown_instance};
use pyc_class_ids::Lins;
use pyc_type_forms::Ty;
use rules::own_rule;
use unions::union_ways;

/// Whether a value of type `got` may stand where `want` is wanted. Takes no memory.
pub fn assignable<L: Lins>(lins: &L, got: &Ty, want: &Ty) -> bool
    ensures test { result ≡ assignable (L.orders lins.now) (ty_of got.now) (ty_of want.now) }
    ensures rules { IsTrue result ↔ Assignable (L.orders lins.now) (ty_of got.now) (ty_of want.now) }
{
    goes(lins, got, want)
}

/// The ways between two types: one walk for both, since the rules for list, dict and callables ask both.
#[cycle(walk)]
fn walk<L: Lins>(lins: &L, got: &Ty, want: &Ty) -> Ways
    ensures { result ≡ ways (L.orders lins.now) (ty_of got.now) (ty_of want.now) }
{
    match got {
        Ty::Any => Ways::each(),
        Ty::Instance(class) => instance_ways(lins, class, want),
        Ty::Union(items) => union_ways(lins, items, want),
        _ => whole_ways(lins, got, want),
    }
}

/// The ways between a type that is no union and any type: into a union by some item, from one by each.
#[cycle(walk)]
fn whole_ways<L: Lins>(lins: &L, got: &Ty, want: &Ty) -> Ways
    ensures { result ≡ spec.into (L.orders lins.now) (ty_of got.now)
        (spec.own_rule (L.orders lins.now) (ty_of got.now)) (ty_of want.now) }
{
    let by_form = match want {
        Ty::Union(items) => item_ways(lins, got, items),
        _ => own_rule(lins, got, want),
    };
    by_form.either(Ways {
        there: is_simple(lins, got, want),
        back: is_simple(lins, want, got),
    })
}

/// The ways between a type that is no union and the items of a union.
#[cycle(walk)]
#[tactic(auto, using(crate::proofs::WalkLemmas::joins))]
fn item_ways<L: Lins>(lins: &L, got: &Ty, items: &[Ty]) -> Ways
    ensures { result ≡ spec.into_items (L.orders lins.now) (ty_of got.now)
        (spec.own_rule (L.orders lins.now) (ty_of got.now)) (row items.now) }
{
    let mut all = Ways {
        there: false,
        back: true,
    };
    for item in items {
        all = all.choose(whole_ways(lins, got, item));
    }
    all
}

/// Whether a type goes to another by Any, by an unknown order or to object.
fn is_simple<L: Lins>(lins: &L, got: &Ty, want: &Ty) -> bool
    ensures { result ≡ spec.is_simple (L.orders lins.now) (ty_of got.now) (ty_of want.now) }
{
    is_any(got) || is_any(want) || is_unknown_instance(lins, got) || is_object(want)
}

/// Whether a type is Any.
fn is_any(ty: &Ty) -> bool
    ensures { result ≡ spec.is_any (ty_of ty.now) }
{
    matches!(ty, Ty::Any)
}
