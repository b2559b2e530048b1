//! Instances of list, dict and tuple as a class object makes them: their forms over Any.

ghost use Rattle.std.specs.Prelude.{◌≡◌, ◌||◌};
ghost use Rattle.pyc_type_forms.specs.TypeView.{ty_of, row};
ghost use Rattle.pyc_types.specs.Ways as spec;

use super::instances::{is_object, is_unknown_instance};
use super::is_any;
use crate::ways::Ways;
use pyc_class_ids::{InstanceForm, Lins};
use pyc_type_forms::Ty;

/// The ways between the instances of list, dict or tuple and any type.
#[cycle(bare)]
pub(super) fn bare_ways<L: Lins>(lins: &L, form: InstanceForm, want: &Ty) -> Ways
    ensures { result ≡ spec.bare_ways (L.orders lins.now) form (ty_of want.now) }
{
    let by_form = match want {
        Ty::Union(items) => bare_item_ways(lins, form, items),
        _ => bare_rule(form, want),
    };
    by_form.either(Ways {
        there: is_simple_source(want),
        back: is_simple_target(lins, want),
    })
}

/// Whether the instances of list, dict or tuple go to a type that is Any or object.
fn is_simple_source(want: &Ty) -> bool
    ensures { result ≡ (spec.is_any (ty_of want.now) || spec.is_object (ty_of want.now)) }
{
    is_any(want) || is_object(want)
}

/// Whether a type goes to the instances of list, dict or tuple by Any or by an unknown order.
fn is_simple_target<L: Lins>(lins: &L, got: &Ty) -> bool
    ensures { result ≡ (spec.is_any (ty_of got.now) || spec.is_unknown_instance (L.orders lins.now) (ty_of got.now)) }
{
    is_any(got) || is_unknown_instance(lins, got)
}

/// The ways between the instances of list, dict or tuple and the items of a union.
#[cycle(bare)]
#[tactic(auto, using(crate::proofs::WalkLemmas::joins))]
fn bare_item_ways<L: Lins>(lins: &L, form: InstanceForm, items: &[Ty]) -> Ways
    ensures { result ≡ spec.into_items (L.orders lins.now) (spec.bare_type form) (spec.bare_rule form) (row items.now) }
{
    let mut all = Ways {
        there: false,
        back: true,
    };
    for item in items {
        all = all.choose(bare_ways(lins, form, item));
    }
    all
}

/// The ways between the instances of list, dict or tuple and a type of the same form.
#[tactic(auto, using(crate::proofs::WalkLemmas::any_back))]
fn bare_rule(form: InstanceForm, want: &Ty) -> Ways
    ensures { result ≡ spec.bare_rule form (ty_of want.now) }
{
    match (form, want) {
        (InstanceForm::List, Ty::List(_)) => Ways::each(),
        (InstanceForm::Dict, Ty::Dict(_)) => Ways::each(),
        (InstanceForm::Tuple, Ty::TupleOf(_)) => Ways::each(),
        (InstanceForm::Tuple, Ty::Tuple(_)) => Ways {
            there: false,
            back: true,
        },
        _ => Ways::neither(),
    }
}
