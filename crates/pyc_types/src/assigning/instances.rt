//! Instances of classes, and class objects.

ghost use Rattle.std.specs.Prelude.{◌≡◌};
ghost use Rattle.pyc_class_ids.specs.Class.{form_of};
ghost use Rattle.pyc_class_ids.specs.Mro.{leads, is_unknown};
ghost use Rattle.pyc_type_forms.specs.Types.{instance};
ghost use Rattle.pyc_type_forms.specs.TypeView.{ty_of, row};
ghost use Rattle.pyc_types.specs.Ways as spec;

use super::bare::bare_ways;
use super::is_any;
use crate::ways::Ways;
use pyc_class_ids::{BuiltinClass, ClassId, InstanceForm, Lins};
use pyc_type_forms::Ty;

/// The ways between an instance of a class and any type.
#[cycle(instance)]
pub(super) fn instance_ways<L: Lins>(lins: &L, class: &ClassId, want: &Ty) -> Ways
    ensures { result ≡ spec.into (L.orders lins.now) (instance class.now)
        (spec.instance_rule (L.orders lins.now) class.now) (ty_of want.now) }
{
    let by_form = match want {
        Ty::Union(items) => instance_item_ways(lins, class, items),
        _ => instance_rule(lins, class, want),
    };
    by_form.either(Ways {
        there: is_simple_instance(lins, class, want),
        back: is_simple_target(lins, want, class),
    })
}

/// Whether an instance of a class goes to a type by Any, by an unknown order or to object.
fn is_simple_instance<L: Lins>(lins: &L, class: &ClassId, want: &Ty) -> bool
    ensures { result ≡ spec.is_simple (L.orders lins.now) (instance class.now) (ty_of want.now) }
{
    is_any(want) || is_unknown(lins, class) || is_object(want)
}

/// Whether a type goes to an instance of a class by Any, by an unknown order or to object.
fn is_simple_target<L: Lins>(lins: &L, got: &Ty, class: &ClassId) -> bool
    ensures { result ≡ spec.is_simple (L.orders lins.now) (ty_of got.now) (instance class.now) }
{
    is_any(got) || is_unknown_instance(lins, got) || is_object_class(class)
}

/// The ways between an instance of a class and the items of a union.
#[cycle(instance)]
#[tactic(auto, using(crate::proofs::WalkLemmas::joins))]
fn instance_item_ways<L: Lins>(lins: &L, class: &ClassId, items: &[Ty]) -> Ways
    ensures { result ≡ spec.into_items (L.orders lins.now) (instance class.now)
        (spec.instance_rule (L.orders lins.now) class.now) (row items.now) }
{
    let mut all = Ways {
        there: false,
        back: true,
    };
    for item in items {
        all = all.choose(instance_ways(lins, class, item));
    }
    all
}

/// The ways between an instance of a class and a type, by the rules for its class.
pub(super) fn instance_rule<L: Lins>(lins: &L, class: &ClassId, want: &Ty) -> Ways
    ensures { result ≡ spec.instance_rule (L.orders lins.now) class.now (ty_of want.now) }
{
    match want {
        Ty::Instance(other) => Ways {
            there: instance_goes(lins, class, other),
            back: instance_goes(lins, other, class),
        },
        Ty::Callable(_) => Ways {
            there: lins.lin(class).has_call,
            back: false,
        },
        _ => Ways::neither(),
    }
}

/// Whether an instance of a class goes to another class by its order, or to float.
fn instance_goes<L: Lins>(lins: &L, class: &ClassId, other: &ClassId) -> bool
    ensures { result ≡ spec.instance_goes (L.orders lins.now) class.now other.now }
{
    let order = lins.lin(class);
    order.contains(other)
        || (order.contains_builtin(BuiltinClass::Int) && other.is_builtin(BuiltinClass::Float))
}

/// The ways between two class objects.
pub(super) fn class_ways<L: Lins>(lins: &L, class: &ClassId, other: &ClassId) -> Ways
    ensures there { result.there ≡ spec.class_goes (L.orders lins.now) class.now other.now }
    ensures back { result.back ≡ spec.class_goes (L.orders lins.now) other.now class.now }
{
    Ways {
        there: class_goes(lins, class, other),
        back: class_goes(lins, other, class),
    }
}

/// Whether the class object of a class goes to that of another.
fn class_goes<L: Lins>(lins: &L, class: &ClassId, other: &ClassId) -> bool
    ensures { result ≡ spec.class_goes (L.orders lins.now) class.now other.now }
{
    let order = lins.lin(class);
    order.contains(other) || order.is_unknown()
}

/// The ways between what a class makes and any type.
pub(super) fn made_ways<L: Lins>(lins: &L, class: &ClassId, want: &Ty) -> Ways
    ensures { result ≡ spec.form_ways (L.orders lins.now) (form_of class.now) class.now (ty_of want.now) }
{
    match class.instance_form() {
        InstanceForm::Plain => instance_ways(lins, class, want),
        form => bare_ways(lins, form, want),
    }
}

/// Whether a type is the instances of a class of unknown order.
pub(super) fn is_unknown_instance<L: Lins>(lins: &L, ty: &Ty) -> bool
    ensures { result ≡ spec.is_unknown_instance (L.orders lins.now) (ty_of ty.now) }
{
    match ty {
        Ty::Instance(class) => is_unknown(lins, class),
        _ => false,
    }
}

/// Whether the order of a class is not known.
fn is_unknown<L: Lins>(lins: &L, class: &ClassId) -> bool
    ensures { result ≡ is_unknown (L.orders lins.now class.now) }
{
    lins.lin(class).is_unknown()
}

/// Whether a type is object.
pub(super) fn is_object(ty: &Ty) -> bool
    ensures { result ≡ spec.is_object (ty_of ty.now) }
{
    match ty {
        Ty::Instance(class) => is_object_class(class),
        _ => false,
    }
}

/// Whether a class is object.
fn is_object_class(class: &ClassId) -> bool
    ensures { result ≡ spec.is_object (instance class.now) }
{
    class.is_builtin(BuiltinClass::Object)
}
