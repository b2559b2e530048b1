//! Whether one type goes to another, where the way back is not asked.
//!
//! An instance among the items of a union is looked for among those of the other first, at its own place before all.
//! One that does not stand there goes by the order of its class, which is asked for once.

ghost use Rattle.std.specs.Prelude.{◌≡◌, ◌<◌, ◌||◌, length};
ghost use Rattle.pyc_class_ids.specs.Mro.{order_of};
ghost use Rattle.pyc_type_forms.specs.Types.{union};
ghost use Rattle.pyc_type_forms.specs.TypeView.{ty_of, row};
ghost use Rattle.pyc_types.specs.Going as spec;
ghost use Rattle.pyc_types.specs.Ways.{ways, ways_of, gathered, instance_ways, union_rule};

use super::walk;
use pyc_class_ids::{BuiltinClass, ClassId, Lin, Lins};
use pyc_type_forms::Ty;

/// Whether a type goes to another: a union by each of its items.
pub(super) fn goes<L: Lins>(lins: &L, got: &Ty, want: &Ty) -> bool
    ensures { result ≡ (ways (L.orders lins.now) (ty_of got.now) (ty_of want.now)).there }
{
    match got {
        Ty::Union(items) => union_goes(lins, items, want),
        _ => item_goes(lins, got, want, 0),
    }
}

/// Whether a union of these items goes to a type.
fn union_goes<L: Lins>(lins: &L, items: &[Ty], want: &Ty) -> bool
    ensures { result ≡ (union_rule (L.orders lins.now) (ways_of (L.orders lins.now) (row items.now))
        (ty_of want.now)).there }
{
    each_goes(lins, items, want)
}

/// Whether each of some types goes to one.
#[tactic(auto, using(crate::proofs::WalkLemmas::joins))]
fn each_goes<L: Lins>(lins: &L, items: &[Ty], want: &Ty) -> bool
    ensures { result ≡ (gathered (ways_of (L.orders lins.now) (row items.now)) (ty_of want.now)).there }
{
    for i in 0..items.len() {
        if !item_goes(lins, &items[i], want, i) {
            return false;
        }
    }
    true
}

/// Whether a type goes to another. Of a union, an item of the same class is looked for at a place first.
fn item_goes<L: Lins>(lins: &L, item: &Ty, want: &Ty, place: usize) -> bool
    ensures { result ≡ (ways (L.orders lins.now) (ty_of item.now) (ty_of want.now)).there }
{
    match item {
        Ty::Instance(class) => instance_goes_at(lins, class, want, place),
        _ => walk(lins, item, want).there,
    }
}

/// Whether an instance of a class goes to a type. Of a union, an item of the class is looked for at a place first.
fn instance_goes_at<L: Lins>(lins: &L, class: &ClassId, want: &Ty, place: usize) -> bool
    ensures { result ≡ (instance_ways (L.orders lins.now) class.now (ty_of want.now)).there }
{
    if is_found(lins, class, want, place) {
        return true;
    }
    instance_goes_to(lins, class, want)
}

/// Whether an instance of a class goes to an item of a union that is found first.
fn is_found<L: Lins>(lins: &L, class: &ClassId, want: &Ty, place: usize) -> bool
    ensures { (result || (instance_ways (L.orders lins.now) class.now (ty_of want.now)).there)
        ≡ (instance_ways (L.orders lins.now) class.now (ty_of want.now)).there }
{
    match want {
        Ty::Union(others) => is_found_among(lins, class, others, place),
        _ => false,
    }
}

/// Whether an instance of a class goes to the one of these that is found first.
fn is_found_among<L: Lins>(lins: &L, class: &ClassId, others: &[Ty], place: usize) -> bool
    ensures { (result || (instance_ways (L.orders lins.now) class.now (union (row others.now))).there)
        ≡ (instance_ways (L.orders lins.now) class.now (union (row others.now))).there }
{
    if others.is_empty() {
        return false;
    }
    let found = same_place(class, others, place);
    instance_goes_to(lins, class, &others[found])
}

/// Where an instance of a class stands among these, which is looked for at a place first; the first place where none
/// does.
fn same_place(class: &ClassId, others: &[Ty], place: usize) -> usize
    requires { 0 < length others.now }
    ensures { result < length others.now }
{
    if place < others.len() && is_instance_of(&others[place], class) {
        return place;
    }
    for i in 0..others.len() {
        if is_instance_of(&others[i], class) {
            return i;
        }
    }
    0
}

/// Whether a type is the instances of a class.
fn is_instance_of(ty: &Ty, class: &ClassId) -> bool
    ensures { result ≡ spec.is_instance_of class.now (ty_of ty.now) }
{
    match ty {
        Ty::Instance(own) => own == class,
        _ => false,
    }
}

/// Whether an instance of a class goes to a type.
fn instance_goes_to<L: Lins>(lins: &L, class: &ClassId, want: &Ty) -> bool
    ensures { result ≡ (instance_ways (L.orders lins.now) class.now (ty_of want.now)).there }
{
    let order = lins.lin(class);
    if order.is_unknown() {
        return true;
    }
    goes_by(&order, want)
}

/// Whether an instance of a class of this order goes to a type, unless the order is unknown.
#[cycle(going)]
fn goes_by(order: &Lin<'_>, want: &Ty) -> bool
    ensures { result ≡ spec.goes_by (order_of order.now) (ty_of want.now) }
{
    match want {
        Ty::Any => true,
        Ty::Instance(class) => class_goes_by(order, class),
        Ty::Union(items) => goes_by_some(order, items),
        Ty::Callable(_) => order.has_call,
        _ => false,
    }
}

/// Whether an instance of a class of this order goes to some of a row.
#[cycle(going)]
fn goes_by_some(order: &Lin<'_>, items: &[Ty]) -> bool
    ensures { result ≡ spec.goes_by_some (order_of order.now) (row items.now) }
{
    for item in items {
        if goes_by(order, item) {
            return true;
        }
    }
    false
}

/// Whether an instance of a class of this order goes to those of another: by the order, to float or to object.
fn class_goes_by(order: &Lin<'_>, class: &ClassId) -> bool
    ensures { result ≡ spec.class_goes_by (order_of order.now) class.now }
{
    leads_by(order, class) || class.is_builtin(BuiltinClass::Object)
}

/// Whether an instance of a class of this order goes to those of another by the order, or to float.
fn leads_by(order: &Lin<'_>, class: &ClassId) -> bool
    ensures { result ≡ spec.leads_by (order_of order.now) class.now }
{
    order.contains(class)
        || (order.contains_builtin(BuiltinClass::Int) && class.is_builtin(BuiltinClass::Float))
}
