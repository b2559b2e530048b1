//! What a test leaves of a type.

ghost use Rattle.std.specs.Prelude.{◌≡◌, ◌++◌, [], ◌∷◌, IfOk, OnOk, map, option_map, Some};
ghost use Rattle.std.specs.List.{list_any};
ghost use Rattle.pyc_class_ids.specs.Mro.{order_of, order_contains};
ghost use Rattle.pyc_type_forms.specs.TypeView.{ty_of};
ghost use Rattle.pyc_type_forms.specs.Instances.{instance_of};
ghost use Rattle.pyc_type_forms.specs.Narrowing as spec;
ghost use Rattle.pyc_type_forms.specs.Unions.{items_of};

use crate::Ty;
use crate::equality::are_same_types;
use crate::instances::instance_of;
use crate::unions::{add, items_of, union_of};
use pyc_class_ids::{BuiltinClass, ClassId, Lin, Lins};
use std::alloc::{AllocError, Global};

/// What a type is where `isinstance` by these classes says yes, item by item and class by class; none where it never
/// does. The only error is that memory runs out.
pub fn narrow_to<L: Lins>(
    alloc: Global,
    lins: &L,
    ty: &Ty,
    classes: &[ClassId],
) -> Result<Option<Ty>, AllocError>
    ensures { IfOk result (λ left. option_map ty_of left
        ≡ spec.narrow_to (L.orders lins.now) (ty_of ty.now) classes.now) }
{
    let items = items_of(alloc, ty)?;
    let mut left = Vec::new(alloc);
    for item in &items {
        add_narrowed_by_each(alloc, lins, &mut left, item, classes)?;
    }
    remaining_type(alloc, ty, &items, &left)
}

/// What a type is where `isinstance` by these classes says no; none where it never does. The only error is that memory
/// runs out.
pub fn narrow_away<L: Lins>(
    alloc: Global,
    lins: &L,
    ty: &Ty,
    classes: &[ClassId],
) -> Result<Option<Ty>, AllocError>
    ensures { IfOk result (λ left. option_map ty_of left
        ≡ spec.narrow_away (L.orders lins.now) (ty_of ty.now) classes.now) }
{
    let items = items_of(alloc, ty)?;
    let mut left = Vec::new(alloc);
    for item in &items {
        add_unless(&mut left, item, is_taken(lins, item, classes)?)?;
    }
    remaining_type(alloc, ty, &items, &left)
}

/// What a type is without None; none where nothing is left. The only error is that memory runs out.
pub fn without_none(alloc: Global, ty: &Ty) -> Result<Option<Ty>, AllocError>
    ensures { IfOk result (λ left. option_map ty_of left ≡ spec.without_none (ty_of ty.now)) }
{
    let items = items_of(alloc, ty)?;
    let mut left = Vec::new(alloc);
    for item in &items {
        add_unless(&mut left, item, is_none(item))?;
    }
    remaining_type(alloc, ty, &items, &left)
}

/// What these items of a type are as a type.
fn remaining_type(
    alloc: Global,
    ty: &Ty,
    items: &[Ty],
    left: &[Ty],
) -> Result<Option<Ty>, AllocError>
    requires { map ty_of items.now ≡ items_of (ty_of ty.now) }
    ensures { IfOk result (λ whole. option_map ty_of whole ≡ spec.remaining_type (ty_of ty.now) (map ty_of left.now)) }
{
    if left.is_empty() {
        Ok(None)
    } else if are_same_types(left, items) {
        Ok(Some(ty.clone()?))
    } else {
        Ok(Some(union_of(alloc, left)?))
    }
}

/// Adds an item, unless it is dropped.
fn add_unless(out: &mut Vec<Ty>, item: &Ty, is_dropped: bool) -> Result<(), AllocError>
    ensures { OnOk result (map ty_of out.new.items
        ≡ map ty_of out.old.items ++ spec.unless is_dropped (ty_of item.now)) }
{
    if is_dropped { Ok(()) } else { add(out, item) }
}

/// Adds what `isinstance` leaves of an item, class by class.
fn add_narrowed_by_each<L: Lins>(
    alloc: Global,
    lins: &L,
    out: &mut Vec<Ty>,
    item: &Ty,
    classes: &[ClassId],
) -> Result<(), AllocError>
    ensures { OnOk result (map ty_of out.new.items
        ≡ map ty_of out.old.items ++ spec.narrowed_items (L.orders lins.now) classes.now (ty_of item.now)) }
{
    for class in classes {
        add_narrowed(alloc, lins, out, item, class)?;
    }
    Ok(())
}

/// Adds what `isinstance` by a class leaves of an item.
fn add_narrowed<L: Lins>(
    alloc: Global,
    lins: &L,
    out: &mut Vec<Ty>,
    item: &Ty,
    class: &ClassId,
) -> Result<(), AllocError>
    ensures { OnOk result (map ty_of out.new.items
        ≡ map ty_of out.old.items ++ spec.narrowed_item (L.orders lins.now) (ty_of item.now) class.now) }
{
    match item {
        Ty::Any => add_instance(alloc, out, class),
        Ty::Callable(_) | Ty::Class(_) => add(out, item),
        _ => match class_of(item)? {
            Some(own) => add_narrowed_instance(alloc, lins, out, item, &own, class),
            None => Ok(()),
        },
    }
}

/// Adds what `isinstance` by a class leaves of an item with the instances of its own class.
fn add_narrowed_instance<L: Lins>(
    alloc: Global,
    lins: &L,
    out: &mut Vec<Ty>,
    item: &Ty,
    own: &ClassId,
    class: &ClassId,
) -> Result<(), AllocError>
    ensures { OnOk result (map ty_of out.new.items
        ≡ map ty_of out.old.items ++ spec.narrowed_instance (L.orders lins.now) (ty_of item.now) own.now class.now) }
{
    if is_within(lins, own, class) {
        add(out, item)
    } else if may_be_within(lins, own, class) {
        add_instance(alloc, out, class)
    } else {
        Ok(())
    }
}

/// Adds the type of the instances of a class.
fn add_instance(alloc: Global, out: &mut Vec<Ty>, class: &ClassId) -> Result<(), AllocError>
    ensures { OnOk result (map ty_of out.new.items ≡ map ty_of out.old.items ++ instance_of class.now ∷ []) }
{
    out.push(instance_of(alloc, class)?)?;
    Ok(())
}

/// The class of which a type has the instances. The only error is a full count of those that share its name.
fn class_of(ty: &Ty) -> Result<Option<ClassId>, AllocError>
    ensures { IfOk result (λ class. class ≡ spec.class_of (ty_of ty.now)) }
{
    Ok(match ty {
        Ty::Instance(class) => Some(class.clone()?),
        Ty::List(_) => Some(ClassId::builtin(BuiltinClass::List)),
        Ty::Dict(_) => Some(ClassId::builtin(BuiltinClass::Dict)),
        Ty::Tuple(_) | Ty::TupleOf(_) => Some(ClassId::builtin(BuiltinClass::Tuple)),
        _ => None,
    })
}

/// Whether the instances of a class are all instances of another, as far as is known.
fn is_within<L: Lins>(lins: &L, own: &ClassId, class: &ClassId) -> bool
    ensures { result ≡ spec.is_within (L.orders lins.now) own.now class.now }
{
    let order = lins.lin(own);
    order.is_unknown() || order.contains(class)
}

/// Whether some instances of a class may be instances of another.
fn may_be_within<L: Lins>(lins: &L, own: &ClassId, class: &ClassId) -> bool
    ensures { result ≡ spec.may_be_within (L.orders lins.now) own.now class.now }
{
    let order = lins.lin(class);
    order.contains(own)
        || order.is_unknown()
        || (own.is_builtin(BuiltinClass::Float) && class.is_builtin(BuiltinClass::Int))
}

/// Whether `isinstance` by these classes says yes of each value of an item.
fn is_taken<L: Lins>(lins: &L, item: &Ty, classes: &[ClassId]) -> Result<bool, AllocError>
    ensures { IfOk result (λ taken. taken ≡ spec.is_taken (L.orders lins.now) classes.now (ty_of item.now)) }
{
    Ok(match class_of(item)? {
        Some(own) => is_taken_class(lins, &own, classes),
        None => false,
    })
}

/// Whether the instances of a class are all instances of one of these classes.
fn is_taken_class<L: Lins>(lins: &L, own: &ClassId, classes: &[ClassId]) -> bool
    ensures { result ≡ spec.is_taken_class (L.orders lins.now) classes.now (Some own.now) }
{
    let order = lins.lin(own);
    !order.is_unknown() && is_some_in(&order, classes)
}

/// Whether one of these classes stands in an order.
fn is_some_in(order: &Lin<'_>, classes: &[ClassId]) -> bool
    ensures { result ≡ list_any (order_contains (order_of order.now)) classes.now }
{
    for class in classes {
        if order.contains(class) {
            return true;
        }
    }
    false
}

/// Whether a type is None.
fn is_none(ty: &Ty) -> bool
    ensures { result ≡ spec.is_none (ty_of ty.now) }
{
    matches!(ty, Ty::None)
}
