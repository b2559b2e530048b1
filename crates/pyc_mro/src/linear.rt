//! The order of a class by those of its bases.

ghost use Rattle.std.specs.Prelude.{◌≡◌, ◌<◌, IfOk, length, map, option_map, ◌++◌, ◌∷◌, []};
ghost use Rattle.std.specs.List.{list_any};
ghost use Rattle.pyc_mro.specs.MroTable as spec;
ghost use Rattle.pyc_mro.specs.MroView.{order_in, stored_in};
ghost use Rattle.pyc_mro.specs.Passes.{made_in, made_at};
ghost use Rattle.pyc_mro.specs.Rows.{rows_in};

use crate::Base;
use crate::merging::merge;
use crate::orders::{Mro, NO_ORDER};
use crate::stored::StoredMro;
use crate::table::classes_among;
use pyc_class_ids::UnknownMro;
use std::alloc::{AllocError, Global};
use std::rc::Rc;

/// The order of a class with these bases, if each has an order among those that are made. The only error is that memory
/// runs out.
pub(crate) fn next_order(
    alloc: Global,
    class: usize,
    bases: &[Base],
    made: &[Option<Rc<StoredMro>>],
) -> Result<Option<Rc<StoredMro>>, AllocError>
    ensures { IfOk result (λ order. made_in order
        ≡ spec.next_order (length made.now) (made_at made.now) class bases.now) }
{
    match base_orders(alloc, bases, made)? {
        Some(orders) => Ok(Some(Rc::new(alloc, linear_order(alloc, class, bases, &orders)?)?)),
        None => Ok(None),
    }
}

/// The orders of bases, if each has one.
fn base_orders<'a>(
    alloc: Global,
    bases: &[Base],
    made: &'a [Option<Rc<StoredMro>>],
) -> Result<Option<Vec<Mro<'a>>>, AllocError>
    ensures { IfOk result (λ orders. option_map (λ found. map order_in found.items) orders
        ≡ spec.base_orders (length made.now) (made_at made.now) bases.now) }
{
    let mut orders = Vec::with_capacity(alloc, bases.len())?;
    for base in bases {
        match base_order(base, made) {
            Some(order) => orders.push(order)?,
            None => return Ok(None),
        }
    }
    Ok(Some(orders))
}

/// The order of a base, if it has one.
fn base_order<'a>(base: &Base, made: &'a [Option<Rc<StoredMro>>]) -> Option<Mro<'a>>
    ensures { option_map order_in result ≡ spec.base_order (length made.now) (made_at made.now) base.now }
{
    match base {
        Base::Class(class) if *class < made.len() => match &made[*class] {
            Some(order) => Some(order.as_order()),
            None => None,
        },
        _ => Some(NO_ORDER),
    }
}

/// The order of a class with these bases, which have these orders.
fn linear_order(
    alloc: Global,
    class: usize,
    bases: &[Base],
    orders: &[Mro],
) -> Result<StoredMro, AllocError>
    ensures { IfOk result (λ order. stored_in order ≡ spec.linear_order class bases.now (map order_in orders.now)) }
{
    if has_unknown(orders) {
        return StoredMro::unknown_of(alloc, class, UnknownMro::Base);
    }
    let written = classes_among(alloc, bases)?;
    match merge(alloc, merged_rows(alloc, orders, &written)?)? {
        Some(others) => StoredMro::known(class, others),
        None => StoredMro::unknown_of(alloc, class, UnknownMro::Merge),
    }
}

/// Whether one of these orders is not known.
fn has_unknown(orders: &[Mro]) -> bool
    ensures { result ≡ list_any spec.is_unknown (map order_in orders.now) }
{
    for order in orders {
        if order.unknown.is_some() {
            return true;
        }
    }
    false
}

/// The classes of each of these orders, and last the bases as they are written.
fn merged_rows<'a, 'b: 'a>(
    alloc: Global,
    orders: &[Mro<'b>],
    written: &'a [usize],
) -> Result<Vec<&'a [usize]>, AllocError>
    ensures { IfOk result (λ rows. rows_in rows.items
        ≡ map (λ order. order.classes) (map order_in orders.now) ++ (written.now ∷ [])) }
{
    let mut rows = Vec::new(alloc);
    for order in orders {
        rows.push(order.classes)?;
    }
    rows.push(written)?;
    Ok(rows)
}
