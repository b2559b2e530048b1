//! Orders as they are kept.

ghost use Rattle.std.specs.Prelude.{◌≡◌, IfOk, map};
ghost use Rattle.std.specs.List.{list_any};
ghost use Rattle.pyc_class_ids.specs.Mro.{order_of};
ghost use Rattle.pyc_mro.specs.MroView.{order_in};
ghost use Rattle.pyc_class_table.specs.ClassMros as spec;
ghost use Rattle.pyc_class_table.specs.EntryView.{entry_in};
ghost use Rattle.pyc_class_table.specs.Numbers.{id_at, has_call_at};
ghost use Rattle.pyc_class_table.specs.MroView.{stored_in, stored_at, AreStored};

use crate::class_entry::ClassEntry;
use crate::numbered::{has_call_at, id_at};
use pyc_class_ids::{ClassId, Lin, UnknownMro};
use pyc_mro::{Mro, MroTable};
use std::alloc::{AllocError, Global};

/// The order of a class, as it is kept.
#[derive(Debug, Drop)]
pub(crate) struct StoredMro {
    classes: Vec<ClassId>,
    unknown: Option<UnknownMro>,
    has_call: bool,
}

/// The order of the class of each number among entries, where these are the orders by number. The only error is that
/// memory runs out.
pub(crate) fn stored_orders(
    alloc: Global,
    entries: &[ClassEntry],
    orders: &MroTable,
) -> Result<Vec<StoredMro>, AllocError>
    ensures { IfOk result (λ stored. AreStored (map entry_in entries.now) orders.now stored.items) }
{
    let mut stored = Vec::with_capacity(alloc, entries.len())?;
    for number in 0..entries.len() {
        stored.push(stored_order(alloc, entries, orders.order(number))?)?;
    }
    Ok(stored)
}

/// An order by number as one of classes. The only error is that memory runs out.
fn stored_order(
    alloc: Global,
    entries: &[ClassEntry],
    order: Mro<'_>,
) -> Result<StoredMro, AllocError>
    ensures { IfOk result (λ stored. stored_in stored
        ≡ spec.order_by (map entry_in entries.now) (order_in order.entry)) }
{
    Ok(StoredMro {
        classes: ids_at(alloc, entries, order.classes)?,
        unknown: order.unknown,
        has_call: has_call_among(entries, order.classes),
    })
}

/// Whether a class of these numbers has a member `__call__` of its own.
fn has_call_among(entries: &[ClassEntry], numbers: &[usize]) -> bool
    ensures { result ≡ list_any (has_call_at (map entry_in entries.now)) numbers.now }
{
    for number in numbers {
        if has_call_at(entries, *number) {
            return true;
        }
    }
    false
}

/// The classes of these numbers. The only error is that memory runs out.
fn ids_at(
    alloc: Global,
    entries: &[ClassEntry],
    numbers: &[usize],
) -> Result<Vec<ClassId>, AllocError>
    ensures { IfOk result (λ classes. classes.items ≡ map (id_at (map entry_in entries.now)) numbers.now) }
{
    let mut classes = Vec::with_capacity(alloc, numbers.len())?;
    for number in numbers {
        classes.push(id_at(entries, *number)?)?;
    }
    Ok(classes)
}

/// The order of the class of a number among those that are kept. Takes no memory.
pub(crate) fn order_at(orders: &[StoredMro], number: Option<usize>) -> Lin<'_>
    ensures { order_of result ≡ stored_at orders.now number }
{
    match number {
        Some(number) if number < orders.len() => orders[number].as_lin(),
        _ => undeclared(),
    }
}

/// The order of a class that no file declares.
fn undeclared() -> Lin<'static>
    ensures { order_of result ≡ spec.undeclared }
{
    Lin {
        classes: &[],
        unknown: Some(UnknownMro::Base),
        has_call: false,
    }
}

impl StoredMro {
    /// This order. Takes no memory.
    fn as_lin(&self) -> Lin<'_>
        ensures { order_of result ≡ stored_in self.now }
    {
        Lin {
            classes: self.classes.as_slice(),
            unknown: self.unknown,
            has_call: self.has_call,
        }
    }
}
