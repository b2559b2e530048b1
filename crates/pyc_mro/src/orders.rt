//! The order of each class of a table.

ghost use Rattle.std.specs.Prelude.{◌≡◌, ◌<◌, IfOk, ℕ, suc, ◌&&◌, not, is_some, length, replicate, None};
ghost use Rattle.pyc_mro.specs.MroTable.{order_of};
ghost use Rattle.pyc_mro.specs.MroView.{order_in, stored_in, order_at};
ghost use Rattle.pyc_mro.specs.TableView.{table_in};
ghost use Rattle.pyc_mro.specs.Passes.{made_in, settled_order, kept_or_next, AreMade, IsNextPass};

use crate::Base;
use crate::ancestors::is_own_ancestor;
use crate::linear::next_order;
use crate::stored::StoredMro;
use crate::table::bases_of;
use pyc_class_ids::UnknownMro;
use std::alloc::{AllocError, Global};
use std::rc::Rc;

/// The order of a class: itself first, then its ancestors in method resolution order; and why the order is not known,
/// if it is not.
#[derive(Clone, Copy, Debug)]
pub struct Mro<'a> {
    pub classes: &'a [usize],
    pub unknown: Option<UnknownMro>,
}

/// The order of what is no class of the table.
pub(crate) const NO_ORDER: Mro<'static> = Mro {
    classes: &[],
    unknown: Some(UnknownMro::Base),
};

/// The order of each class of a table.
#[derive(Debug, Drop)]
pub struct MroTable {
    orders: Vec<Rc<StoredMro>>,
}

impl MroTable {
    /// The order of each class of the table that lists the bases of each. The only error is that memory runs out.
    pub fn build(alloc: Global, bases: &[Vec<Base>]) -> Result<MroTable, AllocError>
        ensures { IfOk result (λ orders. (class : ℕ) → order_at orders class ≡ order_of (table_in bases.now) class) }
    {
        let made = made_orders(alloc, bases)?;
        let mut orders = Vec::with_capacity(alloc, bases.len())?;
        for class in 0..bases.len() {
            orders.push(class_order(alloc, bases, class, &made[class])?)?;
        }
        Ok(MroTable { orders })
    }

    /// The order of the class of this number; a number that is no class of the table has no classes. Takes no memory.
    pub fn order(&self, class: usize) -> Mro<'_>
        ensures { order_in result ≡ order_at self.now class }
    {
        match self.orders.get(class) {
            Some(order) => order.as_order(),
            None => NO_ORDER,
        }
    }
}

/// The order of a class of the table: the one that is made of those of its bases, if there is one.
fn class_order(
    alloc: Global,
    bases: &[Vec<Base>],
    class: usize,
    made: &Option<Rc<StoredMro>>,
) -> Result<Rc<StoredMro>, AllocError>
    requires { class < length bases.now }
    ensures { IfOk result (λ order. stored_in order.value
        ≡ settled_order (table_in bases.now) class (made_in made.now)) }
{
    match made {
        Some(order) => order.clone(),
        None => {
            let why = if is_own_ancestor(alloc, bases, class)? {
                UnknownMro::Cycle
            } else {
                UnknownMro::Base
            };
            Ok(Rc::new(alloc, StoredMro::unknown_of(alloc, class, why)?)?)
        }
    }
}

/// The orders that are made of those of the bases: in each pass a class gets one whose bases had theirs before it.
fn made_orders(alloc: Global, bases: &[Vec<Base>]) -> Result<Vec<Option<Rc<StoredMro>>>, AllocError>
    ensures { IfOk result (λ made.
        AreMade (table_in bases.now) (suc (length (table_in bases.now))) made.items) }
{
    let mut made = no_orders(alloc, bases.len())?;
    for depth in 0..=bases.len() {
        let pass = next_orders(alloc, bases, &made)?;
        if !pass.has_new {
            return Ok(made);
        }
        made = pass.orders;
    }
    Ok(made)
}

/// So many classes without an order.
fn no_orders(alloc: Global, count: usize) -> Result<Vec<Option<Rc<StoredMro>>>, AllocError>
    ensures { IfOk result (λ orders. orders.items ≡ replicate count None) }
{
    let mut orders = Vec::with_capacity(alloc, count)?;
    for class in 0..count {
        orders.push(None)?;
    }
    Ok(orders)
}

/// What a pass over a table makes.
#[derive(Drop)]
struct Pass {
    orders: Vec<Option<Rc<StoredMro>>>,
    /// Whether a class has an order that had none before.
    has_new: bool,
}

/// A pass: each class whose bases have an order gets its own.
fn next_orders(
    alloc: Global,
    bases: &[Vec<Base>],
    made: &[Option<Rc<StoredMro>>],
) -> Result<Pass, AllocError>
    requires { length bases.now ≡ length made.now }
    ensures { IfOk result (λ pass. IsNextPass (table_in bases.now) made.now pass.orders.items pass.has_new) }
{
    let mut orders = Vec::with_capacity(alloc, made.len())?;
    let mut has_new = false;
    for class in 0..made.len() {
        let order = kept_or_next(alloc, class, bases_of(bases, class), made)?;
        let is_new = is_new(&order, &made[class]);
        has_new = has_new || is_new;
        orders.push(order)?;
    }
    Ok(Pass { orders, has_new })
}

/// Whether a class has an order that had none before.
fn is_new(order: &Option<Rc<StoredMro>>, before: &Option<Rc<StoredMro>>) -> bool
    ensures { result ≡ (is_some (made_in order.now) && not (is_some (made_in before.now))) }
{
    order.is_some() && before.is_none()
}

/// The order that a class has, or else the one that it gets by those of its bases, if each has one.
fn kept_or_next(
    alloc: Global,
    class: usize,
    bases: &[Base],
    made: &[Option<Rc<StoredMro>>],
) -> Result<Option<Rc<StoredMro>>, AllocError>
    requires { class < length made.now }
    ensures { IfOk result (λ order. made_in order ≡ kept_or_next made.now class bases.now) }
{
    match &made[class] {
        Some(order) => Ok(Some(order.clone()?)),
        None => next_order(alloc, class, bases, made),
    }
}
