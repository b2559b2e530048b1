//! The classes that files declare, with the order of each.

ghost use Rattle.std.specs.Prelude.{◌≡◌, IfOk, map};
ghost use Rattle.pyc_class_ids.specs.Class.{Id};
ghost use Rattle.pyc_class_table.specs.ClassMros.{orders_of};
ghost use Rattle.pyc_class_table.specs.EntryView.{entry_in};
ghost use Rattle.pyc_class_table.specs.MroView.{orders_in};

use crate::class_entry::ClassEntry;
use crate::entries::all_entries;
use crate::numbered::{Numbers, number_of, numbered_table, numbers_of};
use crate::stored_order::{StoredMro, order_at, stored_orders};
use pyc_builtins::Builtins;
use pyc_class_ids::{ClassId, Lin, Lins};
use pyc_mro::MroTable;
use std::alloc::{AllocError, Global};

/// The classes that files declare and the builtin ones, with the order of each. No other class is known.
#[derive(Drop)]
pub struct ClassTable {
    builtins: Builtins,
    numbers: Numbers,
    orders: Vec<StoredMro>,
}

impl ClassTable {
    /// The table of these declared classes. The only error is that memory runs out.
    pub fn build(alloc: Global, declared: Vec<ClassEntry>) -> Result<ClassTable, AllocError>
        ensures { IfOk result (λ table. (class : Id)
            → orders_in table class ≡ orders_of (map entry_in declared.items) class) }
    {
        let builtins = Builtins::new(alloc)?;
        let entries = all_entries(alloc, &builtins, declared)?;
        let numbers = numbers_of(alloc, &entries)?;
        let table = numbered_table(alloc, &entries, &numbers)?;
        let orders = MroTable::build(alloc, &table)?;
        Ok(ClassTable {
            builtins,
            numbers,
            orders: stored_orders(alloc, &entries, &orders)?,
        })
    }
}

impl Lins for ClassTable {
    ghost orders = { orders_in };

    /// The order of a class. Takes no memory.
    fn lin(&self, class: &ClassId) -> Lin<'_> {
        match class.as_builtin() {
            Some(_) => self.builtins.lin(class),
            None => order_at(&self.orders, number_of(&self.numbers, class)),
        }
    }
}
