//! The classes that files declare, and what was looked at for them.

ghost use Rattle.std.specs.Prelude.{◌≡◌, IfOk};
ghost use Rattle.pyc_class_ids.specs.Class.{Id};
ghost use Rattle.pyc_class_table.specs.MroView.{orders_in};
ghost use Rattle.pyc_declarations.specs.Looks.{entries_looks};
ghost use Rattle.pyc_iface.specs.Answers.{orders_by};
ghost use Rattle.pyc_iface.specs.Flags.{flag_at};
ghost use Rattle.pyc_names.specs.NotedLooks.{nothing_noted, with_looks};
ghost use Rattle.pyc_names.specs.NotedLooksView.{noted_in};
ghost use Rattle.pyc_names.specs.TableView.{table_in};

use crate::flags::Flags;
use pyc_class_table::ClassTable;
use pyc_declarations::Declarations;
use pyc_names::{Looks, Table};
use std::alloc::{AllocError, Global};

/// The classes that files declare, with their orders, and what was noted of what was looked at for them.
#[derive(Drop)]
pub(crate) struct LookedClasses {
    pub(crate) table: ClassTable,
    looks: Looks,
}

impl LookedClasses {
    /// The classes that the files of a table declare. The only error is that memory runs out.
    #[tactic(auto, unfolding(crate::specs::Answers::orders_by))]
    pub(crate) fn build(alloc: Global, table: &Table) -> Result<LookedClasses, AllocError>
        ensures orders { IfOk result (λ classes. (c : Id)
            → orders_in classes.table c ≡ orders_by (table_in table.now) c) }
        ensures looks { IfOk result (λ classes. noted_in classes.looks
            ≡ with_looks nothing_noted (entries_looks (table_in table.now))) }
    {
        let mut looks = Looks::new(alloc);
        let entries = Declarations::new(table).class_entries(alloc, &mut looks)?;
        let table = ClassTable::build(alloc, entries)?;
        Ok(LookedClasses { table, looks })
    }

    /// Whether something flagged was looked at.
    #[tactic(auto, using(crate::proofs::FlagLemmas::noted_numbers, crate::proofs::FlagLemmas::noted_all))]
    pub(crate) fn is_flagged(&self, flags: &Flags) -> bool
        ensures { result ≡ noted_in self.now.looks (flag_at flags.now) }
    {
        match self.looks.numbers() {
            Some(numbers) => flags.is_any(numbers),
            None => true,
        }
    }
}
