//! Classes by number: the place of each among all entries.

ghost use Rattle.std.specs.Prelude.{◌≡◌, IfOk, map};
ghost use Rattle.pyc_mro.specs.TableView.{table_in};
ghost use Rattle.pyc_class_table.specs.Numbers as spec;
ghost use Rattle.pyc_class_table.specs.EntryView.{entry_in};
ghost use Rattle.pyc_class_table.specs.NumberView.{numbers_in};

use crate::class_entry::{ClassEntry, WrittenBase};
use indexmap::IndexMap;
use pyc_class_ids::{BuiltinClass, ClassId, InstanceForm};
use pyc_mro::Base;
use std::alloc::{AllocError, Global};

/// The number of each class that has one.
pub(crate) type Numbers = IndexMap<ClassId, usize>;

/// The number of each class among entries, of which the first counts. The only error is that memory runs out.
pub(crate) fn numbers_of(alloc: Global, entries: &[ClassEntry]) -> Result<Numbers, AllocError>
    ensures { IfOk result (λ numbers. numbers_in numbers ≡ spec.number_in (map entry_in entries.now)) }
{
    let mut numbers = IndexMap::new(alloc);
    let mut left = entries.len();
    while left > 0 {
        left -= 1;
        let entry = &entries[left];
        numbers.insert(entry.id.clone()?, left)?;
    }
    Ok(numbers)
}

/// The bases of each class by number. The only error is that memory runs out.
pub(crate) fn numbered_table(
    alloc: Global,
    entries: &[ClassEntry],
    numbers: &Numbers,
) -> Result<Vec<Vec<Base>>, AllocError>
    ensures { IfOk result (λ table. table_in table.items
        ≡ spec.numbered_table (numbers_in numbers.now) (map entry_in entries.now)) }
{
    let mut table = Vec::with_capacity(alloc, entries.len())?;
    for entry in entries {
        table.push(numbered_bases(alloc, &entry.bases, numbers)?)?;
    }
    Ok(table)
}

/// Bases by number.
fn numbered_bases(
    alloc: Global,
    bases: &[WrittenBase],
    numbers: &Numbers,
) -> Result<Vec<Base>, AllocError>
    ensures { IfOk result (λ found. found.items ≡ map (spec.numbered_base (numbers_in numbers.now)) bases.now) }
{
    let mut found = Vec::with_capacity(alloc, bases.len())?;
    for base in bases {
        found.push(numbered_base(base, numbers))?;
    }
    Ok(found)
}

/// A base by number.
fn numbered_base(base: &WrittenBase, numbers: &Numbers) -> Base
    ensures { result ≡ spec.numbered_base (numbers_in numbers.now) base.now }
{
    match base {
        WrittenBase::Class(class) => base_by(class.instance_form(), number_of(numbers, class)),
        WrittenBase::Unknown => Base::Unknown,
    }
}

/// A class as a base, by the form of its instances and its number.
fn base_by(form: InstanceForm, number: Option<usize>) -> Base
    ensures { result ≡ spec.base_by form number }
{
    match (form, number) {
        (InstanceForm::Plain, Some(number)) => Base::Class(number),
        _ => Base::Unknown,
    }
}

/// The number of a class. Takes no memory.
pub(crate) fn number_of(numbers: &Numbers, class: &ClassId) -> Option<usize>
    ensures { result ≡ numbers_in numbers.now class.now }
{
    numbers.get(class).copied()
}

/// The class of a number. The only error is a full count of those that share its name.
pub(crate) fn id_at(entries: &[ClassEntry], number: usize) -> Result<ClassId, AllocError>
    ensures { IfOk result (λ class. class ≡ spec.id_at (map entry_in entries.now) number) }
{
    match entries.get(number) {
        Some(entry) => entry.id.clone(),
        None => Ok(ClassId::builtin(BuiltinClass::Object)),
    }
}

/// Whether the class of a number has a member `__call__` of its own.
pub(crate) fn has_call_at(entries: &[ClassEntry], number: usize) -> bool
    ensures { result ≡ spec.has_call_at (map entry_in entries.now) number }
{
    match entries.get(number) {
        Some(entry) => entry.has_call,
        None => false,
    }
}
