//! The entries of all classes: first the builtin ones, then those that are declared.

ghost use Rattle.std.specs.Prelude.{◌≡◌, IfOk, map};
ghost use Rattle.pyc_class_ids.specs.declared.builtin_class.BuiltinClass.{BuiltinClass as Class};
ghost use Rattle.pyc_class_table.specs.Entries as spec;
ghost use Rattle.pyc_class_table.specs.EntryView.{entry_in};

use crate::class_entry::{ClassEntry, WrittenBase};
use pyc_builtins::Builtins;
use pyc_class_ids::{BuiltinClass, ClassId, Lins};
use std::alloc::{AllocError, Global};

/// The builtin classes, by their numbers.
const BUILTIN_CLASSES: [BuiltinClass; 23] = [
    BuiltinClass::Object,
    BuiltinClass::Int,
    BuiltinClass::Float,
    BuiltinClass::Str,
    BuiltinClass::Bytes,
    BuiltinClass::List,
    BuiltinClass::Dict,
    BuiltinClass::Tuple,
    BuiltinClass::BaseException,
    BuiltinClass::Bool,
    BuiltinClass::Exception,
    BuiltinClass::LookupError,
    BuiltinClass::ArithmeticError,
    BuiltinClass::ValueError,
    BuiltinClass::TypeError,
    BuiltinClass::RuntimeError,
    BuiltinClass::AssertionError,
    BuiltinClass::KeyError,
    BuiltinClass::IndexError,
    BuiltinClass::ZeroDivisionError,
    BuiltinClass::OverflowError,
    BuiltinClass::NotImplementedError,
    BuiltinClass::RecursionError,
];

/// The entries of all classes, where these are declared. The only error is that memory runs out.
#[tactic(auto, unfolding(crate::specs::Entries::all_entries))]
pub(crate) fn all_entries(
    alloc: Global,
    builtins: &Builtins,
    declared: Vec<ClassEntry>,
) -> Result<Vec<ClassEntry>, AllocError>
    ensures { IfOk result (λ entries. map entry_in entries.items ≡ spec.all_entries (map entry_in declared.items)) }
{
    let mut entries = builtin_entries(alloc, builtins, &BUILTIN_CLASSES)?;
    for entry in declared {
        entries.push(with_object(entry)?)?;
    }
    Ok(entries)
}

/// The entries of builtin classes.
fn builtin_entries(
    alloc: Global,
    builtins: &Builtins,
    classes: &[BuiltinClass],
) -> Result<Vec<ClassEntry>, AllocError>
    ensures { IfOk result (λ entries. map entry_in entries.items ≡ map spec.builtin_entry classes.now) }
{
    let mut entries = Vec::with_capacity(alloc, classes.len())?;
    for class in classes {
        entries.push(builtin_entry(alloc, builtins, *class)?)?;
    }
    Ok(entries)
}

/// The entry of a builtin class: its base is the second class of its order, if there is one.
fn builtin_entry(
    alloc: Global,
    builtins: &Builtins,
    class: BuiltinClass,
) -> Result<ClassEntry, AllocError>
    ensures { IfOk result (λ entry. entry_in entry ≡ spec.builtin_entry class) }
{
    let id = ClassId::builtin(class);
    let mut bases = Vec::new(alloc);
    if let Some(base) = builtins.lin(&id).classes.get(1) {
        bases.push(WrittenBase::Class(base.clone()?))?;
    }
    Ok(ClassEntry {
        id,
        bases,
        has_call: false,
    })
}

/// A declared class with all its bases: `object`, where none is written. The only error is that memory runs out.
fn with_object(mut entry: ClassEntry) -> Result<ClassEntry, AllocError>
    ensures { IfOk result (λ all. entry_in all ≡ spec.with_object (entry_in entry)) }
{
    if entry.bases.is_empty() {
        entry
            .bases
            .push(WrittenBase::Class(ClassId::builtin(BuiltinClass::Object)))?;
    }
    Ok(entry)
}
