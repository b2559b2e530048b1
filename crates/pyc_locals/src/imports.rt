//! The names that imports bind.

ghost use Rattle.std.specs.Prelude.{◌≡◌, ◌++◌, ◌∷◌, [], map, OnOk};
ghost use Rattle.std.specs.List.{flat_map};
ghost use Rattle.pyc_ast.specs.StatementView.{imported_of, imported_module_of};
ghost use Rattle.pyc_locals.specs.AssignedPlaces as spec;

use pyc_ast::{Alias, ImportedModule, Text};
use pyc_places::{Place, name_place};
use std::alloc::{AllocError, Global};
use std::rc::Rc;

/// Adds a name.
pub(crate) fn push_name(
    alloc: Global,
    name: &Text,
    places: &mut Vec<Place>,
) -> Result<(), AllocError>
    ensures { OnOk result (places.new.items ≡ places.old.items ++ ((name.now ∷ []) ∷ [])) }
{
    places.push(name_place(alloc, name)?)?;
    Ok(())
}

/// Adds the names that imports of modules bind.
pub(crate) fn push_modules(
    alloc: Global,
    modules: &[Rc<ImportedModule>],
    places: &mut Vec<Place>,
) -> Result<(), AllocError>
    ensures { OnOk result (places.new.items
        ≡ places.old.items ++ flat_map spec.module_places (map imported_of modules.now)) }
{
    for imported in modules {
        push_module(alloc, imported, places)?;
    }
    Ok(())
}

/// Adds the name that the import of a module binds.
fn push_module(
    alloc: Global,
    imported: &ImportedModule,
    places: &mut Vec<Place>,
) -> Result<(), AllocError>
    ensures { OnOk result (places.new.items
        ≡ places.old.items ++ spec.module_places (imported_module_of imported.now)) }
{
    if let Some(alias) = &imported.alias {
        return push_name(alloc, alias, places);
    }
    match imported.path.first() {
        Some(first) => push_name(alloc, first, places),
        None => Ok(()),
    }
}

/// Adds the names that imports from a module bind.
pub(crate) fn push_aliases(
    alloc: Global,
    names: &[Alias],
    places: &mut Vec<Place>,
) -> Result<(), AllocError>
    ensures { OnOk result (places.new.items ≡ places.old.items ++ map spec.alias_place names.now) }
{
    for alias in names {
        push_alias(alloc, alias, places)?;
    }
    Ok(())
}

/// Adds the name that an import from a module binds.
fn push_alias(alloc: Global, alias: &Alias, places: &mut Vec<Place>) -> Result<(), AllocError>
    ensures { OnOk result (places.new.items ≡ places.old.items ++ (spec.alias_place alias.now ∷ [])) }
{
    match &alias.alias {
        Some(name) => push_name(alloc, name, places),
        None => push_name(alloc, &alias.name, places),
    }
}
