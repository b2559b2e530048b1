//! The modules that files name or lie under.

ghost use Rattle.std.specs.Prelude.{◌≡◌, ◌||◌, ℕ, List, map, IfOk, OnOk};
ghost use Rattle.std.specs.List.{list_any};
ghost use Rattle.indexmap.specs.IndexSet.{contains_by};
ghost use Rattle.pyc_names.specs.ModuleName.{same_module};
ghost use Rattle.pyc_names.specs.Presence.{is_within};
ghost use Rattle.pyc_names.specs.InterfaceView.{interfaces_in};

use crate::imports::module_of_parts;
use crate::interface::Interface;
use indexmap::IndexSet;
use pyc_ast::Text;
use std::alloc::{AllocError, Global};
use std::rc::Rc;

/// The modules that files name or lie under, by their parts. The only error is that memory runs out.
pub(crate) fn outer_modules(
    alloc: Global,
    files: &[Rc<Interface>],
) -> Result<IndexSet<Vec<Text>>, AllocError>
    ensures { IfOk result (λ outer. (m : List (List ℕ)) → contains_by (λ parts. same_module m parts.items) outer
        ≡ list_any (is_within m) (map (λ file. file.name) (interfaces_in files.now))) }
{
    let mut outer = IndexSet::new(alloc);
    for file in files {
        insert_prefixes(alloc, &mut outer, file.name().parts())?;
    }
    Ok(outer)
}

/// Inserts each module that the one with these parts is or lies under, the root too.
fn insert_prefixes(
    alloc: Global,
    outer: &mut IndexSet<Vec<Text>>,
    parts: &[Text],
) -> Result<(), AllocError>
    ensures { OnOk result ((m : List (List ℕ)) → contains_by (λ parts. same_module m parts.items) outer.new
        ≡ (contains_by (λ parts. same_module m parts.items) outer.old || is_within m parts.now)) }
{
    for count in 0..parts.len() + 1 {
        insert_module(alloc, outer, &parts[..count])?;
    }
    Ok(())
}

/// Inserts the module with these parts, where it is not there yet.
fn insert_module(
    alloc: Global,
    outer: &mut IndexSet<Vec<Text>>,
    parts: &[Text],
) -> Result<(), AllocError>
    ensures { OnOk result ((m : List (List ℕ)) → contains_by (λ parts. same_module m parts.items) outer.new
        ≡ (contains_by (λ parts. same_module m parts.items) outer.old || same_module m parts.now)) }
{
    if outer.contains(parts) {
        return Ok(());
    }
    let name = module_of_parts(alloc, &[], parts)?;
    outer.insert(name.parts)?;
    Ok(())
}
