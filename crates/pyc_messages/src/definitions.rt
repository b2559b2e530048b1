//! The texts on imports, on names that are defined again, and on names that are not there.

ghost use Rattle.std.specs.Prelude.{◌≡◌, IfOk, string_bytes};
ghost use Rattle.pyc_messages.specs.Definitions as spec;

use std::alloc::{AllocError, Global};

/// The text on a module that is not there, as the import shows it, with the code `import-not-found`. The only error is
/// that memory runs out.
#[tactic(auto, unfolding(crate::specs::Definitions::missing_module_text))]
pub fn missing_module_text(alloc: Global, shown: &str) -> Result<String, AllocError>
    ensures { IfOk result (λ text. string_bytes text ≡ spec.missing_module_text shown.now) }
{
    format!(in alloc; "Cannot find implementation or library stub for module named \"{shown}\"")
}

/// The text on a name that is imported from a module, which does not have it, with the code `attr-defined`. The only
/// error is that memory runs out.
#[tactic(auto, unfolding(crate::specs::Definitions::no_imported_name_text))]
pub fn no_imported_name_text(alloc: Global, shown: &str, name: &str) -> Result<String, AllocError>
    ensures { IfOk result (λ text. string_bytes text ≡ spec.no_imported_name_text shown.now name.now) }
{
    format!(in alloc; "Module \"{shown}\" has no attribute \"{name}\"")
}

/// The text on an imported name that comes back to itself, from import to import, with the code `misc`. The only error
/// is that memory runs out.
#[tactic(auto, unfolding(crate::specs::Definitions::import_cycle_text))]
pub fn import_cycle_text(alloc: Global, name: &str) -> Result<String, AllocError>
    ensures { IfOk result (λ text. string_bytes text ≡ spec.import_cycle_text name.now) }
{
    format!(in alloc; "Cannot resolve name \"{name}\" (possible cyclic definition)")
}

/// The text on a name that is defined again, by the line of its declaration, with the code `no-redef`. The only error
/// is that memory runs out.
#[tactic(auto, unfolding(crate::specs::Definitions::redefinition_text))]
pub fn redefinition_text(alloc: Global, name: &str, line: u32) -> Result<String, AllocError>
    ensures { IfOk result (λ text. string_bytes text ≡ spec.redefinition_text name.now line) }
{
    format!(in alloc; "Name \"{name}\" already defined on line {line}")
}

/// The text on a name that nothing defines, with the code `name-defined`. The only error is that memory runs out.
#[tactic(auto, unfolding(crate::specs::Definitions::not_defined_text))]
pub fn not_defined_text(alloc: Global, name: &str) -> Result<String, AllocError>
    ensures { IfOk result (λ text. string_bytes text ≡ spec.not_defined_text name.now) }
{
    format!(in alloc; "Name \"{name}\" is not defined")
}

/// The text on an attribute that a module does not have, with the code `attr-defined`. The only error is that memory
/// runs out.
#[tactic(auto, unfolding(crate::specs::Definitions::no_module_attribute_text))]
pub fn no_module_attribute_text(alloc: Global, name: &str) -> Result<String, AllocError>
    ensures { IfOk result (λ text. string_bytes text ≡ spec.no_module_attribute_text name.now) }
{
    format!(in alloc; "Module has no attribute \"{name}\"")
}
